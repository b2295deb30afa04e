//! Whether a ring is folded over itself, by its triangles.

ghost use Rattle.std.specs.Prelude.{◌<◌, ℕ, length, MatchOption};
ghost use Rattle.tri_overlap.specs.Folding.{HasNoOverlap, IsFirstOverlap, OverlapAt};

use crate::triangles::meet_in_box;
use ring_core::{Shape, Tri, bounds_of};
use std::alloc::Allocator;

/// The first triangle after triangle `i` of the list that overlaps it.
fn first_overlap_with(triangles: &[Tri], i: usize) -> Option<usize>
    requires { i < length triangles.now }
    ensures { MatchOption result
        ((j : ℕ) → i < j → ¬ OverlapAt triangles.now i j)
        (λ j. (i < j) × OverlapAt triangles.now i j
        × ((l : ℕ) → i < l → l < j → ¬ OverlapAt triangles.now i l)) }
{
    let triangle = triangles[i];
    let bounds = bounds_of(&triangle);
    for j in i + 1..triangles.len() {
        if meet_in_box(&triangle, bounds, &triangles[j]) {
            return Some(j);
        }
    }
    None
}

/// The first two triangles of a list that overlap, by the first's number and then by the second's.
pub fn first_overlap(triangles: &[Tri]) -> Option<(usize, usize)>
    ensures { MatchOption result
        (HasNoOverlap triangles.now)
        (λ pair. IsFirstOverlap triangles.now pair.0 pair.1) }
{
    for i in 0..triangles.len() {
        if let Some(j) = first_overlap_with(triangles, i) {
            return Some((i, j));
        }
    }
    None
}

/// The first two triangles of a shape that overlap, by the first's number and then by the second's,
/// from 0; none where no two do. It takes no memory.
///
/// The time grows with the square of the number of triangles.
///
/// ```
/// assert_eq!(folded(&shape), None); // no two of its triangles overlap
/// ```
pub fn folded<A: Allocator>(shape: &Shape<A>) -> Option<(usize, usize)>
    ensures { MatchOption result
        (HasNoOverlap shape.now.triangles)
        (λ pair. IsFirstOverlap shape.now.triangles pair.0 pair.1) }
{
    first_overlap(shape.triangles.as_slice())
}
