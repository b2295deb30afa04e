//! Whether the interiors of two shapes have a common point.

ghost use Rattle.std.specs.Prelude.{◌↔◌, IsTrue};
ghost use Rattle.geo_exact.specs.Interiors.{InteriorsMeet};
ghost use Rattle.tri_overlap.specs.own.Bounding.{HoldsCommon, HoldsMeetings};
ghost use Rattle.tri_overlap.specs.own.Pairs.{MeetsSome, SomePairMeets};

use crate::triangles::meet_in_box;
use crate::windows::narrowed;
use geo_exact::Bounds;
use ring_core::{Shape, Tri, bounds_of};
use std::alloc::Allocator;

/// Where either list has so few triangles, each pair is tried: to halve such a list takes longer than it spares.
const FEW: usize = 8;

/// Whether the triangle's interior meets that of some triangle of the list; the window has all such points.
fn meets_some(window: Bounds, triangle: &Tri, others: &[Tri]) -> bool
    requires { HoldsMeetings window triangle.now others.now }
    ensures { IsTrue result ↔ MeetsSome triangle.now others.now }
{
    let bounds = window.common(bounds_of(triangle));
    if bounds.is_empty() {
        return false;
    }
    for other in others {
        if meet_in_box(triangle, bounds, other) {
            return true;
        }
    }
    false
}

/// Whether some triangle of the first list has an interior that meets that of some triangle of the second;
/// the window has all such points.
fn some_pair_meets(window: Bounds, first: &[Tri], second: &[Tri]) -> bool
    requires { HoldsCommon window first.now second.now }
    ensures { IsTrue result ↔ SomePairMeets first.now second.now }
{
    for triangle in first {
        if meets_some(window, triangle, second) {
            return true;
        }
    }
    false
}

/// The same, of long lists.
///
/// The window is narrowed to what the first list has in it, and the second list is halved. Each
/// half then takes the first list's place, so that both are halved in turn; where they only touch,
/// the window is soon empty.
fn meet_within(window: Bounds, first: &[Tri], second: &[Tri]) -> bool
    requires { HoldsCommon window first.now second.now }
    ensures { IsTrue result ↔ SomePairMeets first.now second.now }
{
    if first.len() <= FEW || second.len() <= FEW {
        return some_pair_meets(window, first, second);
    }
    let part = narrowed(window, first);
    if part.is_empty() {
        return false;
    }
    let (front, back) = second.split_at(second.len() / 2);
    meet_within(part, front, first) || meet_within(part, back, first)
}

/// Whether the interiors of two shapes have a common point, with fractions: the first entry of the
/// nine-intersection matrix (OGC 06-103r4, 6.1.15.2). Touching is no overlap; it takes no memory.
///
/// Shapes whose boxes are apart are told so at once. Else the lists of triangles are halved and
/// halved again, and parts that have no point in common are left out. At worst, where nearly all
/// boxes meet, the time grows with the product of the numbers of triangles.
///
/// ```
/// if shapes_overlap(&parcel, &zone) {
///     pairs.push((id, number))?;
/// }
/// ```
pub fn shapes_overlap<A: Allocator, B: Allocator>(first: &Shape<A>, second: &Shape<B>) -> bool
    ensures { IsTrue result ↔ InteriorsMeet first.now.ring.corners second.now.ring.corners }
{
    if first.bounds.is_apart(second.bounds) {
        return false;
    }
    let window = first.bounds.common(second.bounds);
    meet_within(
        window,
        first.triangles.as_slice(),
        second.triangles.as_slice(),
    )
}
