//! Leaning boxes round blocks of a ring's edges.

ghost use Rattle.std.specs.Prelude.{ℕ, ◌<◌, ◌≤◌, ◌<ℤ◌, IsTrue, length};
ghost use Rattle.geo_exact.specs.declared.corner.Corner.{Corner as CornerValue};
ghost use Rattle.geo_exact.specs.Places.{after, corner_at};
ghost use Rattle.ring_core.specs.Boxes.{HoldsTriangle};
ghost use Rattle.ring_core.specs.Clipping.{IsInTriangle};
ghost use Rattle.leaning_boxes.specs.Leaning.{IsHeld};

use crate::boxes::{are_apart, is_right_of_one};
use crate::places::following;
use crate::triangle::Tri;
use geo_exact::{Bounds, Corner, turn};
use leaning_boxes::{LeaningBox, reach};

/// How many edges are looked at together. A box of sixteen edges of a spiral would hold half a turn.
pub const BLOCK_EDGES: usize = 8;

/// Whether the other numbers are below the first.
fn are_below(low: i128, s: i128, t: i128, u: i128) -> bool
    ensures { IsTrue result → (s <ℤ low) × (t <ℤ low) × (u <ℤ low) }
{
    s < low && t < low && u < low
}

/// Whether the other numbers are above the first.
fn are_above(high: i128, s: i128, t: i128, u: i128) -> bool
    ensures { IsTrue result → (high <ℤ s) × (high <ℤ t) × (high <ℤ u) }
{
    s > high && t > high && u > high
}

/// Of the edges from number `start` on and before `end`, one that goes farthest.
fn longest_edge(ring: &[Corner], start: usize, end: usize) -> usize
    requires some { start < end }
    requires in_ring { end ≤ length ring.now }
    ensures { result < length ring.now }
{
    let mut longest = start;
    let mut most = 0;
    for i in start..end {
        let far = reach(ring[i], ring[following(ring.len(), i)]);
        if far > most {
            most = far;
            longest = i;
        }
    }
    longest
}

/// A leaning box of the edges from number `start` on and before `end`, along the longest.
pub fn box_of_edges(ring: &[Corner], start: usize, end: usize) -> LeaningBox
    requires some { start < end }
    requires in_ring { end ≤ length ring.now }
    ensures { (i : ℕ) → start ≤ i → i < end
        → IsHeld result (corner_at ring.now i) × IsHeld result (corner_at ring.now (after (length ring.now) i)) }
{
    let long = longest_edge(ring, start, end);
    let mut held = LeaningBox::of_corner(
        ring[long],
        ring[following(ring.len(), long)],
        ring[start],
    );
    for i in start..end {
        held = held.around(ring[following(ring.len(), i)]);
    }
    held
}

/// Whether a triangle, which `bounds` holds, lies beyond one side of a leaning box, or, where it is looked at
/// closely, the box beyond one of its.
pub fn misses_triangle(held: LeaningBox, triangle: Tri, bounds: Bounds, closely: bool) -> bool
    requires { HoldsTriangle bounds triangle }
    ensures { IsTrue result → (q : CornerValue) → IsHeld held q → ¬ IsInTriangle q triangle.a triangle.b triangle.c }
{
    if are_apart(bounds, held.bounds) {
        return true;
    }
    let s = turn(held.from, held.to, triangle.a);
    let t = turn(held.from, held.to, triangle.b);
    let u = turn(held.from, held.to, triangle.c);
    if are_below(held.low, s, t, u) {
        return true;
    }
    if are_above(held.high, s, t, u) {
        return true;
    }
    closely && is_right_of_one(held.bounds, triangle)
}
