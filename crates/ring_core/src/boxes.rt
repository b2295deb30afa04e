//! Boxes round runs of a ring's edges.

ghost use Rattle.std.specs.Prelude.{◌⊎◌, ◌<◌, pos, ◌<ℤ◌, ◌≤ℤ◌, IsTrue, length};
ghost use Rattle.geo_exact.specs.declared.corner.Corner.{Corner as CornerValue};
ghost use Rattle.geo_exact.specs.Bounds.{HoldsCorner, IsBeyondBox, IsLeastBox};
ghost use Rattle.geo_exact.specs.Point.{Point};
ghost use Rattle.geo_exact.specs.Turn.{turn as turn_of};
ghost use Rattle.ring_core.specs.Boxes.{HoldsTriangle};
ghost use Rattle.ring_core.specs.Clipping.{IsInTriangle};

use crate::triangle::Tri;
use geo_exact::{Bounds, Corner, turn};

/// The least box that holds a triangle.
pub fn bounds_of(triangle: &Tri) -> Bounds
    ensures { HoldsTriangle result triangle.now }
{
    let edge = Bounds::of_corner(triangle.a).around(Bounds::of_corner(triangle.b));
    edge.around(Bounds::of_corner(triangle.c))
}

/// The least box of a ring's corners.
pub fn bounds_of_ring(corners: &[Corner]) -> Bounds
    requires { 0 < length corners.now }
    ensures { IsLeastBox result corners.now }
{
    let mut bounds = Bounds::of_corner(corners[0]);
    for corner in corners {
        bounds = bounds.around(Bounds::of_corner(*corner));
    }
    bounds
}

/// Whether a box lies wholly left of another, right of it, below it or above it.
pub fn are_apart(one: Bounds, other: Bounds) -> bool
    ensures { IsTrue result → (p : Point) → IsBeyondBox p one ⊎ IsBeyondBox p other }
{
    if one.high.x < other.low.x {
        return true;
    }
    if other.high.x < one.low.x {
        return true;
    }
    one.high.y < other.low.y || other.high.y < one.low.y
}

/// The corner of a box that lies farthest to the left of the way from `a` to `b`.
fn leftmost(bounds: Bounds, a: Corner, b: Corner) -> Corner
    ensures { (q : CornerValue) → HoldsCorner bounds q → turn_of a b q ≤ℤ turn_of a b result }
{
    let low = bounds.low;
    let high = bounds.high;
    if b.y >= a.y {
        if b.x >= a.x {
            return Corner {
                x: low.x,
                y: high.y,
            };
        }
        return low;
    }
    if b.x >= a.x {
        return high;
    }
    Corner {
        x: high.x,
        y: low.y,
    }
}

/// Whether a box lies wholly on the right of the way from `a` to `b`.
fn is_on_right(bounds: Bounds, a: Corner, b: Corner) -> bool
    ensures { IsTrue result → (q : CornerValue) → HoldsCorner bounds q → turn_of a b q <ℤ pos 0 }
{
    turn(a, b, leftmost(bounds, a, b)) < 0
}

/// Whether a box lies wholly on the right of one edge of a triangle.
pub fn is_right_of_one(bounds: Bounds, triangle: Tri) -> bool
    ensures { IsTrue result → (q : CornerValue) → HoldsCorner bounds q
        → ¬ IsInTriangle q triangle.a triangle.b triangle.c }
{
    if is_on_right(bounds, triangle.b, triangle.c) {
        return true;
    }
    if is_on_right(bounds, triangle.c, triangle.a) {
        return true;
    }
    is_on_right(bounds, triangle.a, triangle.b)
}
