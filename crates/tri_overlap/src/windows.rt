//! Windows: boxes in which alone two shapes can meet.

ghost use Rattle.std.specs.Prelude.{◌≡◌, ◌*ℤ◌, ◌<ℤ◌, ◌≤ℤ◌, IsTrue};
ghost use Rattle.geo_exact.specs.Point.{Point};
ghost use Rattle.geo_exact.specs.Turn.{turn as turn_of, turn_at};
ghost use Rattle.geo_exact.specs.Winding.{IsInterior};
ghost use Rattle.ring_core.specs.Sums.{triangle_ring};
ghost use Rattle.geo_exact.specs.Bounds.{IsInsideBox};
ghost use Rattle.tri_overlap.specs.own.Bounding.{InSome, IsRightOf, IsRightOfSome};

use geo_exact::{Bounds, Corner, turn};
use ring_core::{Tri, bounds_of};

/// Of the two ends of a range, the one that lies ahead on a way from `from` to `to`: `high` where
/// the way does not fall.
fn ahead(from: i64, to: i64, low: i64, high: i64) -> i64
    ensures rising { from ≤ℤ to → result ≡ high }
    ensures falling { to <ℤ from → result ≡ low }
{
    if from <= to { high } else { low }
}

/// The corner of the box that is farthest to the left of the way from one corner to another.
fn farthest_left(bounds: Bounds, from: Corner, to: Corner) -> Corner
    ensures { (p : Point) → IsInsideBox p bounds → turn_at from to p ≤ℤ (turn_of from to result *ℤ p.d) }
{
    Corner {
        x: ahead(from.y, to.y, bounds.high.x, bounds.low.x),
        y: ahead(from.x, to.x, bounds.low.y, bounds.high.y),
    }
}

/// Whether the farthest corner shows that nothing in the box is left of the way from one corner to another.
fn is_right(bounds: Bounds, from: Corner, to: Corner) -> bool
    ensures { IsTrue result → IsRightOf bounds from to }
{
    turn(from, to, farthest_left(bounds, from, to)) <= 0
}

/// Whether some edge of the triangle shows that nothing in the box is inside the triangle.
fn misses(triangle: &Tri, bounds: Bounds) -> bool
    ensures { IsTrue result → IsRightOfSome bounds triangle.now }
{
    is_right(bounds, triangle.a, triangle.b)
        || is_right(bounds, triangle.b, triangle.c)
        || is_right(bounds, triangle.c, triangle.a)
}

/// The box, widened to what the triangle has in the window.
fn widened(bounds: Bounds, window: Bounds, triangle: &Tri) -> Bounds
    ensures kept { (p : Point) → IsInsideBox p bounds → IsInsideBox p result }
    ensures added { (p : Point) → IsInterior p (triangle_ring triangle.now) → IsInsideBox p window
        → IsInsideBox p result }
{
    let own = bounds_of(triangle);
    if window.is_wider(own) {
        return bounds.around(own);
    }
    let part = window.common(own);
    if part.is_empty() || bounds.is_wider(part) || misses(triangle, part) {
        return bounds;
    }
    bounds.around(part)
}

/// A box round all that the triangles have in the window.
pub fn narrowed(window: Bounds, triangles: &[Tri]) -> Bounds
    ensures { (p : Point) → InSome p triangles.now → IsInsideBox p window → IsInsideBox p result }
{
    let mut bounds = Bounds::nowhere();
    for triangle in triangles {
        bounds = widened(bounds, window, triangle);
    }
    bounds
}
