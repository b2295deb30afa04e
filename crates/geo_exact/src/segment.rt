//! Whether a corner lies on an edge.

ghost use Rattle.std.specs.Prelude.{◌↔◌, ◌≤ℤ◌, IsTrue};
ghost use Rattle.std.specs.Int.{int_max, int_min};
ghost use Rattle.geo_exact.specs.Point.{corner_point};
ghost use Rattle.geo_exact.specs.Turn.{IsOnEdge};

use crate::corner::Corner;
use crate::orientation::turn;

/// Whether `w` lies between `u` and `v`, in either order, both included.
fn is_between(u: i64, v: i64, w: i64) -> bool
    ensures { IsTrue result ↔ ((int_min u v ≤ℤ w) × (w ≤ℤ int_max u v)) }
{
    if u <= v {
        u <= w && w <= v
    } else {
        v <= w && w <= u
    }
}

/// Whether the corner `p` lies on the edge from `a` to `b`, the ends included.
///
/// An edge whose ends are equal has that one point.
///
/// ```
/// // (30, 0) lies on the edge from (0, 0) to (60, 0), and (61, 0) does not.
/// assert!(on_segment(a, b, p));
/// ```
pub fn on_segment(a: Corner, b: Corner, p: Corner) -> bool
    ensures { IsTrue result ↔ IsOnEdge (corner_point p) a b }
{
    if !is_between(a.x, b.x, p.x) {
        return false;
    }
    if !is_between(a.y, b.y, p.y) {
        return false;
    }
    turn(a, b, p) == 0
}
