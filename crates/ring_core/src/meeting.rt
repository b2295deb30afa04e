//! Whether two edges meet.

ghost use Rattle.std.specs.Prelude.{◌≡◌, ◌↔◌, ◌⊎◌, ◌<ℤ◌, pos, int_le, ◌&&◌, IsTrue};
ghost use Rattle.std.specs.Int.{int_max, int_min};
ghost use Rattle.geo_exact.specs.Bounds.{EdgeBoxesMeet};
ghost use Rattle.geo_exact.specs.declared.corner.Corner.{Corner as CornerValue};
ghost use Rattle.geo_exact.specs.Point.{IsPlaceOf, corner_point};
ghost use Rattle.geo_exact.specs.Turn.{IsOnEdge, turn as turn_of};
ghost use Rattle.ring_core.specs.own.EdgePairs.{DoublesBack, HaveCommonPoint, IsEdgeBox};

use geo_exact::{Bounds, Corner, on_segment, turn};

/// Whether both numbers are above 0, or both below it.
fn have_one_sign(first: i128, second: i128) -> bool
    ensures { IsTrue result
        ↔ (((pos 0 <ℤ first) × (pos 0 <ℤ second)) ⊎ ((first <ℤ pos 0) × (second <ℤ pos 0))) }
{
    if first > 0 {
        second > 0
    } else {
        first < 0 && second < 0
    }
}

/// Whether `c` and `d` are both left of the way from `a` to `b`, or both right of it.
fn are_on_one_side(a: Corner, b: Corner, c: Corner, d: Corner) -> bool
    ensures { IsTrue result
        ↔ (((pos 0 <ℤ turn_of a b c) × (pos 0 <ℤ turn_of a b d))
        ⊎ ((turn_of a b c <ℤ pos 0) × (turn_of a b d <ℤ pos 0))) }
{
    have_one_sign(turn(a, b, c), turn(a, b, d))
}

/// The least box that holds the edge from `a` to `b`.
pub fn edge_box(a: Corner, b: Corner) -> Bounds
    ensures { IsEdgeBox result a b }
{
    Bounds::of_corner(a).around(Bounds::of_corner(b))
}

/// Whether the range from `low` to `high` has a number between `s` and `t`, all ends included.
fn is_reached(low: i64, high: i64, s: i64, t: i64) -> bool
    ensures { result ≡ (int_le low (int_max s t) && int_le (int_min s t) high) }
{
    low <= s.max(t) && s.min(t) <= high
}

/// Whether the box of one edge has a point in common with that of the edge from `c` to `d`.
pub fn box_meets(bounds: Bounds, c: Corner, d: Corner) -> bool
    ensures { (a b : CornerValue) → IsEdgeBox bounds a b → IsTrue result ↔ EdgeBoxesMeet a b c d }
{
    is_reached(bounds.low.x, bounds.high.x, c.x, d.x)
        && is_reached(bounds.low.y, bounds.high.y, c.y, d.y)
}

/// Whether some point lies on the edge from `a` to `b` and on the edge from `c` to `d`, whose boxes meet.
pub fn have_common_point(a: Corner, b: Corner, c: Corner, d: Corner) -> bool
    requires { EdgeBoxesMeet a b c d }
    ensures { IsTrue result ↔ HaveCommonPoint a b c d }
{
    if are_on_one_side(a, b, c, d) {
        return false;
    }
    !are_on_one_side(c, d, a, b)
}

/// Whether both corners are at one point.
fn are_same(a: Corner, b: Corner) -> bool
    ensures { IsTrue result ↔ IsPlaceOf (corner_point a) b }
{
    a.x == b.x && a.y == b.y
}

/// Whether `p` lies on the edge from `a` to `b`, and not at `b`.
fn is_short_of_end(a: Corner, b: Corner, p: Corner) -> bool
    ensures { IsTrue result ↔ (IsOnEdge (corner_point p) a b × (¬ IsPlaceOf (corner_point p) b)) }
{
    if are_same(p, b) {
        return false;
    }
    on_segment(a, b, p)
}

/// Whether the edges from `a` to `b` and from `b` to `c` have a common point other than `b`.
pub fn doubles_back(a: Corner, b: Corner, c: Corner) -> bool
    ensures { IsTrue result ↔ DoublesBack a b c }
{
    if is_short_of_end(a, b, c) {
        return true;
    }
    is_short_of_end(c, b, a)
}
