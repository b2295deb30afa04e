//! Whether a corner is an ear.

ghost use Rattle.std.specs.Prelude.{◌≡◌, ◌↔◌, ◌<◌, pos, ◌<ℤ◌, ◌≤ℤ◌, IsTrue, length};
ghost use Rattle.geo_exact.specs.Turn.{turn as turn_of};
ghost use Rattle.geo_exact.specs.Places.{corner_at};
ghost use Rattle.ring_core.specs.Clipping.{IsFlat, IsInTriangle, IsTriangleAt, next, previous};

use crate::places::{following, preceding};
use crate::triangle::Tri;
use geo_exact::{Corner, on_segment, turn};

/// The corner before corner `k`.
pub fn corner_before(rest: &[Corner], k: usize) -> Corner
    requires { k < length rest.now }
    ensures { result ≡ previous rest.now k }
{
    rest[preceding(rest.len(), k)]
}

/// The corner after corner `k`.
pub fn corner_after(rest: &[Corner], k: usize) -> Corner
    requires { k < length rest.now }
    ensures { result ≡ next rest.now k }
{
    rest[following(rest.len(), k)]
}

/// Whether corner `k` lies on the edge between its two neighbours.
pub fn is_flat(rest: &[Corner], k: usize) -> bool
    requires { k < length rest.now }
    ensures { IsTrue result ↔ IsFlat rest.now k }
{
    on_segment(corner_before(rest, k), corner_after(rest, k), rest[k])
}

/// Whether `c` is left of the way from `a` to `b`.
pub fn is_left(a: Corner, b: Corner, c: Corner) -> bool
    ensures { IsTrue result ↔ (pos 0 <ℤ turn_of a b c) }
{
    turn(a, b, c) > 0
}

/// Whether `c` is left of the way from `a` to `b`, or on its line.
fn is_not_right(a: Corner, b: Corner, c: Corner) -> bool
    ensures { IsTrue result ↔ (pos 0 ≤ℤ turn_of a b c) }
{
    turn(a, b, c) >= 0
}

/// Whether `q` lies in the closed triangle `a`, `b`, `c` of positive turn.
pub fn is_in_triangle(q: Corner, a: Corner, b: Corner, c: Corner) -> bool
    ensures { IsTrue result ↔ IsInTriangle q a b c }
{
    if !is_not_right(a, b, q) {
        return false;
    }
    if !is_not_right(b, c, q) {
        return false;
    }
    is_not_right(c, a, q)
}

/// The triangle of corner `k` and its neighbours.
pub fn triangle_at(rest: &[Corner], k: usize) -> Tri
    requires in_rest { k < length rest.now }
    requires turns_left { pos 0 <ℤ turn_of (previous rest.now k) (corner_at rest.now k) (next rest.now k) }
    ensures { IsTriangleAt rest.now k result }
{
    Tri {
        a: corner_before(rest, k),
        b: rest[k],
        c: corner_after(rest, k),
    }
}
