//! Which corners a box shows to lie strictly inside an edge, or not to.
ghost use Rattle.std.specs.Prelude.{◌≡◌, pos, ◌-ℤ◌, int_le, ◌&&◌, IsTrue, false, not};
ghost use Rattle.std.specs.Ordering.{int_eq};
ghost use Rattle.geo_exact.specs.Limit.{IsWithin, limit};
ghost use Rattle.geo_exact.specs.Bounds.{HoldsCorner, holds_corner, is_from_to as from_to};
ghost use Rattle.geo_exact.specs.Order.{is_same};
ghost use Rattle.geo_exact.specs.Turn.{turn as turn_of};
ghost use Rattle.edge_chains.specs.own.Inside.{is_between, is_strictly_inside as strictly_inside};

use geo_exact::{Bounds, Corner, edge_boxes_meet, turn, wide_product};
use leaning_boxes::ranges_are_apart;

/// Whether the box has both ends of an edge, and so what lies strictly inside it.
pub(crate) fn covers(bounds: Bounds, a: Corner, b: Corner) -> bool
    ensures { IsTrue result → (c : Corner) → IsTrue (strictly_inside c a b) → IsTrue (holds_corner bounds c) }
{
    bounds.holds(a) && bounds.holds(b)
}

/// Whether the two boxes don't meet.
pub(crate) fn are_disjoint(one: Bounds, other: Bounds) -> bool
    ensures { IsTrue result → (c : Corner) → HoldsCorner one c → holds_corner other c ≡ false }
{
    !may_meet(one, other)
}

/// Whether the two boxes meet, with one branch taken for all sides.
fn may_meet(one: Bounds, other: Bounds) -> bool
    ensures { (c : Corner) → HoldsCorner one c → HoldsCorner other c → IsTrue result }
{
    is_at_most(one.low.x, other.high.x)
        & is_at_most(other.low.x, one.high.x)
        & is_at_most(one.low.y, other.high.y)
        & is_at_most(other.low.y, one.high.y)
}

/// Whether it is seen at once that no corner in the box lies strictly inside the edge from a to b.
///
/// The box of an edge along an axis is the edge itself: nothing more is to be seen where it meets this one.
pub(crate) fn misses(bounds: Bounds, a: Corner, b: Corner) -> bool
    ensures { IsTrue result → (c : Corner) → HoldsCorner bounds c → strictly_inside c a b ≡ false }
{
    is_past(bounds, a, b) || a.x != b.x && a.y != b.y && is_beside(bounds, a, b)
}

/// Whether the edge's own box doesn't meet this one.
fn is_past(bounds: Bounds, a: Corner, b: Corner) -> bool
    ensures { IsTrue result → (c : Corner) → HoldsCorner bounds c → strictly_inside c a b ≡ false }
{
    !edge_boxes_meet(bounds.low, bounds.high, a, b)
}

/// Whether the box lies on one side of the edge's line.
fn is_beside(bounds: Bounds, a: Corner, b: Corner) -> bool
    ensures { IsTrue result → (c : Corner) → HoldsCorner bounds c → strictly_inside c a b ≡ false }
{
    let (dx, dy) = (difference(b.x, a.x), difference(b.y, a.y));
    let bottom = wide_product(dx, difference(bounds.low.y, a.y));
    let top = wide_product(dx, difference(bounds.high.y, a.y));
    let left = wide_product(dy, difference(bounds.low.x, a.x));
    let right = wide_product(dy, difference(bounds.high.x, a.x));
    ranges_are_apart(bottom, top, left, right)
}

/// Whether a corner lies strictly inside the edge from a to b.
pub(crate) fn is_strictly_inside(corner: Corner, a: Corner, b: Corner) -> bool
    ensures { result ≡ strictly_inside corner a b }
{
    is_in_box(corner, a, b) && is_no_end(corner, a, b) && is_on_line(corner, a, b)
}

/// Whether a corner lies on the line through a and b.
fn is_on_line(corner: Corner, a: Corner, b: Corner) -> bool
    ensures { result ≡ int_eq (turn_of a b corner) (pos 0) }
{
    turn(a, b, corner) == 0
}

/// Whether a corner is in the box of the edge from a to b. No branch is taken: which corners are is hard to foresee.
fn is_in_box(corner: Corner, a: Corner, b: Corner) -> bool
    ensures { result ≡ (is_between a.x b.x corner.x && is_between a.y b.y corner.y) }
{
    is_between_ends(a.x, b.x, corner.x) & is_between_ends(a.y, b.y, corner.y)
}

/// Whether z is u or v, or between them.
fn is_between_ends(u: i64, v: i64, z: i64) -> bool
    requires first { IsWithin limit u }
    requires second { IsWithin limit v }
    requires third { IsWithin limit z }
    ensures { result ≡ is_between u v z }
{
    is_from_to(u.min(v), u.max(v), z)
}

/// Whether a corner is in a box, with no branch taken.
pub(crate) fn is_in(bounds: Bounds, corner: Corner) -> bool
    ensures { result ≡ holds_corner bounds corner }
{
    is_from_to(bounds.low.x, bounds.high.x, corner.x)
        & is_from_to(bounds.low.y, bounds.high.y, corner.y)
}

/// Whether z is at least u and at most v.
fn is_from_to(u: i64, v: i64, z: i64) -> bool
    requires first { IsWithin limit u }
    requires second { IsWithin limit v }
    requires third { IsWithin limit z }
    ensures { result ≡ from_to u v z }
{
    is_at_most(u, z) & is_at_most(z, v)
}

/// Whether u is at most v, by the sign of what is between them: the signs of several are tested at once.
fn is_at_most(u: i64, v: i64) -> bool
    requires first { IsWithin limit u }
    requires second { IsWithin limit v }
    ensures { result ≡ int_le u v }
{
    difference(v, u) >= 0
}

/// Whether a corner is neither a nor b.
fn is_no_end(corner: Corner, a: Corner, b: Corner) -> bool
    ensures { result ≡ (not (is_same corner a) && not (is_same corner b)) }
{
    differs(corner, a) && differs(corner, b)
}

fn differs(a: Corner, b: Corner) -> bool
    ensures { result ≡ not (is_same a b) }
{
    a != b
}

/// u - v, for coordinates.
pub(crate) fn difference(u: i64, v: i64) -> i64
    requires first { IsWithin limit u }
    requires second { IsWithin limit v }
    ensures { result ≡ u -ℤ v }
{
    u - v
}
