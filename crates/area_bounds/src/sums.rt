//! Sums of areas between edges, along two rings.

ghost use Rattle.std.specs.Prelude.{◌≡◌, ◌+◌, ◌*◌, ◌≤◌, ◌^◌, ◌<ℤ◌, ◌≤ℤ◌, ◌*ℤ◌, ◌+ℤ◌, ◌-ℤ◌, ℤ, pos, length};
ghost use Rattle.geo_exact.specs.Limit.{IsWithin};
ghost use Rattle.geo_exact.specs.Rings.{Edge, edges};
ghost use Rattle.common_areas.specs.Between.{between};
ghost use Rattle.common_areas.specs.Fractions.{AreEqual, whole};
ghost use Rattle.common_areas.specs.Common.{common_area2 as common_area2_of, sum_shares};
ghost use Rattle.area_bounds.specs.Edges.{edge_of};
ghost use Rattle.area_bounds.specs.Parts.{IsBetween, IsCounted};
ghost use Rattle.area_bounds.specs.Rounded.{IsNear, count_over, loss_of, pairs_rounded};

use crate::between::edge_parts;
use crate::parts::{PARTS, Parts};
use crate::rising::Rising;
use geo_exact::{Corner, RING_CORNERS};

/// Whole numbers between which a twice-area lies, in square millimetres, as 3 and 4 for 10/3.
#[derive(Clone, Copy, Debug, PartialEq, Eq)]
pub struct AreaBounds {
    /// It is at least this.
    pub low: i128,
    /// It is at most this.
    pub high: i128,
}

/// The parts of what an edge has with a ring.
fn ring_parts(one: Rising, ring: &[Corner]) -> Parts
    requires { length ring.now ≤ RING_CORNERS }
    ensures counted { IsCounted result.low result.lost (sum_shares (between (edge_of one)) (edges ring.now)) }
    ensures bound { IsWithin (3 * 2 ^ 100 * length ring.now) result.low }
    ensures lost { result.lost ≤ length ring.now }
    ensures rounded { result.lost ≤ count_over (λ edge. loss_of (between (edge_of one) edge)) (edges ring.now) }
{
    let Some((first, rest)) = ring.split_first() else {
        return Parts { low: 0, lost: 0 };
    };
    let first = *first;
    let mut from = first;
    let mut sum = Parts { low: 0, lost: 0 };
    for to in rest {
        sum = sum.plus(edge_parts(one, from, *to));
        from = *to;
    }
    sum.plus(edge_parts(one, from, first))
}

/// The same of an edge that may be level.
fn row_parts(from: Corner, to: Corner, ring: &[Corner]) -> Parts
    requires { length ring.now ≤ RING_CORNERS }
    ensures counted { IsCounted result.low result.lost
        (sum_shares (between (record { from = from; to = to })) (edges ring.now)) }
    ensures bound { IsWithin (3 * 2 ^ 100 * RING_CORNERS) result.low }
    ensures lost { result.lost ≤ length ring.now }
    ensures rounded { result.lost
        ≤ count_over (λ edge. loss_of (between (record { from = from; to = to }) edge)) (edges ring.now) }
{
    match Rising::of_edge(from, to) {
        None => Parts { low: 0, lost: 0 },
        Some(one) => ring_parts(one, ring),
    }
}

/// The parts of the area common to two rings. No more are lost than there are pairs of an edge
/// of the one and an edge of the other.
pub fn common_parts(one: &[Corner], other: &[Corner]) -> Parts
    requires one { length one.now ≤ RING_CORNERS }
    requires other { length other.now ≤ RING_CORNERS }
    ensures counted { IsCounted result.low result.lost (common_area2_of one.now other.now) }
    ensures bound { IsWithin (3 * 2 ^ 100 * RING_CORNERS * length one.now) result.low }
    ensures lost { result.lost ≤ length one.now * length other.now }
    // A pair whose area is a whole number of parts loses none.
    ensures rounded { result.lost ≤ pairs_rounded one.now other.now }
{
    let Some((first, rest)) = one.split_first() else {
        return Parts { low: 0, lost: 0 };
    };
    let first = *first;
    let mut from = first;
    let mut sum = Parts { low: 0, lost: 0 };
    for to in rest {
        let row = row_parts(from, *to, other);
        sum = sum.plus(row);
        from = *to;
    }
    sum.plus(row_parts(from, first, other))
}

/// So many parts as whole square millimetres, rounded down.
fn rounded_down(parts: i128) -> i128
    requires { IsWithin (2 ^ 126) parts }
    ensures low { (result *ℤ pos PARTS) ≤ℤ parts }
    ensures high { parts <ℤ ((result +ℤ pos 1) *ℤ pos PARTS) }
    ensures bound { IsWithin (2 ^ 126) result }
{
    parts.div_euclid(i128::from(PARTS))
}

/// The same, rounded up.
fn rounded_up(parts: i128) -> i128
    requires { IsWithin (2 ^ 126) parts }
    ensures high { parts ≤ℤ (result *ℤ pos PARTS) }
    ensures low { (result *ℤ pos PARTS) <ℤ (parts +ℤ pos PARTS) }
{
    -rounded_down(-parts)
}

/// The whole numbers round a sum of parts.
fn bounds_of(parts: Parts) -> AreaBounds
    requires bound { IsWithin (3 * 2 ^ 124) parts.low }
    requires lost { parts.lost ≤ 2 ^ 24 }
    ensures low { (result.low *ℤ pos PARTS) ≤ℤ parts.low }
    ensures high { (parts.low +ℤ pos parts.lost) ≤ℤ (result.high *ℤ pos PARTS) }
    // They are the nearest ones: one more would be above the parts, and one less below them.
    ensures greatest { parts.low <ℤ ((result.low +ℤ pos 1) *ℤ pos PARTS) }
    ensures least { ((result.high -ℤ pos 1) *ℤ pos PARTS) <ℤ (parts.low +ℤ pos parts.lost) }
    ensures close { result.high ≤ℤ (result.low +ℤ pos 2) }
{
    AreaBounds {
        low: rounded_down(parts.low),
        high: rounded_up(parts.low + i128::from(parts.lost)),
    }
}

/// Whole numbers between which twice the area common to two rings lies, no more than 2 apart. It allocates nothing.
///
/// A part of the plane that the rings go round several times is counted as often as the product of their winding
/// numbers there.
///
/// ```
/// // Squares of side 2 at (0, 0) and at (1, 1) share one of side 1: low and high are 2.
/// let bounds = common_area2(one.as_slice(), other.as_slice());
/// ```
pub fn common_area2(one: &[Corner], other: &[Corner]) -> AreaBounds
    requires one { length one.now ≤ RING_CORNERS }
    requires other { length other.now ≤ RING_CORNERS }
    ensures between { IsBetween result.low result.high (common_area2_of one.now other.now) }
    // They are the nearest ones, but for what rounding may lose.
    ensures near { IsNear result.low result.high (pairs_rounded one.now other.now) (common_area2_of one.now other.now) }
    // Where the twice-area is a whole number, and no pair of edges is rounded, both are that number.
    ensures whole { (n : ℤ) → AreEqual (common_area2_of one.now other.now) (whole n)
        → pairs_rounded one.now other.now ≡ 0 → (result.low ≡ n) × (result.high ≡ n) }
    ensures close { result.high ≤ℤ (result.low +ℤ pos 2) }
{
    bounds_of(common_parts(one, other))
}
