//! Where edges are at a level.

ghost use Rattle.std.specs.Prelude.{◌≡◌, ◌↔◌, ◌+◌, ◌*◌, ◌<◌, ◌≤◌, ◌*ℤ◌, ◌-ℤ◌, ◌+ℤ◌, ◌≤ℤ◌, pos, IsTrue, MatchOption};
ghost use Rattle.geo_exact.specs.Limit.{IsWithin, limit};
ghost use Rattle.common_areas.specs.Between.{gap, rise, size};
ghost use Rattle.area_bounds.specs.Crossed.{AreCrossed};
ghost use Rattle.area_bounds.specs.Edges.{edge_of, parting_of};

use crate::rising::Rising;
use geo_exact::{Corner, LIMIT, wide_product};

/// Where two lines are at a level: each from the west limit on, times both rises.
#[derive(Clone, Copy, Debug)]
pub struct Places {
    /// The first one.
    pub one: u128,
    /// The other.
    pub other: u128,
}

/// The sum of two numbers, each times its share.
fn weighted(from: u64, to: u64, above: u64, below: u64) -> u128
    requires from { from ≤ 2 * limit }
    requires to { to ≤ 2 * limit }
    requires shares { above + below ≤ 2 * limit }
    ensures value { result ≡ from * above + to * below }
    ensures bound { result ≤ 2 * limit * (above + below) }
{
    u128::from(from) * u128::from(above) + u128::from(to) * u128::from(below)
}

/// How far a number is above another.
pub fn above(low: i64, high: i64) -> u64
    requires order { low ≤ℤ high }
    requires fits { (high -ℤ low) ≤ℤ pos (2 * limit) }
    ensures { pos result ≡ high -ℤ low }
{
    (high - low) as u64
}

impl Rising {
    /// The edge from one corner to another, where it is not level.
    #[tactic(auto, unfolding(crate::specs::Edges::edge_of))]
    pub fn of_edge(from: Corner, to: Corner) -> Option<Rising>
        ensures { MatchOption result (from.y ≡ to.y) (λ rising. edge_of rising ≡ record { from = from; to = to }) }
    {
        if from.y < to.y {
            return Some(Rising {
                low: from,
                high: to,
                is_up: true,
            });
        }
        if to.y < from.y {
            return Some(Rising {
                low: to,
                high: from,
                is_up: false,
            });
        }
        None
    }

    /// How far it rises.
    pub fn rise(self) -> u64
        ensures value { pos result ≡ self.high.y -ℤ self.low.y }
        ensures some { 0 < result }
        ensures bound { result ≤ 2 * limit }
    {
        above(self.low.y, self.high.y)
    }

    /// Where it is at a level: from the west limit on, times its rise.
    pub fn place(self, y: i64) -> u128
        requires low { self.low.y ≤ℤ y }
        requires high { y ≤ℤ self.high.y }
        ensures value { pos result ≡ (self.low.x +ℤ pos limit) *ℤ (self.high.y -ℤ y)
            +ℤ (self.high.x +ℤ pos limit) *ℤ (y -ℤ self.low.y) }
        ensures bound { pos result ≤ℤ (pos (2 * limit) *ℤ (self.high.y -ℤ self.low.y)) }
    {
        weighted(
            above(-LIMIT, self.low.x),
            above(-LIMIT, self.high.x),
            above(y, self.high.y),
            above(self.low.y, y),
        )
    }
}

/// The product of both rises.
pub fn rises(one: Rising, other: Rising) -> u128
    ensures value { pos result ≡ rise (edge_of one) *ℤ rise (edge_of other) }
    ensures some { 0 < result }
    ensures bound { result ≤ 2 * limit * (2 * limit) }
{
    let first = one.rise();
    let second = other.rise();
    u128::from(first) * u128::from(second)
}

/// Where two lines are at a level that both edges have.
pub fn at_level(one: Rising, other: Rising, y: i64) -> Places
    requires one_low { one.low.y ≤ℤ y }
    requires one_high { y ≤ℤ one.high.y }
    requires other_low { other.low.y ≤ℤ y }
    requires other_high { y ≤ℤ other.high.y }
    ensures value { pos result.one -ℤ pos result.other ≡ gap (edge_of one) (edge_of other) y }
    ensures one { pos result.one ≤ℤ (pos (2 * limit) *ℤ (rise (edge_of one) *ℤ rise (edge_of other))) }
    ensures other { pos result.other ≤ℤ (pos (2 * limit) *ℤ (rise (edge_of one) *ℤ rise (edge_of other))) }
{
    let first = one.place(y);
    let second = other.place(y);
    let first_rise = one.rise();
    let second_rise = other.rise();
    Places {
        one: first * u128::from(second_rise),
        other: second * u128::from(first_rise),
    }
}

/// Whether two lines cross between two levels.
pub fn are_crossed(first: Places, second: Places) -> bool
    ensures { IsTrue result ↔ AreCrossed first second }
{
    if first.one < first.other {
        return second.other < second.one;
    }
    first.other < first.one && second.one < second.other
}

/// The product of two differences of coordinates.
#[tactic(auto, using(geo_exact::proofs::numbers::Within::product_within))]
fn run_product(u: i64, v: i64) -> i128
    requires first { IsWithin (2 * limit) u }
    requires second { IsWithin (2 * limit) v }
    ensures value { result ≡ u *ℤ v }
    ensures bound { IsWithin (2 * limit * (2 * limit)) result }
{
    wide_product(u, v)
}

/// How far one coordinate is beyond another.
fn run(from: i64, to: i64) -> i64
    requires from { IsWithin limit from }
    requires to { IsWithin limit to }
    ensures value { result ≡ to -ℤ from }
    ensures bound { IsWithin (2 * limit) result }
{
    to - from
}

/// How far two products are apart.
fn distance(first: i128, second: i128) -> u128
    requires first { IsWithin (2 * limit * (2 * limit)) first }
    requires second { IsWithin (2 * limit * (2 * limit)) second }
    ensures value { pos result ≡ size (first -ℤ second) }
    ensures bound { result ≤ 2 * (2 * limit * (2 * limit)) }
{
    (first - second).unsigned_abs()
}

/// How fast two lines part, times both rises.
pub fn parting(one: Rising, other: Rising) -> u128
    ensures value { pos result ≡ size (parting_of one other) }
    ensures bound { result ≤ 2 * (2 * limit * (2 * limit)) }
{
    let one_across = run(one.low.x, one.high.x);
    let one_up = run(one.low.y, one.high.y);
    let other_across = run(other.low.x, other.high.x);
    let other_up = run(other.low.y, other.high.y);
    distance(
        run_product(one_across, other_up),
        run_product(other_across, one_up),
    )
}
