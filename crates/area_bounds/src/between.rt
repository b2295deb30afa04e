//! The area between two edges, in parts.

ghost use Rattle.std.specs.Prelude.{◌≡◌, ◌↔◌, ◌+◌, ◌*◌, ◌≤◌, ◌^◌, ◌<ℤ◌, ◌≤ℤ◌, ◌*ℤ◌, pos, IsTrue};
ghost use Rattle.geo_exact.specs.Limit.{IsWithin, limit};
ghost use Rattle.geo_exact.specs.Rings.{Edge};
ghost use Rattle.common_areas.specs.Between.{area_between, between, highest, lowest};
ghost use Rattle.area_bounds.specs.Edges.{edge_of};
ghost use Rattle.area_bounds.specs.Parts.{IsCounted};
ghost use Rattle.area_bounds.specs.Rounded.{loss_of};

use crate::lines::{above, are_crossed, at_level, parting, rises};
use crate::parts::{Counted, PARTS, Parts, trapezoid, triangles};
use crate::rising::Rising;
use geo_exact::Corner;

/// The lowest level that both edges have, if they have one.
fn bottom(one: Rising, other: Rising) -> i64
    ensures value { result ≡ lowest (edge_of one) (edge_of other) }
    ensures one { one.low.y ≤ℤ result }
    ensures other { other.low.y ≤ℤ result }
{
    one.low.y.max(other.low.y)
}

/// The highest level that both edges have, if they have one.
fn top(one: Rising, other: Rising) -> i64
    ensures value { result ≡ highest (edge_of one) (edge_of other) }
    ensures one { result ≤ℤ one.high.y }
    ensures other { result ≤ℤ other.high.y }
{
    one.high.y.min(other.high.y)
}

/// The parts of the area between two edges, from the lowest to the highest level that both have.
fn parts_between(one: Rising, other: Rising, low: i64, high: i64) -> Counted
    requires low_is { low ≡ lowest (edge_of one) (edge_of other) }
    requires high_is { high ≡ highest (edge_of one) (edge_of other) }
    requires order { low <ℤ high }
    requires one_low { one.low.y ≤ℤ low }
    requires one_high { high ≤ℤ one.high.y }
    requires other_low { other.low.y ≤ℤ low }
    requires other_high { high ≤ℤ other.high.y }
    ensures counted { IsCounted (pos result.parts) result.lost (area_between (edge_of one) (edge_of other)) }
    ensures bound { result.parts ≤ PARTS * (2 * limit * (2 * limit)) }
    ensures lost { result.lost ≤ 1 }
    ensures rounded { result.lost ≤ loss_of (area_between (edge_of one) (edge_of other)) }
{
    let height = above(low, high);
    let both = rises(one, other);
    let first = at_level(one, other, low);
    let second = at_level(one, other, high);
    let first_side = first.one.abs_diff(first.other);
    let second_side = second.one.abs_diff(second.other);
    if are_crossed(first, second) {
        let apart = parting(one, other);
        triangles(height, both, apart, first_side, second_side)
    } else {
        trapezoid(height, both, first_side + second_side)
    }
}

/// The parts of the area between two edges.
fn area_parts(one: Rising, other: Rising) -> Counted
    ensures counted { IsCounted (pos result.parts) result.lost (area_between (edge_of one) (edge_of other)) }
    ensures bound { result.parts ≤ PARTS * (2 * limit * (2 * limit)) }
    ensures lost { result.lost ≤ 1 }
    ensures rounded { result.lost ≤ loss_of (area_between (edge_of one) (edge_of other)) }
{
    let low = bottom(one, other);
    let high = top(one, other);
    if high <= low {
        return Counted { parts: 0, lost: 0 };
    }
    parts_between(one, other, low, high)
}

/// Whether both edges go up, or both down.
fn go_alike(one: Rising, other: Rising) -> bool
    ensures { IsTrue result ↔ (one.is_up ≡ other.is_up) }
{
    one.is_up == other.is_up
}

/// The same, counted where one edge goes up and the other down, and taken off where both go alike.
#[inline(never)]
fn signed_parts(one: Rising, other: Rising) -> Parts
    ensures counted { IsCounted result.low result.lost (between (edge_of one) (edge_of other)) }
    ensures bound { IsWithin (3 * 2 ^ 100) result.low }
    ensures lost { result.lost ≤ 1 }
    ensures rounded { result.lost ≤ loss_of (between (edge_of one) (edge_of other)) }
{
    let area = area_parts(one, other);
    let parts = area.parts as i128;
    if go_alike(one, other) {
        Parts {
            low: -parts - i128::from(area.lost),
            lost: area.lost,
        }
    } else {
        Parts {
            low: parts,
            lost: area.lost,
        }
    }
}

/// Whether an edge has no more than one level in common with a rising one.
#[inline(always)]
fn are_apart(one: Rising, from: Corner, to: Corner) -> bool
    ensures { IsTrue result
        → highest (edge_of one) (record { from = from; to = to })
        ≤ℤ lowest (edge_of one) (record { from = from; to = to }) }
{
    if from.y <= one.low.y {
        return to.y <= one.low.y;
    }
    one.high.y <= from.y && one.high.y <= to.y
}

/// The same of an edge that may be level, which has no area with any. Most edges of two rings have no levels in common,
/// so that is tested first, in the loop of the caller.
#[inline(always)]
pub fn edge_parts(one: Rising, from: Corner, to: Corner) -> Parts
    ensures counted { IsCounted result.low result.lost (between (edge_of one) (record { from = from; to = to })) }
    ensures bound { IsWithin (3 * 2 ^ 100) result.low }
    ensures lost { result.lost ≤ 1 }
    ensures rounded { result.lost ≤ loss_of (between (edge_of one) (record { from = from; to = to })) }
{
    if are_apart(one, from, to) {
        return Parts { low: 0, lost: 0 };
    }
    match Rising::of_edge(from, to) {
        None => Parts { low: 0, lost: 0 },
        Some(other) => signed_parts(one, other),
    }
}
