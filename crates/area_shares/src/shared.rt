//! A parcel's area, shared out to its zones.

ghost use Rattle.std.specs.Prelude.{◌≡◌, ◌+◌, ◌*◌, ◌^◌, ◌<◌, ◌≤◌, length, OnOk};
ghost use Rattle.geo_exact.specs.Limit.{IsWithin};
ghost use Rattle.area_shares.specs.own.Rounded.{least_of_all, AddsShares, AddsTwo};

use crate::share::Share;
use std::alloc::{AllocError, Allocator};

/// How much of a parcel lies in a zone. As a text it is `area 4 7 12000`: of parcel 4, zone 7 has 6,000 square
/// millimetres.
#[derive(Clone, Copy, Debug, PartialEq, Eq)]
pub struct AreaLine {
    /// The parcel's id.
    pub id: u64,
    /// The zone's id.
    pub zone: u64,
    /// Twice the area, in square millimetres.
    pub area2: i128,
}

/// The sum of the least numbers.
fn sum_of_least(shares: &[Share]) -> i128
    requires { length shares.now ≤ 2 ^ 20 }
    ensures value { result ≡ least_of_all shares.now }
    ensures small { IsWithin (2 ^ 120) result }
{
    let mut sum = 0i128;
    for share in shares {
        sum += share.least;
    }
    sum
}

/// Adds a line for each share of a parcel, so that they sum to the total: each has its least number, and those
/// that can take 1 more take it, in order, until nothing is left over. The last one takes what is.
pub fn push_shares<A: Allocator>(
    lines: &mut Vec<AreaLine, A>,
    id: u64,
    total: i128,
    shares: &[Share],
) -> Result<(), AllocError>
    requires some { 0 < length shares.now }
    requires count { length shares.now ≤ 2 ^ 20 }
    requires small { IsWithin (2 ^ 100) total }
    ensures { OnOk result (AddsShares id total shares.now lines.old.items lines.new.items) }
{
    let Some((last, others)) = shares.split_last() else {
        return Ok(());
    };
    let mut rest = total - sum_of_least(shares);
    for share in others {
        let more = share.takes(rest);
        lines.push(AreaLine {
            id,
            zone: share.zone,
            area2: share.least + more,
        })?;
        rest -= more;
    }
    lines.push(AreaLine {
        id,
        zone: last.zone,
        area2: last.least + rest,
    })?;
    Ok(())
}

/// Adds the lines of a parcel in two zones: what the one has, and the rest for the other.
pub fn push_two<A: Allocator>(
    lines: &mut Vec<AreaLine, A>,
    id: u64,
    total: i128,
    share: Share,
    other: u64,
) -> Result<(), AllocError>
    requires { IsWithin (2 ^ 100) total }
    ensures { OnOk result (AddsTwo id total share other lines.old.items lines.new.items) }
{
    let area = share.least + share.takes(1);
    lines.push(AreaLine {
        id,
        zone: share.zone,
        area2: area,
    })?;
    lines.push(AreaLine {
        id,
        zone: other,
        area2: total - area,
    })?;
    Ok(())
}
