//! The lines of one parcel.

ghost use Rattle.std.specs.Prelude.{◌≡◌, ◌<◌, ◌≤◌, ◌*◌, length, OnOk};
ghost use Rattle.std.specs.List.{AllByRecursion};
ghost use Rattle.zone_tables.specs.Overlap.{AreInPairOrder};
ghost use Rattle.area_shares.specs.own.Parcels.{AreParcelPairs, AddsParcel, IsSplitAt, count_first as count_first_of};

use crate::shared::{AreaLine, push_shares, push_two};
use crate::zones::{share_of, shares_of};
use fabric_core::{Layer, Sheet};
use geo_exact::area2;
use std::alloc::{AllocError, Allocator};

/// How many pairs of a parcel stand first.
fn count_first(id: u64, pairs: &[(u64, u64)]) -> usize
    ensures value { result ≡ count_first_of id pairs.now }
    ensures within { result ≤ length pairs.now }
{
    let mut count = 0;
    for pair in pairs {
        if pair.0 != id {
            return count;
        }
        count += 1;
    }
    count
}

/// The pairs of the lowest parcel, and those of the others.
pub fn split_parcel(id: u64, pairs: &[(u64, u64)]) -> (&[(u64, u64)], &[(u64, u64)])
    requires ascend { AreInPairOrder pairs.now }
    requires from { AllByRecursion (λ pair. id ≤ pair.0) pairs.now }
    ensures { IsSplitAt id pairs.now result.0.now result.1.now }
{
    pairs.split_at(count_first(id, pairs))
}

/// Adds the lines of a parcel: its area where it has one zone; where it has two, what the first has, and the rest for
/// the second; else what each zone has of it.
pub fn push_parcel<'p, 'z, H: Allocator, A: Allocator + Copy>(
    lines: &mut Vec<AreaLine, A>,
    parcels: &Sheet<'p, H>,
    zones: &Layer<'z, H>,
    id: u64,
    here: &[(u64, u64)],
) -> Result<(), AllocError>
    requires city { zones.now.city ≡ parcels.now.city }
    requires some { 0 < length here.now }
    requires pairs { AreParcelPairs parcels.now.now.rows zones.now.rows id here.now }
    ensures { OnOk result (AddsParcel parcels.now.now.rows zones.now.rows id here.now lines.old.items lines.new.items) }
{
    parcels.use_invariant();
    zones.use_invariant();
    let _ = parcels.ids();
    let _ = zones.ids();
    let Some(ring) = parcels.ring(id) else {
        return Ok(());
    };
    let corners = ring.corners.as_slice();
    let total = area2(corners);
    if here.len() == 1 {
        lines.push(AreaLine {
            id,
            zone: here[0].1,
            area2: total,
        })?;
        return Ok(());
    }
    if here.len() == 2 {
        let Some(share) = share_of(corners, zones, here[0].1) else {
            return Ok(());
        };
        return push_two(lines, id, total, share, here[1].1);
    }
    let shares = shares_of(*lines.allocator(), corners, zones, here)?;
    push_shares(lines, id, total, shares.as_slice())
}
