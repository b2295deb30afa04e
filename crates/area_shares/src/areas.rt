//! The lines of all pairs of a table.

ghost use Rattle.std.specs.Prelude.{◌≡◌, IfOk, OnOk};
ghost use Rattle.zone_tables.specs.Overlap.{IsOverlapTable};
ghost use Rattle.area_shares.specs.AreaTable.{ArePairsOfParcels, AddsAreaLines, IsAreaTable};

use crate::parcels::{push_parcel, split_parcel};
use crate::shared::AreaLine;
use fabric_core::{Layer, Sheet};
use std::alloc::{AllocError, Allocator};
use zone_tables::each_parcel_overlaps_a_zone;

/// Adds a line for each pair of some parcels, with how much of the parcel lies in the zone. For each parcel they sum to
/// its area, exactly.
///
/// # Errors
///
/// [`AllocError`] where an allocation fails; some lines were added then.
pub fn push_area_lines<'p, 'z, H: Allocator, A: Allocator + Copy>(
    lines: &mut Vec<AreaLine, A>,
    parcels: &Sheet<'p, H>,
    zones: &Layer<'z, H>,
    pairs: &[(u64, u64)],
) -> Result<(), AllocError>
    requires city { zones.now.city ≡ parcels.now.city }
    requires pairs { ArePairsOfParcels parcels.now.now.rows zones.now.rows pairs.now }
    ensures { OnOk result
        (AddsAreaLines parcels.now.now.rows zones.now.rows pairs.now lines.old.items lines.new.items) }
{
    let mut rest = pairs;
    while let Some((first, _)) = rest.split_first() {
        let (here, behind) = split_parcel(first.0, rest);
        push_parcel(lines, parcels, zones, first.0, here)?;
        rest = behind;
    }
    Ok(())
}

/// A line for each pair of a table, in its order, with how much of the parcel lies in the zone. For each parcel they
/// sum to its area, exactly.
///
/// Twice an area is a whole number of square millimetres, at most 1 away from the exact fraction, where the parcel's
/// corners times those of all its zones together are below 67,108,864. Beyond that only the sum is exact.
///
/// # Errors
///
/// [`AllocError`] where an allocation fails.
///
/// ```
/// let lines = area_lines(alloc, &sheet, &zones, table.pairs())?;
/// ```
pub fn area_lines<'h, H: Allocator, A: Allocator + Copy>(
    alloc: A,
    parcels: &Sheet<'h, H>,
    zones: &Layer<'h, H>,
    pairs: &[(u64, u64)],
) -> Result<Vec<AreaLine, A>, AllocError>
    requires city { zones.now.city ≡ parcels.now.city }
    requires table { IsOverlapTable parcels.now.now.rows zones.now.rows pairs.now }
    ensures { IfOk result (λ lines. IsAreaTable parcels.now.now.rows zones.now.rows pairs.now lines.items) }
{
    each_parcel_overlaps_a_zone();
    parcels.use_invariant();
    zones.use_invariant();
    let mut lines = Vec::with_capacity(alloc, pairs.len())?;
    push_area_lines(&mut lines, parcels, zones, pairs)?;
    Ok(lines)
}
