//! The lines of all pairs of a table, by several threads.

ghost use Rattle.std.specs.Prelude.{◌≡◌, ℕ, List, IfOk};
ghost use Rattle.zone_tables.specs.Overlap.{AreInPairOrder, IsOverlapTable};
ghost use Rattle.area_shares.specs.AreaTable.{ArePairsOfParcels, AreAreaLines, IsAreaTable};
ghost use Rattle.area_shares.specs.own.Slices.{AreApart, AreInSlices};

use crate::areas::{area_lines, push_area_lines};
use crate::parcels::split_parcel;
use crate::shared::AreaLine;
use fabric_core::{Layer, Sheet};
use std::alloc::{AllocError, Allocator};
use std::thread;
use std::thread::Threads;
use zone_tables::each_parcel_overlaps_a_zone;

/// The first so many pairs and those behind them of the same parcel, and the pairs of the other parcels.
fn split_parcels(size: usize, pairs: &[(u64, u64)]) -> (&[(u64, u64)], &[(u64, u64)])
    requires { AreInPairOrder pairs.now }
    ensures { AreApart pairs.now result.0.now result.1.now }
{
    let (front, back) = pairs.split_at(size.min(pairs.len()));
    let Some((first, _)) = back.split_first() else {
        return (front, back);
    };
    let (here, _) = split_parcel(first.0, back);
    pairs.split_at(front.len() + here.len())
}

/// The pairs in so many slices, each with all pairs of its parcels. The last ones may be empty.
fn cut<'p, A: Allocator>(
    alloc: A,
    count: usize,
    pairs: &'p [(u64, u64)],
) -> Result<Vec<&'p [(u64, u64)], A>, AllocError>
    requires { AreInPairOrder pairs.now }
    ensures { IfOk result (λ slices. AreInSlices (λ here slice. slice.now ≡ here) pairs.now slices.items) }
{
    let size = pairs.len().div_ceil(count.max(1));
    let mut slices = Vec::with_capacity(alloc, count)?;
    let mut rest = pairs;
    for _ in 1..count {
        let (here, behind) = split_parcels(size, rest);
        slices.push(here)?;
        rest = behind;
    }
    slices.push(rest)?;
    Ok(slices)
}

/// The lines of some parcels' pairs.
fn slice_lines<'p, 'z, H: Allocator, A: Allocator + Copy>(
    alloc: A,
    parcels: &Sheet<'p, H>,
    zones: &Layer<'z, H>,
    pairs: &[(u64, u64)],
) -> Result<Vec<AreaLine, A>, AllocError>
    requires city { zones.now.city ≡ parcels.now.city }
    requires pairs { ArePairsOfParcels parcels.now.now.rows zones.now.rows pairs.now }
    ensures { IfOk result (λ lines. AreAreaLines parcels.now.now.rows zones.now.rows pairs.now lines.items) }
{
    let mut lines = Vec::with_capacity(alloc, pairs.len())?;
    push_area_lines(&mut lines, parcels, zones, pairs)?;
    Ok(lines)
}

/// The lines of all slices, in order.
fn joined<'h, H: Allocator, A: Allocator + Copy>(
    alloc: A,
    parcels: &Sheet<'h, H>,
    zones: &Layer<'h, H>,
    pairs: &[(u64, u64)],
    slices: Vec<Result<Vec<AreaLine, A>, AllocError>, A>,
) -> Result<Vec<AreaLine, A>, AllocError>
    requires { AreInSlices (λ here result. IfOk result (λ lines.
        AreAreaLines parcels.now.now.rows zones.now.rows here lines.items)) pairs.now slices.items }
    ensures { IfOk result (λ lines. AreAreaLines parcels.now.now.rows zones.now.rows pairs.now lines.items) }
{
    let mut all = Vec::with_capacity(alloc, pairs.len())?;
    for lines in slices {
        let mut lines = lines?;
        all.append(&mut lines)?;
    }
    Ok(all)
}

/// As [`area_lines`], by so many threads at the most, each of which has a slice of the parcels. For each number of
/// them, and however they take turns, what comes out is the same. What the system refuses a thread is done in this one.
///
/// # Errors
///
/// [`AllocError`] where an allocation fails.
///
/// ```
/// let lines = area_lines_by(rt, 4, alloc, &sheet, &zones, table.pairs())?;
/// ```
pub fn area_lines_by<
    'h,
    R: Threads + Sync,
    H: Allocator + Send + Sync,
    A: Allocator + Copy + Send + Sync,
>(
    rt: &R,
    workers: usize,
    alloc: A,
    parcels: &Sheet<'h, H>,
    zones: &Layer<'h, H>,
    pairs: &[(u64, u64)],
) -> Result<Vec<AreaLine, A>, AllocError>
    requires city { zones.now.city ≡ parcels.now.city }
    requires table { IsOverlapTable parcels.now.now.rows zones.now.rows pairs.now }
    ensures { IfOk result (λ lines. IsAreaTable parcels.now.now.rows zones.now.rows pairs.now lines.items) }
{
    if workers < 2 {
        return area_lines(alloc, parcels, zones, pairs);
    }
    each_parcel_overlaps_a_zone();
    parcels.use_invariant();
    zones.use_invariant();
    let slices = cut(alloc, workers, pairs)?;
    let lines = thread::map_vec(
        rt,
        slices,
        &|slice: &[(u64, u64)]| -> Result<Vec<AreaLine, A>, AllocError>
            requires city { zones.now.city ≡ parcels.now.city }
            requires pairs { ArePairsOfParcels parcels.now.now.rows zones.now.rows slice.now }
            ensures { IfOk result (λ lines.
                AreAreaLines parcels.entry.now.now.rows zones.entry.now.rows slice.now lines.items) }
        { slice_lines(alloc, parcels, zones, slice) },
    )?;
    joined(alloc, parcels, zones, pairs, lines)
}
