//! The rows of a layer: its rings, noded and begun at their least corners.

ghost use Rattle.std.specs.Prelude.{◌≡◌, ◌⊎◌, ◌<◌, ◌≤◌, length, IfOk, IfErr};
ghost use Rattle.std.specs.List.{AllByRecursion};
ghost use Rattle.edge_chains.specs.own.Slices.{AreOfSlices};
ghost use Rattle.fabric_core.specs.declared.all_faults.Asked.{Asked};
ghost use Rattle.fabric_core.specs.Faults.{IsOutOfMemory};
ghost use Rattle.fabric_core.specs.own.Lists.{numbered_rows, corners_of_rings};
ghost use Rattle.fabric_core.specs.own.Checks.{IsToldOfRings};
ghost use Rattle.fabric_core.specs.own.RingSlices.{IsSliceOf, IsCheckedSlice};
ghost use Rattle.geo_exact.specs.declared.limits.TheConstants.{RING_CORNERS};

use crate::all_faults::{AllFaults, Asked, LoadRefusal};
use crate::layer::LoadFault;
use geo_exact::Corners;
use ring_core::Ring;
use std::alloc::{AllocError, Allocator};
use std::snapshot::Snapshot;
use std::thread;
use std::thread::Threads;

/// The rings, each a simple one, or the fault of the first that is not, with those of all others
/// where they are asked for.
pub(crate) fn checked<A: Allocator + Copy>(
    alloc: A,
    numbers: &[u32],
    rings: Vec<Corners<A>, A>,
    asked: Asked,
) -> Result<Vec<Ring<A>, A>, LoadRefusal<A>>
    requires numbered { length numbers.now ≡ length rings.items }
    requires short { AllByRecursion (λ ring. length ring ≤ RING_CORNERS) rings.items }
    ensures ok { IfOk result (λ checked. corners_of_rings checked.items ≡ rings.items) }
    ensures err { IfErr result (λ refusal. IsToldOfRings asked (numbered_rows numbers.now rings.items) refusal
        ⊎ IsOutOfMemory refusal) }
{
    let mut checked = Vec::with_capacity(alloc, rings.len())?;
    let mut faults = Vec::new(alloc);
    for corners in rings {
        match Ring::check(corners) {
            Ok(ring) => checked.push(ring)?,
            Err(fault) => {
                let number = numbers[checked.len() + faults.len()];
                match asked {
                    Asked::First => {
                        return Err(LoadRefusal::from(LoadFault::Ring(number, fault)));
                    }
                    Asked::All => faults.push((number, fault))?,
                }
            }
        }
    }
    if faults.is_empty() {
        return Ok(checked);
    }
    let (number, fault) = faults[0];
    Err(LoadRefusal {
        first: LoadFault::Ring(number, fault),
        all: Some(AllFaults::Rings(faults)),
    })
}

/// The same, by so many threads at the most, each of which has a slice of the rings.
///
/// Whoever asks for all faults expects a layer that is refused, and is told them one ring after the other.
pub(crate) fn checked_shared<A: Allocator + Copy + Send + Sync, R: Threads + Sync>(
    rt: &R,
    alloc: A,
    workers: usize,
    numbers: &[u32],
    rings: Vec<Corners<A>, A>,
    asked: Asked,
) -> Result<Vec<Ring<A>, A>, LoadRefusal<A>>
    requires numbered { length numbers.now ≡ length rings.items }
    requires short { AllByRecursion (λ ring. length ring ≤ RING_CORNERS) rings.items }
    ensures ok { IfOk result (λ checked. corners_of_rings checked.items ≡ rings.items) }
    ensures err { IfErr result (λ refusal. IsToldOfRings asked (numbered_rows numbers.now rings.items) refusal
        ⊎ IsOutOfMemory refusal) }
{
    match asked {
        Asked::First => first_shared(rt, alloc, workers, numbers, rings),
        Asked::All => checked(alloc, numbers, rings, asked),
    }
}

/// The rings, each a simple one, or the fault of the first that is not, by so many threads at the most.
fn first_shared<A: Allocator + Copy + Send + Sync, R: Threads + Sync>(
    rt: &R,
    alloc: A,
    workers: usize,
    numbers: &[u32],
    rings: Vec<Corners<A>, A>,
) -> Result<Vec<Ring<A>, A>, LoadRefusal<A>>
    requires numbered { length numbers.now ≡ length rings.items }
    requires short { AllByRecursion (λ ring. length ring ≤ RING_CORNERS) rings.items }
    ensures ok { IfOk result (λ checked. corners_of_rings checked.items ≡ rings.items) }
    ensures err { IfErr result (λ refusal. IsToldOfRings Asked.First (numbered_rows numbers.now rings.items) refusal
        ⊎ IsOutOfMemory refusal) }
{
    if workers < 2 {
        return checked(alloc, numbers, rings, Asked::First);
    }
    let whole = Snapshot::of(&rings);
    let size = rings.len().div_ceil(workers).max(1);
    let slices = cut(alloc, numbers, rings, size)?;
    let results = thread::map_vec(
        rt,
        slices,
        &|slice: RingSlice<'_, A>| -> Result<Vec<Ring<A>, A>, LoadRefusal<A>>
            requires numbered { length slice.numbers.now ≡ length slice.rings.items }
            requires short { AllByRecursion (λ ring. length ring ≤ RING_CORNERS) slice.rings.items }
            ensures ok { IfOk result (λ checked. corners_of_rings checked.items ≡ slice.entry.rings.items) }
            ensures err { IfErr result (λ refusal.
                IsToldOfRings Asked.First (numbered_rows slice.entry.numbers.now slice.entry.rings.items) refusal
                ⊎ IsOutOfMemory refusal) }
        { checked(alloc, slice.numbers, slice.rings, Asked::First) },
    )?;
    joined(alloc, numbers, whole, size, results)
}

/// Some of a layer's rings, with their numbers.
#[derive(Drop)]
struct RingSlice<'n, A: Allocator> {
    numbers: &'n [u32],
    rings: Vec<Corners<A>, A>,
}

/// The rings in slices of so many, with their numbers; the last may have fewer.
fn cut<'n, A: Allocator + Copy>(
    alloc: A,
    numbers: &'n [u32],
    mut rings: Vec<Corners<A>, A>,
    size: usize,
) -> Result<Vec<RingSlice<'n, A>, A>, AllocError>
    requires size { 0 < size }
    requires numbered { length numbers.now ≡ length rings.items }
    requires short { AllByRecursion (λ ring. length ring ≤ RING_CORNERS) rings.items }
    ensures { IfOk result (λ slices. AreOfSlices (λ rows slice. IsSliceOf rows slice.numbers.now slice.rings.items) size
        (numbered_rows numbers.now rings.items) slices.items) }
{
    let mut slices = Vec::new(alloc);
    let mut left = numbers;
    while rings.len() > size {
        let rest = rings.split_off(size)?;
        let (front, behind) = left.split_at(size);
        slices.push(RingSlice {
            numbers: front,
            rings,
        })?;
        left = behind;
        rings = rest;
    }
    slices.push(RingSlice {
        numbers: left,
        rings,
    })?;
    Ok(slices)
}

/// The rings of all slices, in order, or the fault of the first that has one, where each slice of so many was checked.
fn joined<A: Allocator + Copy>(
    alloc: A,
    numbers: &[u32],
    whole: Snapshot<Vec<Corners<A>, A>>,
    size: usize,
    slices: Vec<Result<Vec<Ring<A>, A>, LoadRefusal<A>>, A>,
) -> Result<Vec<Ring<A>, A>, LoadRefusal<A>>
    requires numbered { length numbers.now ≡ length whole.value.items }
    requires slices { AreOfSlices (λ rows result. IsCheckedSlice rows result) size
        (numbered_rows numbers.now whole.value.items) slices.items }
    ensures ok { IfOk result (λ checked. corners_of_rings checked.items ≡ whole.value.items) }
    ensures err { IfErr result (λ refusal.
        IsToldOfRings Asked.First (numbered_rows numbers.now whole.value.items) refusal ⊎ IsOutOfMemory refusal) }
{
    let mut checked = Vec::with_capacity(alloc, numbers.len())?;
    for slice in slices {
        let mut slice = slice?;
        checked.append(&mut slice)?;
    }
    Ok(checked)
}
