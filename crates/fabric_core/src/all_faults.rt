//! The faults of rings that are no layer of a city: the first, or all of its kind.

ghost use Rattle.std.specs.Prelude.{◌≡◌, ◌⊎◌, ◌≤◌, length, None, IfOk, IfErr};
ghost use Rattle.std.specs.List.Sorted.{IsStrictlyIncreasing};
ghost use Rattle.geo_exact.specs.Bounds.{IsLeastBox};
ghost use Rattle.fabric_core.specs.Tiling.{IsTiling};
ghost use Rattle.fabric_core.specs.GridIndex.{IsIndexed};
ghost use Rattle.fabric_core.specs.Faults.{IsOutOfMemory};
ghost use Rattle.fabric_core.specs.own.Checks.{HaveNoFault, IsChecked, IsRefinedCity, IsTold};
ghost use Rattle.fabric_core.specs.own.Lists.{numbered_rows, corners_of_rings};
ghost use Rattle.geo_exact.specs.declared.limits.TheConstants.{LAYER_RECORDS};

use crate::clipped::{clip_each, clip_shared};
use crate::gaps::check_nets;
use crate::layer::{Layer, LoadFault, layer_of};
use crate::limits::first_too_many;
use crate::refine::Refined;
use crate::rings::{checked, checked_shared};
use geo_exact::{Bounds, Corner, Corners};
use ring_core::{Ring, RingFault};
use std::alloc::{AllocError, AllocFailed, Allocator};
use std::thread::Threads;

/// What is asked of rings that are no layer of a city.
#[derive(Clone, Copy, Debug, PartialEq, Eq)]
pub enum Asked {
    /// Their first fault alone, at which the checks end.
    First,
    /// Beside it all faults of its kind.
    All,
}

/// All faults of one kind.
#[derive(Debug, Drop)]
pub enum AllFaults<A: Allocator> {
    /// H1: all records whose noded rings, begun at their least corners, are no simple rings, with the
    /// rings' faults, by ascending number.
    Rings(Vec<(u32, RingFault), A>),
    /// H2: all edges that the rings do not have as often as the city, by their first corners and then
    /// by their second: the two corners in order, and how much oftener the rings have the edge, each
    /// edge counted less the edge back.
    Gaps(Vec<(Corner, Corner, i64), A>),
}

/// Why rings are no layer of a city.
#[derive(Debug, Drop)]
pub struct LoadRefusal<A: Allocator> {
    /// The first fault.
    pub first: LoadFault,
    /// All faults of its kind, where they are asked for; `None` for [`LoadFault::TooMany`] and
    /// [`LoadFault::NoMemory`].
    pub all: Option<AllFaults<A>>,
}

impl<A: Allocator> From<LoadFault> for LoadRefusal<A> {
    ghost from_gives = { λ fault refusal. (refusal.first ≡ fault) × (refusal.all ≡ None) };

    fn from(first: LoadFault) -> LoadRefusal<A> {
        LoadRefusal { first, all: None }
    }
}

impl<A: Allocator> From<AllocError> for LoadRefusal<A> {
    ghost from_gives = { λ _ refusal. IsOutOfMemory refusal };

    fn from(_: AllocError) -> LoadRefusal<A> {
        LoadRefusal {
            first: LoadFault::NoMemory,
            all: None,
        }
    }
}

impl<T: Drop, A: Allocator> From<AllocFailed<T>> for LoadRefusal<A> {
    ghost from_gives = { λ _ refusal. IsOutOfMemory refusal };

    fn from(_: AllocFailed<T>) -> LoadRefusal<A> {
        LoadRefusal {
            first: LoadFault::NoMemory,
            all: None,
        }
    }
}

/// Rings that have no fault, in a city that is refined.
#[derive(Drop)]
struct Faultless<A: Allocator> {
    numbers: Vec<u32, A>,
    rings: Vec<Ring<A>, A>,
    city: Corners<A>,
    refined: Corners<A>,
}

/// Refuses rings, noded and begun at their least corners, that have a fault, in a city that is refined.
fn without_fault<A: Allocator + Copy>(
    alloc: A,
    refined: Refined<A>,
    asked: Asked,
) -> Result<Faultless<A>, LoadRefusal<A>>
    requires numbered { length refined.numbers.items ≡ length refined.rings.items }
    requires rising { IsStrictlyIncreasing refined.numbers.items }
    requires few { length refined.numbers.items ≤ LAYER_RECORDS }
    requires city { IsRefinedCity refined.city refined.refined }
    ensures checked { IfOk result (λ found.
        IsChecked found.numbers.items (corners_of_rings found.rings.items) found.city found.refined) }
    ensures numbers { IfOk result (λ found. found.numbers.items ≡ refined.numbers.items) }
    ensures rings { IfOk result (λ found. corners_of_rings found.rings.items ≡ refined.rings.items) }
    ensures city { IfOk result (λ found. found.city ≡ refined.city) }
    ensures refined { IfOk result (λ found. found.refined ≡ refined.refined) }
    ensures faults { IfErr result (λ refusal.
        IsTold asked (numbered_rows refined.numbers.items refined.rings.items) refined.refined refusal
        ⊎ IsOutOfMemory refusal) }
{
    let Refined {
        numbers,
        rings,
        city,
        refined,
    } = refined;
    if let Some(record) = first_too_many(&numbers, &rings) {
        return Err(LoadRefusal::from(LoadFault::TooMany(record)));
    }
    let rings = checked(alloc, &numbers, rings, asked)?;
    check_nets(alloc, &rings, refined.as_slice(), asked)?;
    Ok(Faultless {
        numbers,
        rings,
        city,
        refined,
    })
}

/// The same, by so many threads at the most.
fn without_fault_by<A: Allocator + Copy + Send + Sync, R: Threads + Sync>(
    rt: &R,
    workers: usize,
    alloc: A,
    refined: Refined<A>,
    asked: Asked,
) -> Result<Faultless<A>, LoadRefusal<A>>
    requires numbered { length refined.numbers.items ≡ length refined.rings.items }
    requires rising { IsStrictlyIncreasing refined.numbers.items }
    requires few { length refined.numbers.items ≤ LAYER_RECORDS }
    requires city { IsRefinedCity refined.city refined.refined }
    ensures checked { IfOk result (λ found.
        IsChecked found.numbers.items (corners_of_rings found.rings.items) found.city found.refined) }
    ensures numbers { IfOk result (λ found. found.numbers.items ≡ refined.numbers.items) }
    ensures rings { IfOk result (λ found. corners_of_rings found.rings.items ≡ refined.rings.items) }
    ensures city { IfOk result (λ found. found.city ≡ refined.city) }
    ensures refined { IfOk result (λ found. found.refined ≡ refined.refined) }
    ensures faults { IfErr result (λ refusal.
        IsTold asked (numbered_rows refined.numbers.items refined.rings.items) refined.refined refusal
        ⊎ IsOutOfMemory refusal) }
{
    let Refined {
        numbers,
        rings,
        city,
        refined,
    } = refined;
    if let Some(record) = first_too_many(&numbers, &rings) {
        return Err(LoadRefusal::from(LoadFault::TooMany(record)));
    }
    let rings = checked_shared(rt, alloc, workers, &numbers, rings, asked)?;
    check_nets(alloc, &rings, refined.as_slice(), asked)?;
    Ok(Faultless {
        numbers,
        rings,
        city,
        refined,
    })
}

/// The layer of rings that are noded and begun at their least corners, in a city that is refined.
pub(crate) fn load_refined<'a, H: Allocator>(
    heap: &'a H,
    area: Bounds,
    refined: Refined<&'a H>,
    asked: Asked,
) -> Result<Layer<'a, H>, LoadRefusal<&'a H>>
    requires numbered { length refined.numbers.items ≡ length refined.rings.items }
    requires rising { IsStrictlyIncreasing refined.numbers.items }
    requires few { length refined.numbers.items ≤ LAYER_RECORDS }
    requires city { IsRefinedCity refined.city refined.refined }
    requires area { IsLeastBox area refined.city }
    ensures rows { IfOk result (λ layer. layer.rows
        ≡ numbered_rows refined.entry.numbers.items refined.entry.rings.items) }
    ensures city { IfOk result (λ layer. layer.city ≡ refined.entry.city) }
    ensures refined { IfOk result (λ layer. layer.refined ≡ refined.entry.refined) }
    ensures no_fault { IfOk result (λ layer. HaveNoFault layer.rows layer.refined) }
    ensures tiling { IfOk result (λ layer. IsTiling layer.rows layer.city) }
    ensures indexed { IfOk result (λ layer. IsIndexed layer.rows layer.city layer.index) }
    ensures faults { IfErr result (λ refusal.
        IsTold asked (numbered_rows refined.entry.numbers.items refined.entry.rings.items) refined.entry.refined refusal
        ⊎ IsOutOfMemory refusal) }
{
    let found = without_fault(heap, refined, asked)?;
    let Faultless {
        numbers,
        rings,
        city,
        refined,
    } = found;
    let shapes = clip_each(heap, rings)?;
    let layer = layer_of(heap, area, &numbers, shapes, city, refined)?;
    Ok(layer)
}

/// The same, by so many threads at the most.
pub(crate) fn load_refined_by<'a, H: Allocator + Send + Sync, R: Threads + Sync>(
    rt: &R,
    workers: usize,
    heap: &'a H,
    area: Bounds,
    refined: Refined<&'a H>,
    asked: Asked,
) -> Result<Layer<'a, H>, LoadRefusal<&'a H>>
    requires numbered { length refined.numbers.items ≡ length refined.rings.items }
    requires rising { IsStrictlyIncreasing refined.numbers.items }
    requires few { length refined.numbers.items ≤ LAYER_RECORDS }
    requires city { IsRefinedCity refined.city refined.refined }
    requires area { IsLeastBox area refined.city }
    ensures rows { IfOk result (λ layer. layer.rows
        ≡ numbered_rows refined.entry.numbers.items refined.entry.rings.items) }
    ensures city { IfOk result (λ layer. layer.city ≡ refined.entry.city) }
    ensures refined { IfOk result (λ layer. layer.refined ≡ refined.entry.refined) }
    ensures no_fault { IfOk result (λ layer. HaveNoFault layer.rows layer.refined) }
    ensures tiling { IfOk result (λ layer. IsTiling layer.rows layer.city) }
    ensures indexed { IfOk result (λ layer. IsIndexed layer.rows layer.city layer.index) }
    ensures faults { IfErr result (λ refusal.
        IsTold asked (numbered_rows refined.entry.numbers.items refined.entry.rings.items) refined.entry.refined refusal
        ⊎ IsOutOfMemory refusal) }
{
    let found = without_fault_by(rt, workers, heap, refined, asked)?;
    let Faultless {
        numbers,
        rings,
        city,
        refined,
    } = found;
    let shapes = clip_shared(rt, heap, workers, rings)?;
    let layer = layer_of(heap, area, &numbers, shapes, city, refined)?;
    Ok(layer)
}
