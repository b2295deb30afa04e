//! The city's ring with a corner put into its edges.

ghost use Rattle.std.specs.Prelude.{◌≡◌, ◌<◌, ◌++◌, ◌∷◌, [], List, length, map, IfOk};
ghost use Rattle.geo_exact.specs.Rings.{begun_at_least};
ghost use Rattle.geo_exact.specs.Layers.{rings_of, NumberedRing};
ghost use Rattle.geo_exact.specs.declared.corner.Corner.{Corner as CornerValue};
ghost use Rattle.std.specs.List.{AllZip};
ghost use Rattle.edge_chains.specs.Noding.{all_corners, IsNoded};
ghost use Rattle.fabric_core.specs.Tiling.{corner_lists};
ghost use Rattle.fabric_core.specs.Rows.{numbers};
ghost use Rattle.fabric_core.specs.own.Lists.{AreNodedRings};

use edge_chains::{node, node_by};
use geo_exact::{Corner, Corners, RawRing};
use std::alloc::{AllocError, Allocator};
use std::thread::Threads;

/// The rings of a layer's records and its city's ring, noded for all corners of all of them.
#[derive(Drop)]
pub(crate) struct Refined<A: Allocator> {
    /// The records' numbers.
    pub numbers: Vec<u32, A>,
    /// The records' rings, noded, each begun at its least corner.
    pub rings: Vec<Corners<A>, A>,
    /// The city's ring.
    pub city: Corners<A>,
    /// The city's ring, noded.
    pub refined: Corners<A>,
}

/// Takes the records apart: their numbers, and their rings.
fn numbers_and_rings<A: Allocator + Copy>(
    alloc: A,
    records: Vec<RawRing<A>, A>,
) -> Result<(Vec<u32, A>, Vec<Corners<A>, A>), AllocError>
    ensures { IfOk result (λ parts. (parts.0.items ≡ numbers (rings_of records.items))
        × (parts.1.items ≡ corner_lists (rings_of records.items))) }
{
    let mut numbers = Vec::with_capacity(alloc, records.len())?;
    let mut rings = Vec::with_capacity(alloc, records.len() + 1)?;
    for record in records {
        let RawRing {
            number,
            corners,
            ..
        } = record;
        numbers.push(number)?;
        rings.push(corners)?;
    }
    Ok((numbers, rings))
}

/// The corners of all rings, one ring after the other.
fn corners_of_all<A: Allocator + Copy>(
    alloc: A,
    rings: &[Corners<A>],
) -> Result<Vec<Corner, A>, AllocError>
    ensures { IfOk result (λ corners. corners.items ≡ all_corners rings.now) }
{
    let mut corners = Vec::new(alloc);
    for ring in rings {
        corners.extend_from_slice(ring.as_slice())?;
    }
    Ok(corners)
}

/// Begins each ring at its least corner.
fn begin_all<A: Allocator>(rings: &mut [Corners<A>])
    ensures { rings.new ≡ map begun_at_least rings.old }
{
    for ring in rings.iter_mut() {
        ring.begin_at_least();
    }
}

/// The rings of a layer's records and its city's ring, before they are noded.
#[derive(Drop)]
struct Unnoded<A: Allocator> {
    /// The records' numbers.
    numbers: Vec<u32, A>,
    /// The records' rings, and then the city's.
    rings: Vec<Corners<A>, A>,
    /// The corners of all of them.
    corners: Vec<Corner, A>,
}

/// The records taken apart, with the city's ring and all corners.
fn take_apart<A: Allocator + Copy>(
    alloc: A,
    city: &Corners<A>,
    records: Vec<RawRing<A>, A>,
) -> Result<Unnoded<A>, AllocError>
    ensures numbers { IfOk result (λ all. all.numbers.items ≡ numbers (rings_of records.items)) }
    ensures rings { IfOk result (λ all. all.rings.items ≡ corner_lists (rings_of records.items) ++ city.now ∷ []) }
    ensures corners { IfOk result (λ all. all.corners.items ≡ all_corners all.rings.items) }
{
    let (numbers, mut rings) = numbers_and_rings(alloc, records)?;
    rings.push(city.clone()?)?;
    let corners = corners_of_all(alloc, &rings)?;
    Ok(Unnoded {
        numbers,
        rings,
        corners,
    })
}

/// The rings that were noded for all corners of all of them, each record's begun at its least corner.
fn begun<A: Allocator>(all: Unnoded<A>, noded: Vec<Corners<A>, A>) -> Refined<A>
    requires some { 0 < length all.rings.items }
    requires as_many { length noded.items ≡ length all.rings.items }
    requires corners { all.corners.items ≡ all_corners all.rings.items }
    requires noded { AllZip (λ ring out. IsNoded ring all.corners.items out) all.rings.items noded.items }
    ensures { (records : List NumberedRing) (city : List CornerValue) → all.numbers.items ≡ numbers records
        → all.rings.items ≡ corner_lists records ++ city ∷ []
        → (result.city ≡ city) × AreNodedRings records city result.numbers.items result.rings.items result.refined }
{
    let Unnoded {
        numbers,
        mut rings,
        ..
    } = all;
    let mut noded = noded;
    let Some(refined) = noded.pop() else {
        unreachable!()
    };
    let Some(city) = rings.pop() else {
        unreachable!()
    };
    begin_all(&mut noded);
    Refined {
        numbers,
        rings: noded,
        city,
        refined,
    }
}

/// All rings of the records and the city's ring, noded for all corners of all of them; each
/// record's is begun at its least corner.
pub(crate) fn refine<A: Allocator + Copy>(
    alloc: A,
    city: &Corners<A>,
    records: Vec<RawRing<A>, A>,
) -> Result<Refined<A>, AllocError>
    ensures city { IfOk result (λ refined. refined.city ≡ city.now) }
    ensures noded { IfOk result (λ refined. AreNodedRings (rings_of records.items) city.now
        refined.numbers.items refined.rings.items refined.refined) }
{
    let all = take_apart(alloc, city, records)?;
    let noded = node(alloc, &all.rings, &all.corners)?;
    Ok(begun(all, noded))
}

/// The same, by so many threads at the most.
pub(crate) fn refine_by<A: Allocator + Copy + Send + Sync, R: Threads + Sync>(
    rt: &R,
    workers: usize,
    alloc: A,
    city: &Corners<A>,
    records: Vec<RawRing<A>, A>,
) -> Result<Refined<A>, AllocError>
    ensures city { IfOk result (λ refined. refined.city ≡ city.now) }
    ensures noded { IfOk result (λ refined. AreNodedRings (rings_of records.items) city.now
        refined.numbers.items refined.rings.items refined.refined) }
{
    let all = take_apart(alloc, city, records)?;
    let noded = node_by(rt, alloc, workers, &all.rings, &all.corners)?;
    Ok(begun(all, noded))
}
