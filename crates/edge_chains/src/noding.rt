//! Noding: corners put into the edges that they lie strictly inside.

ghost use Rattle.std.specs.Prelude.{◌≡◌, ◌↔◌, List, ◌++◌, ◌∷◌, IfOk, OnOk};
ghost use Rattle.std.specs.List.{Contains, AllZip};
ghost use Rattle.std.specs.List.Sorted.{IsStrictlySortedBy};
ghost use Rattle.geo_exact.specs.Point.{Point};
ghost use Rattle.geo_exact.specs.Turn.{IsOnRing};
ghost use Rattle.geo_exact.specs.Winding.{winding};
ghost use Rattle.geo_exact.specs.Area.{area2};
ghost use Rattle.geo_exact.specs.own.Sorted.{corner_cmp};
ghost use Rattle.edge_chains.specs.Noding.{IsNodedEdge, IsNoded, all_corners, AreFullyNoded};
ghost use Rattle.edge_chains.specs.own.Slices.{AreOfSlices};

use crate::blocks::Blocks;
use crate::search::Search;
use geo_exact::{Corner, Corners, comes_before};
use std::alloc::{AllocError, Allocator};
use std::thread;
use std::thread::Threads;

/// Those corners that lie strictly inside the edge between two corners, in order along it, each once.
fn inserted<A: Allocator + Copy>(
    search: &mut Search<'_, A>,
    from: Corner,
    to: Corner,
    ahead: &[Corner],
) -> Result<Vec<Corner, A>, AllocError>
    ensures same { search.new ≡ search.old }
    ensures inserted { IfOk result (λ corners. IsNodedEdge search.old (record { from = from; to = to }) corners.items) }
{
    let mut corners = search.inside(from, to, ahead)?;
    sort_once(&mut corners);
    if comes_before(to, from) {
        corners.reverse();
    }
    Ok(corners)
}

/// Appends the start of the edge between two corners, and those corners that lie strictly inside it, in order along it.
fn node_edge<A: Allocator + Copy>(
    search: &mut Search<'_, A>,
    from: Corner,
    to: Corner,
    ahead: &[Corner],
    noded: &mut Vec<Corner, A>,
) -> Result<(), AllocError>
    ensures same { search.new ≡ search.old }
    ensures noded { OnOk result ((inner : List Corner) × IsNodedEdge search.old (record { from = from; to = to }) inner
        × (noded.new.items ≡ noded.old.items ++ from ∷ inner)) }
{
    let inner = inserted(search, from, to, ahead)?;
    noded.push(from)?;
    noded.extend_from_slice(&inner)?;
    Ok(())
}

/// A ring with those corners inserted that lie strictly inside an edge.
fn node_ring<A: Allocator + Copy>(
    alloc: A,
    search: &mut Search<'_, A>,
    ring: &[Corner],
) -> Result<Corners<A>, AllocError>
    ensures same { search.new ≡ search.old }
    ensures noded { IfOk result (λ noded. IsNoded ring.now search.old noded) }
{
    let mut noded = Vec::with_capacity(alloc, ring.len())?;
    if let Some((first, rest)) = ring.split_first() {
        let mut from = *first;
        for (at, to) in rest.iter().enumerate() {
            node_edge(search, from, *to, &rest[at..], &mut noded)?;
            from = *to;
        }
        node_edge(search, from, *first, &[], &mut noded)?;
    }
    Ok(Corners::from_vec(noded))
}

/// Each ring with exactly those of the corners inserted that lie strictly inside an edge, in order along it, each once.
///
/// Where all corners of the rings are among them, no corner lies strictly inside an edge
/// afterwards. Corners are in whole millimetres.
///
/// # Errors
///
/// [`AllocError`] where an allocation is refused.
///
/// ```
/// // (0, 0) (100, 0) (100, 100) (0, 100) with (60, 0) among the corners: (60, 0) comes behind (0, 0).
/// let noded = node(alloc, rings, corners)?;
/// ```
pub fn node<A: Allocator + Copy>(
    alloc: A,
    rings: &[Corners<A>],
    corners: &[Corner],
) -> Result<Vec<Corners<A>, A>, AllocError>
    ensures noded { IfOk result (λ noded. AllZip (λ ring out. IsNoded ring corners.now out) rings.now noded.items) }
    ensures windings { IfOk result (λ noded.
        AllZip (λ ring out. (p : Point) → winding p out ≡ winding p ring) rings.now noded.items) }
    ensures boundaries { IfOk result (λ noded.
        AllZip (λ ring out. (p : Point) → IsOnRing p out ↔ IsOnRing p ring) rings.now noded.items) }
    ensures areas { IfOk result (λ noded. AllZip (λ ring out. area2 out ≡ area2 ring) rings.now noded.items) }
    ensures cuts { IfOk result (λ noded.
        ((c : Corner) → Contains (all_corners rings.now) c → Contains corners.now c) → AreFullyNoded noded.items) }
{
    let blocks = Blocks::new(alloc, corners)?;
    node_all(&blocks, rings)
}

/// As [`node`], by so many threads at the most: each nodes a slice of the rings, and all look among the same corners.
///
/// The rings that come out are those of `node`, in their order, whatever the number is and however the threads
/// take turns. What the system refuses a thread is done by the caller. Each thread keeps what it needs for its own
/// slow edges, so that layers with many of these take as many times the memory.
///
/// # Errors
///
/// [`AllocError`] where an allocation is refused.
///
/// ```
/// let noded = node_by(rt, alloc, 4, rings, corners)?;
/// ```
pub fn node_by<A: Allocator + Copy + Send + Sync, R: Threads + Sync>(
    rt: &R,
    alloc: A,
    workers: usize,
    rings: &[Corners<A>],
    corners: &[Corner],
) -> Result<Vec<Corners<A>, A>, AllocError>
    ensures noded { IfOk result (λ noded. AllZip (λ ring out. IsNoded ring corners.now out) rings.now noded.items) }
    ensures windings { IfOk result (λ noded.
        AllZip (λ ring out. (p : Point) → winding p out ≡ winding p ring) rings.now noded.items) }
    ensures boundaries { IfOk result (λ noded.
        AllZip (λ ring out. (p : Point) → IsOnRing p out ↔ IsOnRing p ring) rings.now noded.items) }
    ensures areas { IfOk result (λ noded. AllZip (λ ring out. area2 out ≡ area2 ring) rings.now noded.items) }
    ensures cuts { IfOk result (λ noded.
        ((c : Corner) → Contains (all_corners rings.now) c → Contains corners.now c) → AreFullyNoded noded.items) }
{
    let blocks = Blocks::new(alloc, corners)?;
    node_shared(rt, workers, &blocks, rings)
}

/// Each ring with those corners inserted that lie strictly inside an edge.
fn node_all<A: Allocator + Copy>(
    blocks: &Blocks<A>,
    rings: &[Corners<A>],
) -> Result<Vec<Corners<A>, A>, AllocError>
    ensures { IfOk result (λ noded. AllZip (λ ring out. IsNoded ring blocks.now out) rings.now noded.items) }
{
    let alloc = blocks.alloc();
    let mut search = Search::new(blocks);
    let mut noded = Vec::with_capacity(alloc, rings.len())?;
    for ring in rings {
        noded.push(node_ring(alloc, &mut search, ring.as_slice())?)?;
    }
    Ok(noded)
}

/// The same, by so many threads at the most.
fn node_shared<A: Allocator + Copy + Send + Sync, R: Threads + Sync>(
    rt: &R,
    workers: usize,
    blocks: &Blocks<A>,
    rings: &[Corners<A>],
) -> Result<Vec<Corners<A>, A>, AllocError>
    ensures { IfOk result (λ noded. AllZip (λ ring out. IsNoded ring blocks.now out) rings.now noded.items) }
{
    if workers < 2 {
        return node_all(blocks, rings);
    }
    let size = rings.len().div_ceil(workers).max(1);
    let slices = thread::map_chunks(
        rt,
        blocks.alloc(),
        rings,
        size,
        &|_, slice| node_all(blocks, slice),
    )?;
    joined(blocks, rings, size, slices)
}

/// The rings of all slices, in order, where each slice of so many rings was noded.
fn joined<A: Allocator + Copy>(
    blocks: &Blocks<A>,
    rings: &[Corners<A>],
    size: usize,
    slices: Vec<Result<Vec<Corners<A>, A>, AllocError>, A>,
) -> Result<Vec<Corners<A>, A>, AllocError>
    requires { AreOfSlices (λ slice result. IfOk result (λ noded.
        AllZip (λ ring out. IsNoded ring blocks.now out) slice noded.items)) size rings.now slices.items }
    ensures { IfOk result (λ noded. AllZip (λ ring out. IsNoded ring blocks.now out) rings.now noded.items) }
{
    let mut noded = Vec::with_capacity(blocks.alloc(), rings.len())?;
    for slice in slices {
        let mut slice = slice?;
        noded.append(&mut slice)?;
    }
    Ok(noded)
}

/// Puts corners in order, by x and then by y, and keeps each once.
///
/// A search gives each corner once already. They are gone through again so that this holds for whatever list comes.
fn sort_once<A: Allocator>(corners: &mut Vec<Corner, A>)
    ensures rises { IsStrictlySortedBy corner_cmp corners.new.items }
    ensures keeps { (c : Corner) → Contains corners.old.items c → Contains corners.new.items c }
    ensures adds_none { (c : Corner) → Contains corners.new.items c → Contains corners.old.items c }
{
    corners.sort_unstable();
    corners.dedup();
}
