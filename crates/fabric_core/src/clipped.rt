//! The shapes of a layer's rings, clipped one after the other, or in several threads.

ghost use Rattle.std.specs.Prelude.{◌≡◌, ◌<◌, IfOk};
ghost use Rattle.edge_chains.specs.own.Slices.{AreOfSlices};
ghost use Rattle.fabric_core.specs.own.Lists.{AreShapesOfRings};

use ring_core::{Ring, Shape};
use std::alloc::{AllocError, Allocator};
use std::snapshot::Snapshot;
use std::thread;
use std::thread::Threads;

/// The shape of each ring, one ring after the other.
pub(crate) fn clip_each<A: Allocator + Copy>(
    alloc: A,
    rings: Vec<Ring<A>, A>,
) -> Result<Vec<Shape<A>, A>, AllocError>
    ensures { IfOk result (λ shapes. AreShapesOfRings rings.items shapes.items) }
{
    let mut shapes = Vec::with_capacity(alloc, rings.len())?;
    for ring in rings {
        shapes.push(Shape::clip(alloc, ring)?)?;
    }
    Ok(shapes)
}

/// The same, by so many threads at the most, each of which has a slice of the rings.
pub(crate) fn clip_shared<A: Allocator + Copy + Send + Sync, R: Threads + Sync>(
    rt: &R,
    alloc: A,
    count: usize,
    rings: Vec<Ring<A>, A>,
) -> Result<Vec<Shape<A>, A>, AllocError>
    ensures { IfOk result (λ shapes. AreShapesOfRings rings.items shapes.items) }
{
    if count < 2 {
        return clip_each(alloc, rings);
    }
    let whole = Snapshot::of(&rings);
    let size = rings.len().div_ceil(count).max(1);
    let slices = cut(alloc, rings, size)?;
    let clipped = thread::map_vec(rt, slices, &|slice| clip_each(alloc, slice))?;
    joined(alloc, whole, size, clipped)
}

/// The rings in slices of so many; the last may have fewer.
fn cut<A: Allocator + Copy>(
    alloc: A,
    mut rings: Vec<Ring<A>, A>,
    size: usize,
) -> Result<Vec<Vec<Ring<A>, A>, A>, AllocError>
    requires { 0 < size }
    ensures { IfOk result (λ slices. AreOfSlices (λ rings slice. slice.items ≡ rings) size rings.items slices.items) }
{
    let mut slices = Vec::new(alloc);
    while rings.len() > size {
        let rest = rings.split_off(size)?;
        slices.push(rings)?;
        rings = rest;
    }
    slices.push(rings)?;
    Ok(slices)
}

/// The shapes of all slices, in order, where each slice of so many rings was clipped.
fn joined<A: Allocator + Copy>(
    alloc: A,
    whole: Snapshot<Vec<Ring<A>, A>>,
    size: usize,
    slices: Vec<Result<Vec<Shape<A>, A>, AllocError>, A>,
) -> Result<Vec<Shape<A>, A>, AllocError>
    requires { AreOfSlices (λ slice result. IfOk result (λ shapes. AreShapesOfRings slice shapes.items))
        size whole.value.items slices.items }
    ensures { IfOk result (λ shapes. AreShapesOfRings whole.value.items shapes.items) }
{
    let mut all = Vec::new(alloc);
    for slice in slices {
        let mut shapes = slice?;
        all.append(&mut shapes)?;
    }
    Ok(all)
}
