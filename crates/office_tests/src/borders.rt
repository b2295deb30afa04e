//! The edges of rings, and the borders that two rings have in common.

use geo_exact::{Corner, Corners};
use std::alloc::Allocator;

/// The corner at a place of a ring, counted on round it.
pub fn corner_at(ring: &[Corner], place: usize) -> Option<Corner> {
    if ring.is_empty() {
        return None;
    }
    ring.get(place % ring.len()).copied()
}

/// The edge at a place of a ring.
pub fn edge_at(ring: &[Corner], place: usize) -> Option<(Corner, Corner)> {
    Some((
        corner_at(ring, place)?,
        corner_at(ring, place.wrapping_add(1))?,
    ))
}

/// Whether a ring has an edge.
pub fn has_edge(ring: &[Corner], edge: (Corner, Corner)) -> bool {
    for place in 0..ring.len() {
        if edge_at(ring, place) == Some(edge) {
            return true;
        }
    }
    false
}

/// Whether the edge at a place of a ring, turned round, is an edge of another.
fn is_shared(ring: &[Corner], place: usize, other: &[Corner]) -> bool {
    match edge_at(ring, place) {
        Some((from, to)) => has_edge(other, (to, from)),
        None => false,
    }
}

/// The place at which the border with another ring begins that has the edge at this place.
fn begin_of(ring: &[Corner], place: usize, other: &[Corner]) -> usize {
    let mut first = place;
    for _ in 0..ring.len() {
        let before = first.wrapping_add(ring.len()).wrapping_sub(1);
        if !is_shared(ring, before, other) {
            break;
        }
        first = before;
    }
    first
}

/// The place at which that border ends.
fn end_of(ring: &[Corner], place: usize, other: &[Corner]) -> usize {
    let mut last = place.wrapping_add(1);
    for _ in 0..ring.len() {
        if !is_shared(ring, last, other) {
            break;
        }
        last = last.wrapping_add(1);
    }
    last
}

/// A path from one corner to another, by way of a corner near the middle.
fn bent<A: Allocator>(alloc: A, from: Corner, to: Corner) -> Option<Corners<A>> {
    let x = from.x.wrapping_add(to.x) / 2;
    let y = from.y.wrapping_add(to.y) / 2;
    let mut path = Corners::with_capacity(alloc, 3).ok()?;
    path.push(from).ok()?;
    path.push(Corner::new(x.wrapping_add(1), y.wrapping_add(2))?)
        .ok()?;
    path.push(to).ok()?;
    Some(path)
}

/// A new border with another ring, in place of the one that has the edge at this place: straight,
/// but for a corner near its middle.
pub fn new_border<A: Allocator>(
    alloc: A,
    ring: &[Corner],
    place: usize,
    other: &[Corner],
) -> Option<Corners<A>> {
    let first = corner_at(ring, begin_of(ring, place, other))?;
    let last = corner_at(ring, end_of(ring, place, other))?;
    bent(alloc, first, last)
}
