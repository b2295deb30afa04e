//! Edges that other searches are slow for, and that go through the tree of boxes that lean.

use edge_chains::node;
use geo_exact::{Corner, Corners, on_segment};
use std::alloc::{AllocError, Global};
use std::test::Fail;
use test_builders::corner;

/// The next number of a linear congruential generator, whose high bits are those to use.
fn drawn(state: u64) -> u64 {
    state
        .wrapping_mul(6_364_136_223_846_793_005)
        .wrapping_add(1_442_695_040_888_963_407)
}

/// A corner of a thin band that rises five times as far as it goes across, or the other way round.
///
/// It stands on a lattice of 5,003 by 5,003 millimetres, so each edge between two such has thousands of steps.
fn banded(state: u64, is_flat: bool) -> Result<Corner, Fail> {
    let [first, second, third, ..] = state.to_be_bytes();
    let along = i64::from(u16::from_be_bytes([first & 63, second]));
    let aside = i64::from(third & 31);
    let (low, high) = (5003 * along, 5003 * (5 * along + aside));
    if is_flat {
        corner((high, low))
    } else {
        corner((low, high))
    }
}

/// A ring of 4,096 corners of the band, to and fro.
fn tangled(alloc: Global, is_flat: bool) -> Result<Corners<Global>, Fail> {
    let mut list = Corners::new(alloc);
    let mut state = 1;
    for _ in 0..4096 {
        state = drawn(state);
        list.push(banded(state, is_flat)?)?;
    }
    Ok(list)
}

/// Those of the corners, in order by x and then by y, that lie strictly inside the edge from a to b, in order along
/// it: each is tried.
fn plainly_inside(
    alloc: Global,
    sorted: &[Corner],
    a: Corner,
    b: Corner,
) -> Result<Vec<Corner, Global>, AllocError> {
    let (low, high) = if b < a { (b, a) } else { (a, b) };
    let mut inner = Vec::new(alloc);
    for corner in sorted {
        if low < *corner && *corner < high && on_segment(a, b, *corner) {
            inner.push(*corner)?;
        }
    }
    if b < a {
        inner.reverse();
    }
    Ok(inner)
}

/// A ring with those of its corners inserted that lie strictly inside an edge: each is tried.
fn plainly_noded(alloc: Global, ring: &[Corner]) -> Result<Corners<Global>, AllocError> {
    let mut sorted = Vec::from_slice(alloc, ring)?;
    sorted.sort_unstable();
    sorted.dedup();
    let mut noded = Vec::new(alloc);
    if let Some((first, rest)) = ring.split_first() {
        let mut from = *first;
        for to in rest {
            noded.push(from)?;
            noded.extend_from_slice(&plainly_inside(alloc, &sorted, from, *to)?)?;
            from = *to;
        }
        noded.push(from)?;
        noded.extend_from_slice(&plainly_inside(alloc, &sorted, from, *first)?)?;
    }
    Ok(Corners::from_vec(noded))
}

/// How many corners a ring has once its corners are inserted in its own edges; `None` where they are others than those
/// that are found when each is tried.
fn noded_count(alloc: Global, ring: Corners<Global>) -> Result<Option<usize>, AllocError> {
    let want = plainly_noded(alloc, ring.as_slice())?;
    let corners = Vec::from_slice(alloc, ring.as_slice())?;
    let mut rings = Vec::new(alloc);
    rings.push(ring)?;
    let noded = node(alloc, &rings, &corners)?;
    match noded.as_slice() {
        [noded] if *noded == want => Ok(Some(want.len())),
        _ => Ok(None),
    }
}

/// The boxes along the axes tell little of such edges: after 513 that are slow the leaning boxes are made, and 1,835
/// edges go through them.
#[test]
fn nodes_a_tangled_band(rt: HostRuntime) -> Result<(), Fail> {
    for is_flat in [false, true] {
        let ring = tangled(rt.alloc(), is_flat)?;
        assert!(rt; noded_count(rt.alloc(), ring)? == Some(9791), "{is_flat}");
    }
    Ok(())
}

/// A ring whose every other edge goes up a thin band in one of five directions, by 4,097 to 8,192 steps.
fn slanted(alloc: Global) -> Result<Corners<Global>, Fail> {
    let mut list = Corners::new(alloc);
    let mut state = 1;
    for place in 0..1500i64 {
        state = drawn(state);
        let [first, second, third, fourth, fifth, ..] = state.to_be_bytes();
        let low = i64::from(u16::from_be_bytes([first & 15, second]));
        let high = low + 4097 + i64::from(u16::from_be_bytes([third & 15, fourth]));
        let (aside, up) = (7 * i64::from(fifth & 31), 1281 + 2 * (place % 5));
        list.push(corner((aside + 256 * low, up.wrapping_mul(low)))?)?;
        list.push(corner((aside + 256 * high, up.wrapping_mul(high)))?)?;
    }
    Ok(list)
}

/// The leaning boxes are made after 504 slow edges. Slow edges are counted by their directions
/// nevertheless: after 256 in one, all corners are put in order across it. That comes about in each of the
/// five, and 93 more edges are looked up so.
#[test]
fn nodes_edges_in_five_directions(rt: HostRuntime) -> Result<(), Fail> {
    let ring = slanted(rt.alloc())?;
    assert!(rt; noded_count(rt.alloc(), ring)? == Some(16_759));
    Ok(())
}
