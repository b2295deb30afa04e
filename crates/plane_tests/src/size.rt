//! A ring of the greatest number of corners through every call.

ghost use Rattle.std.specs.Prelude.{◌≡◌, IfOk, length};
ghost use Rattle.geo_exact.specs.declared.limits.TheConstants.{RING_CORNERS};

use crate::clipping::area_of;
use edge_chains::{EdgeSum, node};
use geo_exact::{Corner, Corners, RING_CORNERS, area2};
use std::alloc::Global;
use std::test::Fail;
use test_builders::{ring_of, saw, shape_of};
use tri_overlap::{folded, shapes_overlap};

/// Twice the area of a saw of 4,096 corners: 4,093 steps of one millimetre each, 100 high but for
/// half a millimetre on average.
const AREA2: i128 = 4093 * 199;

fn longest(alloc: Global) -> Result<Corners<Global>, Fail>
    ensures { IfOk result (λ ring. length ring ≡ RING_CORNERS) }
{
    let ring = saw(alloc, 4096)?;
    if ring.len() != RING_CORNERS {
        return Err(Fail::new("not the longest ring"));
    }
    Ok(ring)
}

#[test]
fn clips_the_longest_ring(rt: HostRuntime) -> Result<(), Fail> {
    let alloc = rt.alloc();
    let corners = longest(alloc)?;
    assert!(rt; area2(corners.as_slice()) == AREA2);
    let shape = shape_of(alloc, ring_of(corners)?)?;
    assert!(rt; shape.ring.corners.len() == RING_CORNERS);
    assert!(rt; area_of(shape.triangles.as_slice()) == AREA2);
    assert!(rt; folded(&shape) == None);
    assert!(rt; shapes_overlap(&shape, &shape));
    Ok(())
}

#[test]
fn nodes_the_longest_ring(rt: HostRuntime) -> Result<(), Fail> {
    let alloc = rt.alloc();
    let corners = longest(alloc)?;
    let mut rings = Vec::new(alloc);
    rings.push(longest(alloc)?)?;
    let noded = node(alloc, &rings, corners.as_slice())?;
    assert!(rt; noded.as_slice() == rings.as_slice());
    Ok(())
}

/// Whether an edge sum tells so many edges, and this first that is unbalanced.
fn tells(sum: &EdgeSum<Global>, edges: u64, unbalanced: Option<(Corner, Corner, i64)>) -> bool {
    sum.edges() == edges && sum.first_unbalanced() == unbalanced
}

/// The side of the saw, taken once.
const SIDE: (Corner, Corner, i64) = (Corner { x: 0, y: 0 }, Corner { x: 0, y: 100 }, -1);

#[test]
fn counts_the_longest_ring(rt: HostRuntime) -> Result<(), Fail> {
    let corners = longest(rt.alloc())?;
    let mut sum = EdgeSum::new(rt.alloc());
    sum.add(corners.as_slice())?;
    assert!(rt; tells(&sum, 4096, Some(SIDE)));
    sum.take(corners.as_slice())?;
    assert!(rt; tells(&sum, 8192, None));
    Ok(())
}
