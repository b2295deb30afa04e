//! Every simple polygon of a few corners on a grid of 4 by 4 places is clipped, to the triangles of the plain clipping.

use std::test::Fail;
use test_builders::count_clipped;

/// How many polygons there are was counted by a search that tries every list of corners: 516
/// triangles, 2290 of four corners, 10004 of five and 35360 of six.
#[test]
fn every_small_polygon_is_clipped(rt: HostRuntime) -> Result<(), Fail> {
    assert!(rt; count_clipped(rt.alloc(), 6)? == 48170);
    Ok(())
}
