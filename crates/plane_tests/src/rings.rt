//! Lists of rings.

use geo_exact::Corners;
use std::alloc::Allocator;
use std::test::Fail;
use test_builders::{Place, corners};

/// The rings of these places.
pub fn rings_of<A: Allocator + Copy>(
    alloc: A,
    lists: &[&[Place]],
) -> Result<Vec<Corners<A>, A>, Fail> {
    let mut rings = Vec::new(alloc);
    for places in lists {
        rings.push(corners(alloc, places)?)?;
    }
    Ok(rings)
}
