//! The fabric of the two parcels.

use fabric_core::Fabric;
use std::alloc::Allocator;
use std::test::Fail;
use test_cities::{RINGS, SQUARE, fabric};

/// The fabric of the two parcels.
pub fn town<'a, H: Allocator>(heap: &'a H) -> Result<Fabric<'a, H>, Fail> {
    fabric(heap, &SQUARE, &RINGS)
}
