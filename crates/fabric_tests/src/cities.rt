//! Rings that are cities, and rings that are none.

use fabric_core::CityFault;
use ring_core::RingFault;
use std::alloc::Allocator;
use std::test::Fail;
use test_builders::{Place, corners};
use test_cities::{SQUARE, answer_city, city};

#[test]
fn begins_at_the_least_corner(rt: HostRuntime) -> Result<(), Fail> {
    let heap = &rt.alloc();
    let turned = [(100, 100), (0, 100), (0, 0), (100, 0)];
    let city = city(heap, &turned)?;
    assert!(rt; city.ring.corners == corners(heap, &SQUARE)?);
    Ok(())
}

/// Why a ring is no city; `None` where it is one.
fn fault_of<H: Allocator>(heap: &H, ring: &[Place]) -> Result<Option<CityFault>, Fail> {
    Ok(answer_city(heap, ring)?.err())
}

#[test]
fn refuses_rings_that_are_no_cities(rt: HostRuntime) -> Result<(), Fail> {
    let heap = &rt.alloc();
    let crossed = [(0, 0), (100, 100), (100, 0), (0, 100)];
    assert!(rt; fault_of(heap, &crossed)? == Some(CityFault::Ring(RingFault::ZeroArea)));
    // it is read turned round: (0,0) (0,60) (100,0) (100,100)
    let meeting = [(0, 0), (100, 100), (100, 0), (0, 60)];
    assert!(rt; fault_of(heap, &meeting)? == Some(CityFault::Ring(RingFault::EdgesMeet(1, 3))));
    Ok(())
}
