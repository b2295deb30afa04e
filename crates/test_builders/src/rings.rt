//! Corners, rings and shapes from pairs of numbers.

use geo_exact::{Corner, Corners, LIST_CORNERS};
use ring_core::{Ring, Shape, Tri};
use std::alloc::Allocator;
use std::test::Fail;

/// A place in whole millimetres: x, then y.
pub type Place = (i64, i64);

/// The corner at a place.
///
/// # Errors
///
/// Where a coordinate is beyond the limit.
pub fn corner(place: Place) -> Result<Corner, Fail> {
    match Corner::new(place.0, place.1) {
        Some(corner) => Ok(corner),
        None => Err(Fail::new("a coordinate beyond the limit")),
    }
}

/// The corners at these places, in order.
///
/// # Errors
///
/// Where a coordinate is beyond the limit, or memory is wanting.
pub fn corners<A: Allocator>(alloc: A, places: &[Place]) -> Result<Corners<A>, Fail> {
    let mut list = Corners::new(alloc);
    for place in places {
        list.push(corner(*place)?)?;
    }
    Ok(list)
}

/// The rectangle from the first x to the second and from the first y to the second, counterclockwise from there.
///
/// # Errors
///
/// As [`corners`].
pub fn rectangle<A: Allocator>(alloc: A, x: (i64, i64), y: (i64, i64)) -> Result<Corners<A>, Fail> {
    corners(alloc, &[(x.0, y.0), (x.1, y.0), (x.1, y.1), (x.0, y.1)])
}

/// A ring of so many corners, 5 or more: eastwards along the teeth of a saw, corner k at x = k with
/// y 0 and 1 by turns, and back by two corners at y = 100.
///
/// # Errors
///
/// As [`corners`].
pub fn saw<A: Allocator>(alloc: A, count: u16) -> Result<Corners<A>, Fail> {
    if count < 5 {
        return Err(Fail::new("a saw of fewer than five corners"));
    }
    let mut list = Corners::new(alloc);
    let teeth = i64::from(count) - 2;
    for x in 0..teeth {
        list.push(corner((x, x & 1))?)?;
    }
    list.push(corner((teeth - 1, 100))?)?;
    list.push(corner((0, 100))?)?;
    Ok(list)
}

/// The triangle of three places.
///
/// # Errors
///
/// Where they do not turn left, or a coordinate is beyond the limit.
pub fn triangle(a: Place, b: Place, c: Place) -> Result<Tri, Fail> {
    match Tri::new(corner(a)?, corner(b)?, corner(c)?) {
        Some(triangle) => Ok(triangle),
        None => Err(Fail::new("no left turn")),
    }
}

/// The simple ring of these corners.
///
/// # Errors
///
/// Where it has a fault.
pub fn ring_of<A: Allocator>(corners: Corners<A>) -> Result<Ring<A>, Fail> {
    if corners.as_slice().len() > LIST_CORNERS {
        return Err(Fail::new("more corners than a list may have"));
    }
    match Ring::check(corners) {
        Ok(ring) => Ok(ring),
        Err(fault) => Err(Fail::from(fault)),
    }
}

/// The simple ring of the corners at these places.
///
/// # Errors
///
/// As [`corners`], and where the ring has a fault.
pub fn simple_ring<A: Allocator>(alloc: A, places: &[Place]) -> Result<Ring<A>, Fail> {
    ring_of(corners(alloc, places)?)
}

/// The shape of a ring.
///
/// # Errors
///
/// Where memory is wanting.
pub fn shape_of<A: Allocator + Copy>(alloc: A, ring: Ring<A>) -> Result<Shape<A>, Fail> {
    Ok(Shape::clip(alloc, ring)?)
}

/// The shape of the simple ring of the corners at these places.
///
/// # Errors
///
/// As [`simple_ring`] and [`shape_of`].
pub fn shape<A: Allocator + Copy>(alloc: A, places: &[Place]) -> Result<Shape<A>, Fail> {
    shape_of(alloc, simple_ring(alloc, places)?)
}
