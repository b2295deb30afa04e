//! A layer of the greatest number of parcels, a ring of the greatest number of corners, and one more than that.

use fabric_core::LoadFault;
use geo_exact::{Corners, LAYER_RECORDS, RING_CORNERS};
use std::alloc::Global;
use std::test::Fail;
use test_builders::{Place, corner, corners, rectangle};
use test_cities::answer_layer_of;

/// The city of the two parcels that share a long border.
const WIDE: [Place; 4] = [(0, 0), (5000, 0), (5000, 100), (0, 100)];

/// The parcel below the border.
const BELOW: [Place; 4] = [(0, 0), (5000, 0), (5000, 50), (0, 50)];

/// The same with one corner more.
const MORE: [Place; 5] = [(0, 0), (1, 0), (5000, 0), (5000, 50), (0, 50)];

/// The parcel above the border: 4,093 corners along it, one millimetre apart, and three more.
fn above(heap: &Global) -> Result<Corners<&Global>, Fail> {
    let mut list = Corners::new(heap);
    for x in 0..4093i64 {
        list.push(corner((x, 50))?)?;
    }
    for place in [(5000, 50), (5000, 100), (0, 100)] {
        list.push(corner(place)?)?;
    }
    Ok(list)
}

/// How many corners the first parcel has, in a layer of a parcel with this ring and the one above
/// the border; or why it is none.
fn first_of_two(heap: &Global, below: &[Place]) -> Result<Result<usize, LoadFault>, Fail> {
    let mut lists = Vec::new(heap);
    lists.push(corners(heap, below)?)?;
    lists.push(above(heap)?)?;
    match answer_layer_of(heap, &WIDE, &lists)? {
        Ok(layer) => Ok(Ok(layer.ring(1).map_or(0, |ring| ring.corners.len()))),
        Err(fault) => Ok(Err(fault)),
    }
}

#[test]
fn nodes_a_border_of_the_most_corners(rt: HostRuntime) -> Result<(), Fail> {
    let heap = &rt.alloc();
    assert!(rt; first_of_two(heap, &BELOW)? == Ok(RING_CORNERS));
    assert!(rt; first_of_two(heap, &MORE)? == Err(LoadFault::TooMany(1)));
    Ok(())
}

/// The rectangles of one millimetre side by side, as many as a layer may have.
fn most_rectangles(heap: &Global) -> Result<Vec<Corners<&Global>, &Global>, Fail> {
    let mut lists = Vec::new(heap);
    for x in 0..i64::from(LAYER_RECORDS) {
        lists.push(rectangle(heap, (x, x.saturating_add(1)), (0, 9))?)?;
    }
    Ok(lists)
}

/// How many parcels a layer of these lists has, and whether the last is the last rectangle.
fn last_of<'a>(heap: &'a Global, lists: &[Corners<&'a Global>]) -> Result<(usize, bool), Fail> {
    let side = i64::from(LAYER_RECORDS);
    let city = [(0, 0), (side, 0), (side, 9), (0, 9)];
    let Ok(layer) = answer_layer_of(heap, &city, lists)? else {
        return Err(Fail::new("no tiling"));
    };
    let Some(last) = layer.ring(u64::from(LAYER_RECORDS)) else {
        return Err(Fail::new("no last parcel"));
    };
    let is_last = last.corners == rectangle(heap, (side - 1, side), (0, 9))?;
    Ok((layer.ids().len(), is_last))
}

#[test]
fn loads_the_most_parcels(rt: HostRuntime) -> Result<(), Fail> {
    let heap = &rt.alloc();
    let lists = most_rectangles(heap)?;
    assert!(rt; last_of(heap, &lists)? == (LAYER_RECORDS as usize, true));
    Ok(())
}
