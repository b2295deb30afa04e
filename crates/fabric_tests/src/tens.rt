//! Fabrics moved to a grid ten times as fine: the worked halves with their journal, corners that are too far, and each
//! growth refused in turn.

use crate::changes::{CLERK, Change, Parcel, Step, are, are_at, is_inside, take};
use crate::refused_edits::are_alike;
use crate::steps::{HALVES, INTO_HALVES};
use fabric_core::{Entry, Fabric, Refusal, ScaleFault};
use geo_exact::Corner;
use refusing_alloc::Refusing;
use ring_edits::Edit;
use std::alloc::Allocator;
use std::test::Fail;
use test_builders::{Place, Refuses, corner, was_refused};
use test_cities::{RINGS, SQUARE, fabric};

const CITY: [Place; 4] = [(0, 0), (1_000, 0), (1_000, 1_000), (0, 1_000)];

const WEST_HALF: [Place; 4] = [(0, 0), (300, 0), (300, 1_000), (0, 1_000)];

const EAST_HALF: [Place; 4] = [(300, 0), (600, 0), (600, 1_000), (300, 1_000)];

const EAST: [Place; 4] = [(600, 0), (1_000, 0), (1_000, 1_000), (600, 1_000)];

/// The path that cuts the first parcel in two halves.
const MIDDLE: [Place; 2] = [(300, 0), (300, 1_000)];

const MERGED: [Place; 6] = [
    (0, 0),
    (300, 0),
    (600, 0),
    (600, 1_000),
    (300, 1_000),
    (0, 1_000),
];

/// The city's ring with the corners of both halves in it.
static REFINED: [Place; 8] = [
    (0, 0),
    (300, 0),
    (600, 0),
    (1_000, 0),
    (1_000, 1_000),
    (600, 1_000),
    (300, 1_000),
    (0, 1_000),
];

/// The three parcels behind the cut.
const FINE_HALVES: [Parcel; 3] = [
    (2, 800_000, &EAST),
    (3, 600_000, &WEST_HALF),
    (4, 600_000, &EAST_HALF),
];

const FINE_MERGED: [Parcel; 2] = [(2, 800_000, &EAST), (5, 1_200_000, &MERGED)];

/// Edits go on: it is known which entry cut the first parcel, and the next id is 5.
static ON_THE_FINE_GRID: [Step; 2] = [
    (
        Change::Split(1, &MIDDLE),
        Err(Refusal::Retired { id: 1, by: 3 }),
        &FINE_HALVES,
    ),
    (Change::Merge(3, 4), Ok(4), &FINE_MERGED),
];

/// The fabric ten times as large.
fn tenfold_of<'a, H: Allocator>(fabric: &Fabric<'a, H>) -> Result<Fabric<'a, H>, Fail> {
    match fabric.tenfold() {
        Ok(fine) => Ok(fine),
        Err(_) => Err(Fail::new("it is not moved")),
    }
}

/// Whether this entry cut the first parcel in halves.
fn is_the_cut<H: Allocator>(entry: &Entry<&H>) -> bool {
    let Edit::Split { id, path } = entry.edit() else {
        return false;
    };
    let [west, east] = entry.rows() else {
        return false;
    };
    *id == 1
        && entry.number() == 3
        && entry.clerk() == CLERK
        && entry.out() == [1].as_slice()
        && are_at(path.as_slice(), &MIDDLE)
        && west.id == 3
        && are_at(west.corners.as_slice(), &WEST_HALF)
        && east.id == 4
        && are_at(east.corners.as_slice(), &EAST_HALF)
}

/// Whether a fabric is that of the halves, ten times as large.
fn is_of_halves<H: Allocator>(fine: &Fabric<'_, H>) -> Result<bool, Fail> {
    let Some(last) = fine.journal().last() else {
        return Ok(false);
    };
    Ok(
        are(fine, &FINE_HALVES)
            && are_at(fine.city(), &CITY)
            && are_at(fine.refined(), &REFINED)
            && fine.entries() == 3
            && is_the_cut(last)
            && is_inside(fine, (100, 100), 3)?,
    )
}

/// Makes the entries of another fabric's journal, each of which has to be due.
fn follow_all<'a, H: Allocator>(
    copy: &mut Fabric<'a, H>,
    original: &Fabric<'a, H>,
) -> Result<(), Fail> {
    for entry in original.journal() {
        if copy.follow(entry) != Ok(()) {
            return Err(Fail::new("an entry that is not due"));
        }
    }
    Ok(())
}

#[test]
fn moves_halves_to_a_finer_grid(rt: HostRuntime) -> Result<(), Fail> {
    let heap = &rt.alloc();
    let mut fabric = fabric(heap, &SQUARE, &RINGS)?;
    let mut opened = tenfold_of(&fabric)?;
    take(heap, &mut fabric, &INTO_HALVES)?;
    let before = fabric.copy()?;
    let mut fine = tenfold_of(&fabric)?;
    assert!(rt; is_of_halves(&fine)?);
    follow_all(&mut opened, &fine)?;
    assert!(rt; are_alike(&opened, &fine)?);
    take(heap, &mut fine, &ON_THE_FINE_GRID)?;
    assert!(rt; are(&fabric, &HALVES) && are_alike(&fabric, &before)?);
    Ok(())
}

/// As far from 0 as a corner may be that is moved, and two that are one further.
const NEAR: i64 = 10_000_000_000;

const FAR: i64 = 10_000_000_001;

const TO_THE_LIMIT: [Place; 4] = [(-NEAR, -NEAR), (NEAR, -NEAR), (NEAR, NEAR), (-NEAR, NEAR)];

const TO_THE_EAST: [Place; 4] = [(0, 0), (FAR, 0), (FAR, 100), (0, 100)];

const TO_ALL_SIDES: [Place; 4] = [(-FAR, -7), (FAR, -7), (FAR, FAR), (-FAR, FAR)];

/// Why the fabric of one parcel, the whole city, is not moved.
fn fault_of<H: Allocator>(heap: &H, ring: &[Place]) -> Result<Option<ScaleFault>, Fail> {
    let fabric = fabric(heap, ring, &[ring])?;
    match fabric.tenfold() {
        Ok(_) => Ok(None),
        Err(fault) => Ok(Some(fault)),
    }
}

/// That a corner is too far.
fn too_far(place: Place) -> Result<Option<ScaleFault>, Fail> {
    let corner: Corner = corner(place)?;
    Ok(Some(ScaleFault::TooFar(corner)))
}

#[test]
fn tells_the_least_corner_that_is_too_far(rt: HostRuntime) -> Result<(), Fail> {
    let heap = &rt.alloc();
    assert!(rt; fault_of(heap, &TO_THE_LIMIT)? == None);
    assert!(rt; fault_of(heap, &TO_THE_EAST)? == too_far((FAR, 0))?);
    assert!(rt; fault_of(heap, &TO_ALL_SIDES)? == too_far((-FAR, -7))?);
    Ok(())
}

/// No call here has so many growths.
const MOST: u64 = 1000;

/// Moves a fabric with growth `number` refused, and where memory was then wanting, once more; whether it was refused. A
/// growth that is only made ahead may be refused and not be wanting.
fn is_moving_refused<'a, H: Refuses>(
    heap: &'a H,
    fabric: &Fabric<'a, H>,
    number: u64,
) -> Result<bool, Fail> {
    heap.refuse(number);
    let moved = fabric.tenfold();
    let is_refused = was_refused(heap);
    let fine = match moved {
        Ok(fine) => fine,
        Err(ScaleFault::NoMemory) if is_refused => tenfold_of(fabric)?,
        Err(_) => return Err(Fail::new("a refusal is told, and nothing else is")),
    };
    if !is_of_halves(&fine)? {
        return Err(Fail::new("another fabric"));
    }
    Ok(is_refused)
}

/// How many growths moving a fabric has.
fn count_growths<'a, H: Refuses>(heap: &'a H, fabric: &Fabric<'a, H>) -> Result<u64, Fail> {
    for number in 1..MOST {
        if !is_moving_refused(heap, fabric, number)? {
            return Ok(number - 1);
        }
    }
    Err(Fail::new("each growth was refused"))
}

/// How many growths moving the fabric of the halves has; it stays as it is.
fn count_growths_of_halves<H: Refuses>(heap: &H) -> Result<u64, Fail> {
    let mut fabric = fabric(heap, &SQUARE, &RINGS)?;
    take(heap, &mut fabric, &INTO_HALVES)?;
    let before = fabric.copy()?;
    let count = count_growths(heap, &fabric)?;
    if are_alike(&fabric, &before)? {
        Ok(count)
    } else {
        Err(Fail::new("another fabric"))
    }
}

#[test]
fn moves_again(rt: HostRuntime) -> Result<(), Fail> {
    let heap = Refusing::new(rt.alloc(), 0);
    assert!(rt; count_growths_of_halves(&heap)? > 20);
    Ok(())
}
