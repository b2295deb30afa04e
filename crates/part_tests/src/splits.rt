//! Rings that a path cuts in two.

use geo_exact::{Corners, LIST_CORNERS, RING_CORNERS};
use ring_core::{Ring, RingFault};
use ring_edits::{EditFault, split};
use std::alloc::Global;
use std::test::Fail;
use test_builders::{Place, corner, corners};

const WEST: [Place; 6] = [(0, 0), (30, 0), (60, 0), (60, 100), (30, 100), (0, 100)];

const EAST: [Place; 4] = [(60, 0), (100, 0), (100, 100), (60, 100)];

/// A ring, a path, and the rings left and right of the path.
type Row = (
    &'static [Place],
    &'static [Place],
    &'static [Place],
    &'static [Place],
);

static CUT: [Row; 6] = [
    (
        &WEST,
        &[(30, 0), (30, 100)],
        &[(0, 0), (30, 0), (30, 100), (0, 100)],
        &[(30, 0), (60, 0), (60, 100), (30, 100)],
    ),
    // the other way, what was right is left
    (
        &WEST,
        &[(30, 100), (20, 50), (30, 0)],
        &[(20, 50), (30, 0), (60, 0), (60, 100), (30, 100)],
        &[(0, 0), (30, 0), (20, 50), (30, 100), (0, 100)],
    ),
    // outside the ring
    (
        &EAST,
        &[(60, 0), (50, 50), (60, 100)],
        &[(50, 50), (60, 100), (60, 0)],
        &[(50, 50), (60, 0), (100, 0), (100, 100), (60, 100)],
    ),
    // along the ring
    (&EAST, &[(60, 0), (100, 0)], &EAST, &[(60, 0), (100, 0)]),
    (&EAST, &[(100, 0), (60, 0)], &[(60, 0), (100, 0)], &EAST),
    // with a corner twice
    (
        &EAST,
        &[(60, 0), (50, 9), (55, 9), (50, 9), (60, 100)],
        &[(50, 9), (55, 9), (50, 9), (60, 100), (60, 0)],
        &[
            (50, 9),
            (55, 9),
            (50, 9),
            (60, 0),
            (100, 0),
            (100, 100),
            (60, 100),
        ],
    ),
];

/// Whether the path of a row cuts its ring into the two that it says.
fn is_cut(alloc: Global, row: &Row) -> Result<bool, Fail> {
    let ring = corners(alloc, row.0)?;
    let path = corners(alloc, row.1)?;
    let left = corners(alloc, row.2)?;
    let right = corners(alloc, row.3)?;
    match split(alloc, ring.as_slice(), path.as_slice()) {
        Ok(rings) => Ok(rings.0 == left && rings.1 == right),
        Err(_) => Ok(false),
    }
}

#[test]
fn cuts(rt: HostRuntime) -> Result<(), Fail> {
    for (number, row) in CUT.iter().enumerate() {
        assert!(rt; is_cut(rt.alloc(), row)?, "row {number}");
    }
    Ok(())
}

/// What the check of a part answers.
fn fault_of(alloc: Global, part: &[Place]) -> Result<Option<RingFault>, Fail> {
    let part = corners(alloc, part)?;
    if part.len() > LIST_CORNERS {
        return Err(Fail::new("more corners than a list may have"));
    }
    match Ring::check(part) {
        Ok(_) => Ok(None),
        Err(fault) => Ok(Some(fault)),
    }
}

/// A part beside a path outside its ring, and one beside a path along it.
#[test]
fn parts_with_a_fault(rt: HostRuntime) -> Result<(), Fail> {
    let outside = [(50, 50), (60, 100), (60, 0)];
    assert_eq!(rt; fault_of(rt.alloc(), &outside)?, Some(RingFault::Clockwise));
    let along = [(60, 0), (100, 0)];
    assert_eq!(rt; fault_of(rt.alloc(), &along)?, Some(RingFault::ZeroArea));
    Ok(())
}

/// A ring, a path, and whether the path is a bad one.
type PathRow = (&'static [Place], &'static [Place], bool);

static PATHS: [PathRow; 8] = [
    (&EAST, &[], true),
    (&EAST, &[(60, 0)], true),
    (&EAST, &[(60, 0), (60, 0)], true),
    (&EAST, &[(60, 0), (70, 50), (80, 50), (60, 0)], true),
    (&EAST, &[(61, 0), (60, 100)], true),
    (&EAST, &[(60, 0), (60, 99)], true),
    (&[], &[(60, 0), (60, 99)], true),
    (&EAST, &[(60, 0), (60, 100)], false),
];

/// Whether the path is told to be a bad one.
fn is_bad(alloc: Global, ring: &[Place], path: &[Place]) -> Result<bool, Fail> {
    let ring = corners(alloc, ring)?;
    let path = corners(alloc, path)?;
    match split(alloc, ring.as_slice(), path.as_slice()) {
        Ok(_) => Ok(false),
        Err(fault) => Ok(fault == EditFault::BadPath),
    }
}

#[test]
fn bad_paths(rt: HostRuntime) -> Result<(), Fail> {
    for (number, (ring, path, want)) in PATHS.iter().enumerate() {
        assert_eq!(rt; is_bad(rt.alloc(), ring, path)?, *want, "row {number}");
    }
    Ok(())
}

/// A path from the first corner of the east to its last, with so many between.
fn long_path(alloc: Global, between: i64) -> Result<Corners<Global>, Fail> {
    let mut path = Corners::new(alloc);
    path.push(corner((60, 0))?)?;
    for y in 0..between {
        path.push(corner((80, y.saturating_add(2)))?)?;
    }
    path.push(corner((60, 100))?)?;
    Ok(path)
}

/// How many corners the parts left and right of such a path have, or why it is refused.
fn cut_long(alloc: Global, between: i64) -> Result<Result<(usize, usize), EditFault>, Fail> {
    let ring = corners(alloc, &EAST)?;
    let path = long_path(alloc, between)?;
    match split(alloc, ring.as_slice(), path.as_slice()) {
        Ok(parts) => Ok(Ok((parts.0.len(), parts.1.len()))),
        Err(fault) => Ok(Err(fault)),
    }
}

#[test]
fn the_longest_path(rt: HostRuntime) -> Result<(), Fail> {
    let longest = cut_long(rt.alloc(), 4094)?;
    assert_eq!(rt; longest, Ok((RING_CORNERS, RING_CORNERS + 2)));
    let longer = cut_long(rt.alloc(), 4095)?;
    assert_eq!(rt; longer, Err(EditFault::BadPath));
    Ok(())
}
