//! Neighbours with the border between them: told, dropped or moved.

use geo_exact::Corners;
use ring_edits::{EditFault, merge, shared_run, shift};
use std::alloc::Global;
use std::test::Fail;
use test_builders::{Place, corners, simple_ring};

const WEST: [Place; 4] = [(0, 0), (60, 0), (60, 100), (0, 100)];

const EAST: [Place; 4] = [(60, 0), (100, 0), (100, 100), (60, 100)];

/// An east with a corner on the border.
const EAST_WITH_FIVE: [Place; 5] = [(60, 0), (100, 0), (100, 100), (60, 100), (60, 50)];

const WEST_WITH_FIVE: [Place; 5] = [(0, 0), (60, 0), (60, 50), (60, 100), (0, 100)];

/// A U round two that stand side by side in it.
const ROUND: [Place; 10] = [
    (0, 0),
    (100, 0),
    (100, 20),
    (70, 20),
    (40, 20),
    (40, 80),
    (70, 80),
    (100, 80),
    (100, 100),
    (0, 100),
];

const INNER: [Place; 4] = [(40, 20), (70, 20), (70, 80), (40, 80)];

const OUTER: [Place; 4] = [(70, 20), (100, 20), (100, 80), (70, 80)];

/// Two that share an edge, and touch in their least corner.
const LOWER: [Place; 5] = [(0, 0), (100, -50), (100, 0), (50, 0), (40, -5)];

const UPPER: [Place; 5] = [(0, 0), (40, 5), (50, 0), (100, 0), (100, 50)];

/// Where the run that two rings share begins and ends, or why there is none.
type Border = Result<(Place, Place), EditFault>;

/// Two rings, and their border.
type BorderRow = (&'static [Place], &'static [Place], Border);

static BORDERS: [BorderRow; 14] = [
    (&WEST, &EAST, Ok(((60, 0), (60, 100)))),
    (&EAST, &WEST, Ok(((60, 100), (60, 0)))),
    (&WEST_WITH_FIVE, &EAST_WITH_FIVE, Ok(((60, 0), (60, 100)))),
    (&EAST_WITH_FIVE, &WEST_WITH_FIVE, Ok(((60, 100), (60, 0)))),
    (&LOWER, &UPPER, Ok(((100, 0), (50, 0)))),
    (&ROUND, &INNER, Ok(((70, 20), (70, 80)))),
    (&INNER, &ROUND, Ok(((70, 80), (70, 20)))),
    // a run round the place where the list begins
    (
        &[(60, 50), (60, 100), (0, 100), (0, 0), (60, 0)],
        &EAST_WITH_FIVE,
        Ok(((60, 0), (60, 100))),
    ),
    (&WEST, &WEST, Err(EditFault::NotNeighbours)),
    (&WEST, &EAST_WITH_FIVE, Err(EditFault::NotNeighbours)),
    (&[], &EAST, Err(EditFault::NotNeighbours)),
    (&ROUND, &OUTER, Err(EditFault::SharedTwice)),
    (&OUTER, &ROUND, Err(EditFault::SharedTwice)),
    // all edges: a run that begins nowhere
    (
        &WEST,
        &[(0, 0), (0, 100), (60, 100), (60, 0)],
        Err(EditFault::SharedTwice),
    ),
];

fn border(alloc: Global, a: &[Place], b: &[Place]) -> Result<Border, Fail> {
    let a = corners(alloc, a)?;
    let b = corners(alloc, b)?;
    match shared_run(a.as_slice(), b.as_slice()) {
        Ok(run) => Ok(Ok(((run.from.x, run.from.y), (run.to.x, run.to.y)))),
        Err(fault) => Ok(Err(fault)),
    }
}

#[test]
fn runs(rt: HostRuntime) -> Result<(), Fail> {
    for (number, (a, b, want)) in BORDERS.iter().enumerate() {
        assert_eq!(rt; border(rt.alloc(), a, b)?, *want, "row {number}");
    }
    Ok(())
}

/// Two rings, and the ring that they are merged to.
type MergeRow = (
    &'static [Place],
    &'static [Place],
    Result<&'static [Place], EditFault>,
);

const BOTH: [Place; 6] = [(0, 0), (60, 0), (100, 0), (100, 100), (60, 100), (0, 100)];

const LOWER_FIRST: [Place; 8] = [
    (0, 0),
    (100, -50),
    (100, 0),
    (100, 50),
    (0, 0),
    (40, 5),
    (50, 0),
    (40, -5),
];

const UPPER_FIRST: [Place; 8] = [
    (0, 0),
    (40, 5),
    (50, 0),
    (40, -5),
    (0, 0),
    (100, -50),
    (100, 0),
    (100, 50),
];

static MERGES: [MergeRow; 7] = [
    (&WEST, &EAST, Ok(&BOTH)),
    (&EAST, &WEST, Ok(&BOTH)),
    // the corner on the border goes
    (&WEST_WITH_FIVE, &EAST_WITH_FIVE, Ok(&BOTH)),
    (&WEST, &WEST, Err(EditFault::NotNeighbours)),
    (&ROUND, &OUTER, Err(EditFault::SharedTwice)),
    // the least corner stands twice
    (&LOWER, &UPPER, Ok(&LOWER_FIRST)),
    (&UPPER, &LOWER, Ok(&UPPER_FIRST)),
];

/// Whether a ring's corners are at these places, in order.
fn are_at(ring: &Corners<Global>, places: &[Place]) -> bool {
    ring.len() == places.len()
        && ring.as_slice().iter().zip(places).all(|(corner, place)| corner.x == place.0
            && corner.y == place.1)
}

/// Whether the rings of a row are merged as it says.
fn is_merged(alloc: Global, row: &MergeRow) -> Result<bool, Fail> {
    let a = simple_ring(alloc, row.0)?;
    let b = simple_ring(alloc, row.1)?;
    let merged = merge(alloc, a.corners.as_slice(), b.corners.as_slice());
    match (merged, row.2) {
        (Ok(ring), Ok(want)) => Ok(are_at(&ring, want)),
        (Err(fault), Err(want)) => Ok(fault == want),
        _ => Ok(false),
    }
}

#[test]
fn merges(rt: HostRuntime) -> Result<(), Fail> {
    for (number, row) in MERGES.iter().enumerate() {
        assert!(rt; is_merged(rt.alloc(), row)?, "row {number}");
    }
    Ok(())
}

/// Two rings, the path that their border is moved to, and the rings then.
type MoveRow = (
    &'static [Place],
    &'static [Place],
    &'static [Place],
    Result<(&'static [Place], &'static [Place]), EditFault>,
);

const WESTWARD: [Place; 3] = [(60, 0), (40, 50), (60, 100)];

const REVERSED: [Place; 3] = [(60, 100), (40, 50), (60, 0)];

const LESS: [Place; 5] = [(0, 0), (60, 0), (40, 50), (60, 100), (0, 100)];

const MORE: [Place; 5] = [(40, 50), (60, 0), (100, 0), (100, 100), (60, 100)];

static MOVES: [MoveRow; 9] = [
    (&WEST, &EAST, &WESTWARD, Ok((&LESS, &MORE))),
    // straightened: the corner on the old border goes
    (
        &EAST_WITH_FIVE,
        &WEST_WITH_FIVE,
        &[(60, 100), (60, 0)],
        Ok((&EAST, &WEST)),
    ),
    (&WEST, &EAST, &REVERSED, Err(EditFault::BadPath)),
    (&WEST, &EAST, &[], Err(EditFault::BadPath)),
    (&WEST, &EAST, &[(60, 0)], Err(EditFault::BadPath)),
    (&WEST, &EAST, &[(60, 0), (60, 50)], Err(EditFault::BadPath)),
    (&WEST, &EAST, &[(0, 0), (60, 100)], Err(EditFault::BadPath)),
    // a bad path beside no border: the border is looked for first
    (&WEST, &WEST, &REVERSED, Err(EditFault::NotNeighbours)),
    (&ROUND, &OUTER, &REVERSED, Err(EditFault::SharedTwice)),
];

/// Whether the border of a row's rings is moved as it says.
fn is_moved(alloc: Global, row: &MoveRow) -> Result<bool, Fail> {
    let a = simple_ring(alloc, row.0)?;
    let b = simple_ring(alloc, row.1)?;
    let path = corners(alloc, row.2)?;
    let moved = shift(
        alloc,
        a.corners.as_slice(),
        b.corners.as_slice(),
        path.as_slice(),
    );
    match (moved, row.3) {
        (Ok(rings), Ok(want)) => { Ok(are_at(&rings.0, want.0) && are_at(&rings.1, want.1)) }
        (Err(fault), Err(want)) => Ok(fault == want),
        _ => Ok(false),
    }
}

#[test]
fn moves(rt: HostRuntime) -> Result<(), Fail> {
    for (number, row) in MOVES.iter().enumerate() {
        assert!(rt; is_moved(rt.alloc(), row)?, "row {number}");
    }
    Ok(())
}
