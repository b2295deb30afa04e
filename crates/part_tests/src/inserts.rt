//! Corners that are put into edges.

use geo_exact::Corners;
use ring_edits::{insert, is_between, put_into};
use std::alloc::Global;
use std::test::Fail;
use test_builders::{Place, corner, corners};

const WEST: [Place; 4] = [(0, 0), (60, 0), (60, 100), (0, 100)];

/// The same, begun elsewhere.
const WEST_BY_NORTH: [Place; 4] = [(60, 100), (0, 100), (0, 0), (60, 0)];

/// A list that goes along an edge and back.
const THERE_AND_BACK: [Place; 4] = [(60, 0), (0, 0), (60, 0), (60, 100)];

/// Whether the first corner is kept first, a ring, an edge of it with the corner that is put
/// between its ends, and the ring then.
type Row = (
    bool,
    &'static [Place],
    (Place, Place, Place),
    Option<&'static [Place]>,
);

const SOUTH: [Place; 5] = [(0, 0), (30, 0), (60, 0), (60, 100), (0, 100)];

/// With a corner between the last and the first.
const WESTERN: [Place; 5] = [(0, 0), (60, 0), (60, 100), (0, 100), (0, 50)];

const BY_NORTH: [Place; 5] = [(60, 100), (0, 100), (0, 0), (30, 0), (60, 0)];

const BOTH_WAYS: [Place; 6] = [(60, 0), (30, 0), (0, 0), (30, 0), (60, 0), (60, 100)];

const BOTH_WAYS_BEGUN: [Place; 6] = [(0, 0), (30, 0), (60, 0), (60, 100), (60, 0), (30, 0)];

/// The middle of the south edge.
const MIDDLE: (Place, Place, Place) = ((0, 0), (60, 0), (30, 0));

static ROWS: [Row; 20] = [
    (false, &WEST, MIDDLE, Some(&SOUTH)),
    (false, &WEST, ((60, 0), (0, 0), (30, 0)), Some(&SOUTH)),
    (false, &WEST, ((0, 0), (0, 100), (0, 50)), Some(&WESTERN)),
    (false, &WEST, ((0, 100), (0, 0), (0, 50)), Some(&WESTERN)),
    (false, &WEST, ((0, 0), (100, 0), (30, 0)), None),
    (false, &WEST, ((0, 0), (60, 100), (30, 50)), None),
    (false, &WEST, ((0, 0), (0, 0), (0, 0)), None),
    (false, &[], MIDDLE, None),
    (true, &WEST, MIDDLE, Some(&SOUTH)),
    (true, &WEST, ((60, 0), (0, 0), (30, 0)), Some(&SOUTH)),
    (true, &WEST, ((0, 0), (0, 100), (0, 50)), Some(&WESTERN)),
    // where it begins elsewhere, it stays so, and only inserting begins it at its least corner
    (true, &WEST_BY_NORTH, MIDDLE, Some(&BY_NORTH)),
    (false, &WEST_BY_NORTH, MIDDLE, Some(&SOUTH)),
    // an edge that comes twice
    (true, &THERE_AND_BACK, MIDDLE, Some(&BOTH_WAYS)),
    (false, &THERE_AND_BACK, MIDDLE, Some(&BOTH_WAYS_BEGUN)),
    (true, &WEST, ((0, 0), (60, 100), (30, 50)), None),
    (true, &WEST, ((0, 0), (0, 0), (0, 0)), None),
    (true, &[], MIDDLE, None),
    // an edge of no length is none between two corners
    (
        true,
        &[(0, 0), (0, 0), (60, 0), (60, 100)],
        ((0, 0), (0, 0), (30, 0)),
        None,
    ),
    (true, &[(0, 0)], ((0, 0), (0, 0), (30, 0)), None),
];

/// The ring with a corner in it.
fn with_corner(alloc: Global, row: &Row) -> Result<Option<Corners<Global>>, Fail> {
    let ring = corners(alloc, row.1)?;
    let (from, to, at) = row.2;
    let (from, to, at) = (corner(from)?, corner(to)?, corner(at)?);
    if row.0 {
        Ok(put_into(alloc, ring.as_slice(), from, to, at)?)
    } else {
        Ok(insert(alloc, ring.as_slice(), from, to, at)?)
    }
}

/// Whether the ring of a row is then as it says.
fn is_inserted(alloc: Global, row: &Row) -> Result<bool, Fail> {
    match (with_corner(alloc, row)?, row.3) {
        (Some(ring), Some(want)) => Ok(ring == corners(alloc, want)?),
        (found, want) => Ok(found.is_none() && want.is_none()),
    }
}

#[test]
fn into_edges(rt: HostRuntime) -> Result<(), Fail> {
    for (number, row) in ROWS.iter().enumerate() {
        assert!(rt; is_inserted(rt.alloc(), row)?, "row {number}");
    }
    Ok(())
}

/// Whether the third place lies strictly between the first two.
fn lies_between(a: Place, b: Place, at: Place) -> Result<bool, Fail> {
    Ok(is_between(corner(a)?, corner(b)?, corner(at)?))
}

#[test]
fn between_two_corners(rt: HostRuntime) -> Result<(), Fail> {
    let (a, b) = ((0, 0), (60, 30));
    for (from, to, at, want) in [
        (a, b, (20, 10), true),
        (b, a, (20, 10), true),
        (a, b, (20, 11), false),
        (a, b, (80, 40), false),
        (a, b, a, false),
        (a, b, b, false),
        (a, a, a, false),
    ] {
        assert_eq!(rt; lies_between(from, to, at)?, want, "at {} {}", at.0, at.1);
    }
    Ok(())
}
