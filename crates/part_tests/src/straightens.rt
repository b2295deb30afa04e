//! Corners that are taken out of rings, and where rings bend.

use geo_exact::Corners;
use ring_edits::{is_bent, straighten, take_out};
use std::alloc::Global;
use std::test::Fail;
use test_builders::{Place, corner, corners};

const WEST: [Place; 4] = [(0, 0), (60, 0), (60, 100), (0, 100)];

/// With a corner on its south edge, as it is begun at its least corner, elsewhere, and at that corner.
const SOUTH: [Place; 5] = [(0, 0), (30, 0), (60, 0), (60, 100), (0, 100)];

const BY_NORTH: [Place; 5] = [(60, 100), (0, 100), (0, 0), (30, 0), (60, 0)];

const FROM_SOUTH: [Place; 5] = [(30, 0), (60, 0), (60, 100), (0, 100), (0, 0)];

/// With a corner between the last and the first.
const WESTERN: [Place; 5] = [(0, 0), (60, 0), (60, 100), (0, 100), (0, 50)];

/// A list that goes along an edge and back, with a corner in it both times.
const BOTH_WAYS: [Place; 6] = [(60, 0), (30, 0), (0, 0), (30, 0), (60, 0), (60, 100)];

/// Whether the ring is not begun anew, a ring, a corner, and the ring without it, where it has it.
type Row = (bool, &'static [Place], Place, Option<&'static [Place]>);

static ROWS: [Row; 15] = [
    (false, &SOUTH, (30, 0), Some(&WEST)),
    (true, &SOUTH, (30, 0), Some(&WEST)),
    (false, &WESTERN, (0, 50), Some(&WEST)),
    // where it begins elsewhere, only straightening begins it at its least corner
    (false, &BY_NORTH, (30, 0), Some(&WEST)),
    (
        true,
        &BY_NORTH,
        (30, 0),
        Some(&[(60, 100), (0, 100), (0, 0), (60, 0)]),
    ),
    (false, &FROM_SOUTH, (30, 0), Some(&WEST)),
    (
        true,
        &FROM_SOUTH,
        (30, 0),
        Some(&[(60, 0), (60, 100), (0, 100), (0, 0)]),
    ),
    // a corner that comes twice
    (
        true,
        &BOTH_WAYS,
        (30, 0),
        Some(&[(60, 0), (0, 0), (60, 0), (60, 100)]),
    ),
    (
        false,
        &BOTH_WAYS,
        (30, 0),
        Some(&[(0, 0), (60, 0), (60, 100), (60, 0)]),
    ),
    // whether it bends there is not looked at
    (false, &WEST, (60, 0), Some(&[(0, 0), (60, 100), (0, 100)])),
    (true, &[(5, 6)], (5, 6), Some(&[])),
    // no such corner
    (false, &WEST, (30, 0), None),
    (true, &WEST, (30, 0), None),
    (false, &[], (0, 0), None),
    (true, &[(5, 6)], (6, 5), None),
];

/// The ring of a row without the corner.
fn without_corner(alloc: Global, row: &Row) -> Result<Option<Corners<Global>>, Fail> {
    let ring = corners(alloc, row.1)?;
    let at = corner(row.2)?;
    if row.0 {
        Ok(take_out(alloc, ring.as_slice(), at)?)
    } else {
        Ok(straighten(alloc, ring.as_slice(), at)?)
    }
}

/// Whether it is as the row says.
fn is_taken_out(alloc: Global, row: &Row) -> Result<bool, Fail> {
    match (without_corner(alloc, row)?, row.3) {
        (Some(ring), Some(want)) => Ok(ring == corners(alloc, want)?),
        (found, want) => Ok(found.is_none() && want.is_none()),
    }
}

#[test]
fn out_of_rings(rt: HostRuntime) -> Result<(), Fail> {
    for (number, row) in ROWS.iter().enumerate() {
        assert!(rt; is_taken_out(rt.alloc(), row)?, "row {number}");
    }
    Ok(())
}

/// Rings, a corner, and whether the ring bends there.
static BENDS: [(&[Place], Place, bool); 14] = [
    (&SOUTH, (30, 0), false),
    (&SOUTH, (60, 0), true),
    (&SOUTH, (0, 0), true),
    (&SOUTH, (0, 100), true),
    // the first corner, and the last
    (&FROM_SOUTH, (30, 0), false),
    (&WESTERN, (0, 50), false),
    // a slanting edge, and a corner just beside it
    (&[(0, 0), (40, 20), (60, 30), (0, 100)], (40, 20), false),
    (&[(0, 0), (40, 21), (60, 30), (0, 100)], (40, 21), true),
    // no such corner
    (&SOUTH, (60, 50), false),
    (&[], (0, 0), false),
    // straight where the corner comes first, and not where it comes again
    (
        &[(0, 0), (30, 0), (60, 0), (60, 100), (30, 0), (0, 100)],
        (30, 0),
        true,
    ),
    // on the line of its neighbours, but not between them
    (&[(0, 0), (60, 0), (30, 0), (30, 100)], (60, 0), true),
    (
        &[(0, 0), (30, 0), (30, 0), (60, 0), (60, 100)],
        (30, 0),
        true,
    ),
    (&BOTH_WAYS, (0, 0), true),
];

#[test]
fn where_rings_bend(rt: HostRuntime) -> Result<(), Fail> {
    for (number, (ring, at, want)) in BENDS.iter().enumerate() {
        let ring = corners(rt.alloc(), *ring)?;
        assert_eq!(rt;
            is_bent(ring.as_slice(), corner(*at)?),
            *want,
            "row {number}"
        );
    }
    Ok(())
}
