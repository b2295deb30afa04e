//! Where corners lie among the parcels of a layer.

use fabric_core::{At, Layer};
use geo_exact::LIMIT;
use std::alloc::Allocator;
use std::test::Fail;
use test_builders::{Place, corner};
use test_cities::{EAST, SQUARE, WEST, layer};

/// Where a place is: on the edges of these parcels; or inside the one; or, where there is none, outside.
type Where = (&'static [u64], Option<u64>);

/// A city's ring, the rings in it, and where places are among them.
type Row = (
    &'static [Place],
    &'static [&'static [Place]],
    &'static [(Place, Where)],
);

const LOW: i64 = -LIMIT;

const HIGH: i64 = LIMIT;

const WIDEST: [Place; 4] = [(LOW, LOW), (HIGH, LOW), (HIGH, HIGH), (LOW, HIGH)];

const BELOW: [Place; 3] = [(LOW, LOW), (HIGH, LOW), (HIGH, HIGH)];

const ABOVE: [Place; 3] = [(LOW, LOW), (HIGH, HIGH), (LOW, HIGH)];

/// A parcel round two others.
const ROUND: [Place; 8] = [
    (0, 0),
    (100, 0),
    (100, 20),
    (40, 20),
    (40, 80),
    (100, 80),
    (100, 100),
    (0, 100),
];

const NEAR: [Place; 4] = [(40, 20), (70, 20), (70, 80), (40, 80)];

const FAR: [Place; 4] = [(70, 20), (100, 20), (100, 80), (70, 80)];

static ROWS: [Row; 3] = [
    (
        &SQUARE,
        &[&WEST, &EAST],
        &[
            ((0, 0), (&[1], None)),
            ((60, 0), (&[1, 2], None)),
            ((60, 50), (&[1, 2], None)),
            ((59, 50), (&[], Some(1))),
            ((61, 50), (&[], Some(2))),
            ((100, 101), (&[], None)),
            ((-1, 50), (&[], None)),
        ],
    ),
    (
        &WIDEST,
        &[&BELOW, &ABOVE],
        &[
            ((0, 0), (&[1, 2], None)),
            ((1, 0), (&[], Some(1))),
            ((LOW, HIGH), (&[2], None)),
        ],
    ),
    (
        &SQUARE,
        &[&ROUND, &NEAR, &FAR],
        &[
            ((40, 50), (&[1, 2], None)),
            ((70, 20), (&[1, 2, 3], None)),
            ((50, 50), (&[], Some(2))),
            ((30, 50), (&[], Some(1))),
            ((101, 50), (&[], None)),
        ],
    ),
];

/// Whether a place is located there.
fn is_at<H: Allocator>(layer: &Layer<'_, H>, place: Place, want: Where) -> Result<bool, Fail> {
    match layer.locate(corner(place)?)? {
        At::OnEdge(ids) => Ok(!ids.is_empty() && ids.as_slice() == want.0 && want.1.is_none()),
        At::Inside(id) => Ok(want.0.is_empty() && want.1 == Some(id)),
        At::Outside => Ok(want.0.is_empty() && want.1.is_none()),
    }
}

/// How many places of a row are located where it says, from the first on.
fn count_located<H: Allocator>(heap: &H, row: &Row) -> Result<usize, Fail> {
    let layer = layer(heap, row.0, row.1)?;
    let mut count = 0usize;
    for (place, want) in row.2 {
        if !is_at(&layer, *place, *want)? {
            break;
        }
        count = count.wrapping_add(1);
    }
    Ok(count)
}

#[test]
fn locates_corners(rt: HostRuntime) -> Result<(), Fail> {
    let heap = &rt.alloc();
    for (number, row) in ROWS.iter().enumerate() {
        assert!(rt; count_located(heap, row)? == row.2.len(), "row {number}");
    }
    Ok(())
}
