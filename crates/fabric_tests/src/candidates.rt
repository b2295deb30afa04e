//! Which parcels stand in the cells between two corners.

use fabric_core::Layer;
use std::alloc::{AllocError, Allocator};
use std::test::Fail;
use test_builders::{Place, corner};
use test_cities::{EAST, SQUARE, WEST, layer};

/// Two places, and the candidates between them.
type Between = (Place, Place, &'static [u64]);

/// The rings in the city, and what is between places.
type Row = (&'static [&'static [Place]], &'static [Between]);

static ROWS: [Row; 2] = [
    (
        &[&WEST, &EAST],
        &[
            ((0, 0), (10, 10), &[1]),
            ((50, 0), (59, 100), &[1]),
            ((60, 0), (60, 0), &[1, 2]),
            ((61, 5), (61, 5), &[1, 2]),
            ((62, 0), (100, 100), &[2]),
            ((200, 200), (300, 300), &[2]),
            ((-300, -300), (-200, -200), &[1]),
            ((-300, -300), (300, 300), &[1, 2]),
        ],
    ),
    (
        &[&[], &EAST, &[], &WEST],
        &[((0, 0), (100, 100), &[2, 4]), ((0, 0), (59, 0), &[4])],
    ),
];

/// What the candidates between two places are answered as.
pub fn between<'a, H: Allocator>(
    layer: &Layer<'a, H>,
    low: Place,
    high: Place,
) -> Result<Result<Vec<u64, &'a H>, AllocError>, Fail> {
    let (low, high) = (corner(low)?, corner(high)?);
    if low.x > high.x || low.y > high.y {
        return Err(Fail::new("no box"));
    }
    Ok(layer.candidates(low, high))
}

/// How many candidates of a row are found as it says, from the first on.
fn count_found<H: Allocator>(heap: &H, row: &Row) -> Result<usize, Fail> {
    let layer = layer(heap, &SQUARE, row.0)?;
    let mut count = 0usize;
    for (low, high, want) in row.1 {
        if between(&layer, *low, *high)??.as_slice() != *want {
            break;
        }
        count = count.wrapping_add(1);
    }
    Ok(count)
}

#[test]
fn finds_candidates(rt: HostRuntime) -> Result<(), Fail> {
    let heap = &rt.alloc();
    for (number, row) in ROWS.iter().enumerate() {
        assert!(rt; count_found(heap, row)? == row.1.len(), "row {number}");
    }
    Ok(())
}
