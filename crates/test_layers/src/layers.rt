//! Layers of a few polygons for tests.

use crate::file_bytes::{header, push_record};
use city_layers::Source;
use geo_exact::write_coord;
use std::alloc::{AllocError, Global};

/// A place, in millimetres.
pub type Place = (u16, u16);

/// The city of most rows.
pub const CITY: [Place; 4] = [(0, 0), (100, 0), (100, 100), (0, 100)];

/// The rectangle from x = 0 to 60 in it.
pub const WEST: [Place; 4] = [(0, 0), (60, 0), (60, 100), (0, 100)];

/// The rectangle beside the western one.
pub const EAST: [Place; 4] = [(60, 0), (100, 0), (100, 100), (60, 100)];

/// A rectangle that is not beside the western one: there is a gap between them.
pub const BEYOND: [Place; 4] = [(61, 0), (100, 0), (100, 100), (61, 100)];

/// Three parcels, of which the second and the third lie in a bay of the first.
pub const BAY: [&[Place]; 3] = [
    &[
        (0, 0),
        (100, 0),
        (100, 20),
        (40, 20),
        (40, 80),
        (100, 80),
        (100, 100),
        (0, 100),
    ],
    &[(40, 20), (70, 20), (70, 80), (40, 80)],
    &[(70, 20), (100, 20), (100, 80), (70, 80)],
];

/// A source of a main file alone.
pub fn alone(main: Vec<u8>) -> Source<Global> {
    Source { main, index: None }
}

/// A main file with a record for each ring, or a null shape for a ring of no corners.
pub fn layer(alloc: Global, rings: &[&[Place]]) -> Result<Vec<u8>, AllocError> {
    let mut records = Vec::new(alloc);
    for (k, ring) in rings.iter().enumerate() {
        push_ring(
            alloc,
            &mut records,
            u32::try_from(k).unwrap_or(0).wrapping_add(1),
            ring,
        )?;
    }
    let words = u32::try_from(records.len() / 2).unwrap_or(0);
    let mut file = header(alloc, words.wrapping_add(50), [0; 4])?;
    file.extend_from_slice(&records)?;
    Ok(file)
}

/// The record of this number.
fn push_ring(
    alloc: Global,
    file: &mut Vec<u8>,
    number: u32,
    ring: &[Place],
) -> Result<(), AllocError> {
    let Some(first) = ring.first() else {
        file.extend_from_slice(&number.to_be_bytes())?;
        file.extend_from_slice(&2u32.to_be_bytes())?;
        return file.extend_from_slice(&[0; 4]);
    };
    let mut points = Vec::new(alloc);
    for (x, y) in ring {
        points.push((write_coord(i64::from(*x)), write_coord(i64::from(*y))))?;
    }
    points.push((
        write_coord(i64::from(first.0)),
        write_coord(i64::from(first.1)),
    ))?;
    let count = u32::try_from(points.len()).unwrap_or(0);
    push_record(
        file,
        number,
        24u32.wrapping_add(8u32.wrapping_mul(count)),
        &points,
    )
}
