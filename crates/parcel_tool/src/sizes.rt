//! The area and the extent of a city, in metres.

use city_layers::Source;
use geo_exact::{Corner, Unit, area2};
use shp_files::read_layer;
use std::alloc::{AllocError, Global};
use std::fmt;

/// What the outline of a city measures, where it is one polygon.
pub(crate) fn size_of(
    alloc: Global,
    source: &Source<Global>,
    unit: Unit,
) -> Result<Option<String>, AllocError> {
    let Ok(rings) = read_layer(alloc, source.main.as_slice(), source.index_bytes(), unit) else {
        return Ok(None);
    };
    let Some(ring) = rings.first() else {
        return Ok(None);
    };
    let corners = ring.corners.as_slice();
    let area = SquareMetres(area2(corners).unsigned_abs());
    let Some((west, south, east, north)) = box_of(corners) else {
        return Ok(None);
    };
    let (west, south) = (Metres(west), Metres(south));
    let (east, north) = (Metres(east), Metres(north));
    let text = format!(in alloc;
        "the city has {area} m2, x from {west} to {east} m, y from {south} to {north} m"
    )?;
    Ok(Some(text))
}

/// The least x and y, and the greatest, of corners.
fn box_of(corners: &[Corner]) -> Option<(i64, i64, i64, i64)> {
    let (first, rest) = corners.split_first()?;
    let (mut west, mut south) = (first.x, first.y);
    let (mut east, mut north) = (first.x, first.y);
    for corner in rest {
        west = west.min(corner.x);
        south = south.min(corner.y);
        east = east.max(corner.x);
        north = north.max(corner.y);
    }
    Some((west, south, east, north))
}

/// Millimetres, written in metres.
#[derive(Clone, Copy)]
struct Metres(i64);

impl fmt::Display for Metres {
    fn fmt<W: fmt::Write>(&self, f: &mut fmt::Formatter<W>) -> fmt::Result {
        let sign = if self.0 < 0 { "-" } else { "" };
        let size = self.0.unsigned_abs();
        let (whole, rest) = (size / 1_000, size % 1_000);
        write!(f, "{sign}{whole}.{rest:03}")
    }
}

/// Twice an area in square millimetres, written in square metres.
#[derive(Clone, Copy)]
struct SquareMetres(u128);

impl fmt::Display for SquareMetres {
    fn fmt<W: fmt::Write>(&self, f: &mut fmt::Formatter<W>) -> fmt::Result {
        // Twice a square metre has 2,000,000 square millimetres; five times the rest are ten millionths of one.
        let (whole, rest) = (self.0 / 2_000_000, self.0 % 2_000_000 * 5);
        write!(f, "{whole}.{rest:07}")
    }
}
