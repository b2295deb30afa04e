//! Hints on the files of layers, which are read again.

use crate::doubles::{double_at, exact_decimal, little_at};
use crate::extents::looks_like_degrees;
use crate::known::Known;
use crate::named::{path_of, unit_of, word_of};
use crate::outputs::is_regular;
use city_layers::{Disk, Role, Source, read_source};
use geo_exact::{CoordFault, LAYER_CORNERS, LAYER_RECORDS, RING_CORNERS, Unit};
use shp_files::{FaultKind, FileFault, FileName, read_layer};
use std::alloc::{AllocError, Global};
use std::rt::Files;
use tool_arguments::Request;

/// What to do about a layer that is too large.
const IN_DISTRICTS: &str = "check it by the Python package, which cuts it into districts";

/// What is known of the first fault of a layer's files: of a coordinate what the file has there, and in which unit all
/// are on the grid, or whether they look like degrees; of what is too many, what that is.
pub(crate) fn known_of_file<R: Files>(
    rt: &R,
    alloc: Global,
    named: (&str, Option<Unit>),
    fault: &FileFault,
) -> Result<Known, AllocError> {
    let (path, Some(unit)) = named else {
        return Ok(Known::Nothing);
    };
    let Some(source) = read_again(rt, alloc, path) else {
        return Ok(Known::Nothing);
    };
    match fault.kind {
        FaultKind::Coord(CoordFault::OffGrid) | FaultKind::Coord(CoordFault::TooFar) => {
            known_of_coordinate(alloc, (path, unit), &source, fault.place)
        }
        FaultKind::TooMany if fault.file == FileName::Main => {
            known_of_many(alloc, source.main.as_slice(), fault)
        }
        _ => Ok(Known::Nothing),
    }
}

/// The files of a layer, read again. A pipe has been read to its end, and is not opened once more.
fn read_again<R: Files>(rt: &R, alloc: Global, path: &str) -> Option<Source<Global>> {
    if !is_regular(rt, path) {
        return None;
    }
    read_source(&Disk(rt), alloc, path).ok()
}

/// What is known of a coordinate at a byte that is off the grid or too far away.
fn known_of_coordinate(
    alloc: Global,
    named: (&str, Unit),
    source: &Source<Global>,
    place: u64,
) -> Result<Known, AllocError> {
    let (path, unit) = named;
    let likely = likely_of(alloc, source, unit)?;
    let known = match number_at(alloc, source.main.as_slice(), place)? {
        Some(number) => format!(in alloc; "{path} has {number} there{likely}")?,
        None => format!(in alloc; "it is in {path}{likely}")?,
    };
    Ok(Known::Cause(known))
}

/// What a main file has too many of: records, corners in a ring, or corners in all.
fn known_of_many(alloc: Global, main: &[u8], fault: &FileFault) -> Result<Known, AllocError> {
    let record = fault.position;
    if record > LAYER_RECORDS {
        let most = LAYER_RECORDS;
        let known = format!(in alloc; "the layer has more than {most} records")?;
        return Ok(Known::Mend(known, IN_DISTRICTS));
    }
    let Some(points) = little_at(main, fault.place as usize) else {
        return Ok(Known::Nothing);
    };
    // The last point is the first again.
    let corners = points.saturating_sub(1);
    if corners as usize > RING_CORNERS {
        let most = RING_CORNERS;
        let known = format!(in alloc;
            "record {record} has a ring of {corners} corners, and {most} are the most"
        )?;
        return Ok(Known::Mend(known, "cut the polygon into several"));
    }
    let most = LAYER_CORNERS;
    let known = format!(in alloc; "the layer has more than {most} corners")?;
    Ok(Known::Mend(known, IN_DISTRICTS))
}

/// The number at a byte of a file, with all its digits, where it is none that is whole.
fn number_at(alloc: Global, file: &[u8], place: u64) -> Result<Option<String>, AllocError> {
    match double_at(file, place as usize) {
        Some(bits) => exact_decimal(alloc, bits),
        None => Ok(None),
    }
}

/// In which unit all coordinates of a layer are on the grid, or that they look like degrees.
fn likely_of(alloc: Global, source: &Source<Global>, unit: Unit) -> Result<String, AllocError> {
    for other in [Unit::M, Unit::Cm, Unit::Mm] {
        if other != unit
            && read_layer(alloc, source.main.as_slice(), source.index_bytes(), other).is_ok()
        {
            let word = word_of(other);
            return format!(in alloc;
                ", and with --unit {word} all its coordinates are on the grid"
            );
        }
    }
    if looks_like_degrees(source.main.as_slice()) {
        format!(in alloc; ", and all its coordinates could be degrees: project the layer first")
    } else {
        format!(in alloc; "")
    }
}

/// Which file was given as the city, and which other one has a single polygon.
pub(crate) fn known_of_city<R: Files>(
    rt: &R,
    alloc: Global,
    request: &Request<'_>,
    count: usize,
) -> Result<Known, AllocError> {
    let (Some(city), Some(unit)) = (path_of(request, Role::City), unit_of(request)) else {
        return Ok(Known::Nothing);
    };
    for role in [Role::Parcels, Role::Zones] {
        if let Some(path) = path_of(request, role) {
            if is_single(rt, alloc, path, unit) {
                let known = format!(in alloc;
                    "{city} was given as the city, with {count} polygons; {path}, given as the {role}, has one"
                )?;
                return Ok(Known::Cause(known));
            }
        }
    }
    let known = format!(in alloc; "{city} was given as the city, with {count} polygons")?;
    Ok(Known::Cause(known))
}

/// Whether the layer at a path has one polygon.
fn is_single<R: Files>(rt: &R, alloc: Global, path: &str, unit: Unit) -> bool {
    let Some(source) = read_again(rt, alloc, path) else {
        return false;
    };
    match read_layer(alloc, source.main.as_slice(), source.index_bytes(), unit) {
        Ok(rings) => rings.len() == 1,
        Err(_) => false,
    }
}
