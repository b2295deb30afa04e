//! Runs of `part`: what one district is written as, that it is the city of its own parcels, what is refused, and that
//! all districts are written as each alone is.

use crate::edit_runs::run_files;
use city_layers::Source;
use geo_exact::{Counted, Unit};
use parcel_runs::check::check;
use parcel_runs::export::Exported;
use parcel_runs::part::{part, parts};
use std::alloc::{AllocError, Global};
use std::sync::Wait;
use std::test::Fail;
use std::thread::Threads;
use test_layers::{BAY, BEYOND, CITY, EAST, Place, WEST, alone, layer};

const LOWER: [Place; 4] = [(60, 0), (100, 0), (100, 50), (60, 50)];

const UPPER: [Place; 4] = [(60, 50), (100, 50), (100, 100), (60, 100)];

/// The west of the city, with the corner that the two parcels in the east share inside its border.
const NODED_WEST: [Place; 5] = [(0, 0), (60, 0), (60, 50), (60, 100), (0, 100)];

/// Parcels of the west, which meet at other places of its border.
const STRIPS: [&[Place]; 2] = [
    &[(0, 0), (60, 0), (60, 30), (0, 30)],
    &[(0, 30), (60, 30), (60, 100), (0, 100)],
];

/// The files that were written, as the source of a layer.
fn source_of(alloc: Global, written: &Exported<&Global>) -> Result<Source<Global>, AllocError> {
    Ok(Source {
        main: Vec::from_slice(alloc, &written.main)?,
        index: Some(Vec::from_slice(alloc, &written.index)?),
    })
}

/// What a check of these parcels in the city that was written prints; or its error.
fn checked<R: Threads + Wait + Sync>(
    rt: &R,
    alloc: Global,
    written: &Exported<&Global>,
    parcels: &[&[Place]],
) -> Result<String, AllocError> {
    let city = source_of(alloc, written)?;
    let parcels = alone(layer(alloc, parcels)?);
    let files = run_files(alloc, city, parcels, &[])?;
    let mut out = Counted::new(Vec::new(alloc));
    match check(rt, 1, &alloc, &files, &mut out) {
        Ok(()) => String::from_utf8_lossy(alloc, out.into_inner().as_slice()),
        Err(fault) => format!(in alloc; "error: {fault}"),
    }
}

/// The ring of a city; the rings of its districts, or no corner for a null shape; the number that is asked for; and
/// what is printed.
type Row = (
    &'static [Place],
    &'static [&'static [Place]],
    u64,
    &'static str,
);

const ROWS: [Row; 11] = [
    (&CITY, &[&WEST, &EAST], 1, "part 1 12000\n"),
    (&CITY, &[&WEST, &EAST], 2, "part 2 8000\n"),
    (&CITY, &BAY, 1, "part 1 12800\n"),
    (&CITY, &[&[], &EAST, &[], &WEST], 4, "part 4 12000\n"),
    (&CITY, &[&CITY], 1, "part 1 20000\n"),
    (&CITY, &[&WEST, &EAST], 0, "error: parcels: H4 0"),
    (&CITY, &[&WEST, &EAST], 3, "error: parcels: H4 3"),
    (&CITY, &[&[], &EAST, &[], &WEST], 3, "error: parcels: H4 3"),
    (
        &CITY,
        &[&WEST, &EAST],
        u64::MAX,
        "error: parcels: H4 18446744073709551615",
    ),
    (
        &CITY,
        &[&WEST, &BEYOND],
        3,
        "error: parcels: H2 60 0 60 100 net 1",
    ),
    (&[], &[&CITY], 2, "error: city: S3 0"),
];

#[test]
fn tells_the_area_or_why_not(rt: HostRuntime) -> Result<(), Fail> {
    let alloc = rt.alloc();
    for (city, districts, id, want) in &ROWS {
        let city = alone(layer(alloc, &[*city])?);
        let districts = alone(layer(alloc, districts)?);
        let told = match part(&rt, 2, &alloc, &city, &districts, Unit::Mm, *id) {
            Ok(written) => String::from_utf8_lossy(alloc, &written.lines)?,
            Err(fault) => format!(in alloc; "error: {fault}")?,
        };
        assert_eq!(rt; told.as_str(), *want);
    }
    Ok(())
}

#[test]
fn writes_the_ring_that_tiled(rt: HostRuntime) -> Result<(), Fail> {
    let alloc = rt.alloc();
    let city = alone(layer(alloc, &[&CITY])?);
    let districts = alone(layer(alloc, &[&TURNED_LOWER, &UPPER, &WEST])?);
    match part(&rt, 1, &alloc, &city, &districts, Unit::Mm, 3) {
        Ok(written) => {
            // Clockwise, from the least corner.
            let ring: [Place; 5] = [(0, 0), (0, 100), (60, 100), (60, 50), (60, 0)];
            let points = layer(alloc, &[&ring])?;
            // Behind its box and its counts, the one record has these points, and nothing is behind them.
            assert_eq!(rt; written.main.get(144..252), points.get(144..252));
            assert_eq!(rt; written.main.len(), 252);
            Ok(())
        }
        Err(fault) => Err(Fail::new(fault)),
    }
}

/// The lower parcel in the east, not begun at its least corner.
const TURNED_LOWER: [Place; 4] = [(100, 50), (60, 50), (60, 0), (100, 0)];

/// Rings of parcels, and what a check of them reports where the west is the city.
const CHECKS: [(&[&[Place]], &str); 3] = [
    (&STRIPS, "tiling 2 12000\n"),
    (&[&NODED_WEST], "tiling 1 12000\n"),
    (&[&LOWER], "error: parcels: H2 0 0 0 100 net 1"),
];

#[test]
fn is_the_city_of_its_own_parcels(rt: HostRuntime) -> Result<(), Fail> {
    let alloc = rt.alloc();
    let city = alone(layer(alloc, &[&CITY])?);
    let districts = alone(layer(alloc, &[&WEST, &LOWER, &UPPER])?);
    match part(&rt, 3, &alloc, &city, &districts, Unit::Mm, 1) {
        Ok(written) => {
            for (parcels, want) in CHECKS {
                let told = checked(&rt, alloc, &written, parcels)?;
                assert_eq!(rt; told.as_str(), want);
            }
            Ok(())
        }
        Err(fault) => Err(Fail::new(fault)),
    }
}

/// Layers of districts, some with null shapes, and the numbers of those that there are.
const LAYERS: [(&[&[Place]], &[u64]); 4] = [
    (&[&WEST, &LOWER, &UPPER], &[1, 2, 3]),
    (&BAY, &[1, 2, 3]),
    (&[&[], &EAST, &[], &WEST], &[2, 4]),
    (&[&CITY], &[1]),
];

#[test]
fn writes_all_as_each_alone(rt: HostRuntime) -> Result<(), Fail> {
    let alloc = rt.alloc();
    let city = alone(layer(alloc, &[&CITY])?);
    for (districts, numbers) in LAYERS {
        let districts = alone(layer(alloc, districts)?);
        for workers in [1, 2, 64] {
            let Ok(all) = parts(&rt, workers, &alloc, &city, &districts, Unit::Mm) else {
                return Err(Fail::new("districts that tile their city"));
            };
            assert_eq!(rt; all.len(), numbers.len());
            for ((id, written), number) in all.iter().zip(numbers) {
                let Ok(single) = part(&rt, 1, &alloc, &city, &districts, Unit::Mm, *number) else {
                    return Err(Fail::new("a district that there is"));
                };
                assert_eq!(rt; *id, *number);
                assert_eq!(rt; written.main.as_slice(), single.main.as_slice());
                assert_eq!(rt; written.index.as_slice(), single.index.as_slice());
                assert_eq!(rt; written.lines.as_slice(), single.lines.as_slice());
            }
        }
    }
    Ok(())
}

/// Layers of which no district is written, and why.
const NO_LAYERS: [(&[Place], &[&[Place]], &str); 3] = [
    (&[], &[&CITY], "city: S3 0"),
    (&CITY, &[&WEST, &BEYOND], "parcels: H2 60 0 60 100 net 1"),
    (&CITY, &[&WEST], "parcels: H2 60 0 60 100 net 1"),
];

#[test]
fn writes_none_of_no_tiling(rt: HostRuntime) -> Result<(), Fail> {
    let alloc = rt.alloc();
    for (city, districts, want) in &NO_LAYERS {
        let city = alone(layer(alloc, &[*city])?);
        let districts = alone(layer(alloc, districts)?);
        let Err(fault) = parts(&rt, 2, &alloc, &city, &districts, Unit::Mm) else {
            return Err(Fail::new(*want));
        };
        assert_eq!(rt; format!(in alloc; "{fault}")?.as_str(), *want);
    }
    Ok(())
}
