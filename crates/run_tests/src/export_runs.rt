//! Runs of `export`, with edits and failing writers.

use crate::edit_runs::run_files;
use city_layers::Source;
use geo_exact::{Unit, write_coord};
use parcel_runs::export::export;
use std::alloc::{AllocError, Global};
use std::sync::Wait;
use std::test::Fail;
use std::thread::Threads;
use test_layers::{
    BAY, BEYOND, CITY, EAST, Place, WEST, alone, header, index, layer, push_record, run,
};

/// What an export of these files prints, and then the areas of what it answers, read again; or its error.
fn told<R: Threads + Wait + Sync>(
    rt: &R,
    alloc: Global,
    city: Vec<u8>,
    parcels: Vec<u8>,
) -> Result<String, AllocError> {
    let files = run_files(alloc, alone(city), alone(parcels), &[])?;
    match export(rt, 2, &alloc, &files) {
        Ok(exported) => {
            let again = Source {
                main: Vec::from_slice(alloc, &exported.main)?,
                index: Some(Vec::from_slice(alloc, &exported.index)?),
            };
            let lines = String::from_utf8_lossy(alloc, &exported.lines)?;
            let areas = run(alloc, again, Unit::Mm)?;
            format!(in alloc; "{lines}{areas}")
        }
        Err(fault) => format!(in alloc; "error: {fault}"),
    }
}

/// The ring of a city, or no corner for a null shape; the rings of its parcels; and what is printed of their export.
type Row = (&'static [Place], &'static [&'static [Place]], &'static str);

const LOWER: [Place; 4] = [(60, 0), (100, 0), (100, 50), (60, 50)];

const UPPER: [Place; 4] = [(60, 50), (100, 50), (100, 100), (60, 100)];

/// Tilings, of which the third has null shapes between its parcels, which are numbered anew by
/// ascending id; and what is none.
const ROWS: [Row; 12] = [
    (&CITY, &[&WEST, &EAST], "exported 2\n1 12000\n2 8000\n"),
    (
        &CITY,
        &[&WEST, &LOWER, &UPPER],
        "exported 3\n1 12000\n2 4000\n3 4000\n",
    ),
    (
        &CITY,
        &[&[], &UPPER, &[], &[], &WEST, &LOWER, &[]],
        "exported 3\n1 4000\n2 12000\n3 4000\n",
    ),
    (&CITY, &BAY, "exported 3\n1 12800\n2 3600\n3 3600\n"),
    (&CITY, &[&CITY], "exported 1\n1 20000\n"),
    (
        &CITY,
        &[&WEST, &BEYOND],
        "error: parcels: H2 60 0 60 100 net 1",
    ),
    (
        &CITY,
        &[&WEST, &OVER, &END],
        "error: parcels: H2 50 0 50 100 net -1",
    ),
    (&CITY, &[], "error: parcels: H2 0 0 0 100 net 1"),
    (&[], &[&CITY], "error: city: S3 0"),
    (&TWISTED, &[&CITY], "error: city: G1"),
    (&CROSSED, &[&CITY], "error: city: G2 1 3"),
    (&CITY, &[&CROSSED], "error: parcels: H1 1 G2 1 3"),
];

const OVER: [Place; 4] = [(50, 0), (80, 0), (80, 100), (50, 100)];

const END: [Place; 4] = [(90, 0), (100, 0), (100, 100), (90, 100)];

const TWISTED: [Place; 4] = [(0, 0), (100, 100), (100, 0), (0, 100)];

const CROSSED: [Place; 4] = [(0, 0), (100, 100), (100, 0), (0, 60)];

#[test]
fn exports_tilings(rt: HostRuntime) -> Result<(), Fail> {
    let alloc = rt.alloc();
    for (city, parcels, want) in &ROWS {
        let city = layer(alloc, &[*city])?;
        let answer = told(&rt, alloc, city, layer(alloc, parcels)?)?;
        assert_eq!(rt; answer.as_str(), *want);
    }
    Ok(())
}

#[test]
fn writes_rings_with_the_corners_of_their_neighbours(rt: HostRuntime) -> Result<(), Fail> {
    let alloc = rt.alloc();
    let city = alone(layer(alloc, &[&CITY])?);
    let parcels = alone(layer(alloc, &[&WEST, &LOWER, &UPPER])?);
    let files = run_files(alloc, city, parcels, &[])?;
    match export(&rt, 2, &alloc, &files) {
        Ok(exported) => {
            // Clockwise, from the least corner.
            let ring: [Place; 5] = [(0, 0), (0, 100), (60, 100), (60, 50), (60, 0)];
            let points = layer(alloc, &[&ring])?;
            // Behind its box and its counts, the first record has these points.
            assert_eq!(rt; exported.main.get(144..252), points.get(144..252));
            Ok(())
        }
        Err(fault) => Err(Fail::new(fault)),
    }
}
