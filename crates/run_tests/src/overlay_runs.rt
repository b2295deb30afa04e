//! What overlays of the two rectangles with zones print.

use crate::edit_runs::{FIVE, FIVE_TOLD, run_files};
use geo_exact::Counted;
use parcel_runs::overlay::overlay;
use std::alloc::{AllocError, Global};
use std::sync::Wait;
use std::test::Fail;
use std::thread::Threads;
use test_layers::{CITY, EAST, Place, WEST, alone, layer};

/// The halves of the city.
pub const HALVES: [&[Place]; 2] = [
    &[(0, 0), (50, 0), (50, 100), (0, 100)],
    &[(50, 0), (100, 0), (100, 100), (50, 100)],
];

/// What four workers print for the two rectangles and these zones, with clerks' files of these
/// texts, on whichever stream.
fn told<R: Threads + Wait + Sync>(
    rt: &R,
    alloc: Global,
    zones: &[&[Place]],
    texts: &[&str],
) -> Result<String, AllocError> {
    let city = alone(layer(alloc, &[&CITY])?);
    let parcels = alone(layer(alloc, &[&WEST, &EAST])?);
    let zones = alone(layer(alloc, zones)?);
    let files = run_files(alloc, city, parcels, texts)?;
    let mut out = Counted::new(Vec::new(alloc));
    match overlay(rt, 4, &alloc, &files, &zones, &mut out) {
        Ok(()) => String::from_utf8_lossy(alloc, out.into_inner().as_slice()),
        Err(fault) => format!(in alloc; "error: {fault}"),
    }
}

#[test]
fn tells_overlays(rt: HostRuntime) -> Result<(), Fail> {
    let halved = "entries 0\npair 1 1\npair 1 2\npair 2 2\nsplit 1\nwithin 2 2\n";
    let same = "entries 0\npair 1 1\npair 2 2\nwithin 1 1\nwithin 2 2\n";
    let alike: [&[Place]; 2] = [&WEST, &EAST];
    let west: [&[Place]; 1] = [&WEST];
    for (zones, want) in [
        (HALVES.as_slice(), halved),
        (alike.as_slice(), same),
        (west.as_slice(), "error: zones: H2 60 0 60 100 net 1"),
    ] {
        assert_eq!(rt; told(&rt, rt.alloc(), zones, &[])?.as_str(), want);
    }
    Ok(())
}

#[test]
fn overlays_what_clerks_edited(rt: HostRuntime) -> Result<(), Fail> {
    let lines = told(&rt, rt.alloc(), &HALVES, &[FIVE])?;
    let report = "entries 4\npair 2 2\npair 5 1\npair 5 2\nsplit 5\nwithin 2 2\n";
    let want = format!(in rt.alloc(); "{FIVE_TOLD}{report}")?;
    assert_eq!(rt; lines.as_str(), want.as_str());
    Ok(())
}
