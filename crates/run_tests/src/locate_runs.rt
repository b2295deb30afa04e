//! Where points lie among parcels, as a run reports it.

use crate::edit_runs::run_files;
use city_layers::ToolFault;
use geo_exact::{Corner, Counted, FailAt, LIMIT, Unit};
use parcel_runs::locate::{locate, locate_text};
use std::alloc::{AllocError, Global};
use std::sync::Wait;
use std::test::Fail;
use std::thread::Threads;
use test_layers::{
    BAY, BEYOND, ByteByByte, CITY, EAST, FARTHEST, Place, WEST, alone, layer, square,
};

/// What a run over these main files and this text of points prints, on whichever stream.
pub fn told<R: Threads + Wait + Sync>(
    rt: &R,
    alloc: Global,
    city: Vec<u8>,
    parcels: Vec<u8>,
    points: &[u8],
) -> Result<String, AllocError> {
    let files = run_files(alloc, alone(city), alone(parcels), &[])?;
    let mut out = Counted::new(Vec::new(alloc));
    match locate_text(rt, 2, &alloc, &files, points, &mut out) {
        Ok(()) => String::from_utf8_lossy(alloc, out.into_inner().as_slice()),
        Err(fault) => {
            let printed = String::from_utf8_lossy(alloc, out.into_inner().as_slice())?;
            format!(in alloc; "{printed}error: {fault}")
        }
    }
}

/// The same among the two rectangles.
pub fn told_of_two<R: Threads + Wait + Sync>(
    rt: &R,
    alloc: Global,
    points: &[u8],
) -> Result<String, AllocError> {
    told(
        rt,
        alloc,
        layer(alloc, &[&CITY])?,
        layer(alloc, &[&WEST, &EAST])?,
        points,
    )
}

/// The ring of a city, or no corner for a null shape; the rings of its parcels; how many bytes of
/// their file there are; points; and what is reported of them.
type Row = (
    &'static [Place],
    &'static [&'static [Place]],
    usize,
    &'static str,
    &'static str,
);

/// The bytes of a file that is not torn.
const WHOLE: usize = usize::MAX;

/// Points of all kinds; and that the city is refused before the parcels, and these before the points.
const ROWS: [Row; 6] = [
    (
        &CITY,
        &[&WEST, &EAST],
        WHOLE,
        "0 0\n60 0\n60 50\n61 50\n100 101\n",
        "0 0 edge 1\n60 0 edge 1 2\n60 50 edge 1 2\n61 50 inside 2\n100 101 outside\n",
    ),
    (
        &CITY,
        &BAY,
        WHOLE,
        "40 50\n101 50\n50 50\n70 20\n100 100",
        "40 50 edge 1 2\n101 50 outside\n50 50 inside 2\n70 20 edge 1 2 3\n100 100 edge 1\n",
    ),
    (&[], &[&WEST, &BEYOND], WHOLE, "x", "error: city: S3 0"),
    (
        &CITY,
        &[&WEST, &EAST],
        99,
        "x",
        "error: parcels: F1 main record 0 at 99",
    ),
    (
        &CITY,
        &[&WEST, &BEYOND],
        WHOLE,
        "x",
        "error: parcels: H2 60 0 60 100 net 1",
    ),
    (
        &CITY,
        &[&WEST, &EAST],
        WHOLE,
        "0 0\nx",
        "error: points: L1 2",
    ),
];

#[test]
fn tells_where_points_lie(rt: HostRuntime) -> Result<(), Fail> {
    let alloc = rt.alloc();
    for (city, parcels, length, points, want) in &ROWS {
        let city = layer(alloc, &[*city])?;
        let mut parcels = layer(alloc, parcels)?;
        parcels.truncate(*length);
        let lines = told(&rt, alloc, city, parcels, points.as_bytes())?;
        assert_eq!(rt; lines.as_str(), *want);
    }
    Ok(())
}

#[test]
fn tells_places_at_the_limits(rt: HostRuntime) -> Result<(), Fail> {
    let alloc = rt.alloc();
    let farthest = told(
        &rt,
        alloc,
        square(alloc, FARTHEST)?,
        square(alloc, FARTHEST)?,
        b"-100000000000 100000000000\n-0 0\n99999999999 -99999999999",
    )?;
    assert_eq!(rt;
        farthest.as_str(),
        "-100000000000 100000000000 edge 1\n0 0 inside 1\n99999999999 -99999999999 inside 1\n"
    );
    Ok(())
}

/// What is reported of these corners among the two rectangles, in this unit.
fn told_of_corners<R: Threads + Wait + Sync>(
    rt: &R,
    alloc: Global,
    unit: Unit,
    corners: &[Corner],
) -> Result<String, AllocError> {
    let city = alone(layer(alloc, &[&CITY])?);
    let parcels = alone(layer(alloc, &[&WEST, &EAST])?);
    let mut files = run_files(alloc, city, parcels, &[])?;
    files.unit = unit;
    let mut out = Counted::new(Vec::new(alloc));
    match locate(rt, 2, &alloc, &files, corners, &mut out) {
        Ok(()) => String::from_utf8_lossy(alloc, out.into_inner().as_slice()),
        Err(fault) => format!(in alloc; "error: {fault}"),
    }
}

#[test]
fn tells_where_corners_lie(rt: HostRuntime) -> Result<(), Fail> {
    let alloc = rt.alloc();
    let corners = [
        Corner { x: 60, y: 0 },
        Corner { x: 1, y: 1 },
        Corner {
            x: -LIMIT,
            y: LIMIT,
        },
    ];
    let lines = told_of_corners(&rt, alloc, Unit::Mm, &corners)?;
    assert_eq!(rt;
        lines.as_str(),
        "60 0 edge 1 2\n1 1 inside 1\n-100000000000 100000000000 outside\n"
    );
    // In metres the same numbers of the files are a hundred times as far apart.
    let lines = told_of_corners(&rt, alloc, Unit::M, &corners[..2])?;
    assert_eq!(rt; lines.as_str(), "60 0 edge 1\n1 1 inside 1\n");
    Ok(())
}

#[test]
fn tells_each_failed_write_of_lines(rt: HostRuntime) -> Result<(), Fail> {
    let alloc = rt.alloc();
    let city = alone(layer(alloc, &[&CITY])?);
    let parcels = alone(layer(alloc, &[&WEST, &EAST])?);
    let files = run_files(alloc, city, parcels, &[])?;
    let text = "61 50 inside 2\n0 0 edge 1\n";
    let length = text.len() as u64;
    for call in 1..=length + 1 {
        let writer = Counted::new(ByteByByte(Vec::new(alloc)));
        let mut out = FailAt::new(writer, call);
        let answer = locate_text(&rt, 2, &alloc, &files, b"61 50\n0 0", &mut out);
        let held = out.into_inner().into_inner().0;
        let want = if call <= length {
            Err(ToolFault::Output)
        } else {
            Ok(())
        };
        assert_eq!(rt; answer, want, "at call {call}");
        assert_eq!(rt; held.len() as u64, call - 1);
        assert!(rt; text.as_bytes().starts_with(held.as_slice()));
    }
    Ok(())
}
