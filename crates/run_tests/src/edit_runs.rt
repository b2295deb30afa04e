//! What the edits of clerks' files lead to, and what is reported of them.

use city_layers::Source;
use geo_exact::{Corner, Counted, RawRing, Unit};
use parcel_runs::check::{check, check_all};
use parcel_runs::export::export;
use parcel_runs::locate::{locate, locate_text};
use parcel_runs::{RunFiles, refuse_many_clerks};
use shp_files::read_layer;
use std::alloc::{AllocError, Global};
use std::sync::Wait;
use std::test::Fail;
use std::thread::Threads;
use test_layers::{BAY, BEYOND, CITY, EAST, Place, WEST, alone, layer};

/// Five edits of the two rectangles, the fourth of a parcel that is gone.
pub const FIVE: &str =
    "insert 0 0 60 0 30 0\ninsert 0 100 60 100 30 100\nsplit 1 30 0 30 100\nsplit 1 30 0 30 100\nmerge 3 4\n";

/// What is reported of them.
pub const FIVE_TOLD: &str = "clerk 1 line 1 ok 1\nclerk 1 line 2 ok 2\nclerk 1 line 3 ok 3\n\
     clerk 1 line 4 refused E2 1 3\nclerk 1 line 5 ok 4\n";

/// What a run in millimetres is given: the files of a city and of its parcels, and clerks' files of these texts.
pub fn run_files(
    alloc: Global,
    city: Source<Global>,
    parcels: Source<Global>,
    texts: &[&str],
) -> Result<RunFiles<Global>, AllocError> {
    let mut clerks = Vec::new(alloc);
    for text in texts {
        clerks.push(Vec::from_slice(alloc, text.as_bytes())?)?;
    }
    Ok(RunFiles {
        city,
        parcels,
        unit: Unit::Mm,
        clerks,
    })
}

/// The two rectangles, or where it is said so the three parcels of the bay.
fn parcels(alloc: Global, bay: bool) -> Result<Source<Global>, AllocError> {
    if bay {
        Ok(alone(layer(alloc, &BAY)?))
    } else {
        Ok(alone(layer(alloc, &[&WEST, &EAST])?))
    }
}

/// What a check of the two rectangles, or of the bay, prints with clerks' files of these texts, on whichever stream.
fn told<R: Threads + Wait + Sync>(
    rt: &R,
    alloc: Global,
    bay: bool,
    texts: &[&str],
) -> Result<String, AllocError> {
    let city = alone(layer(alloc, &[&CITY])?);
    let files = run_files(alloc, city, parcels(alloc, bay)?, texts)?;
    let mut out = Counted::new(Vec::new(alloc));
    match check(rt, 2, &alloc, &files, &mut out) {
        Ok(()) => String::from_utf8_lossy(alloc, out.into_inner().as_slice()),
        Err(fault) => format!(in alloc; "error: {fault}"),
    }
}

/// Clerks' files, and what a check prints with them: whether of the bay, the texts, and what is printed.
type Row = (bool, &'static [&'static str], &'static str);

/// Each refusal that a small layer reaches, and how files are reported one after the other.
const ROWS: [Row; 14] = [
    (
        false,
        &[FIVE],
        "clerk 1 line 1 ok 1\nclerk 1 line 2 ok 2\nclerk 1 line 3 ok 3\n\
         clerk 1 line 4 refused E2 1 3\nclerk 1 line 5 ok 4\ntiling 2 20000\n",
    ),
    (
        false,
        &[
            "merge 1 2\nmerge 2 1\nmerge 1 9",
            "# nothing\n",
            "\nmerge 8 9",
        ],
        "clerk 1 line 1 ok 1\nclerk 1 line 2 refused E2 2 1\nclerk 1 line 3 refused E2 1 1\n\
         clerk 3 line 2 refused E1 8\ntiling 1 20000\n",
    ),
    (
        false,
        &["merge 9 1\nmerge 1 1", "split 1 0 0\nsplit 1 0 0 50 50"],
        "clerk 1 line 1 refused E1 9\nclerk 1 line 2 refused E4\n\
         clerk 2 line 1 refused E3\nclerk 2 line 2 refused E3\ntiling 2 20000\n",
    ),
    (
        false,
        &["split 2 60 0 50 50 60 100\nsplit 1 0 0 60 0"],
        "clerk 1 line 1 refused E6 1 G3\nclerk 1 line 2 refused E6 2 G1\ntiling 2 20000\n",
    ),
    (
        false,
        &["split 1 0 0 40 40 40 20 10 50 60 100"],
        "clerk 1 line 1 refused E6 1 G2 0 2\ntiling 2 20000\n",
    ),
    (
        false,
        &["insert 0 0 100 0 30 0\r\ninsert 0 0 60 0 60 0\r\n"],
        "clerk 1 line 1 refused E7\nclerk 1 line 2 refused E8\ntiling 2 20000\n",
    ),
    (
        false,
        &[
            "straighten 30 0\nstraighten 60 0\nstraighten 100 0",
            "straighten 50 50",
        ],
        "clerk 1 line 1 refused E11\nclerk 1 line 2 refused E12 1\nclerk 1 line 3 refused E12 2\n\
         clerk 2 line 1 refused E11\ntiling 2 20000\n",
    ),
    (
        false,
        &["insert 0 0 60 0 30 0\nstraighten 30 0\nstraighten 30 0"],
        "clerk 1 line 1 ok 1\nclerk 1 line 2 ok 2\nclerk 1 line 3 refused E11\ntiling 2 20000\n",
    ),
    (
        true,
        &["merge 1 3\nmove 1 3 100 20 70 80\nmerge 3 2"],
        "clerk 1 line 1 refused E5\nclerk 1 line 2 refused E5\nclerk 1 line 3 ok 1\ntiling 2 20000\n",
    ),
    (false, &[], "tiling 2 20000\n"),
    (
        false,
        &["merge 1 2\n\nmerge 1  2\n"],
        "error: clerk 1: L1 3",
    ),
    (
        false,
        &["merge 1 2", "split 1 100000000001 0", "x"],
        "error: clerk 2: L1 1",
    ),
    (
        false,
        &["", "", "", "", "", "", "", "merge 2 1"],
        "clerk 8 line 1 ok 1\ntiling 1 20000\n",
    ),
    (false, &["x", "", "", "", "", "", "", "", ""], "error: K1 9"),
];

#[test]
fn tells_of_each_edit(rt: HostRuntime) -> Result<(), Fail> {
    let alloc = rt.alloc();
    for (bay, texts, want) in &ROWS {
        assert_eq!(rt; told(&rt, alloc, *bay, texts)?.as_str(), *want);
    }
    Ok(())
}

/// Clerks' files, and the two answers that a check may print with them, as the clerks come first or last.
const EITHER: [(&[&str], &str, &str); 2] = [
    (
        &["insert 0 0 60 0 30 0", "insert 60 100 100 100 80 100"],
        "clerk 1 line 1 ok 1\nclerk 2 line 1 ok 2\ntiling 2 20000\n",
        "clerk 1 line 1 ok 2\nclerk 2 line 1 ok 1\ntiling 2 20000\n",
    ),
    (
        &["merge 1 2", "merge 1 2"],
        "clerk 1 line 1 ok 1\nclerk 2 line 1 refused E2 1 1\ntiling 1 20000\n",
        "clerk 1 line 1 refused E2 1 1\nclerk 2 line 1 ok 1\ntiling 1 20000\n",
    ),
];

#[test]
fn tells_of_clerks_who_come_in_any_order(rt: HostRuntime) -> Result<(), Fail> {
    let alloc = rt.alloc();
    for (texts, first, last) in &EITHER {
        let lines = told(&rt, alloc, false, texts)?;
        assert!(rt;
            lines.as_str() == *first || lines.as_str() == *last,
            "{lines}"
        );
    }
    Ok(())
}

#[test]
fn refuses_a_ring_with_too_many_corners(rt: HostRuntime) -> Result<(), Fail> {
    let alloc = rt.alloc();
    // A path of 4,096 corners, the most of an edit; with one corner more of the parcel the new ring has too many.
    let mut text = String::new(alloc);
    text.push_str("split 1 0 0")?;
    for _ in 0..4094 {
        text.push_str(" 30 50")?;
    }
    text.push_str(" 60 100")?;
    let answer = told(&rt, alloc, false, &[text.as_str()])?;
    assert_eq!(rt;
        answer.as_str(),
        "clerk 1 line 1 refused E10\ntiling 2 20000\n"
    );
    Ok(())
}

/// Whether the rings have these places, in order.
fn are_at(rings: &[RawRing<Global>], places: &[&[Place]]) -> bool {
    rings.len() == places.len()
        && rings
            .iter()
            .zip(places)
            .all(|(ring, places)| is_at(ring.corners.as_slice(), places))
}

/// Whether the corners are at these places, in order.
fn is_at(corners: &[Corner], places: &[Place]) -> bool {
    corners.len() == places.len()
        && corners.iter().zip(places).all(|(corner, place)| corner.x == i64::from(place.0)
            && corner.y == i64::from(place.1))
}

#[test]
fn exports_what_edits_lead_to(rt: HostRuntime) -> Result<(), Fail> {
    let alloc = rt.alloc();
    let city = alone(layer(alloc, &[&CITY])?);
    let files = run_files(alloc, city, parcels(alloc, false)?, &[FIVE])?;
    let Ok(exported) = export(&rt, 2, &alloc, &files) else {
        return Err(Fail::new("no export"));
    };
    let want = format!(in alloc; "{FIVE_TOLD}exported 2\n")?;
    assert_eq!(rt; exported.lines.as_slice(), want.as_bytes());
    let index = Some(exported.index.as_slice());
    let Ok(rings) = read_layer(alloc, &exported.main, index, Unit::Mm) else {
        return Err(Fail::new("no layer"));
    };
    let merged: [Place; 6] = [(0, 0), (30, 0), (60, 0), (60, 100), (30, 100), (0, 100)];
    assert!(rt; are_at(rings.as_slice(), &[&EAST, &merged]));
    Ok(())
}

#[test]
fn locates_in_what_edits_lead_to(rt: HostRuntime) -> Result<(), Fail> {
    let alloc = rt.alloc();
    let city = alone(layer(alloc, &[&CITY])?);
    let files = run_files(alloc, city, parcels(alloc, false)?, &["merge 1 2"])?;
    for (text, want) in [
        (
            "60 50\n60 0",
            "clerk 1 line 1 ok 1\n60 50 inside 3\n60 0 edge 3\n",
        ),
        ("60 50\n\n60", "points: L1 3"),
    ] {
        let mut out = Counted::new(Vec::new(alloc));
        let answer = locate_text(&rt, 2, &alloc, &files, text.as_bytes(), &mut out);
        let printed = match answer {
            Ok(()) => String::from_utf8_lossy(alloc, out.into_inner().as_slice())?,
            Err(fault) => format!(in alloc; "{fault}")?,
        };
        assert_eq!(rt; printed.as_str(), want);
    }
    Ok(())
}

#[test]
fn locates_a_corner_in_what_edits_lead_to(rt: HostRuntime) -> Result<(), Fail> {
    let alloc = rt.alloc();
    let city = alone(layer(alloc, &[&CITY])?);
    let files = run_files(alloc, city, parcels(alloc, false)?, &["merge 1 2"])?;
    let mut out = Counted::new(Vec::new(alloc));
    let points = [Corner { x: 60, y: 50 }];
    let answer = locate(&rt, 2, &alloc, &files, &points, &mut out);
    assert_eq!(rt; answer, Ok(()));
    let want = b"clerk 1 line 1 ok 1\n60 50 inside 3\n".as_slice();
    assert_eq!(rt; out.into_inner().as_slice(), want);
    Ok(())
}

#[test]
fn checks_all_before_the_clerks(rt: HostRuntime) -> Result<(), Fail> {
    let alloc = rt.alloc();
    let whole: [&[Place]; 2] = [&WEST, &EAST];
    let gap: [&[Place]; 2] = [&WEST, &BEYOND];
    let lines =
        "edge 60 0 60 100 net 1\nedge 60 0 61 0 net -1\nedge 60 100 61 100 net 1\nedge 61 0 61 100 net -1\n";
    for (parcels, text, printed, fault) in [
        (
            &whole,
            "merge 1 2",
            "clerk 1 line 1 ok 1\ntiling 1 20000\n",
            "",
        ),
        (&gap, "x", lines, "parcels: H2 60 0 60 100 net 1"),
        (&whole, "merge 1 2\nx", "", "clerk 1: L1 2"),
    ] {
        let city = alone(layer(alloc, &[&CITY])?);
        let parcels = alone(layer(alloc, parcels)?);
        let files = run_files(alloc, city, parcels, &[text])?;
        let mut out = Counted::new(Vec::new(alloc));
        let told = match check_all(&rt, 2, &alloc, &files, &mut out) {
            Ok(()) => String::new(alloc),
            Err(fault) => format!(in alloc; "{fault}")?,
        };
        assert_eq!(rt; told.as_str(), fault);
        assert_eq!(rt; out.into_inner().as_slice(), printed.as_bytes());
    }
    assert_eq!(rt; refuse_many_clerks(8), Ok(()));
    Ok(())
}
