//! Each answer of a session, behind what the text had.

use fabric_core::{At, Fabric, Refusal};
use geo_exact::{Corner, Corners, LIMIT};
use ring_core::RingFault;
use ring_edits::Edit;
use session_lines::{
    SessionFault, push_accepted, push_closed, push_end, push_entries, push_error, push_failure,
    push_located, push_no_parcel, push_parcel, push_published, push_ready, push_refused,
    push_skipped,
};
use std::alloc::{Allocator, Global};
use std::test::Fail;
use test_builders::{Place, corner, corners};
use test_cities::{RINGS, SQUARE, fabric};

/// The path that cuts the first of the two parcels in halves.
const MIDDLE: [Place; 2] = [(30, 0), (30, 100)];

/// Makes an edit, and adds what is answered to it.
fn push_answer<'a, H: Allocator>(
    text: &mut Vec<u8, &'a H>,
    fabric: &mut Fabric<'a, H>,
    edit: &Edit<&'a H>,
) -> Result<(), Fail> {
    match fabric.edit(1, edit) {
        Ok(entry) => push_accepted(text, &entry)?,
        Err(refusal) => push_refused(text, refusal)?,
    }
    Ok(())
}

/// The answers to edits of the two parcels.
fn answers_of<'a, H: Allocator>(heap: &'a H) -> Result<Vec<u8, &'a H>, Fail> {
    let mut fabric = fabric(heap, &SQUARE, &RINGS)?;
    let mut text = Vec::from_slice(heap, b"# \n")?;
    let ends = [((0, 0), (60, 0), (30, 0)), ((0, 100), (60, 100), (30, 100))];
    for (from, to, at) in ends {
        let (from, to, at) = (corner(from)?, corner(to)?, corner(at)?);
        push_answer(&mut text, &mut fabric, &Edit::Insert { from, to, at })?;
    }
    for _ in 0..2 {
        let path = corners(heap, &MIDDLE)?;
        push_answer(&mut text, &mut fabric, &Edit::Split { id: 1, path })?;
    }
    push_answer(&mut text, &mut fabric, &Edit::Merge { a: 3, b: 4 })?;
    Ok(text)
}

/// What is answered to them: two corners put in, one parcel cut in two, and both made one again.
static EDITED: &[u8] =
    b"# \nok 1 out 1 new 1\nok 2 out 1 new 1\nok 3 out 1 new 3 4\nrefused E2 1 3\nok 4 out 3 4 new 5\n";

#[test]
fn answers_edits(rt: HostRuntime) -> Result<(), Fail> {
    let heap = rt.alloc();
    let text = answers_of(&heap)?;
    assert_eq!(rt; text.as_slice(), EDITED);
    Ok(())
}

/// Refusals, and what is answered.
static REFUSED: [(Refusal, &[u8]); 13] = [
    (Refusal::Unknown(7), b"refused E1 7\n"),
    (Refusal::Retired { id: 7, by: 12 }, b"refused E2 7 12\n"),
    (Refusal::BadPath, b"refused E3\n"),
    (Refusal::NotNeighbours, b"refused E4\n"),
    (Refusal::SharedTwice, b"refused E5\n"),
    (
        Refusal::Ring {
            which: 1,
            fault: RingFault::EdgesMeet(0, 2),
        },
        b"refused E6 1 G2 0 2\n",
    ),
    (Refusal::NoSuchEdge, b"refused E7\n"),
    (Refusal::NotOnEdge, b"refused E8\n"),
    (Refusal::JournalFull, b"refused E9\n"),
    (Refusal::TooMany, b"refused E10\n"),
    (Refusal::NoSuchCorner, b"refused E11\n"),
    (Refusal::NotFlat(0), b"refused E12 0\n"),
    (Refusal::NoMemory, b"refused no memory\n"),
];

#[test]
fn answers_refusals(rt: HostRuntime) -> Result<(), Fail> {
    for (refusal, want) in &REFUSED {
        let mut text = Vec::new(rt.alloc());
        push_refused(&mut text, *refusal)?;
        assert_eq!(rt; text.as_slice(), *want);
    }
    Ok(())
}

#[test]
fn answers_where_a_corner_lies(rt: HostRuntime) -> Result<(), Fail> {
    let alloc = rt.alloc();
    let mut text = Vec::from_slice(alloc, b"skipped\n")?;
    push_located(&mut text, 0, corner((10, -1))?, &At::Inside::<Global>(7))?;
    let mut ids = Vec::new(alloc);
    ids.push(1)?;
    ids.push(2)?;
    push_located(&mut text, 1_048_576, corner((60, 50))?, &At::OnEdge(ids))?;
    let far = Corner {
        x: -LIMIT,
        y: LIMIT,
    };
    push_located(&mut text, 3, far, &At::Outside::<Global>)?;
    let want =
        b"skipped\nat 0 10 -1 inside 7\nat 1048576 60 50 edge 1 2\nat 3 -100000000000 100000000000 outside\n";
    assert_eq!(rt; text.as_slice(), want.as_slice());
    Ok(())
}

#[test]
fn answers_a_parcels_ring(rt: HostRuntime) -> Result<(), Fail> {
    let alloc = rt.alloc();
    let mut text = Vec::new(alloc);
    push_parcel(&mut text, 4, 7, &[])?;
    let ring = [
        Corner { x: 0, y: 0 },
        Corner { x: 60, y: 0 },
        Corner { x: 60, y: 100 },
        Corner { x: 0, y: 100 },
    ];
    push_parcel(&mut text, 4, 7, &ring)?;
    let all = [
        Corner {
            x: -LIMIT,
            y: -LIMIT,
        },
        Corner {
            x: LIMIT,
            y: -LIMIT,
        },
        Corner { x: LIMIT, y: LIMIT },
        Corner {
            x: -LIMIT,
            y: LIMIT,
        },
    ];
    push_parcel(&mut text, 0, 1, &all)?;
    push_no_parcel(&mut text, 4, 9_999_999_999_999_999_999)?;
    assert_eq!(rt; text.as_slice(), PARCELS);
    Ok(())
}

/// What is answered for these rings.
static PARCELS: &[u8] = b"parcel 4 7 0\nparcel 4 7 12000 0 0 60 0 60 100 0 100\n\
     parcel 0 1 80000000000000000000000 -100000000000 -100000000000 100000000000 -100000000000 \
     100000000000 100000000000 -100000000000 100000000000\nparcel 4 9999999999999999999 none\n";

#[test]
fn tells_of_the_session(rt: HostRuntime) -> Result<(), Fail> {
    let mut text = Vec::from_slice(rt.alloc(), b"x")?;
    push_ready(&mut text, 0)?;
    push_skipped(&mut text)?;
    push_entries(&mut text, 17)?;
    push_published(&mut text, 18)?;
    push_end(&mut text)?;
    push_closed(&mut text, 1_048_576)?;
    let want = b"xready 0\nskipped\nentries 17\npublished 18\n.\nclosed 1048576\n";
    assert_eq!(rt; text.as_slice(), want.as_slice());
    Ok(())
}

/// Faults, and what is answered.
static FAULTS: [(SessionFault, &[u8]); 10] = [
    (SessionFault::BadLine, b"error: L1\n"),
    (SessionFault::NoVersion, b"error: K4\n"),
    (SessionFault::NoMemory, b"error: no memory\n"),
    (SessionFault::OperatorOnly, b"error: operator\n"),
    (SessionFault::NoCard, b"error: no card\n"),
    (SessionFault::NoWindow, b"error: no window\n"),
    (SessionFault::JournalFailed, b"error: journal\n"),
    (SessionFault::Closed, b"error: closed\n"),
    (SessionFault::NoZones, b"error: no zones\n"),
    (SessionFault::CardsMissing(8, 7), b"error: K2 8 7\n"),
];

#[test]
fn answers_faults(rt: HostRuntime) -> Result<(), Fail> {
    for (fault, want) in &FAULTS {
        let mut text = Vec::new(rt.alloc());
        push_error(&mut text, *fault)?;
        assert_eq!(rt; text.as_slice(), *want);
    }
    let mut text = Vec::new(rt.alloc());
    push_failure(&mut text, "S2")?;
    assert_eq!(rt; text.as_slice(), b"error: S2\n".as_slice());
    Ok(())
}
