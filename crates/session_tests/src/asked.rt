//! What each line of a session asks for.

use geo_exact::Corner;
use ring_edits::Edit;
use session_lines::{Line, read_line};
use std::alloc::{AllocError, Global};
use std::test::Fail;

/// Corners, each behind a space.
fn corners_of(alloc: Global, corners: &[Corner]) -> Result<String, AllocError> {
    let mut text = String::new(alloc);
    for corner in corners {
        text.push_str(format!(in alloc; " {} {}", corner.x, corner.y)?.as_str())?;
    }
    Ok(text)
}

/// An edit, as a line says it.
fn edit_of(alloc: Global, edit: &Edit<Global>) -> Result<String, AllocError> {
    match edit {
        Edit::Split { id, path } => {
            let path = corners_of(alloc, path.as_slice())?;
            format!(in alloc; "split {id}{path}")
        }
        Edit::Merge { a, b } => format!(in alloc; "merge {a} {b}"),
        Edit::Move { a, b, path } => {
            let path = corners_of(alloc, path.as_slice())?;
            format!(in alloc; "move {a} {b}{path}")
        }
        Edit::Insert { from, to, at } => {
            let corners = corners_of(alloc, &[*from, *to, *at])?;
            format!(in alloc; "insert{corners}")
        }
        Edit::Straighten { at } => format!(in alloc; "straighten {} {}", at.x, at.y),
    }
}

/// What a line asks for, in words.
fn asked(alloc: Global, line: &[u8]) -> Result<String, AllocError> {
    match read_line(alloc, line) {
        Ok(Some(Line::Skipped)) => format!(in alloc; "skipped"),
        Ok(Some(Line::Edit(edit))) => {
            let edit = edit_of(alloc, &edit)?;
            format!(in alloc; "edit: {edit}")
        }
        Ok(Some(Line::Locate(corner))) => format!(in alloc; "locate: {}, {}", corner.x, corner.y),
        Ok(Some(Line::Parcel(id))) => format!(in alloc; "parcel: {id}"),
        Ok(Some(Line::Entries)) => format!(in alloc; "entries"),
        Ok(Some(Line::Overlay)) => format!(in alloc; "overlay"),
        Ok(Some(Line::OverlayAreas)) => format!(in alloc; "overlay and areas"),
        Ok(Some(Line::Check)) => format!(in alloc; "check"),
        Ok(Some(Line::Export(base))) => format!(in alloc; "export: {base}"),
        Ok(Some(Line::Publish)) => format!(in alloc; "publish"),
        Ok(Some(Line::Close)) => format!(in alloc; "close"),
        Ok(None) => format!(in alloc; "L1"),
        Err(AllocError) => format!(in alloc; "no memory"),
    }
}

/// Lines that ask for something, and what.
static ASKING: [(&[u8], &str); 23] = [
    (b"", "skipped"),
    (b"#", "skipped"),
    (b"# locate 1 2 \xff", "skipped"),
    (b"split 1 30 0 30 100", "edit: split 1 30 0 30 100"),
    (b"merge 3 4", "edit: merge 3 4"),
    (
        b"move 3 4 60 0 50 50 60 100",
        "edit: move 3 4 60 0 50 50 60 100",
    ),
    (b"insert 0 0 60 0 30 0", "edit: insert 0 0 60 0 30 0"),
    (b"straighten 30 0", "edit: straighten 30 0"),
    (b"split 1 -0 007", "edit: split 1 0 7"),
    (b"locate 60 50", "locate: 60, 50"),
    (b"locate -0 0060", "locate: 0, 60"),
    (
        b"locate -100000000000 100000000000",
        "locate: -100000000000, 100000000000",
    ),
    (b"parcel 7", "parcel: 7"),
    (b"parcel 0007", "parcel: 7"),
    (b"parcel 9999999999999999999", "parcel: 9999999999999999999"),
    (b"entries", "entries"),
    (b"overlay", "overlay"),
    (b"overlay areas", "overlay and areas"),
    (b"check", "check"),
    (b"export /tmp/a b #1", "export: /tmp/a b #1"),
    (b"export  ", "export:  "),
    (b"publish", "publish"),
    (b"close", "close"),
];

/// Lines that ask for nothing that there is.
static NOTHING: [&[u8]; 39] = [
    b" ",
    b" #",
    b"\r",
    b"close\r",
    b"close ",
    b" close",
    b"closed",
    b"Close",
    b"check 1",
    b"entries 0",
    b"overlay\t",
    b"overlay ",
    b"overlay area",
    b"overlay  areas",
    b"overlay areas ",
    b"overlay areas 1",
    b"publish\npublish",
    b"grid cm",
    b"grid mm",
    b"locate",
    b"locate 60",
    b"locate 60 ",
    b"locate 60 50 ",
    b"locate  60 50",
    b"locate 60 50 70",
    b"locate 60.0 50",
    b"locate +60 50",
    b"locate 100000000001 0",
    b"locate 0 -100000000001",
    b"locate 00000000000000000060 50",
    b"parcel",
    b"parcel ",
    b"parcel -7",
    b"parcel 7 8",
    b"parcel 99999999999999999999",
    b"export",
    b"export ",
    b"export \xff",
    b"merge 3 4 5",
];

#[test]
fn lines_ask_for_what_they_say(rt: HostRuntime) -> Result<(), Fail> {
    for (line, want) in &ASKING {
        assert_eq!(rt; asked(rt.alloc(), line)?.as_str(), *want);
    }
    Ok(())
}

#[test]
fn other_lines_ask_for_nothing(rt: HostRuntime) -> Result<(), Fail> {
    for line in &NOTHING {
        assert_eq!(rt; asked(rt.alloc(), line)?.as_str(), "L1");
    }
    Ok(())
}
