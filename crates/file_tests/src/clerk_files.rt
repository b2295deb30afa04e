//! Which edits a clerk's file has, and on which lines.

use geo_exact::Corner;
use line_files::{ClerkFault, read_clerk};
use ring_edits::Edit;
use std::alloc::{AllocError, Global};
use std::test::Fail;

/// Adds corners to a line.
fn push_corners(alloc: Global, line: &mut String, corners: &[Corner]) -> Result<(), AllocError> {
    for corner in corners {
        line.push_str(format!(in alloc; " {} {}", corner.x, corner.y)?.as_str())?;
    }
    Ok(())
}

/// An edit, as a line says it.
fn line_of(alloc: Global, edit: &Edit<Global>) -> Result<String, AllocError> {
    match edit {
        Edit::Split { id, path } => {
            let mut line = format!(in alloc; "split {id}")?;
            push_corners(alloc, &mut line, path.as_slice())?;
            Ok(line)
        }
        Edit::Merge { a, b } => format!(in alloc; "merge {a} {b}"),
        Edit::Move { a, b, path } => {
            let mut line = format!(in alloc; "move {a} {b}")?;
            push_corners(alloc, &mut line, path.as_slice())?;
            Ok(line)
        }
        Edit::Insert { from, to, at } => {
            let mut line = format!(in alloc; "insert")?;
            push_corners(alloc, &mut line, &[*from, *to, *at])?;
            Ok(line)
        }
        Edit::Straighten { at } => format!(in alloc; "straighten {} {}", at.x, at.y),
    }
}

/// The edits of a text, each behind the number of its line, or the fault.
pub fn told(alloc: Global, text: &[u8]) -> Result<String, AllocError> {
    match read_clerk(alloc, text) {
        Ok(list) => {
            let mut lines = String::new(alloc);
            for (number, edit) in &list {
                let line = line_of(alloc, edit)?;
                lines.push_str(format!(in alloc; "{number}: {line}\n")?.as_str())?;
            }
            Ok(lines)
        }
        Err(ClerkFault::Line(number)) => format!(in alloc; "L1 {number}"),
        Err(ClerkFault::NoMemory) => format!(in alloc; "no memory"),
    }
}

/// Texts, and their edits.
static EDITS: [(&[u8], &str); 18] = [
    (b"merge 1 2", "1: merge 1 2\n"),
    (b"split 1 30 0 30 100", "1: split 1 30 0 30 100\n"),
    (
        b"move 3 4 60 0 50 50 60 100\n",
        "1: move 3 4 60 0 50 50 60 100\n",
    ),
    (b"insert 0 0 60 0 30 0\n", "1: insert 0 0 60 0 30 0\n"),
    (b"straighten 30 0\n", "1: straighten 30 0\n"),
    (
        b"merge 3 4\nstraighten 30 0\nstraighten 30 0",
        "1: merge 3 4\n2: straighten 30 0\n3: straighten 30 0\n",
    ),
    (
        b"insert 0 0 60 0 30 0\ninsert 0 100 60 100 30 100\nsplit 1 30 0 30 100\nsplit 1 30 0 30 100\nmerge 3 4\n",
        "1: insert 0 0 60 0 30 0\n2: insert 0 100 60 100 30 100\n3: split 1 30 0 30 100\n\
         4: split 1 30 0 30 100\n5: merge 3 4\n",
    ),
    // a path of one corner is refused by the fabric
    (b"split 1 5 6", "1: split 1 5 6\n"),
    (b"move 1 2 5 6", "1: move 1 2 5 6\n"),
    (b"merge 7 7", "1: merge 7 7\n"),
    // numbers
    (b"merge 0 000", "1: merge 0 0\n"),
    (b"merge 0000000000000000012 2", "1: merge 12 2\n"),
    (
        b"merge 9999999999999999999 9223372036854775808",
        "1: merge 9999999999999999999 9223372036854775808\n",
    ),
    (
        b"split 1 -100000000000 100000000000",
        "1: split 1 -100000000000 100000000000\n",
    ),
    (b"split 1 -0 -007", "1: split 1 0 -7\n"),
    (b"straighten -0 -007", "1: straighten 0 -7\n"),
    (
        b"straighten -100000000000 100000000000",
        "1: straighten -100000000000 100000000000\n",
    ),
    (
        b"split 1 0000000100000000000 -0000000100000000000",
        "1: split 1 100000000000 -100000000000\n",
    ),
];

#[test]
fn reads_each_edit(rt: HostRuntime) -> Result<(), Fail> {
    for (text, want) in &EDITS {
        assert_eq!(rt; told(rt.alloc(), text)?.as_str(), *want);
    }
    Ok(())
}

/// Texts with lines that are skipped, and their edits.
static SKIPPED: [(&[u8], &str); 6] = [
    (b"", ""),
    (b"\n", ""),
    (b"\r\n\n#\n# any \xFF bytes\r\n#merge 1 2", ""),
    (b"#\r", ""),
    (
        b"# a\nmerge 1 2\n\n\nmerge 3 4\n",
        "2: merge 1 2\n5: merge 3 4\n",
    ),
    (
        b"merge 1 2\r\n\r\nmerge 3 4\r\n",
        "1: merge 1 2\n3: merge 3 4\n",
    ),
];

#[test]
fn counts_lines_that_are_skipped(rt: HostRuntime) -> Result<(), Fail> {
    for (text, want) in &SKIPPED {
        assert_eq!(rt; told(rt.alloc(), text)?.as_str(), *want);
    }
    Ok(())
}

/// A split along so many corners.
fn long_split(alloc: Global, corners: usize) -> Result<Vec<u8>, AllocError> {
    let mut text = Vec::from_slice(alloc, b"split 1")?;
    for _ in 0..corners {
        text.extend_from_slice(b" 5 -6")?;
    }
    Ok(text)
}

/// How many corners the path of a text's one edit, a split, has, and the last of them; `None` where
/// the text has other edits, or is no clerk's file.
fn path_of(alloc: Global, text: &[u8]) -> Option<(usize, Option<Corner>)> {
    match read_clerk(alloc, text) {
        Ok(list) => match list.as_slice() {
            [(_, Edit::Split { id: _, path })] => Some((
                path.len(),
                path.as_slice().last().copied(),
            )),
            _ => None,
        },
        Err(_) => None,
    }
}

#[test]
fn reads_more_corners_than_a_ring_has(rt: HostRuntime) -> Result<(), Fail> {
    let text = long_split(rt.alloc(), 4097)?;
    let last = Some(Corner { x: 5, y: -6 });
    assert_eq!(rt; path_of(rt.alloc(), &text), Some((4097, last)));
    Ok(())
}
