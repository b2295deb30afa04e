//! Texts in whole centimetres, whose first line is `grid cm`: clerks' files, and texts of points.

use crate::clerk_files::told;
use line_files::{PointsFault, read_points};
use std::alloc::{AllocError, Global};
use std::test::Fail;

/// Clerks' files, and their edits, which are in whole millimetres.
static EDITS: [(&[u8], &str); 17] = [
    (b"grid cm", ""),
    (b"grid cm\n", ""),
    (b"grid cm\r\n", ""),
    (b"grid cm\n\r\n# grid cm\n#grid cm", ""),
    (
        b"grid cm\nsplit 1 30 0 30 100",
        "2: split 1 300 0 300 1000\n",
    ),
    (
        b"grid cm\r\nmove 3 4 60 0 50 50 60 100\r\n",
        "2: move 3 4 600 0 500 500 600 1000\n",
    ),
    (
        b"grid cm\n\n# a\ninsert 0 0 60 0 30 0\n",
        "4: insert 0 0 600 0 300 0\n",
    ),
    (b"grid cm\nstraighten 30 -7\n", "2: straighten 300 -70\n"),
    // the numbers of parcels stay
    (
        b"grid cm\nmerge 12 34\nsplit 5 6 7",
        "2: merge 12 34\n3: split 5 60 70\n",
    ),
    // the limits
    (
        b"grid cm\nsplit 1 -10000000000 10000000000",
        "2: split 1 -100000000000 100000000000\n",
    ),
    (
        b"grid cm\nsplit 1 0000000010000000000 -0000000010000000000",
        "2: split 1 100000000000 -100000000000\n",
    ),
    (
        b"grid cm\nsplit 1 9999999999 -9999999999",
        "2: split 1 99999999990 -99999999990\n",
    ),
    (
        b"grid cm\nstraighten -10000000000 10000000000",
        "2: straighten -100000000000 100000000000\n",
    ),
    (b"grid cm\nsplit 1 -0 -007", "2: split 1 0 -70\n"),
    // a comment names no grid
    (b"# grid cm\nsplit 1 5 6", "2: split 1 5 6\n"),
    (b"#grid cm\nsplit 1 5 6", "2: split 1 5 6\n"),
    (b"#\nsplit 1 100000000000 0", "2: split 1 100000000000 0\n"),
];

#[test]
fn edits_are_times_ten(rt: HostRuntime) -> Result<(), Fail> {
    for (text, want) in &EDITS {
        assert_eq!(rt; told(rt.alloc(), text)?.as_str(), *want);
    }
    Ok(())
}

/// The points of a text, or the fault.
fn points_of(alloc: Global, text: &[u8]) -> Result<String, AllocError> {
    match read_points(alloc, text) {
        Ok(points) => {
            let mut lines = String::new(alloc);
            for point in &points {
                lines.push_str(format!(in alloc; "{} {}\n", point.x, point.y)?.as_str())?;
            }
            Ok(lines)
        }
        Err(PointsFault::BadLine(number)) => format!(in alloc; "L1 {number}"),
        Err(PointsFault::NoMemory) => format!(in alloc; "no memory"),
    }
}

/// Texts of points, and the points, which are in whole millimetres.
static POINTS: [(&[u8], &str); 11] = [
    (b"grid cm", ""),
    (b"grid cm\n", ""),
    (b"grid cm\r\n", ""),
    (b"grid cm\n1 2", "10 20\n"),
    (b"grid cm\r\n1 2\r\n-3 4\r\n", "10 20\n-30 40\n"),
    (b"grid cm\n\n# grid cm\n1 2\n", "10 20\n"),
    (b"grid cm\n-0 000\n", "0 0\n"),
    (
        b"grid cm\n-10000000000 10000000000",
        "-100000000000 100000000000\n",
    ),
    (
        b"grid cm\n0000000010000000000 -0000000010000000000",
        "100000000000 -100000000000\n",
    ),
    (b"#grid cm\n1 2", "1 2\n"),
    (
        b"100000000000 -100000000000",
        "100000000000 -100000000000\n",
    ),
];

#[test]
fn points_are_times_ten(rt: HostRuntime) -> Result<(), Fail> {
    for (text, want) in &POINTS {
        assert_eq!(rt; points_of(rt.alloc(), text)?.as_str(), *want);
    }
    Ok(())
}

/// First lines that name no grid, byte for byte: they are bad, behind whatever else.
static OTHER_SPELLINGS: [&str; 18] = [
    "grid cm ",
    " grid cm",
    "grid  cm",
    "grid\tcm",
    "grid cm\t",
    "Grid cm",
    "GRID CM",
    "grid Cm",
    "grid cM",
    "grid mm",
    "grid m",
    "grid",
    "grid ",
    "gridcm",
    "grid cmm",
    "grid c",
    "grid cm # a",
    "\u{FEFF}grid cm",
];

#[test]
fn other_spellings_are_bad(rt: HostRuntime) -> Result<(), Fail> {
    let alloc = rt.alloc();
    for line in &OTHER_SPELLINGS {
        let first = format!(in alloc; "{line}\n")?;
        assert_eq!(rt; told(alloc, first.as_bytes())?.as_str(), "L1 1", "{line}");
        assert_eq!(rt;
            points_of(alloc, first.as_bytes())?.as_str(),
            "L1 1",
            "{line}"
        );
        let second = format!(in alloc; "grid cm\n{line}\n")?;
        assert_eq!(rt; told(alloc, second.as_bytes())?.as_str(), "L1 2", "{line}");
        assert_eq!(rt;
            points_of(alloc, second.as_bytes())?.as_str(),
            "L1 2",
            "{line}"
        );
    }
    Ok(())
}

/// Texts of either kind in which the line, or a carriage return at its end, stands at a wrong place.
static ELSEWHERE: [(&[u8], &str); 9] = [
    (b"grid cm\ngrid cm\n", "L1 2"),
    (b"grid cm\r\n\r\ngrid cm\r\n", "L1 3"),
    (b"\ngrid cm\n", "L1 2"),
    (b"\r\ngrid cm\r\n", "L1 2"),
    (b"# a\ngrid cm", "L1 2"),
    (b"#\n\n#\ngrid cm\n", "L1 4"),
    // a carriage return belongs to the end of a line only just before a line feed
    (b"grid cm\r", "L1 1"),
    (b"grid cm\r\r\n", "L1 1"),
    (b"grid cm\n\r", "L1 2"),
];

#[test]
fn elsewhere_it_is_bad(rt: HostRuntime) -> Result<(), Fail> {
    for (text, want) in &ELSEWHERE {
        assert_eq!(rt; told(rt.alloc(), text)?.as_str(), *want);
        assert_eq!(rt; points_of(rt.alloc(), text)?.as_str(), *want);
    }
    Ok(())
}

/// Clerks' files with one bad line behind another.
static BAD_EDITS: [(&[u8], &str); 9] = [
    (b"merge 1 2\ngrid cm\n", "L1 2"),
    (b"grid cm\nsplit 1 10000000001 0", "L1 2"),
    (b"grid cm\nsplit 1 0 0\nsplit 1 0 -10000000001", "L1 3"),
    (b"grid cm\ninsert 0 0 60 0 100000000000 0", "L1 2"),
    (b"grid cm\nstraighten 10000000001 0", "L1 2"),
    (b"grid cm\nstraighten 0 -100000000000", "L1 2"),
    (b"grid cm\nstraighten 30", "L1 2"),
    (b"grid cm\nsplit 1 1844674407370955162 0", "L1 2"),
    (b"grid cm\nsplit 1 9999999999999999999 0", "L1 2"),
];

/// Texts of points likewise.
static BAD_POINTS: [(&[u8], &str); 6] = [
    (b"1 2\ngrid cm\n", "L1 2"),
    (b"grid cm\n10000000001 0", "L1 2"),
    (b"grid cm\n0 0\n0 -10000000001", "L1 3"),
    (b"grid cm\n100000000000 0", "L1 2"),
    (b"grid cm\n1844674407370955162 0", "L1 2"),
    (b"grid cm\n00000000000000000000 0", "L1 2"),
];

#[test]
fn bad_lines_are_told(rt: HostRuntime) -> Result<(), Fail> {
    for (text, want) in &BAD_EDITS {
        assert_eq!(rt; told(rt.alloc(), text)?.as_str(), *want);
    }
    for (text, want) in &BAD_POINTS {
        assert_eq!(rt; points_of(rt.alloc(), text)?.as_str(), *want);
    }
    Ok(())
}
