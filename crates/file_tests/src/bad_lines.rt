//! The first line of a text that is neither skipped nor an edit.

use crate::clerk_files::told;
use std::test::Fail;

/// Lines that say nothing, and are not skipped.
static BAD: [&str; 70] = [
    " ",
    "   ",
    "\r",
    " #",
    "x",
    "merge",
    "merge ",
    "merge 1",
    "merge 1 ",
    "merge 1  2",
    "merge  1 2",
    " merge 1 2",
    "merge 1 2 ",
    "merge 1 2\r",
    "merge 1\r 2",
    "merge 1 2 3",
    "merge\t1 2",
    "merge 1\t2",
    "Merge 1 2",
    "MERGE 1 2",
    "merge1 2",
    "join 1 2",
    "mer ge 1 2",
    "merge -1 2",
    "merge +1 2",
    "merge 1 a",
    "merge 0x1 2",
    "merge 1.0 2",
    "merge 00000000000000000001 2",
    "merge 1 10000000000000000000",
    "split",
    "split 1",
    "split 1 ",
    "split 1 0",
    "split 1 0 0 1",
    "split 1 0  0",
    "split 1 0 0 ",
    "split x 0 0",
    "split -1 0 0",
    "split 1 100000000001 0",
    "split 1 0 -100000000001",
    "split 1 00000000000000000000 0",
    "split 1 0 -00000000000000000000",
    "split 1 - 0",
    "split 1 --5 0",
    "split 1 +5 0",
    "split 1 0 0,5",
    "move 1",
    "move 1 2",
    "move 1 2 0",
    "move 1 2 0 0 0",
    "insert 0 0 60 0",
    "insert 0 0 60 0 30",
    "insert 0 0 60 0 30 0 1",
    "insert 0 0 60 0 30 0 1 1",
    "straighten",
    "straighten ",
    "straighten 30",
    "straighten 30 ",
    "straighten 30  0",
    "straighten  30 0",
    "straighten 30 0 ",
    "straighten 30 0 1",
    "straighten 30 0 1 1",
    "straighten 30 x",
    "straighten 100000000001 0",
    "straighten 0 -100000000001",
    "Straighten 30 0",
    "straighten30 0",
    "straight 30 0",
];

#[test]
fn alone(rt: HostRuntime) -> Result<(), Fail> {
    for line in &BAD {
        assert_eq!(rt;
            told(rt.alloc(), line.as_bytes())?.as_str(),
            "L1 1",
            "{line}"
        );
    }
    Ok(())
}

#[test]
fn behind_other_lines(rt: HostRuntime) -> Result<(), Fail> {
    let alloc = rt.alloc();
    for line in &BAD {
        let text = format!(in alloc; "merge 1 2\r\n\n# {line}\n{line}\r\n{line}")?;
        assert_eq!(rt; told(alloc, text.as_bytes())?.as_str(), "L1 4", "{line}");
    }
    Ok(())
}

/// Texts, and their first bad line.
static TEXTS: [(&[u8], &str); 6] = [
    (b"merge 1 2\n\nmerge 1  2\n", "L1 3"),
    (b"\r\r\n", "L1 1"),
    (b"merge 1 2\r\r\n", "L1 1"),
    (b"merge 1 2\n#\n\xFF", "L1 3"),
    (b"merge 1 2\rmerge 3 4\n", "L1 1"),
    (b"merge 1 2\nx\ny\n", "L1 2"),
];

#[test]
fn between_other_lines(rt: HostRuntime) -> Result<(), Fail> {
    for (text, want) in &TEXTS {
        assert_eq!(rt; told(rt.alloc(), text)?.as_str(), *want);
    }
    Ok(())
}
