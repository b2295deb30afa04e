//! Edits that are written as lines, and read back.

use geo_exact::LIMIT;
use line_files::{ClerkFault, push_edit_line, read_clerk};
use refusing_alloc::Refusing;
use ring_edits::Edit;
use std::alloc::{AllocError, Allocator, Global};
use std::test::Fail;
use test_builders::{Place, corner, corners};

/// The most that a line takes for the number of a parcel.
const GREATEST_ID: u64 = 9_999_999_999_999_999_999;

/// The line of an edit.
fn line_of(alloc: Global, edit: &Edit<Global>) -> Result<Vec<u8>, AllocError> {
    let mut line = Vec::new(alloc);
    push_edit_line(&mut line, edit)?;
    Ok(line)
}

/// The line of a split.
fn split(alloc: Global, id: u64, path: &[Place]) -> Result<Vec<u8>, Fail> {
    let path = corners(alloc, path)?;
    Ok(line_of(alloc, &Edit::Split { id, path })?)
}

/// The line of a moved border.
fn moved(alloc: Global, a: u64, b: u64, path: &[Place]) -> Result<Vec<u8>, Fail> {
    let path = corners(alloc, path)?;
    Ok(line_of(alloc, &Edit::Move { a, b, path })?)
}

#[test]
fn writes_paths(rt: HostRuntime) -> Result<(), Fail> {
    let alloc = rt.alloc();
    assert_eq!(rt;
        split(alloc, GREATEST_ID, &[(-LIMIT, LIMIT)])?.as_slice(),
        b"split 9999999999999999999 -100000000000 100000000000\n".as_slice()
    );
    assert_eq!(rt;
        split(alloc, 0, &[(30, 0), (-1, -20), (30, 100)])?.as_slice(),
        b"split 0 30 0 -1 -20 30 100\n".as_slice()
    );
    assert_eq!(rt;
        moved(alloc, 3, GREATEST_ID, &[(LIMIT, -LIMIT), (50, 50)])?.as_slice(),
        b"move 3 9999999999999999999 100000000000 -100000000000 50 50\n".as_slice()
    );
    Ok(())
}

#[test]
fn writes_corners(rt: HostRuntime) -> Result<(), Fail> {
    let alloc = rt.alloc();
    let (from, to) = (corner((-LIMIT, 0))?, corner((LIMIT, 0))?);
    let at = corner((-7, 0))?;
    assert_eq!(rt;
        line_of(alloc, &Edit::Insert { from, to, at })?.as_slice(),
        b"insert -100000000000 0 100000000000 0 -7 0\n".as_slice()
    );
    assert_eq!(rt;
        line_of(alloc, &Edit::Straighten { at: to })?.as_slice(),
        b"straighten 100000000000 0\n".as_slice()
    );
    Ok(())
}

#[test]
fn writes_numbers(rt: HostRuntime) -> Result<(), Fail> {
    let (a, b) = (0, GREATEST_ID);
    assert_eq!(rt;
        line_of(rt.alloc(), &Edit::Merge { a, b })?.as_slice(),
        b"merge 0 9999999999999999999\n".as_slice()
    );
    // one more is written, too, and then is no line that is read
    let b = GREATEST_ID + 1;
    let line = line_of(rt.alloc(), &Edit::Merge { a, b })?;
    assert_eq!(rt;
        line.as_slice(),
        b"merge 0 10000000000000000000\n".as_slice()
    );
    assert!(rt; matches!(read_clerk(rt.alloc(), &line), Err(ClerkFault::Line(1))));
    Ok(())
}

/// The edits of a text, written again.
fn again<A: Allocator + Copy>(alloc: A, text: &[u8]) -> Result<Vec<u8, A>, ClerkFault> {
    let mut lines = Vec::new(alloc);
    for (_, edit) in &read_clerk(alloc, text)? {
        push_edit_line(&mut lines, edit)?;
    }
    Ok(lines)
}

/// Texts as they are written: each edit, the limits, and several edits.
static WRITTEN: [&[u8]; 8] = [
    b"",
    b"split 9999999999999999999 -100000000000 100000000000\n",
    b"merge 9999999999999999999 9223372036854775808\n",
    b"move 3 4 60 0 50 50 60 100\n",
    b"insert 0 0 60 0 30 0\n",
    b"insert -100000000000 0 100000000000 0 -7 0\n",
    b"straighten 100000000000 -100000000000\n",
    b"split 1 30 0 -1 -20 30 100\nmerge 3 4\nmove 5 6 -1 -1\ninsert 0 0 60 0 30 0\nstraighten 30 0\nmerge 3 4\n",
];

#[test]
fn what_is_written_is_read_back(rt: HostRuntime) -> Result<(), Fail> {
    for text in &WRITTEN {
        assert_eq!(rt; again(rt.alloc(), text)?.as_slice(), *text);
    }
    Ok(())
}

/// What a clerk wrote otherwise, and what is written of it: in millimetres, without comments and leading zeros.
static OTHERWISE: [(&[u8], &[u8]); 3] = [
    (b"# nothing\r\n\r\n", b""),
    (
        b"merge 0 00012\r\n\nstraighten -0 -007",
        b"merge 0 12\nstraighten 0 -7\n",
    ),
    (
        b"grid cm\nsplit 1 -10000000000 7\n#\nmerge 3 4\n",
        b"split 1 -100000000000 70\nmerge 3 4\n",
    ),
];

#[test]
fn what_was_written_otherwise_is_written_so(rt: HostRuntime) -> Result<(), Fail> {
    for (text, want) in &OTHERWISE {
        assert_eq!(rt; again(rt.alloc(), text)?.as_slice(), *want);
    }
    Ok(())
}

/// Whether allocation `number` of the reading and the writing of three edits was refused. The answer has to be want of
/// memory exactly then, and else the text.
fn is_refused(heap: &Refusing<Global>, number: u64) -> Result<bool, Fail> {
    let text = b"split 1 0 0 1 1 2 2 3 3 4 4\nmerge 3 4\nstraighten 30 0\n".as_slice();
    heap.refuse(number);
    let answer = again(heap, text);
    match (heap.is_spent(), answer) {
        (true, Err(ClerkFault::NoMemory)) => Ok(true),
        (false, Ok(lines)) if lines.as_slice() == text => Ok(false),
        _ => Err(Fail::new("another answer")),
    }
}

#[test]
fn each_allocation_refused(rt: HostRuntime) -> Result<(), Fail> {
    let heap = Refusing::new(rt.alloc(), 0);
    for number in 1..100 {
        if !is_refused(&heap, number)? {
            assert!(rt; number > 4);
            return Ok(());
        }
    }
    Err(Fail::new("each allocation was refused"))
}
