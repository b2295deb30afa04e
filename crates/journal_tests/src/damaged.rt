//! A journal that was cut off at each length, and one of which each byte was changed.

use crate::written::{JOURNAL, layer};
use journal_records::{JournalFault, read_journal};
use std::alloc::Global;
use std::test::Fail;

/// How many bytes the header has, and the header with the first record.
const HEADER: usize = 89;

const FIRST: usize = 205;

#[test]
fn is_cut_off_at_each_length(rt: HostRuntime) -> Result<(), Fail> {
    for length in 0..JOURNAL.len() {
        let text = JOURNAL.get(..length).unwrap_or(&[]);
        match read_journal(rt.alloc(), &layer(), text) {
            Ok(read) => {
                // A record that lacks its line feed alone is whole.
                let (records, whole) = if length + 1 < FIRST {
                    (0, HEADER)
                } else if length + 1 < JOURNAL.len() {
                    (1, FIRST)
                } else {
                    (2, JOURNAL.len())
                };
                assert_eq!(rt; read.records.len(), records);
                assert_eq!(rt; read.lacks_end, length + 1 == whole);
                assert_eq!(rt; read.torn.len(), length.saturating_sub(whole));
            }
            Err(fault) => {
                assert!(rt; length < HEADER && fault == JournalFault::NoJournal);
            }
        }
    }
    Ok(())
}

#[test]
fn has_one_byte_changed(rt: HostRuntime) -> Result<(), Fail> {
    for place in 0..JOURNAL.len() {
        for byte in [b'0', b'1', b' ', b'#', b'\n', b'\r', b'x', 0] {
            let mut text = Vec::from_slice(rt.alloc(), JOURNAL)?;
            let Some(old) = text.get_mut(place) else {
                return Err(Fail::new("no such place"));
            };
            if *old == byte {
                continue;
            }
            *old = byte;
            if let Ok(read) = read_journal(rt.alloc(), &layer(), text.as_slice()) {
                // The last line feed is another byte, which an edit may have, or which was not written: its record may
                // be a torn one.
                assert!(rt; place == JOURNAL.len() - 1 && read.records.len() == 1);
                assert!(rt; byte != b'#' && byte != b'\r');
            }
        }
    }
    Ok(())
}

/// Reads the header and the first record, and so many bytes behind them.
fn read_behind(alloc: Global, bytes: &[u8]) -> Result<Result<usize, JournalFault>, Fail> {
    let mut text = Vec::from_slice(alloc, JOURNAL.get(..FIRST).unwrap_or(&[]))?;
    text.extend_from_slice(bytes)?;
    match read_journal(alloc, &layer(), text.as_slice()) {
        Ok(read) => Ok(Ok(read.torn.len())),
        Err(fault) => Ok(Err(fault)),
    }
}

#[test]
fn has_blocks_that_were_not_written(rt: HostRuntime) -> Result<(), Fail> {
    let zeros = [0u8; 2000];
    // A group is no longer than nine of the longest record so far, which has 116 bytes.
    for length in [1usize, 102, 1044] {
        let read = read_behind(rt.alloc(), zeros.get(..length).unwrap_or(&[]))?;
        assert!(rt; read == Ok(length));
    }
    for length in [1045usize, 2000] {
        let read = read_behind(rt.alloc(), zeros.get(..length).unwrap_or(&[]))?;
        assert!(rt; read == Err(JournalFault::Changed(4)));
    }
    Ok(())
}

#[test]
fn has_what_no_cut_leaves(rt: HostRuntime) -> Result<(), Fail> {
    let second = JOURNAL.get(FIRST..).unwrap_or(&[]);
    // The second record twice, its edit's line alone, behind a zero byte in one block, and other numbers.
    for bytes in [
        second.get(1..).unwrap_or(&[]),
        second.get(93..).unwrap_or(&[]),
        b"\0# 2 1 ",
        b"# 3 1 2026",
        b"# 2 1 2026\nmerge 1 2",
        b"merge 1 2",
    ] {
        assert!(rt; read_behind(rt.alloc(), bytes)? == Err(JournalFault::Changed(4)));
    }
    for bytes in [
        b"#".as_slice(),
        b"# 2",
        b"# 2 1 2026-11-28T11:35:02Z ec8661",
    ] {
        assert!(rt; read_behind(rt.alloc(), bytes)? == Ok(bytes.len()));
    }
    Ok(())
}
