//! A journal of two records, whose digests another program computed.

use geo_exact::Corner;
use journal_records::{JournalFault, Seal, Stamp, push_header, push_record, read_journal};
use ring_edits::Edit;
use std::alloc::{AllocError, Allocator};
use std::test::Fail;

/// The journal of the two records of [`push_journal`].
pub(crate) const JOURNAL: &[u8] =
    b"# gandovel journal 1 mm 30ab980e6efd8a7e2dafdca2e90b1b5d8922255fc34d6b540f498f9e775cda93
# 1 2 2026-11-28T11:34:48Z anna, deed 17 198227c1022d743ece5d0c9e66c528256489bf6acba471696c5f801f78d9ffe0
merge 4 5
# 2 1 2026-11-28T11:35:02Z ec866136f95461d641239930eeeb1a7679d6bb3beaa6ce8f8443cebd90ed9664
straighten 50000 -40000
";

/// The layer of the tests: the SHA-256 of `citylayer`.
pub(crate) fn layer() -> Seal {
    Seal::of(b"city", b"", b"layer")
}

/// Adds the journal of two records.
fn push_journal<A: Allocator + Copy>(alloc: A, text: &mut Vec<u8, A>) -> Result<Seal, AllocError> {
    let layer = layer();
    push_header(text, &layer)?;
    let first = Stamp {
        number: 1,
        clerk: 2,
        time: b"2026-11-28T11:34:48Z",
        who: b"anna, deed 17",
    };
    let merge: Edit<A> = Edit::Merge { a: 4, b: 5 };
    let seal = push_record(alloc, text, &layer, &first, &merge)?;
    let second = Stamp {
        number: 2,
        clerk: 1,
        time: b"2026-11-28T11:35:02Z",
        who: b"",
    };
    let at = Corner {
        x: 50_000,
        y: -40_000,
    };
    let straighten: Edit<A> = Edit::Straighten { at };
    push_record(alloc, text, &seal, &second, &straighten)
}

#[test]
fn is_written_as_it_stands(rt: HostRuntime) -> Result<(), Fail> {
    let mut text = Vec::new(rt.alloc());
    push_journal(rt.alloc(), &mut text)?;
    assert_eq!(rt; text.as_slice(), JOURNAL);
    Ok(())
}

#[test]
fn is_read_back(rt: HostRuntime) -> Result<(), Fail> {
    let mut text = Vec::new(rt.alloc());
    let seal = push_journal(rt.alloc(), &mut text)?;
    let Ok(read) = read_journal(rt.alloc(), &layer(), JOURNAL) else {
        return Err(Fail::new("not read"));
    };
    assert!(rt; read.seal == seal && read.torn.is_empty());
    assert_eq!(rt; read.records.len(), 2);
    let (first, second) = (&read.records[0], &read.records[1]);
    assert_eq!(rt; (first.stamp.number, first.stamp.clerk), (1, 2));
    assert_eq!(rt; first.stamp.who, b"anna, deed 17".as_slice());
    assert!(rt; first.edit == Edit::Merge { a: 4, b: 5 });
    assert_eq!(rt; (second.stamp.number, second.stamp.clerk), (2, 1));
    assert_eq!(rt; second.stamp.time, b"2026-11-28T11:35:02Z".as_slice());
    assert!(rt; second.stamp.who.is_empty());
    Ok(())
}

#[test]
fn another_layer_and_no_journal(rt: HostRuntime) -> Result<(), Fail> {
    let other = Seal::of(b"city", b"", b"layers");
    let fault = read_journal(rt.alloc(), &other, JOURNAL).err();
    assert!(rt; fault == Some(JournalFault::OtherLayer));
    for text in [
        b"merge 4 5\n".as_slice(),
        b"# gandovel journal 2 mm ",
        b"x",
        JOURNAL.get(..80).unwrap_or(&[]),
    ] {
        let fault = read_journal(rt.alloc(), &layer(), text).err();
        assert!(rt; fault == Some(JournalFault::NoJournal));
    }
    Ok(())
}
