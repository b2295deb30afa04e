//! Journals that are written to files in memory.

use crate::fakes::{FakeDisk, FakeFile, FakeSynchroniser};
use crate::written::{JOURNAL, layer};
use journal_records::{Stamp, read_journal};
use journal_writers::{FileFailed, FileId, JournalWriter, Synced, Written, sync};
use ring_edits::Edit;
use std::alloc::Global;
use std::test::Fail;

/// How many bytes the header has, and the header with the first record.
const HEADER: usize = 89;

const FIRST: usize = 205;

/// The stamp of the first record.
fn stamp<'t>() -> Stamp<'t> {
    Stamp {
        number: 1,
        clerk: 2,
        time: b"2026-11-28T11:34:48Z",
        who: b"anna, deed 17",
    }
}

/// Begins a journal, and adds its first record; how many calls of the file succeeded before one failed.
fn write_one(alloc: Global, disk: &mut FakeDisk) -> Result<bool, Fail> {
    let begun: Result<JournalWriter<FakeFile, Global>, FileFailed> = JournalWriter::begin(
        alloc,
        FakeFile { disk },
        &layer(),
    );
    let Ok(mut writer) = begun else {
        return Ok(false);
    };
    let merge: Edit<Global> = Edit::Merge { a: 4, b: 5 };
    let draft = writer.draft(alloc, &stamp(), &merge)?;
    if writer.add(&draft).is_ok() {
        // The same record again is not the next one, and from then on nothing is written.
        if writer.add(&draft).is_ok() || !writer.is_broken() {
            return Err(Fail::new("a record is written twice"));
        }
        return Ok(true);
    }
    if writer.add(&draft).is_ok() {
        return Err(Fail::new("written after a failed write"));
    }
    Ok(false)
}

#[test]
fn one_record_is_written(rt: HostRuntime) -> Result<(), Fail> {
    let mut disk = FakeDisk::new(rt.alloc(), 0);
    assert!(rt; write_one(rt.alloc(), &mut disk)?);
    assert_eq!(rt; disk.text.as_slice(), JOURNAL.get(..FIRST).unwrap_or(&[]));
    Ok(())
}

#[test]
fn each_call_fails_in_turn(rt: HostRuntime) -> Result<(), Fail> {
    // The header's write, and the record's: half of each is left.
    let lengths = [HEADER / 2, HEADER + (FIRST - HEADER) / 2];
    for (at, length) in lengths.iter().enumerate() {
        let mut disk = FakeDisk::new(rt.alloc(), at as u64 + 1);
        assert!(rt; !write_one(rt.alloc(), &mut disk)?);
        assert_eq!(rt; disk.text.len(), *length);
    }
    Ok(())
}

/// Writes what is whole of a text to an empty file, and answers how many records were written there.
fn write_anew(alloc: Global, disk: &mut FakeDisk, text: &[u8]) -> Result<Written, Fail> {
    let layer = layer();
    let Ok(read) = read_journal(alloc, &layer, text) else {
        return Err(Fail::new("not read"));
    };
    let (count, seal) = (read.records.len() as u64, read.seal);
    let whole = text.len().saturating_sub(read.torn.len());
    let begun: Result<JournalWriter<FakeFile, Global>, FileFailed> = JournalWriter::go_on(
        FakeFile { disk },
        &layer,
        count,
        seal,
        &text[..whole],
        read.lacks_end,
    );
    match begun {
        Ok(writer) => Ok(writer.written()),
        Err(FileFailed) => Err(Fail::new("not begun")),
    }
}

#[test]
fn what_is_whole_is_written_anew(rt: HostRuntime) -> Result<(), Fail> {
    for length in [FIRST - 1, FIRST, FIRST + 7] {
        let mut disk = FakeDisk::new(rt.alloc(), 0);
        let text = JOURNAL.get(..length).unwrap_or(&[]);
        let written = write_anew(rt.alloc(), &mut disk, text)?;
        assert_eq!(rt; written.records(), 1);
        assert_eq!(rt; disk.text.as_slice(), JOURNAL.get(..FIRST).unwrap_or(&[]));
    }
    Ok(())
}

#[test]
fn only_its_own_files_synchroniser_serves(rt: HostRuntime) -> Result<(), Fail> {
    let mut disk = FakeDisk::new(rt.alloc(), 0);
    let written = write_anew(rt.alloc(), &mut disk, JOURNAL)?;
    let own = FileId { device: 1, node: 2 };
    for (file, fails) in [
        (own, true),
        (FileId { device: 1, node: 3 }, false),
        (FileId { device: 2, node: 2 }, false),
    ] {
        assert!(rt; sync(&FakeSynchroniser { file, fails }, &written).is_err());
    }
    let synchroniser = FakeSynchroniser {
        file: own,
        fails: false,
    };
    let Ok(on_disk) = sync(&synchroniser, &written) else {
        return Err(Fail::new("not synchronised"));
    };
    assert_eq!(rt; on_disk.records(), 2);
    assert_eq!(rt; on_disk.told().records(), on_disk.again().records());
    let mut synced = Synced::new(on_disk);
    synced.begin();
    synced.end(Err(FileFailed));
    assert!(rt; synced.is_lost() && !synced.is_busy() && synced.has(2) && !synced.has(3));
    Ok(())
}
