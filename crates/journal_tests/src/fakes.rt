//! Files in memory, whose calls may be made to fail, and their synchronisers.

use journal_writers::{FileFailed, FileId, JournalFile, Synchroniser, Written};
use std::alloc::Global;

/// A file in memory.
#[derive(Drop)]
pub(crate) struct FakeFile<'f> {
    pub(crate) disk: &'f mut FakeDisk,
}

/// What a file in memory has.
#[derive(Drop)]
pub(crate) struct FakeDisk {
    pub(crate) text: Vec<u8, Global>,
    /// The number of the call that fails, from 1; 0 for none.
    pub(crate) fails_at: u64,
    pub(crate) calls: u64,
}

impl FakeDisk {
    /// An empty file, of whose calls that of this number fails.
    pub(crate) fn new(alloc: Global, fails_at: u64) -> FakeDisk {
        FakeDisk {
            text: Vec::new(alloc),
            fails_at,
            calls: 0,
        }
    }

    /// Counts a call; whether it fails.
    fn fails(&mut self) -> bool {
        self.calls = self.calls.wrapping_add(1);
        self.calls == self.fails_at
    }
}

impl<'f> JournalFile for FakeFile<'f> {
    ghost which = { λ _. record { device = 1; node = 2 } };

    fn id(&self) -> FileId {
        FileId { device: 1, node: 2 }
    }

    fn append(&mut self, more: &[u8]) -> Result<(), FileFailed> {
        let fails = self.disk.fails();
        // A write that fails leaves half of its bytes.
        let written = if fails {
            more.get(..more.len() / 2).unwrap_or(&[])
        } else {
            more
        };
        let added = self.disk.text.extend_from_slice(written).is_ok();
        if fails || !added {
            Err(FileFailed)
        } else {
            Ok(())
        }
    }
}

/// What synchronises a file in memory.
#[derive(Drop)]
pub(crate) struct FakeSynchroniser {
    pub(crate) file: FileId,
    pub(crate) fails: bool,
}

impl Synchroniser for FakeSynchroniser {
    ghost use Rattle.std.specs.Prelude.{⊤};

    ghost of = { λ it. it.file };

    ghost brought = { λ _ _. ⊤ };

    fn id(&self) -> FileId {
        self.file
    }

    fn synchronise(&self, _: &Written) -> Result<(), FileFailed> {
        if self.fails { Err(FileFailed) } else { Ok(()) }
    }
}
