//! The file of a journal.

use crate::file_id::FileId;

/// A file could not be written or synchronised.
#[derive(Clone, Copy, Debug, PartialEq, Eq)]
pub struct FileFailed;

/// A file that a journal is written to.
pub trait JournalFile: Drop {
    ghost use Rattle.std.specs.Prelude.{◌≡◌, ℕ, List, Option, None, OnOk};
    ghost use Rattle.journal_writers.specs.declared.file_id.FileId.{FileId};
    ghost use Rattle.journal_writers.specs.Files.{with_more};

    // The bytes that it has, where it tells them.
    ghost bytes: { Self → Option (List ℕ) } = { λ _. None };

    // Which file it is.
    ghost which: { Self → FileId };

    /// Which file it is.
    fn id(&self) -> FileId
        ensures { result ≡ which self.now };

    /// Adds bytes at the end. Where that fails, a beginning of them may be added.
    fn append(&mut self, more: &[u8]) -> Result<(), FileFailed>
        ensures ok { OnOk result (bytes self.new ≡ with_more more.now (bytes self.old)) }
        ensures same { which self.new ≡ which self.old };
}
