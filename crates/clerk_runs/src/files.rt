//! The files of clerks' edits.

ghost use Rattle.std.specs.Prelude.{◌≡◌, ◌⊎◌, ◌≤◌, ℕ, length, IfOk, IfErr, IsErrAnd};
ghost use Rattle.line_files.specs.ClerkFile.{IsClerkFile, IsFirstBadLine, BeginsWithEdit};
ghost use Rattle.desk_lock.specs.declared.opening.TheConstants.{MOST_PLACES};
ghost use Rattle.clerk_runs.specs.ClerkFiles.{texts_of, AreClerkFiles, IsFirstBadOfAll, AskForMemory};
ghost use Rattle.clerk_runs.specs.declared.files.FilesFault.TheVariants.{BadLine, NoMemory};

use line_files::{ClerkFault, read_clerk};
use ring_edits::Edit;
use std::alloc::{AllocError, AllocFailed, Allocator};
use std::marker::Model;

/// The edits of a clerk's file, in order, each with the number of its line, from 1.
#[derive(Drop)]
pub struct ClerkEdits<A: Allocator> {
    pub(crate) edits: Vec<(u64, Edit<A>), A>,
}

impl<A: Allocator> Model for ClerkEdits<A> {
    ghost use Rattle.std.specs.Prelude.{ℕ, List};
    ghost use Rattle.ring_edits.specs.declared.edit.Edit.{Edit};

    ghost Value = { List (ℕ × Edit A) };

    ghost view = { λ clerk. clerk.edits.items };
}

/// Why clerks' files are refused.
#[derive(Clone, Copy, Debug, PartialEq, Eq)]
pub enum FilesFault {
    /// L1: the file of this clerk, from 1, is the first that has a bad line, and this line, from 1,
    /// is its first that is neither skipped nor an edit.
    BadLine(u32, u64),
    /// An allocation failed.
    NoMemory,
}

impl From<AllocError> for FilesFault {
    ghost from_gives = { λ _ fault. fault ≡ NoMemory };

    fn from(_: AllocError) -> FilesFault {
        FilesFault::NoMemory
    }
}

impl<T: Drop> From<AllocFailed<T>> for FilesFault {
    ghost from_gives = { λ _ fault. fault ≡ NoMemory };

    fn from(_: AllocFailed<T>) -> FilesFault {
        FilesFault::NoMemory
    }
}

/// The edits of clerks' files; clerk K is that of file K, from 1.
///
/// # Errors
///
/// [`FilesFault::BadLine`] with the first line that is no edit of the first file that has one, and
/// [`FilesFault::NoMemory`].
pub fn read_clerks<'h, H: Allocator, A: Allocator>(
    heap: &'h H,
    files: &[Vec<u8, A>],
) -> Result<Vec<ClerkEdits<&'h H>, &'h H>, FilesFault>
    requires { length files.now ≤ MOST_PLACES }
    ensures edits { IfOk result (λ clerks. AreClerkFiles (texts_of files.now) clerks.items) }
    ensures fault { IfErr result (λ fault. (clerk line : ℕ) → fault ≡ BadLine clerk line
        → IsFirstBadOfAll (texts_of files.now) clerk line) }
    ensures refuses { (clerk line : ℕ) → IsFirstBadOfAll (texts_of files.now) clerk line
        → IsErrAnd result (λ fault. (fault ≡ BadLine clerk line) ⊎ (fault ≡ NoMemory)) }
    // Memory runs out only where it is asked for. So a first file that begins with a bad line is refused by that line.
    ensures memory { IfErr result (λ fault. fault ≡ NoMemory → AskForMemory (texts_of files.now)) }
{
    let mut clerks = Vec::new(heap);
    let mut clerk = 0;
    for file in files {
        clerk += 1;
        let edits = edits_of_clerk(heap, clerk, file.as_slice())?;
        clerks.push(ClerkEdits { edits })?;
    }
    Ok(clerks)
}

/// The edits of a clerk's file; its first bad line is reported with the clerk's number.
fn edits_of_clerk<'h, H: Allocator>(
    heap: &'h H,
    clerk: u32,
    file: &[u8],
) -> Result<Vec<(u64, Edit<&'h H>), &'h H>, FilesFault>
    ensures edits { IfOk result (λ edits. IsClerkFile file.now edits.items) }
    ensures fault { IfErr result (λ fault. ((line : ℕ) × IsFirstBadLine file.now line × (fault ≡ BadLine clerk line))
        ⊎ (fault ≡ NoMemory)) }
    ensures refuses { (line : ℕ) → IsFirstBadLine file.now line
        → IsErrAnd result (λ fault. (fault ≡ BadLine clerk line) ⊎ (fault ≡ NoMemory)) }
    ensures memory { IfErr result (λ fault. fault ≡ NoMemory → BeginsWithEdit file.now) }
{
    match read_clerk(heap, file) {
        Ok(edits) => Ok(edits),
        Err(ClerkFault::Line(line)) => Err(FilesFault::BadLine(clerk, line)),
        Err(ClerkFault::NoMemory) => Err(FilesFault::NoMemory),
    }
}
