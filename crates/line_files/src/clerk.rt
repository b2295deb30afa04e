//! The edits of a clerk's file.

ghost use Rattle.std.specs.Prelude.{◌≡◌, ◌⊎◌, ℕ, List, IfOk, IsErrAnd, IsErrOf, MatchResult};
ghost use Rattle.ring_edits.specs.declared.edit.Edit.{Edit as EditValue};
ghost use Rattle.line_files.specs.ClerkFile.{IsClerkFile, IsFirstBadLine, BeginsWithEdit};
ghost use Rattle.line_files.specs.declared.clerk.ClerkFault.TheVariants.{Line, NoMemory};

use crate::edit_words::read_edit;
use crate::grids::split_grid;
use crate::text_lines::{is_skipped, split_line};
use ring_edits::Edit;
use std::alloc::{AllocError, AllocFailed, Allocator};

/// Why a text is no clerk's file.
#[derive(Clone, Copy, Debug, PartialEq, Eq)]
pub enum ClerkFault {
    /// L1: the first line, counted from 1, that is neither skipped nor an edit.
    Line(u64),
    /// An allocation failed.
    NoMemory,
}

impl From<AllocError> for ClerkFault {
    ghost from_gives = { λ _ fault. fault ≡ NoMemory };

    fn from(_: AllocError) -> ClerkFault {
        ClerkFault::NoMemory
    }
}

impl<T: Drop> From<AllocFailed<T>> for ClerkFault {
    ghost from_gives = { λ _ fault. fault ≡ NoMemory };

    fn from(_: AllocFailed<T>) -> ClerkFault {
        ClerkFault::NoMemory
    }
}

/// The edits of a clerk's file, in order, each with the number of its line, counted from 1. Lines
/// that are empty, or begin with `#`, are skipped, and counted. Each other line is one of
///
/// - `split ID X Y X Y ..`, with one corner or more,
/// - `merge ID ID`,
/// - `move ID ID X Y X Y ..`, with one corner or more,
/// - `insert X Y X Y X Y`, the two ends of an edge and the new corner on it,
/// - `straighten X Y`, the corner that is taken out,
///
/// with one space between words. Coordinates are in whole millimetres, or in whole centimetres where
/// the file's first line is `grid cm`. That line is counted, and is no edit; anywhere else it is a
/// bad one. Whether an edit can be carried out is not looked at.
///
/// # Errors
///
/// [`ClerkFault::Line`] with the first line that is neither an edit nor skipped, and [`ClerkFault::NoMemory`], which
/// only edits can meet: a text whose first line that is not skipped is a bad one is refused by that line.
///
/// ```
/// // "merge 3 4\n": one edit, of line 1.
/// let edits = read_clerk(alloc, text)?;
/// ```
pub fn read_clerk<A: Allocator + Copy>(
    alloc: A,
    bytes: &[u8],
) -> Result<Vec<(u64, Edit<A>), A>, ClerkFault>
    ensures list { IfOk result (λ list. IsClerkFile bytes.now list.items) }
    ensures bad { (number : ℕ) → IsErrOf result (ClerkFault.Line number) → IsFirstBadLine bytes.now number }
    // A clerk's file is read, unless memory runs out.
    ensures reads { (list : List (ℕ × EditValue A)) → IsClerkFile bytes.now list
        → MatchResult result (λ found. found.items ≡ list) (λ fault. fault ≡ NoMemory) }
    // The first bad line is told, unless memory runs out.
    ensures refuses { (number : ℕ) → IsFirstBadLine bytes.now number
        → IsErrAnd result (λ fault. (fault ≡ Line number) ⊎ (fault ≡ NoMemory)) }
    // It runs out only where it is asked for: where the first line that is not skipped says an edit.
    ensures memory { IsErrOf result NoMemory → BeginsWithEdit bytes.now }
{
    let mut list = Vec::new(alloc);
    let (grid, mut rest) = split_grid(bytes);
    let mut number = u64::from(grid.is_named());
    while !rest.is_empty() {
        let (line, behind) = split_line(rest);
        rest = behind;
        number += 1;
        if is_skipped(line) {
            continue;
        }
        match read_edit(alloc, grid, line)? {
            Some(edit) => list.push((number, edit))?,
            None => return Err(ClerkFault::Line(number)),
        }
    }
    Ok(list)
}
