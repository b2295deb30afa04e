//! The edits of a clerk's file, with which a new journal begins.

ghost use Rattle.std.specs.Prelude.{◌≡◌, ◌⊎◌, IfErr, OnOk};
ghost use Rattle.fabric_core.specs.declared.refusal.Refusal.TheVariants.{NoMemory as NoRoom};
ghost use Rattle.session_rooms.specs.ClerkEdits.{AreMadeOf, AreMadeBy, IsStoppedIn, IsShortIn, IsEditsFault};
ghost use Rattle.session_rooms.specs.Kept.{HasRecords};

use fabric_core::{Entry, Fabric, Refusal};
use journal_records::Stamp;
use journal_writers::{FileFailed, JournalFile, JournalWriter};
use line_files::{ClerkFault, read_clerk};
use ring_edits::Edit;
use std::alloc::Allocator;

/// Whose edits those of a clerk's file are: the clerk's that each session has, also one without desks.
pub const EDITS_CLERK: u32 = 1;

/// Why the edits of a clerk's file are not made.
#[derive(Clone, Copy, Debug, PartialEq, Eq)]
pub enum EditsFault {
    /// L1: the first line, counted from 1, that is neither skipped nor an edit.
    Line(u64),
    /// The edit in the line of this number is refused.
    Refused(u64, Refusal),
    /// An allocation failed.
    NoMemory,
}

/// Makes the edits of a clerk's file, in order, each as the next entry.
///
/// # Errors
///
/// [`EditsFault`]: the first line that is bad, and no edit is made; or the first edit that is refused.
pub fn make_edits<'h, H: Allocator>(
    heap: &'h H,
    fabric: &mut Fabric<'h, H>,
    text: &[u8],
) -> Result<(), EditsFault>
    ensures made { OnOk result (AreMadeOf text.now fabric.old fabric.new) }
    ensures fault { IfErr result (IsEditsFault text.now fabric.old fabric.new) }
{
    let edits = match read_clerk(heap, text) {
        Ok(edits) => edits,
        Err(ClerkFault::Line(line)) => return Err(EditsFault::Line(line)),
        Err(ClerkFault::NoMemory) => return Err(EditsFault::NoMemory),
    };
    match make_all(fabric, edits.as_slice()) {
        Ok(()) => Ok(()),
        Err((_, Refusal::NoMemory)) => Err(EditsFault::NoMemory),
        Err((line, refusal)) => Err(EditsFault::Refused(line, refusal)),
    }
}

/// Makes edits in order. The first that is refused ends it, and is reported with its line.
fn make_all<'h, H: Allocator>(
    fabric: &mut Fabric<'h, H>,
    edits: &[(u64, Edit<&'h H>)],
) -> Result<(), (u64, Refusal)>
    ensures ok { OnOk result (AreMadeBy EDITS_CLERK edits.now fabric.old fabric.new) }
    ensures refused { IfErr result (λ refused.
        IsStoppedIn EDITS_CLERK edits.now fabric.old fabric.new refused.0 refused.1 ⊎ (refused.1 ≡ NoRoom)) }
    ensures memory { IfErr result (λ refused.
        refused.1 ≡ NoRoom → IsShortIn EDITS_CLERK edits.now fabric.old fabric.new) }
{
    for said in edits {
        if let Err(refusal) = fabric.edit(EDITS_CLERK, &said.1) {
            return Err((said.0, refusal));
        }
    }
    Ok(())
}

/// Adds the records of entries to a journal, all with this time.
///
/// # Errors
///
/// [`FileFailed`], also where memory is refused. Some may be added then.
pub fn add_entries<'h, H: Allocator, F: JournalFile>(
    heap: &'h H,
    writer: &mut JournalWriter<F, &'h H>,
    time: &[u8],
    entries: &[Entry<&'h H>],
) -> Result<(), FileFailed>
    ensures { OnOk result (HasRecords writer.old writer.new entries.now) }
{
    for entry in entries {
        let stamp = Stamp {
            number: entry.number(),
            clerk: entry.clerk(),
            time,
            who: &[],
        };
        let Ok(draft) = writer.draft(heap, &stamp, entry.edit()) else {
            return Err(FileFailed);
        };
        writer.add(&draft)?;
    }
    Ok(())
}
