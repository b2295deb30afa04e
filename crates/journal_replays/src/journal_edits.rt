//! The edits of a journal, made again.

ghost use Rattle.std.specs.Prelude.{◌≡◌, ◌≢◌, ◌⊎◌, ℕ, IfOk, IfErr, IsErrOf, OnOk};
ghost use Rattle.journal_records.specs.declared.read.JournalFault.{JournalFault as JournalFaultValue};
ghost use Rattle.journal_records.specs.declared.read.JournalFault.TheVariants.{NoMemory as NoRoomToRead};
ghost use Rattle.fabric_core.specs.declared.refusal.Refusal.{Refusal as RefusalValue};
ghost use Rattle.fabric_core.specs.declared.refusal.Refusal.TheVariants.{NoMemory as NoRoom};
ghost use Rattle.journal_replays.specs.Replays.{AreMade, IsReplayed, IsReplayFault, IsStoppedAt, IsRefusedAt};
ghost use Rattle.journal_replays.specs.Replays.{IsShortIn, IsShortOf};

use fabric_core::{Fabric, Refusal};
use journal_records::{JournalFault, Journaled, Record, Seal, read_journal};
use std::alloc::Allocator;

/// Why the edits of a journal are not made again.
#[derive(Clone, Copy, Debug, PartialEq, Eq)]
pub enum ReplayFault {
    /// The text is no journal of this layer.
    Journal(JournalFault),
    /// The edit of the record of this number, from 1, is refused.
    Refused(u64, Refusal),
}

/// What was made again of a journal.
#[derive(Clone, Copy, Debug)]
pub struct Replayed {
    /// How many records there are.
    pub records: u64,
    /// The digest of the last one, or that of the layer.
    pub seal: Seal,
    /// How many bytes stand behind it: what a cut has left.
    pub torn: usize,
    /// Whether its last line feed is missing, and nothing else.
    pub lacks_end: bool,
}

/// Makes the edits of a journal that was begun with the layer of this digest, in their order, each as its clerk's: each
/// is the next entry of the fabric.
///
/// # Errors
///
/// [`ReplayFault::Journal`] for a text that is no journal of this layer, which changes nothing, or where memory is
/// refused; [`ReplayFault::Refused`] with the first edit that is refused: the edits before have been made then.
pub fn replay<'h, H: Allocator>(
    heap: &'h H,
    fabric: &mut Fabric<'h, H>,
    layer: &Seal,
    text: &[u8],
) -> Result<Replayed, ReplayFault>
    ensures ok { IfOk result (λ replayed.
        IsReplayed layer.now.digits text.now fabric.old fabric.new replayed.records
        replayed.seal.digits replayed.torn replayed.lacks_end) }
    ensures fault { IfErr result (IsReplayFault layer.now.digits text.now) }
    ensures refused { (number : ℕ) (refusal : RefusalValue) → IsErrOf result (ReplayFault.Refused number refusal)
        → IsRefusedAt layer.now.digits text.now fabric.old fabric.new number refusal }
    // A text that is no journal of this layer changes nothing.
    ensures unchanged { (fault : JournalFaultValue) → IsErrOf result (ReplayFault.Journal fault)
        → fault ≢ NoRoomToRead → fabric.new ≡ fabric.old }
    // Memory is refused before any edit is made, or for one that is not refused whatever memory there is.
    ensures memory { IsErrOf result (ReplayFault.Journal NoRoomToRead)
        → IsShortOf layer.now.digits text.now fabric.old fabric.new }
{
    let Journaled {
        records,
        seal,
        torn,
        lacks_end,
    } = match read_journal(heap, layer, text) {
        Ok(read) => read,
        Err(fault) => return Err(ReplayFault::Journal(fault)),
    };
    match make_all(fabric, records.as_slice()) {
        Ok(()) => Ok(Replayed {
            records: records.len() as u64,
            seal,
            torn: torn.len(),
            lacks_end,
        }),
        Err((_, Refusal::NoMemory)) => Err(ReplayFault::Journal(JournalFault::NoMemory)),
        Err((number, refusal)) => Err(ReplayFault::Refused(number, refusal)),
    }
}

/// Makes the edits of records, in order, each as its clerk's. The first that is refused ends it, and is reported with
/// its number.
fn make_all<'h, H: Allocator>(
    fabric: &mut Fabric<'h, H>,
    records: &[Record<'_, &'h H>],
) -> Result<(), (u64, Refusal)>
    ensures ok { OnOk result (AreMade records.now fabric.old fabric.new) }
    ensures refused { IfErr result (λ refused.
        IsStoppedAt records.now fabric.old fabric.new refused.0 refused.1 ⊎ (refused.1 ≡ NoRoom)) }
    ensures memory { IfErr result (λ refused.
        refused.1 ≡ NoRoom → IsShortIn records.now fabric.old fabric.new) }
{
    for said in records {
        if let Err(refusal) = fabric.edit(said.stamp.clerk, &said.edit) {
            return Err((said.stamp.number, refusal));
        }
    }
    Ok(())
}
