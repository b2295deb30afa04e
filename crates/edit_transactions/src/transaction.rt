//! Several edits as one.

ghost use Rattle.std.specs.Prelude.{◌≡◌, ◌⊎◌, ◌↔◌, ◌+◌, ◌++◌, ◌∷◌, [], ◌<◌, ◌≤◌, ℕ, List, length};
ghost use Rattle.std.specs.Prelude.{IfOk, IfErr, OnErr, IsErrAnd};
ghost use Rattle.ring_edits.specs.declared.edit.Edit.{Edit as EditValue};
ghost use Rattle.edit_transactions.specs.declared.transaction.TheConstants.{TRANSACTION_EDITS};
ghost use Rattle.fabric_core.specs.declared.refusal.Refusal.{Refusal as RefusalValue};
ghost use Rattle.fabric_core.specs.declared.refusal.Refusal.TheVariants.{NoMemory};
ghost use Rattle.fabric_core.specs.Journal.{State, JournalEntry, replay};
ghost use Rattle.fabric_core.specs.EditResults.{IsEntryOf};
ghost use Rattle.fabric_core.specs.Refusals.{IsRefusal, NeedsNoMemory};
ghost use Rattle.edit_transactions.specs.Transactions.{IsFirstRefused, IsTransaction};

use fabric_core::{Entry, Fabric, Refusal};
use ring_edits::Edit;
use std::alloc::Allocator;

/// The most edits of a transaction, 2 ^ 10: a plan of subdivision has some hundreds, and their line is one to read.
pub const TRANSACTION_EDITS: usize = 1_024;

/// Which edit of a transaction is refused, and why. Nothing has changed then.
#[derive(Clone, Copy, Debug, PartialEq, Eq)]
pub struct RefusedEdit {
    /// Its place in the transaction, from 1.
    pub place: u32,
    /// Why it is refused.
    pub refusal: Refusal,
}

/// Makes edits, one after the other, up to the first that is refused. Those before it stay made: whoever calls this has
/// kept what was before.
pub(crate) fn make_in_turn<'a, H: Allocator>(
    heap: &'a H,
    fabric: &mut Fabric<'a, H>,
    clerk: u32,
    edits: &[Edit<&'a H>],
) -> Result<Vec<Entry<&'a H>, &'a H>, RefusedEdit>
    requires few { length edits.now ≤ TRANSACTION_EDITS }
    ensures made { IfOk result (λ entries.
        IsTransaction fabric.old.now (length fabric.old.journal + 1) clerk edits.now entries.items) }
    ensures now { IfOk result (λ entries. fabric.new.now ≡ replay fabric.old.now entries.items) }
    ensures journal { IfOk result (λ entries. fabric.new.journal ≡ fabric.old.journal ++ entries.items) }
    ensures city { fabric.new.city ≡ fabric.old.city }
    ensures opening { fabric.new.opening ≡ fabric.old.opening }
    ensures refusal { IfErr result (λ refused.
        IsFirstRefused fabric.old.now fabric.old.journal clerk edits.now refused.place refused.refusal
        ⊎ (refused.refusal ≡ NoMemory)) }
    ensures refuses { (place : ℕ) (refusal : RefusalValue)
        → IsFirstRefused fabric.old.now fabric.old.journal clerk edits.now place refusal
        → IsErrAnd result (λ e. ((e.place ≡ place) × (e.refusal ≡ refusal)) ⊎ (e.refusal ≡ NoMemory)) }
    ensures exact { (place : ℕ) (refusal : RefusalValue)
        → IsFirstRefused fabric.old.now fabric.old.journal clerk edits.now place refusal
        → IfErr result (λ e. (e.place ≤ place) × (e.place ≡ place → NeedsNoMemory refusal → e.refusal ≡ refusal)) }
{
    let mut entries = Vec::new(heap);
    let mut place: u32 = 1;
    for edit in edits {
        fabric.use_invariant();
        let _ids = fabric.ids();
        let entry = match fabric.edit(clerk, edit) {
            Ok(entry) => entry,
            Err(refusal) => return Err(RefusedEdit { place, refusal }),
        };
        let Ok(()) = entries.push(entry) else {
            let refusal = Refusal::NoMemory;
            return Err(RefusedEdit { place, refusal });
        };
        place += 1;
    }
    Ok(entries)
}

/// Makes several edits as one: each in the state that those before it lead to, and the journal gets their entries; or
/// none of them. The list of entries is in the heap that is lent.
///
/// A copy of the fabric is kept while they are made, so the time grows with the city and its journal.
///
/// # Errors
///
/// The first edit that is refused, by its place from 1, with what [`Fabric::edit`] would refuse it for in that state;
/// nothing has changed then. Where an allocation fails, it is [`Refusal::NoMemory`] at the edit that was to be made.
///
/// ```
/// // Of parcels 1 and 2, neighbours: 3 comes and goes again.
/// let edits = [Edit::Merge { a: 1, b: 2 }, Edit::Split { id: 3, path }];
/// let entries = edit_all(&heap, &mut fabric, clerk, &edits)?;
/// ```
pub fn edit_all<'a, H: Allocator>(
    heap: &'a H,
    fabric: &mut Fabric<'a, H>,
    clerk: u32,
    edits: &[Edit<&'a H>],
) -> Result<Vec<Entry<&'a H>, &'a H>, RefusedEdit>
    requires some { 0 < length edits.now }
    requires few { length edits.now ≤ TRANSACTION_EDITS }
    // Accepted edits: the entries are those of the transaction of these edits by this clerk on the state before.
    ensures made { IfOk result (λ entries.
        IsTransaction fabric.old.now (length fabric.old.journal + 1) clerk edits.now entries.items) }
    // They change the state as the journal's replay does, and stand last in the journal.
    ensures now { IfOk result (λ entries. fabric.new.now ≡ replay fabric.old.now entries.items) }
    ensures journal { IfOk result (λ entries. fabric.new.journal ≡ fabric.old.journal ++ entries.items) }
    ensures city { fabric.new.city ≡ fabric.old.city }
    ensures opening { fabric.new.opening ≡ fabric.old.opening }
    // Where one is refused, nothing has changed, and it is the first that is.
    ensures unchanged { OnErr result (fabric.new ≡ fabric.old) }
    ensures refusal { IfErr result (λ refused.
        IsFirstRefused fabric.old.now fabric.old.journal clerk edits.now refused.place refused.refusal
        ⊎ (refused.refusal ≡ NoMemory)) }
    ensures refuses { (place : ℕ) (refusal : RefusalValue)
        → IsFirstRefused fabric.old.now fabric.old.journal clerk edits.now place refusal
        → IsErrAnd result (λ e. ((e.place ≡ place) × (e.refusal ≡ refusal)) ⊎ (e.refusal ≡ NoMemory)) }
    // Memory runs out at no edit after the first that is refused, and not at that one where its refusal is told
    // whatever memory there is; but at the first place it may, where what was before could not be kept.
    ensures exact { (place : ℕ) (refusal : RefusalValue)
        → IsFirstRefused fabric.old.now fabric.old.journal clerk edits.now place refusal
        → IfErr result (λ e. (e.place ≤ place) × (e.place ≡ place → NeedsNoMemory refusal
        → (e.refusal ≡ refusal) ⊎ ((e.place ≡ 1) × (e.refusal ≡ NoMemory)))) }
{
    let Ok(before) = fabric.copy() else {
        return Err(RefusedEdit {
            place: 1,
            refusal: Refusal::NoMemory,
        });
    };
    match make_in_turn(heap, fabric, clerk, edits) {
        Ok(entries) => Ok(entries),
        Err(refused) => {
            *fabric = before;
            Err(refused)
        }
    }
}

/// A transaction of one edit is that edit: it has the edit's entry, and it is refused, at its first place, for what
/// refuses the edit.
pub fn a_transaction_of_one_is_its_edit<A: Allocator>()
    ensures entry { (state : State) (number clerk : ℕ) (edit : EditValue A) (entry : JournalEntry A)
        → IsTransaction state number clerk (edit ∷ []) (entry ∷ [])
        ↔ ((entry.edit ≡ edit) × (entry.clerk ≡ clerk) × (entry.number ≡ number) × IsEntryOf state entry) }
    ensures refusal { (state : State) (journal : List (JournalEntry A)) (clerk : ℕ) (edit : EditValue A) (place : ℕ)
        (refusal : RefusalValue)
        → IsFirstRefused state journal clerk (edit ∷ []) place refusal
        ↔ ((place ≡ 1) × IsRefusal state journal edit refusal) }
{}
