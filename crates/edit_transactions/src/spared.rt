//! A fabric beside what it was, so that a transaction takes no time that grows with the city.

ghost use Rattle.std.specs.Prelude.{◌≡◌, ◌⊎◌, ◌+◌, ◌++◌, ◌∷◌, [], ◌<◌, ◌≤◌, ℕ, List, length};
ghost use Rattle.std.specs.Prelude.{IfOk, IfErr, IfSome, OnErr, IsErrAnd, IsErrOf};
ghost use Rattle.edit_transactions.specs.declared.transaction.TheConstants.{TRANSACTION_EDITS};
ghost use Rattle.fabric_core.specs.declared.refusal.Refusal.{Refusal as RefusalValue};
ghost use Rattle.fabric_core.specs.declared.refusal.Refusal.TheVariants.{NoMemory};
ghost use Rattle.fabric_core.specs.Journal.{after_entry, replay};
ghost use Rattle.fabric_core.specs.EditResults.{IsEntryOf};
ghost use Rattle.fabric_core.specs.Refusals.{IsRefusal, NeedsNoMemory};
ghost use Rattle.edit_transactions.specs.Transactions.{IsFirstRefused, IsTransaction};
ghost use Rattle.edit_transactions.specs.own.Spares.{IsBehind};

use crate::transaction::{RefusedEdit, make_in_turn};
use fabric_core::{Entry, Fabric, Refusal};
use ring_edits::Edit;
use std::alloc::{AllocError, Allocator};
use std::marker::Model;

/// A fabric with a spare: what it was before the last transaction. Where one is refused, the spare takes the fabric's
/// place; and it follows the fabric when the next one begins. So an accepted transaction takes the time of its edits
/// and of the entries since the last one. The first one, and one that is refused, take that of a copy of the fabric,
/// too.
///
/// Contracts see the fabric.
#[derive(Drop)]
pub struct SparedFabric<'a, H: Allocator> {
    fabric: Fabric<'a, H>,
    spare: Option<Fabric<'a, H>>,
}

impl<'a, H: Allocator> Model for SparedFabric<'a, H> {
    ghost use Rattle.std.specs.Prelude.{IfSome};
    ghost use Rattle.std.specs.Borrow.{Bor};
    ghost use Rattle.fabric_core.specs.Journal.{Book};
    ghost use Rattle.edit_transactions.specs.own.Spares.{IsBehind};

    ghost Value = { Book (Bor H) };

    ghost view = { λ spared. spared.fabric };

    ghost invariant = { λ spared. IfSome spared.spare (IsBehind spared.fabric) };
}

/// What a fabric was, made what it is now by its entries since; `None` where memory runs out.
fn follow_on<'a, H: Allocator>(
    fabric: &Fabric<'a, H>,
    spare: Fabric<'a, H>,
) -> Option<Fabric<'a, H>>
    requires { IsBehind fabric.now spare }
    ensures { IfSome result (λ before. before ≡ fabric.now) }
{
    fabric.use_invariant();
    let mut spare = spare;
    let journal = fabric.journal();
    for place in spare.journal().len()..journal.len() {
        if spare.follow(&journal[place]).is_err() {
            return None;
        }
    }
    spare.use_invariant();
    Some(spare)
}

/// The fabric once more: the spare, where there is one that can follow it, else a copy.
fn once_more<'a, H: Allocator>(
    fabric: &Fabric<'a, H>,
    spare: Option<Fabric<'a, H>>,
) -> Result<Fabric<'a, H>, AllocError>
    requires { IfSome spare (IsBehind fabric.now) }
    ensures { IfOk result (λ before. before ≡ fabric.now) }
{
    if let Some(spare) = spare
        && let Some(before) = follow_on(fabric, spare)
    {
        return Ok(before);
    }
    fabric.copy()
}

impl<'a, H: Allocator> SparedFabric<'a, H> {
    /// A fabric that has no spare yet.
    pub fn new(fabric: Fabric<'a, H>) -> SparedFabric<'a, H>
        ensures { result ≡ fabric.entry }
    {
        SparedFabric {
            fabric,
            spare: None,
        }
    }

    /// The fabric.
    pub fn fabric(&self) -> &Fabric<'a, H>
        ensures { result.now ≡ self.now }
    {
        &self.fabric
    }

    /// The fabric, without its spare.
    pub fn into_fabric(self) -> Fabric<'a, H>
        ensures { result ≡ self.entry }
    {
        let SparedFabric { fabric, spare: _ } = self;
        fabric
    }

    /// Makes several edits as one: each in the state that those before it lead to, and the journal gets their entries;
    /// or none of them. The list of entries is in the heap that is lent.
    ///
    /// # Errors
    ///
    /// As [`edit_all`](crate::edit_all).
    pub fn edit_all(
        &mut self,
        heap: &'a H,
        clerk: u32,
        edits: &[Edit<&'a H>],
    ) -> Result<Vec<Entry<&'a H>, &'a H>, RefusedEdit>
        requires some { 0 < length edits.now }
        requires few { length edits.now ≤ TRANSACTION_EDITS }
        // Accepted edits: the entries are those of the transaction of these edits by this clerk on the state before.
        ensures made { IfOk result (λ entries.
            IsTransaction self.old.now (length self.old.journal + 1) clerk edits.now entries.items) }
        // They change the state as the journal's replay does, and stand last in the journal.
        ensures now { IfOk result (λ entries. self.new.now ≡ replay self.old.now entries.items) }
        ensures journal { IfOk result (λ entries. self.new.journal ≡ self.old.journal ++ entries.items) }
        ensures city { self.new.city ≡ self.old.city }
        ensures opening { self.new.opening ≡ self.old.opening }
        // Where one is refused, nothing has changed, and it is the first that is.
        ensures unchanged { OnErr result (self.new ≡ self.old) }
        ensures refusal { IfErr result (λ refused.
            IsFirstRefused self.old.now self.old.journal clerk edits.now refused.place refused.refusal
            ⊎ (refused.refusal ≡ NoMemory)) }
        ensures refuses { (place : ℕ) (refusal : RefusalValue)
            → IsFirstRefused self.old.now self.old.journal clerk edits.now place refusal
            → IsErrAnd result (λ e. ((e.place ≡ place) × (e.refusal ≡ refusal)) ⊎ (e.refusal ≡ NoMemory)) }
        // Memory runs out at no edit after the first that is refused, and not at that one where its refusal is told
        // whatever memory there is; but at the first place it may, where what was before could not be kept.
        ensures exact { (place : ℕ) (refusal : RefusalValue)
            → IsFirstRefused self.old.now self.old.journal clerk edits.now place refusal
            → IfErr result (λ e. (e.place ≤ place) × (e.place ≡ place → NeedsNoMemory refusal
            → (e.refusal ≡ refusal) ⊎ ((e.place ≡ 1) × (e.refusal ≡ NoMemory)))) }
    {
        let spare = self.spare.take();
        let Ok(before) = once_more(&self.fabric, spare) else {
            return Err(RefusedEdit {
                place: 1,
                refusal: Refusal::NoMemory,
            });
        };
        match make_in_turn(heap, &mut self.fabric, clerk, edits) {
            Ok(entries) => {
                self.spare = Some(before);
                Ok(entries)
            }
            Err(refused) => {
                self.fabric = before;
                if let Ok(spare) = self.fabric.copy() {
                    self.spare = Some(spare);
                }
                Err(refused)
            }
        }
    }
}
