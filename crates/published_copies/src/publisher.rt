//! Copies that readers look at while the next one is made.

ghost use Rattle.std.specs.Prelude.{◌≡◌, ◌+◌, ◌<◌, ◌^◌, [], ◌∷◌, ◌++◌, length, None, IfOk, IfErr, IfSome, IfNone};
ghost use Rattle.std.specs.Prelude.{OnOk, OnErr, MatchBool};
ghost use mathlib.Core.List.{IsPrefix};
ghost use Rattle.published_copies.specs.own.Keeping.{waiting_list};

use crate::copies::Copies;
use crate::shown::Shown;
use crate::version::{Enqueued, Follows, Version};
use entry_history::{Front, History, Naming, Opened};
use left_right::ReadHandle;
use std::alloc::{AllocError, Allocator};
use std::marker::Model;
use std::sync::Wait;

/// The writer of the copies, with the list of all entries that were handed on to it.
///
/// Contracts see the entries that were handed on, and those that the published copy has followed.
#[derive(Drop)]
pub struct Publisher<F: Follows<E>, E: Drop, J: Naming, R: Wait + Drop, A: Allocator> {
    history: History<E, J>,
    front: Front<E, J>,
    // The last entry, as long as the writer has no memory for it.
    waiting: Option<Enqueued<E, J>>,
    copies: Copies<Version<F, E, J>, Enqueued<E, J>, R, A>,
    // What the copy that readers take has followed.
    shown: Shown<E, J>,
}

impl<F: Follows<E>, E: Drop, J: Naming, R: Wait + Drop, A: Allocator> Model
    for Publisher<F, E, J, R, A> {
    ghost use Rattle.std.specs.Prelude.{◌≡◌, ◌++◌};
    ghost use Rattle.published_copies.specs.Copies.{Handed};
    ghost use Rattle.published_copies.specs.own.Keeping.{waiting_list};

    ghost Value = { Handed E };

    ghost view = { λ publisher. record { handed = publisher.front; shown = publisher.copies.shown } };

    ghost invariant = { λ publisher. ((publisher.copies.shown ++ publisher.copies.pending)
        ++ waiting_list publisher.waiting ≡ publisher.front) × (publisher.shown ≡ publisher.copies.shown) };
}

impl<F: Follows<E>, E: Drop, J: Naming, R: Wait + Drop, A: Allocator> Publisher<F, E, J, R, A> {
    /// A writer of two copies that have followed no entry, with room for so many readers.
    ///
    /// # Errors
    ///
    /// [`AllocError`] where an allocation fails.
    pub fn open(
        rt: R,
        alloc: A,
        opened: Opened<E>,
        first: F,
        second: F,
        readers: usize,
    ) -> Result<Publisher<F, E, J, R, A>, AllocError>
    where
        A: Clone,
        requires book { opened ≡ J.book }
        requires fresh { (F.entries first ≡ []) × (F.entries second ≡ []) }
        requires readers { (0 < readers) × (readers < 2 ^ 32) }
        ensures { IfOk result (λ publisher. publisher ≡ record { handed = []; shown = [] }) }
    {
        let (history, front) = opened.named::<J>();
        let first = Version::new(first, front.again());
        let second = Version::new(second, front.again());
        let copies = Copies::new(alloc, rt, first, second, readers)?;
        let shown = Shown::of(&copies, &front);
        Ok(Publisher {
            history,
            front,
            waiting: None,
            copies,
            shown,
        })
    }

    /// A reader of the published copy.
    ///
    /// # Errors
    ///
    /// [`AllocError`] where each place for a reader is in use, or an allocation fails.
    pub fn reader(&self) -> Result<ReadHandle<Version<F, E, J>, A>, AllocError> {
        self.copies.reader()
    }

    /// The list of all entries that were handed on.
    pub fn front(&self) -> &Front<E, J>
        ensures { result.now ≡ self.now.handed }
    {
        &self.front
    }

    /// The list that is shown: what the published copy has followed.
    pub fn shown(&self) -> &Shown<E, J>
        ensures { result.now ≡ self.now.shown }
    {
        &self.shown
    }

    /// Hands an entry on, which copies follow at the next publishing.
    ///
    /// # Errors
    ///
    /// The entry comes back where there was no memory for the one before.
    pub fn hand_on(&mut self, entry: E) -> Result<(), E>
        requires room { length self.old.handed + 1 < 2 ^ 64 }
        ensures handed { OnOk result (self.new.handed ≡ self.old.handed ++ entry ∷ []) }
        ensures shown { self.new.shown ≡ self.old.shown }
        ensures unchanged { OnErr result (self.new ≡ self.old) }
        ensures back { IfErr result (λ back. back ≡ entry) }
    {
        if !flush(&mut self.waiting, &mut self.copies) {
            return Err(entry);
        }
        let mut front = self.front.again();
        if !front.add(&self.history, &entry) {
            return Err(entry);
        }
        self.front.learn(&front);
        self.waiting = Some(Enqueued::new(entry, front));
        flush(&mut self.waiting, &mut self.copies);
        Ok(())
    }

    /// Publishes: the list that is shown then, which is that of all entries that were handed on. `None` where a copy
    /// had no memory for it: what is published stays, and the next call goes on from there. It waits for those who read
    /// at this moment.
    pub fn publish(&mut self) -> Option<Shown<E, J>>
        ensures handed { self.new.handed ≡ self.old.handed }
        ensures some { IfSome result (λ shown. (shown ≡ self.old.handed) × (self.new.shown ≡ self.old.handed)) }
        ensures none { IfNone result (self.new.shown ≡ self.old.shown) }
    {
        if !flush(&mut self.waiting, &mut self.copies) {
            return None;
        }
        let Ok(()) = self.copies.publish() else {
            return None;
        };
        self.shown = Shown::of(&self.copies, &self.front);
        Some(self.shown.again())
    }

    /// Only teaches the prover: what the published copy has followed begins what was handed on.
    pub fn use_invariant(&self)
        ensures { IsPrefix self.now.shown self.now.handed }
    {
        let _ = &self.copies;
    }

    /// Ends the publishing. Who reads then finds the copy that was published last, or none.
    pub fn end(self) {}
}

/// Gives the writer the entry that waits; whether none waits then.
fn flush<F: Follows<E>, E: Drop, J: Naming, R: Wait + Drop, A: Allocator>(
    waiting: &mut Option<Enqueued<E, J>>,
    copies: &mut Copies<Version<F, E, J>, Enqueued<E, J>, R, A>,
) -> bool
    ensures shown { copies.new.shown ≡ copies.old.shown }
    ensures flushed { MatchBool result
        ((waiting.new ≡ None) × (copies.new.pending ≡ copies.old.pending ++ waiting_list waiting.old))
        ((waiting.new ≡ waiting.old) × (copies.new.pending ≡ copies.old.pending)) }
{
    let Some(told) = waiting.take() else {
        return true;
    };
    match copies.append(told) {
        Ok(()) => true,
        Err(told) => {
            *waiting = Some(told);
            false
        }
    }
}
