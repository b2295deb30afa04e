//! The table that ties clerks' cards to one list of entries.

ghost use Rattle.std.specs.Prelude.{◌≡◌, ◌<◌, true, [], length, IfOk};
ghost use mathlib.Core.Option.{some};
ghost use Rattle.entry_cards.specs.own.Rule.{keeper_view, blank_cards, joined, without_first, first_of};
ghost use Rattle.entry_cards.specs.own.Rule.{with_all_met, with_more, AreKnown};

use crate::plays::{AddEntry, CardOff, Compare, Meet, NamesEntry, Rule, Together};
use crate::view::View;
use atomic_table::{Seat, Table};
use std::alloc::{AllocError, Allocator};
use std::marker::{Brand, Model};

/// A seat of the table, by which proofs follow what its owner knows. It has no bytes.
pub(crate) type Mark<E> = Seat<(), View<E>>;

/// The table whose rule ties the cards. Contracts see its name and how many clerks there are.
#[derive(Drop)]
pub(crate) struct Cards<E, A: Allocator> {
    table: Table<(), View<E>, u32, Rule, A>,
}

impl<E, A: Allocator> Model for Cards<E, A> {
    ghost use Rattle.std.specs.Prelude.{◌<◌};
    ghost use Rattle.entry_cards.specs.own.Rule.{Tied};

    ghost Value = { Tied };

    ghost view = { λ cards. record { name = cards.table.shared.table_id; clerks = cards.table.shared.key } };

    ghost invariant = { λ cards. 0 < cards.table.shared.table_id.words };
}

impl<E, A: Allocator> Cards<E, A> {
    /// A table for so many clerks, with the mark of who keeps, which has the cards of all of them, with no entry.
    pub(crate) fn new(alloc: A, clerks: u32) -> Result<(Cards<E, A>, Mark<E>), AllocError>
        ensures clerks { IfOk result (λ made. made.0.clerks ≡ clerks) }
        ensures name { IfOk result (λ made. made.1.table_id ≡ made.0.name) }
        ensures mark { IfOk result (λ made. made.1.me ≡ (keeper_view clerks [] (blank_cards 0 clerks), [])) }
    {
        let (table, mark) = Table::of_words(alloc, &[0], &clerks)?;
        Ok((Cards { table }, mark))
    }

    /// Cuts the first card of a mark off.
    pub(crate) fn card_off(&self, mark: &mut Mark<E>) -> Mark<E>
        requires own { mark.old.table_id ≡ self.now.name }
        requires some { 0 < length mark.old.me.0.cards }
        ensures kept { (mark.new.table_id ≡ mark.old.table_id)
            × (mark.new.me ≡ (without_first mark.old.me.0, mark.old.me.1)) }
        ensures given { (result.table_id ≡ mark.old.table_id) × (result.me ≡ (first_of mark.old.me.0, [])) }
    {
        self.table.shared.split_seat::<CardOff>(mark)
    }

    /// Takes the cards of another mark in, before those that it has.
    pub(crate) fn join(&self, mark: &mut Mark<E>, other: Mark<E>)
        requires own { mark.old.table_id ≡ self.now.name }
        requires others { (other.table_id ≡ self.now.name) × (other.me.1 ≡ []) }
        ensures { (mark.new.table_id ≡ mark.old.table_id)
            × (mark.new.me ≡ (joined mark.old.me.0 other.me.0, mark.old.me.1)) }
    {
        self.table.shared.join_seat::<Together>(mark, other);
    }

    /// Compares the cards of who keeps with the list, and then adds an entry of the first card's clerk
    /// to the list, and to the card, which has met the list with it.
    pub(crate) fn add(&self, mark: &mut Mark<E>, entry: &E)
        requires own { mark.old.table_id ≡ self.now.name }
        requires keeps { mark.old.me.0.keeps ≡ true }
        requires some { 0 < length mark.old.me.0.cards }
        ensures added { (mark.new.table_id ≡ mark.old.table_id)
            × (mark.new.me ≡ (with_more mark.old.me.0 (some entry.now), mark.old.me.1)) }
        ensures known { AreKnown mark.old.me.0.clerks mark.old.me.0.all mark.old.me.0.cards }
    {
        self.add_told::<Brand>(mark, entry);
    }

    fn add_told<B: NamesEntry<E>>(&self, mark: &mut Mark<E>, entry: &E)
        requires own { mark.old.table_id ≡ self.now.name }
        requires told { B.entry ≡ some entry.now }
        requires keeps { mark.old.me.0.keeps ≡ true }
        requires some { 0 < length mark.old.me.0.cards }
        ensures added { (mark.new.table_id ≡ mark.old.table_id)
            × (mark.new.me ≡ (with_more mark.old.me.0 (some entry.now), mark.old.me.1)) }
        ensures known { AreKnown mark.old.me.0.clerks mark.old.me.0.all mark.old.me.0.cards }
    {
        self.table.shared.load::<AddEntry<B>>(mark, 0);
    }

    /// Compares the cards of who keeps with the list, which the first card has met then.
    pub(crate) fn meet(&self, mark: &mut Mark<E>)
        requires own { mark.old.table_id ≡ self.now.name }
        requires keeps { mark.old.me.0.keeps ≡ true }
        requires some { 0 < length mark.old.me.0.cards }
        ensures met { (mark.new.table_id ≡ mark.old.table_id)
            × (mark.new.me ≡ (with_all_met mark.old.me.0, mark.old.me.1)) }
        ensures known { AreKnown mark.old.me.0.clerks mark.old.me.0.all mark.old.me.0.cards }
    {
        self.table.shared.load::<Meet>(mark, 0);
    }

    /// Compares the cards of who keeps with the list.
    pub(crate) fn compare(&self, mark: &mut Mark<E>)
        requires own { mark.old.table_id ≡ self.now.name }
        requires keeps { mark.old.me.0.keeps ≡ true }
        ensures same { (mark.new.table_id ≡ mark.old.table_id) × (mark.new.me ≡ mark.old.me) }
        ensures known { AreKnown mark.old.me.0.clerks mark.old.me.0.all mark.old.me.0.cards }
    {
        self.table.shared.load::<Compare>(mark, 0);
    }
}
