//! The keeper of the list of all entries, who deals stubs.

ghost use Rattle.std.specs.Prelude.{◌≡◌, ◌+◌, ◌<◌, [], ◌∷◌, ◌++◌, IfOk};
ghost use mathlib.Core.List.{IsPrefix};
ghost use Rattle.entry_cards.specs.Cards.{IsClerk, entries_of, of_clerk};

use crate::cards::{Cards, Mark};
use crate::gathering::Gathering;
use crate::stub::Stub;
use atomic_table::Badge;
use std::alloc::{AllocError, Allocator};
use std::marker::Model;
use std::mem;

/// Who keeps the list of all entries that are made with the stubs that it deals, and knows each
/// entry's clerk. Contracts see a `Kept`.
#[derive(Drop)]
pub struct Keeper<E, A: Allocator> {
    cards: Cards<E, A>,
    mark: Mark<E>,
    clerks: u32,
    dealt: u32,
}

impl<E, A: Allocator> Model for Keeper<E, A> {
    ghost use Rattle.entry_cards.specs.Cards.{Kept};
    ghost use Rattle.entry_cards.specs.own.Rule.{Keeps};

    ghost Value = { Kept E };

    ghost view = { λ keeper. record {
      name = keeper.cards.name;
      clerks = keeper.clerks;
      dealt = keeper.dealt;
      all = keeper.mark.me.0.all;
    } };

    ghost invariant = { λ keeper. Keeps keeper.cards keeper.mark.table_id keeper.mark.me keeper.clerks keeper.dealt };
}

impl<E, A: Allocator> Keeper<E, A> {
    /// A keeper for so many clerks, with no entry yet.
    ///
    /// # Errors
    ///
    /// [`AllocError`] where an allocation fails.
    pub fn new(alloc: A, clerks: u32) -> Result<Keeper<E, A>, AllocError>
        ensures clerks { IfOk result (λ keeper. keeper.clerks ≡ clerks) }
        ensures none_dealt { IfOk result (λ keeper. keeper.dealt ≡ 0) }
        ensures no_entry { IfOk result (λ keeper. keeper.all ≡ []) }
    {
        let (cards, mark) = Cards::new(alloc, clerks)?;
        Ok(Keeper {
            cards,
            mark,
            clerks,
            dealt: 0,
        })
    }

    /// How many stubs were dealt.
    pub fn dealt(&self) -> u32
        ensures { result ≡ self.now.dealt }
    {
        self.dealt
    }

    /// The stub of the next clerk, who is numbered from 1 on.
    pub fn deal(&mut self) -> Stub<E>
        requires more { self.old.dealt < self.old.clerks }
        ensures keeper { self.new ≡ record self.old { dealt = self.old.dealt + 1 } }
        ensures stub { result ≡ record { name = self.old.name; clerk = self.old.dealt + 1; made = []; met = [] } }
    {
        let mark = self.cards.card_off(&mut self.mark);
        self.dealt += 1;
        Stub {
            badge: mark.into_badge(),
        }
    }

    /// Adds an entry that is made with a stub: to the list, behind the clerk's number, and to what the
    /// stub knows. It has met the list with the entry then, and what it had met before begins the list.
    pub fn add(&mut self, stub: &mut Stub<E>, entry: &E)
        requires own { stub.old.name ≡ self.old.name }
        ensures keeper { self.new ≡ record self.old { all = self.old.all ++ (stub.old.clerk, entry.now) ∷ [] } }
        ensures stub { stub.new ≡ record stub.old {
          made = stub.old.made ++ entry.now ∷ [];
          met = entries_of self.new.all;
        } }
        ensures met { IsPrefix stub.old.met (entries_of self.old.all) }
    {
        let badge = mem::replace(&mut stub.badge, Badge::blank());
        self.cards.join(&mut self.mark, badge.into_seat());
        self.cards.add(&mut self.mark, entry);
        stub.badge = self.cards.card_off(&mut self.mark).into_badge();
    }

    /// Compares a stub with the list: the entries that were made with it are all that the list has of
    /// its clerk, who was dealt it, and what it has met begins the list.
    pub fn compare(&mut self, stub: &mut Stub<E>)
        requires own { stub.old.name ≡ self.old.name }
        ensures same { (self.new ≡ self.old) × (stub.new ≡ stub.old) }
        ensures agrees { stub.old.made ≡ of_clerk stub.old.clerk self.old.all }
        ensures dealt { IsClerk self.old.dealt stub.old.clerk }
        ensures met { IsPrefix stub.old.met (entries_of self.old.all) }
    {
        let badge = mem::replace(&mut stub.badge, Badge::blank());
        self.cards.join(&mut self.mark, badge.into_seat());
        self.cards.compare(&mut self.mark);
        stub.badge = self.cards.card_off(&mut self.mark).into_badge();
    }

    /// Compares a stub with the list, as [`Keeper::compare`], and lets it remember the list: it has met
    /// all entries then.
    pub fn meet(&mut self, stub: &mut Stub<E>)
        requires own { stub.old.name ≡ self.old.name }
        ensures keeper { self.new ≡ self.old }
        ensures stub { stub.new ≡ record stub.old { met = entries_of self.old.all } }
        ensures agrees { stub.old.made ≡ of_clerk stub.old.clerk self.old.all }
        ensures dealt { IsClerk self.old.dealt stub.old.clerk }
        ensures met { IsPrefix stub.old.met (entries_of self.old.all) }
    {
        let badge = mem::replace(&mut stub.badge, Badge::blank());
        self.cards.join(&mut self.mark, badge.into_seat());
        self.cards.meet(&mut self.mark);
        stub.badge = self.cards.card_off(&mut self.mark).into_badge();
    }

    /// Begins to gather stubs.
    pub fn gather(self) -> Gathering<E, A>
        ensures { result ≡ record {
          name = self.name;
          clerks = self.clerks;
          dealt = self.dealt;
          all = self.all;
          cards = [];
        } }
    {
        let Keeper {
            cards,
            mark,
            clerks,
            dealt,
        } = self;
        Gathering::begin(cards, mark, clerks, dealt)
    }
}
