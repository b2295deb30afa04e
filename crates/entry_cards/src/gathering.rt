//! A keeper that takes stubs in, to compare them all at once.

ghost use Rattle.std.specs.Prelude.{◌≡◌, [], ◌∷◌, length};
ghost use Rattle.entry_cards.specs.Cards.{AccountFor};
ghost use Rattle.entry_cards.specs.own.Rule.{Keeps};

use crate::cards::{Cards, Mark};
use crate::stub::Stub;
use std::alloc::Allocator;
use std::marker::Model;

/// A keeper that takes stubs in, to compare them all at once. Contracts see a `Gathered`.
#[derive(Drop)]
pub struct Gathering<E, A: Allocator> {
    cards: Cards<E, A>,
    mark: Mark<E>,
    clerks: u32,
    dealt: u32,
}

impl<E, A: Allocator> Model for Gathering<E, A> {
    ghost use Rattle.entry_cards.specs.Cards.{Gathered};
    ghost use Rattle.entry_cards.specs.own.Rule.{taken_in, KeepsTaken};

    ghost Value = { Gathered E };

    ghost view = { λ gathering. record {
      name = gathering.cards.name;
      clerks = gathering.clerks;
      dealt = gathering.dealt;
      all = gathering.mark.me.0.all;
      cards = taken_in gathering.clerks gathering.dealt gathering.mark.me.0.cards;
    } };

    ghost invariant = { λ gathering. KeepsTaken gathering.cards gathering.mark.table_id gathering.mark.me
        gathering.clerks gathering.dealt };
}

impl<E, A: Allocator> Gathering<E, A> {
    /// Of a keeper's parts.
    pub(crate) fn begin(
        cards: Cards<E, A>,
        mark: Mark<E>,
        clerks: u32,
        dealt: u32,
    ) -> Gathering<E, A>
        requires { Keeps cards mark.table_id mark.me clerks dealt }
        ensures { result ≡ record {
          name = cards.name;
          clerks = clerks;
          dealt = dealt;
          all = mark.me.0.all;
          cards = [];
        } }
    {
        Gathering {
            cards,
            mark,
            clerks,
            dealt,
        }
    }

    /// Takes a stub in.
    pub fn take_in(&mut self, stub: Stub<E>)
        requires own { stub.name ≡ self.old.name }
        ensures { self.new ≡ record self.old {
          cards = record { clerk = stub.clerk; made = stub.made; met = stub.met } ∷ self.old.cards;
        } }
    {
        let Stub { badge } = stub;
        self.cards.join(&mut self.mark, badge.into_seat());
    }

    /// With as many stubs as were dealt: each has all entries of its clerk, what it met begins all
    /// entries, they are of the clerks from 1 on, one each, and together they have all entries.
    pub fn confirm(&mut self)
        requires all_stubs { length self.old.cards ≡ self.old.dealt }
        ensures same { self.new ≡ self.old }
        ensures accounts { AccountFor self.old.dealt self.old.all self.old.cards }
    {
        self.cards.compare(&mut self.mark);
    }
}
