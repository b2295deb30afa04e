//! A beginning of a list that only grows.

ghost use Rattle.std.specs.Prelude.{◌≡◌, ◌⊎◌, ◌+◌, ◌<◌, ◌^◌, [], ◌∷◌, ◌++◌, length, MatchBool};
ghost use mathlib.Core.List.{IsPrefix};

use crate::history::{History, Naming};
use crate::steps::{Add, Law, Nothing};
use logbook::{Offer, Seen};
use std::marker::{Model, PhantomData};

/// A beginning of the list: what it had at some moment, whatever was added since. Contracts see it as its entries.
#[derive(Drop)]
pub struct Front<E, J: Naming> {
    count: u64,
    seen: Seen<E, u64, Law>,
    of: PhantomData<J>,
}

impl<E, J: Naming> Model for Front<E, J> {
    ghost use Rattle.std.specs.Prelude.{◌≡◌, List, length};

    ghost Value = { List E };

    ghost view = { λ front. front.seen.log };

    ghost invariant = { λ front. (front.count ≡ length front.seen.log) × (front.seen.book ≡ J.book) };
}

impl<E, J: Naming> Front<E, J> {
    /// The beginning that has no entry.
    pub(crate) fn new(seen: Seen<E, u64, Law>) -> Front<E, J>
        requires book { seen.book ≡ J.book }
        requires empty { seen.log ≡ [] }
        ensures { result ≡ [] }
    {
        Front {
            count: 0,
            seen,
            of: PhantomData,
        }
    }

    /// How many entries it has.
    pub fn len(&self) -> u64
        ensures { result ≡ length self.now }
    {
        self.count
    }

    /// A copy.
    pub fn again(&self) -> Front<E, J>
        ensures { result ≡ self.now }
    {
        Front {
            count: self.count,
            seen: self.seen.again(),
            of: PhantomData,
        }
    }

    /// The longer of two beginnings, which the other begins.
    pub fn longer(&self, other: &Front<E, J>) -> Front<E, J>
        ensures one { (result ≡ self.now) ⊎ (result ≡ other.now) }
        ensures this { IsPrefix self.now result }
        ensures that { IsPrefix other.now result }
    {
        let mut both = self.seen.again();
        both.learn(&other.seen);
        if self.count < other.count {
            other.again()
        } else {
            self.again()
        }
    }

    /// Takes in what another beginning knows: it becomes the longer of the two, which the other begins.
    pub fn learn(&mut self, other: &Front<E, J>)
        ensures one { (self.new ≡ self.old) ⊎ (self.new ≡ other.now) }
        ensures this { IsPrefix self.old self.new }
        ensures that { IsPrefix other.now self.new }
    {
        *self = self.longer(other);
    }

    /// Adds an entry to the list, and says whether it did: it did not where the list had more entries than this
    /// beginning, which then has more too.
    pub fn add(&mut self, history: &History<E, J>, entry: &E) -> bool
        requires room { length self.old + 1 < 2 ^ 64 }
        ensures { MatchBool result
            (self.new ≡ self.old ++ entry.now ∷ [])
            (IsPrefix self.old self.new × (length self.old < length self.new)) }
    {
        let mut offer: Offer<E, u64, Law, Nothing> = self.seen.plain::<Nothing, E, Add>(entry);
        let mut pen = self.seen.no_pen();
        let count = self.count;
        let found = history
            .head
            .compare_exchange::<Add, Nothing>(
                count,
                count + 1,
                &mut self.seen,
                &mut offer,
                &mut pen,
            );
        self.count = if found == count { count + 1 } else { found };
        found == count
    }
}
