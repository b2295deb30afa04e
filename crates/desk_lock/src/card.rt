//! Clerks' cards.
ghost use Rattle.std.specs.Prelude.{◌≡◌, length};

use crate::name::Naming;
use entry_cards::Stub;
use fabric_core::Entry;
use std::alloc::Allocator;
use std::marker::{Model, PhantomData};

/// A clerk's card: what was edited with it is the clerk's. It may go to a thread of its own. It is spent by
/// [`Office::close`](crate::Office::close) or by [`Card::give_up`], after which the office cannot be closed.
///
/// Contracts see the clerk's number, the entries that were accepted with the card, and all that were
/// accepted at its desk until they last met, each in order.
pub struct Card<'a, H: Allocator, J: Naming<H>> {
    pub(crate) stub: Stub<Entry<&'a H>>,
    pub(crate) clerk: u32,
    pub(crate) count: u64,
    // Where the office's entries lie.
    pub(crate) heap: &'a H,
    pub(crate) of: PhantomData<J>,
}

// Not derived: whoever drops it makes one call, and what that does is proved once, here.
impl<'a, H: Allocator, J: Naming<H>> Drop for Card<'a, H, J> {
    fn drop(self) {
        let Card {
            stub: _,
            clerk: _,
            count: _,
            heap: _,
            of: _,
        } = self;
    }
}

impl<'a, H: Allocator, J: Naming<H>> Model for Card<'a, H, J> {
    ghost use Rattle.std.specs.Prelude.{◌≡◌, length};
    ghost use Rattle.std.specs.Borrow.{Bor};
    ghost use Rattle.desk_lock.specs.Offices.{CardState};

    ghost Value = { CardState (Bor H) };

    ghost view = { λ card. record { clerk = card.clerk; made = card.stub.made; met = card.stub.met } };

    ghost invariant = { λ card. (card.stub.name ≡ J.office.cards) × (card.clerk ≡ card.stub.clerk)
        × (card.count ≡ length card.stub.made) };
}

impl<'a, H: Allocator, J: Naming<H>> Card<'a, H, J> {
    /// The clerk's number, from 1.
    pub fn clerk(&self) -> u32
        ensures { result ≡ self.now.clerk }
    {
        self.clerk
    }

    /// How many edits were accepted with it.
    pub fn count(&self) -> u64
        ensures { result ≡ length self.now.made }
    {
        self.count
    }

    /// Spends the card. Its office cannot be closed then.
    pub fn give_up(self) {}

    /// What ties it to the others.
    pub(crate) fn into_stub(self) -> Stub<Entry<&'a H>>
        ensures { result ≡ record {
          name = J.office.cards;
          clerk = self.entry.clerk;
          made = self.entry.made;
          met = self.entry.met;
        } }
    {
        let Card {
            stub,
            clerk: _,
            count: _,
            heap: _,
            of: _,
        } = self;
        stub
    }
}
