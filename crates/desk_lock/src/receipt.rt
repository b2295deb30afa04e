//! What clerks are told of their edits.
ghost use Rattle.std.specs.Prelude.{◌≡◌, length};

use crate::name::Naming;
use fabric_core::Entry;
use published_copies::Shown;
use std::alloc::Allocator;
use std::marker::Model;

/// A receipt for an edit that was accepted: its entry, and whether a version with it was published.
///
/// Contracts see the entry, whether it was published, and the journal that it tells: the entries up
/// to its own where it was, else none.
pub struct Receipt<'a, H: Allocator, J: Naming<H>> {
    pub(crate) entry: Entry<&'a H>,
    pub(crate) notice: Option<Notice<'a, H, J>>,
    // Where the entry lies.
    pub(crate) heap: &'a H,
}

// Not derived: whoever drops it makes one call, and what that does is proved once, here.
impl<'a, H: Allocator, J: Naming<H>> Drop for Receipt<'a, H, J> {
    fn drop(self) {
        let Receipt {
            entry: _,
            notice: _,
            heap: _,
        } = self;
    }
}

impl<'a, H: Allocator, J: Naming<H>> Model for Receipt<'a, H, J> {
    ghost use Rattle.std.specs.Borrow.{Bor};
    ghost use Rattle.desk_lock.specs.Offices.{ReceiptState};
    ghost use Rattle.std.specs.Prelude.{is_some};
    ghost use Rattle.desk_lock.specs.own.Keeping.{told_by};

    ghost Value = { ReceiptState (Bor H) };

    ghost view = { λ receipt. record {
      entry = receipt.entry;
      published = is_some receipt.notice;
      told = told_by receipt.notice;
    } };
}

impl<'a, H: Allocator, J: Naming<H>> Receipt<'a, H, J> {
    /// The entry of the edit.
    pub fn entry(&self) -> &Entry<&'a H>
        ensures { result.now ≡ self.now.entry }
    {
        &self.entry
    }

    /// The entry's number in the journal, from 1.
    pub fn number(&self) -> u64
        ensures { result ≡ self.now.entry.number }
    {
        self.entry.number()
    }

    /// Whether a version with the entry was published. Where not, a later publishing takes it along.
    pub fn published(&self) -> bool
        ensures { result ≡ self.now.published }
    {
        self.notice.is_some()
    }
}

/// A notice that all entries up to a number were published. Contracts see these entries.
pub struct Notice<'a, H: Allocator, J: Naming<H>> {
    pub(crate) number: u64,
    pub(crate) shown: Shown<Entry<&'a H>, J>,
}

// Not derived: whoever drops it makes one call, and what that does is proved once, here.
impl<'a, H: Allocator, J: Naming<H>> Drop for Notice<'a, H, J> {
    fn drop(self) {
        let Notice {
            number: _,
            shown: _,
        } = self;
    }
}

impl<'a, H: Allocator, J: Naming<H>> Model for Notice<'a, H, J> {
    ghost use Rattle.std.specs.Prelude.{◌≡◌, ◌++◌, List, length};
    ghost use Rattle.std.specs.Borrow.{Bor};
    ghost use Rattle.fabric_core.specs.Journal.{JournalEntry};

    ghost Value = { List (JournalEntry (Bor H)) };

    ghost view = { λ notice. J.office.origin.journal ++ notice.shown };

    ghost invariant = { λ notice. notice.number ≡ length (J.office.origin.journal ++ notice.shown) };
}

impl<'a, H: Allocator, J: Naming<H>> Notice<'a, H, J> {
    /// How many entries were published.
    pub fn number(&self) -> u64
        ensures { result ≡ length self.now }
    {
        self.number
    }
}
