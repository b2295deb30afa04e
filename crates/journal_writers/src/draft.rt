//! A record that is to be written.

ghost use Rattle.std.specs.Prelude.{◌≡◌};

use journal_records::Seal;
use std::alloc::Allocator;
use std::marker::{Model, PhantomData};

/// The lines of a record that is to be written.
///
/// Contracts see its number, from 1, the digest of the record before, its own digest, and its two lines, which are
/// those of a stamp and an edit.
#[derive(Drop)]
pub struct Draft<A: Allocator, B: Allocator> {
    pub(crate) number: u64,
    pub(crate) before: Seal,
    pub(crate) seal: Seal,
    pub(crate) text: Vec<u8, A>,
    pub(crate) of: PhantomData<B>,
}

impl<A: Allocator, B: Allocator> Model for Draft<A, B> {
    ghost use Rattle.journal_writers.specs.Writers.{DraftState, IsDraft};

    ghost Value = { DraftState };

    ghost view = { λ draft. record {
      number = draft.number;
      before = draft.before.digits;
      seal = draft.seal.digits;
      text = draft.text.items;
    } };

    ghost invariant = { λ draft. IsDraft B (record {
      number = draft.number;
      before = draft.before.digits;
      seal = draft.seal.digits;
      text = draft.text.items;
    }) };
}

impl<A: Allocator, B: Allocator> Draft<A, B> {
    /// Its number, from 1.
    pub fn number(&self) -> u64
        ensures { result ≡ self.now.number }
    {
        self.number
    }
}
