//! What is published.
ghost use Rattle.std.specs.Prelude.{◌≡◌, ◌++◌, ◌∷◌, [], List, OnOk, OnErr};
ghost use Rattle.published_copies.specs.own.Keeping.{EndsWith};

use entry_history::{Front, Naming};
use left_right::Absorb;
use std::alloc::AllocError;
use std::marker::Model;

/// A value that follows the entries of a list, one after the other.
pub trait Follows<E: Drop>: Drop {
    /// The entries that it has followed.
    ghost entries: { Self → List E };

    /// Makes what an entry says.
    fn follow(&mut self, entry: &E) -> Result<(), AllocError>
        ensures followed { OnOk result (entries self.new ≡ entries self.old ++ entry.now ∷ []) }
        ensures unchanged { OnErr result (self.new ≡ self.old) };
}

/// A copy of the value, beside the beginning of the list that it has followed. Contracts see that beginning.
#[derive(Drop)]
pub struct Version<F: Follows<E>, E: Drop, J: Naming> {
    value: F,
    front: Front<E, J>,
}

impl<F: Follows<E>, E: Drop, J: Naming> Model for Version<F, E, J> {
    ghost use Rattle.std.specs.Prelude.{◌≡◌, List};

    ghost Value = { List E };

    ghost view = { λ version. version.front };

    ghost invariant = { λ version. F.entries version.value ≡ version.front };
}

impl<F: Follows<E>, E: Drop, J: Naming> Version<F, E, J> {
    /// A copy that has followed this beginning of the list.
    pub(crate) fn new(value: F, front: Front<E, J>) -> Version<F, E, J>
        requires { F.entries value ≡ front }
        ensures { result ≡ front }
    {
        Version { value, front }
    }

    /// The copy.
    pub fn value(&self) -> &F
        ensures { F.entries result.now ≡ self.now }
    {
        &self.value
    }

    /// The beginning of the list that it has followed.
    pub fn front(&self) -> &Front<E, J>
        ensures { result.now ≡ self.now }
    {
        &self.front
    }
}

/// An entry that is handed on to the copies, beside the beginning of the list that ends with it.
/// Contracts see the entry.
#[derive(Drop)]
pub struct Enqueued<E: Drop, J: Naming> {
    entry: E,
    front: Front<E, J>,
}

impl<E: Drop, J: Naming> Model for Enqueued<E, J> {
    ghost use Rattle.std.specs.Prelude.{◌≡◌};
    ghost use Rattle.published_copies.specs.own.Keeping.{EndsWith};

    ghost Value = { E };

    ghost view = { λ told. told.entry };

    ghost invariant = { λ told. EndsWith told.front told.entry };
}

impl<E: Drop, J: Naming> Enqueued<E, J> {
    /// An entry that ends this beginning of the list.
    pub(crate) fn new(entry: E, front: Front<E, J>) -> Enqueued<E, J>
        requires { EndsWith front entry }
        ensures { result ≡ entry }
    {
        Enqueued { entry, front }
    }
}

impl<F: Follows<E>, E: Drop, J: Naming> Absorb<Enqueued<E, J>> for Version<F, E, J> {
    type State = [E; 0];

    ghost use Rattle.std.specs.Prelude.{◌++◌, ◌∷◌, []};

    ghost state = { λ version. version };

    ghost applied = { λ entries entry. entries ++ entry ∷ [] };

    /// Where the entry is not the next of the list, nothing is absorbed; who hands on hands on each in turn.
    fn absorb_first(
        &mut self,
        operation: &Enqueued<E, J>,
        _other: &Version<F, E, J>,
    ) -> Result<(), AllocError> {
        if operation.front.len() - 1 != self.front.len() {
            return Err(AllocError);
        }
        self.value.follow(&operation.entry)?;
        self.front.learn(&operation.front);
        Ok(())
    }
}
