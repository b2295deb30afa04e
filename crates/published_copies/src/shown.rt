//! A list that was shown.
ghost use Rattle.std.specs.Prelude.{◌≡◌};

use crate::copies::Copies;
use crate::version::{Enqueued, Follows, Version};
use entry_history::{Front, Naming};
use std::alloc::Allocator;
use std::marker::Model;
use std::sync::Wait;

/// The beginning of the list that the published copy had followed when this was made. It is made
/// beside that copy alone, so whoever has one has a list that was shown: neither one that was only
/// handed on, nor one of their own. Contracts see the entries.
#[derive(Drop)]
pub struct Shown<E: Drop, J: Naming> {
    front: Front<E, J>,
}

impl<E: Drop, J: Naming> Model for Shown<E, J> {
    ghost use Rattle.std.specs.Prelude.{◌≡◌, List};

    ghost Value = { List E };

    ghost view = { λ shown. shown.front };
}

impl<E: Drop, J: Naming> Shown<E, J> {
    /// The list of a copy that is shown now.
    pub(crate) fn of<F: Follows<E>, R: Wait + Drop, A: Allocator>(
        _copies: &Copies<Version<F, E, J>, Enqueued<E, J>, R, A>,
        front: &Front<E, J>,
    ) -> Shown<E, J>
        requires is_shown { front.now ≡ _copies.now.shown }
        ensures { result ≡ front.now }
    {
        Shown {
            front: front.again(),
        }
    }

    /// Its entries.
    pub fn front(&self) -> &Front<E, J>
        ensures { result.now ≡ self.now }
    {
        &self.front
    }

    /// A copy.
    pub fn again(&self) -> Shown<E, J>
        ensures { result ≡ self.now }
    {
        Shown {
            front: self.front.again(),
        }
    }
}
