//! The names by which the parts of one office know each other.
ghost use Rattle.std.specs.Prelude.{◌≡◌};

use crate::opening::MOST_PLACES;
use entry_cards::Keeper;
use entry_history::Opened;
use fabric_core::Entry;
use std::alloc::{AllocError, Allocator};
use std::marker::{Brand, Model};

/// Which office. Each call of a program picks it: so the types tell the cards and windows
/// of one office from those of another.
pub trait Naming<H>: entry_history::Naming {
    ghost use Rattle.std.specs.Borrow.{Bor};
    ghost use Rattle.desk_lock.specs.Offices.{OfficeId};

    ghost office: { OfficeId (Bor H) };
}

impl<H> Naming<H> for Brand {
    ghost use Rattle.desk_lock.specs.own.Keeping.{no_office};

    ghost office = { no_office };
}

/// The names of an office that is still to be opened.
#[derive(Drop)]
pub struct Name<A: Allocator> {
    pub(crate) opened: Opened<Entry<A>>,
    pub(crate) keeper: Keeper<Entry<A>, A>,
}

impl<A: Allocator> Model for Name<A> {
    ghost use Rattle.std.specs.Prelude.{◌≡◌, []};
    ghost use Rattle.desk_lock.specs.declared.opening.TheConstants.{MOST_PLACES};
    ghost use Rattle.desk_lock.specs.own.Keeping.{NameId};

    ghost Value = { NameId };

    ghost view = { λ name. record { book = name.opened; cards = name.keeper.name } };

    ghost invariant = { λ name. (name.keeper.clerks ≡ MOST_PLACES) × (name.keeper.dealt ≡ 0) × (name.keeper.all ≡ []) };
}

impl<A: Allocator> Name<A> {
    /// The names of a new office.
    ///
    /// # Errors
    ///
    /// [`AllocError`] where an allocation fails.
    pub fn new(alloc: A) -> Result<Name<A>, AllocError> {
        let opened = Opened::new();
        let keeper = Keeper::new(alloc, MOST_PLACES as u32)?;
        Ok(Name { opened, keeper })
    }
}
