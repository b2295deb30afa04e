//! The copies of the fabric that windows read.
ghost use Rattle.std.specs.Prelude.{◌≡◌, ◌⊎◌, [], ◌∷◌, ◌++◌, OnOk, OnErr, IfErr};
ghost use Rattle.entry_cards.specs.Cards.{IsClerk};
ghost use Rattle.fabric_core.specs.EditResults.{IsDue};
ghost use Rattle.desk_lock.specs.declared.copied.Unfollowed.TheVariants.{NotOfClerk, NotDue, NoMemory as NoRoom};
ghost use Rattle.desk_lock.specs.Offices.{IsOfOrigin, AreOfClerks, origin_of, behind};

use crate::name::Naming;
use fabric_core::{Entry, Fabric, FollowFault};
use published_copies::Follows;
use std::alloc::{AllocError, Allocator};
use std::marker::{Model, PhantomData};

/// Why a copy does not follow an entry.
#[derive(Clone, Copy, Debug, PartialEq, Eq)]
pub(crate) enum Unfollowed {
    /// It is no clerk's of the office.
    NotOfClerk,
    /// It is not the next that this copy has to follow.
    NotDue,
    /// An allocation failed.
    NoMemory,
}

/// A copy of an office's fabric, which follows the entries of its clerks. Contracts see the fabric.
#[derive(Drop)]
pub struct Copied<'a, H: Allocator, J: Naming<H>> {
    fabric: Fabric<'a, H>,
    // How many clerks the office has.
    clerks: usize,
    of: PhantomData<J>,
}

impl<'a, H: Allocator, J: Naming<H>> Model for Copied<'a, H, J> {
    ghost use Rattle.std.specs.Prelude.{◌≡◌};
    ghost use Rattle.std.specs.Borrow.{Bor};
    ghost use Rattle.fabric_core.specs.Journal.{Book};
    ghost use Rattle.desk_lock.specs.Offices.{IsOfOrigin, AreOfClerks, behind};

    ghost Value = { Book (Bor H) };

    ghost view = { λ copied. copied.fabric };

    ghost invariant = { λ copied. IsOfOrigin J.office.origin copied.fabric × (copied.clerks ≡ J.office.clerks)
        × AreOfClerks J.office.clerks (behind J.office.origin copied.fabric.journal) };
}

impl<'a, H: Allocator, J: Naming<H>> Copied<'a, H, J> {
    /// A copy that has followed no entry.
    pub(crate) fn new(fabric: Fabric<'a, H>, clerks: usize) -> Copied<'a, H, J>
        requires origin { origin_of fabric ≡ J.office.origin }
        requires clerks { clerks ≡ J.office.clerks }
        ensures { behind J.office.origin result.journal ≡ [] }
    {
        Copied {
            fabric,
            clerks,
            of: PhantomData,
        }
    }

    /// Follows an entry of a clerk, where it is due; else says why not.
    fn take_in(&mut self, entry: &Entry<&'a H>) -> Result<(), Unfollowed>
        ensures followed { OnOk result (behind J.office.origin self.new.journal
            ≡ behind J.office.origin self.old.journal ++ entry.now ∷ []) }
        ensures unchanged { OnErr result (self.new ≡ self.old) }
        ensures fault { IfErr result (λ fault.
            ((fault ≡ NotOfClerk) × (¬ IsClerk J.office.clerks entry.now.clerk))
            ⊎ ((fault ≡ NotDue) × (¬ IsDue self.old entry.now)) ⊎ (fault ≡ NoRoom)) }
    {
        let clerk = entry.clerk() as usize;
        if clerk == 0 || clerk > self.clerks {
            return Err(Unfollowed::NotOfClerk);
        }
        match self.fabric.follow(entry) {
            Ok(()) => Ok(()),
            Err(FollowFault::NotDue) => Err(Unfollowed::NotDue),
            Err(FollowFault::NoMemory) => Err(Unfollowed::NoMemory),
        }
    }

    /// The copy.
    pub(crate) fn fabric(&self) -> &Fabric<'a, H>
        ensures same { result.now ≡ self.now }
        ensures origin { IsOfOrigin J.office.origin self.now }
        ensures of_clerks { AreOfClerks J.office.clerks (behind J.office.origin self.now.journal) }
    {
        &self.fabric
    }
}

impl<'a, H: Allocator, J: Naming<H>> Follows<Entry<&'a H>> for Copied<'a, H, J> {
    ghost use Rattle.desk_lock.specs.Offices.{behind};

    ghost entries = { λ copied. behind J.office.origin copied.journal };

    /// Where the entry is no clerk's, it is not followed; who hands on hands on the clerks' alone.
    fn follow(&mut self, entry: &Entry<&'a H>) -> Result<(), AllocError> {
        match self.take_in(entry) {
            Ok(()) => Ok(()),
            Err(_) => Err(AllocError),
        }
    }
}
