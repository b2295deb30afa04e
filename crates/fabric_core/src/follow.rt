//! What a fabric needs to follow the journal of another.
ghost use Rattle.std.specs.Prelude.{◌≡◌, ◌≢◌, ◌⊎◌};
ghost use Rattle.fabric_core.specs.declared.follow.FollowFault.TheVariants.{NotDue, NoMemory};
ghost use Rattle.fabric_core.specs.declared.refusal.Refusal.TheVariants.{NoMemory as NoRoom};

use crate::refusal::Refusal;
use std::alloc::AllocError;

/// Why a fabric does not follow an entry.
#[derive(Clone, Copy, Debug, PartialEq, Eq)]
pub enum FollowFault {
    /// The entry is not due.
    NotDue,
    /// An allocation failed.
    NoMemory,
}

impl From<AllocError> for FollowFault {
    ghost use Rattle.std.specs.Prelude.{◌≡◌};
    ghost use Rattle.fabric_core.specs.declared.follow.FollowFault.TheVariants.{NoMemory};

    ghost from_gives = { λ _ e. e ≡ NoMemory };

    fn from(_: AllocError) -> FollowFault {
        FollowFault::NoMemory
    }
}

// The entry's edit is refused: the fabric that has the entry made it, so this one is not where that one was.
impl From<Refusal> for FollowFault {
    ghost from_gives = { λ refusal fault.
        ((refusal ≡ NoRoom) × (fault ≡ NoMemory)) ⊎ ((refusal ≢ NoRoom) × (fault ≡ NotDue)) };

    fn from(refusal: Refusal) -> FollowFault {
        match refusal {
            Refusal::NoMemory => FollowFault::NoMemory,
            _ => FollowFault::NotDue,
        }
    }
}
