//! Why an edit makes no rings.

use std::alloc::AllocError;

/// Why an edit makes no rings.
#[derive(Clone, Copy, Debug, PartialEq, Eq)]
pub enum EditFault {
    /// E3: the path does not go from a corner of the ring, or of the border, to another, or is too short or too long.
    BadPath,
    /// E4: the two rings share no edge.
    NotNeighbours,
    /// E5: the edges that the two rings share are not one unbroken run.
    SharedTwice,
    /// An allocation was refused.
    NoMemory,
}

impl From<AllocError> for EditFault {
    ghost use Rattle.std.specs.Prelude.{◌≡◌};
    ghost use Rattle.ring_edits.specs.declared.fault.EditFault.TheVariants.{NoMemory};

    ghost from_gives = { λ _ fault. fault ≡ NoMemory };

    fn from(_error: AllocError) -> EditFault {
        EditFault::NoMemory
    }
}
