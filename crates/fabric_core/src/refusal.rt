//! Why an edit is refused.

use ring_core::RingFault;
use std::alloc::{AllocError, AllocFailed};

/// Why an edit is refused: the first that applies. Nothing has changed then. A split of parcel 1, which entry 1 has
/// merged, is refused as `Retired`, with the text `E2 1 1`.
#[derive(Clone, Copy, Debug, PartialEq, Eq)]
pub enum Refusal {
    /// E1: an id that the edit names was never a parcel's.
    Unknown(u64),
    /// E2: a parcel that the edit names is gone.
    Retired {
        /// Its id.
        id: u64,
        /// The number of the entry that took it out.
        by: u64,
    },
    /// E3: the path does not go from a corner of the parcel, or of the border, to another, or has
    /// fewer than 2 or more than 4,096 corners.
    BadPath,
    /// E4: the two parcels share no edge.
    NotNeighbours,
    /// E5: the edges that the two parcels share are not one unbroken run.
    SharedTwice,
    /// E6: a new ring is not simple.
    Ring {
        /// Which of the new rings, from 1.
        which: u32,
        /// What is wrong with it; its edges are counted from its least corner.
        fault: RingFault,
    },
    /// E7: no parcel has the edge.
    NoSuchEdge,
    /// E8: the corner does not lie on the edge, strictly between its ends.
    NotOnEdge,
    /// E9: the journal has as many entries as it may have.
    JournalFull,
    /// E10: a new ring would have more than 4,096 corners, all rings together more than 1,000,000, or
    /// there would be more than 65,536 parcels.
    TooMany,
    /// E11: no parcel has the corner.
    NoSuchCorner,
    /// E12: the ring of the parcel with this id bends at the corner; the least such id. It would be 0 where the city's
    /// refined ring alone bends there, which it never does.
    NotFlat(u64),
    /// An allocation failed.
    NoMemory,
}

impl From<AllocError> for Refusal {
    ghost use Rattle.std.specs.Prelude.{◌≡◌};
    ghost use Rattle.fabric_core.specs.declared.refusal.Refusal.TheVariants.{NoMemory};

    ghost from_gives = { λ _ refusal. refusal ≡ NoMemory };

    fn from(_: AllocError) -> Refusal {
        Refusal::NoMemory
    }
}

impl<T: Drop> From<AllocFailed<T>> for Refusal {
    ghost use Rattle.std.specs.Prelude.{◌≡◌};
    ghost use Rattle.fabric_core.specs.declared.refusal.Refusal.TheVariants.{NoMemory};

    ghost from_gives = { λ _ refusal. refusal ≡ NoMemory };

    fn from(_: AllocFailed<T>) -> Refusal {
        Refusal::NoMemory
    }
}
