//! What takes a layer's rings while they are read.

ghost use Rattle.std.specs.Prelude.{◌≡◌, ◌++◌, ◌∷◌, [], List, OnOk};

use geo_exact::RawRing;
use std::alloc::{AllocError, Allocator};

/// Takes one ring after the other, in the order of their records.
///
/// A list keeps them all; what needs each ring once lets go of it, so that no layer is held in memory.
pub trait TakeEach<R> {
    // It has taken just these rings, in this order.
    ghost holds: { Self → List R → Type 0 };

    /// Takes one more ring.
    fn take(&mut self, ring: R) -> Result<(), AllocError>
        ensures { (before : List R) → holds self.old before → OnOk result (holds self.new (before ++ ring ∷ [])) };
}

/// All rings of a layer, in a list.
#[derive(Drop)]
pub struct RingList<A: Allocator> {
    pub rings: Vec<RawRing<A>, A>,
}

impl<A: Allocator> TakeEach<RawRing<A>> for RingList<A> {
    ghost holds = { λ list rings. list.rings.items ≡ rings };

    fn take(&mut self, ring: RawRing<A>) -> Result<(), AllocError> {
        self.rings.push(ring)?;
        Ok(())
    }
}
