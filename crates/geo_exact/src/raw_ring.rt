//! Rings of layer files in their normal form.

ghost use Rattle.std.specs.Prelude.{◌≤◌, ◌≤ℤ◌, pos, length};
ghost use Rattle.geo_exact.specs.Rings.{HasNoRepeats};
ghost use Rattle.geo_exact.specs.Area.{area2};
ghost use Rattle.geo_exact.specs.declared.limits.TheConstants.{RING_CORNERS};
ghost use Rattle.std.proofs.Props.{props};

use crate::corners::Corners;
use std::alloc::{AllocError, Allocator};

/// A ring of a layer file in its normal form: 3 to 4,096 corners without the closing repeat, no two
/// neighbours equal, and no clockwise ring. Its edges may still meet.
#[derive(Debug, Drop, PartialEq, Eq)]
pub struct RawRing<A: Allocator> {
    /// Its record's number, from 1.
    pub number: u32,
    /// Its corners, in order.
    pub corners: Corners<A>,
    pub ghost enough: { 3 ≤ length corners },
    pub ghost few: { length corners ≤ RING_CORNERS },
    pub ghost no_repeats: { HasNoRepeats corners } by { Prim.hlevel props },
    pub ghost not_clockwise: { pos 0 ≤ℤ area2 corners },
}

impl<A: Allocator + Copy> Clone for RawRing<A> {
    ghost use Rattle.std.specs.Prelude.{◌≡◌};

    ghost is_clone = { λ ring copy. (copy.number ≡ ring.number) × (copy.corners ≡ ring.corners) };

    fn clone(&self) -> Result<RawRing<A>, AllocError> {
        let number = self.number;
        let corners = self.corners.clone()?;
        Ok(RawRing { number, corners })
    }
}
