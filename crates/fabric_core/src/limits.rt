//! The limits of a layer.

ghost use Rattle.std.specs.Prelude.{◌≡◌, length, MatchOption};
ghost use Rattle.fabric_core.specs.Limits.{AreWithinLimits, IsFirstTooMany};
ghost use Rattle.fabric_core.specs.own.Lists.{numbered_rows};

use geo_exact::{Corners, LAYER_CORNERS, RING_CORNERS};
use std::alloc::Allocator;

/// The number of the first ring that passes a limit, by itself or together with those before it.
pub(crate) fn first_too_many<A: Allocator>(numbers: &[u32], rings: &[Corners<A>]) -> Option<u32>
    requires { length numbers.now ≡ length rings.now }
    ensures { MatchOption result
        (AreWithinLimits (numbered_rows numbers.now rings.now))
        (λ number. IsFirstTooMany (numbered_rows numbers.now rings.now) number) }
{
    let mut total = 0;
    for (i, ring) in rings.iter().enumerate() {
        let count = ring.len();
        if count > RING_CORNERS || total + count > LAYER_CORNERS {
            return Some(numbers[i]);
        }
        total += count;
    }
    None
}
