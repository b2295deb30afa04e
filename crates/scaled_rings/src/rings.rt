//! Simple rings with each coordinate ten times.

ghost use Rattle.std.specs.Prelude.{IfOk};
ghost use Rattle.std.specs.List.{AllByRecursion};
ghost use Rattle.scaled_rings.specs.Tenfold.{IsNear, AreTenTimes};

use crate::corners::tenfold_all;
use ring_core::Ring;
use std::alloc::{AllocError, Allocator};

/// The ring, each corner ten times: a simple ring, too.
///
/// # Errors
///
/// [`AllocError`] where an allocation fails.
pub fn tenfold_ring<A: Allocator>(alloc: A, ring: &Ring<A>) -> Result<Ring<A>, AllocError>
    requires { AllByRecursion IsNear ring.now.corners }
    ensures { IfOk result (λ other. AreTenTimes ring.now.corners other.corners) }
{
    let corners = tenfold_all(alloc, ring.corners.as_slice())?;
    Ok(Ring { corners })
}
