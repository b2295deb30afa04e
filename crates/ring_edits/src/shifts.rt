//! The border of two neighbours exchanged for a path.

ghost use Rattle.std.specs.Prelude.{◌≡◌, ◌≢◌, ◌⊎◌, ◌↔◌, ◌<◌, List, length, reverse, IfOk, IfErr, IsErrOf, IsTrue};
ghost use Rattle.geo_exact.specs.declared.corner.Corner.{Corner};
ghost use Rattle.geo_exact.specs.Places.{corner_at};
ghost use Rattle.ring_core.specs.Simple.{IsSimpleRing};
ghost use Rattle.ring_edits.specs.declared.fault.EditFault.TheVariants.{BadPath, NoMemory};
ghost use Rattle.ring_edits.specs.Edits.{IsBorderFault, IsBorderPath, IsMove, IsBadBorder, IsPath};

use crate::border::border_of;
use crate::fault::EditFault;
use crate::round::{are_same, path_and_run};
use geo_exact::{Corner, Corners, RING_CORNERS};
use std::alloc::{AllocError, Allocator};

/// The rings of two neighbours with the border between them exchanged for a path: first that of `a`, then that of
/// `b`, each begun at its least corner. The path goes from where the border begins, in the direction of `a`, to where
/// it ends. Corners are in whole millimetres.
///
/// The rings need not be simple, and may have as many corners as the old one and the path together.
///
/// # Errors
///
/// The first of these that applies: [`EditFault::NotNeighbours`] (E4) where the rings share no edge;
/// [`EditFault::SharedTwice`] (E5) where the edges that they share are not one unbroken run, or are all of `a`;
/// [`EditFault::BadPath`] (E3) where the path has fewer than 2 or more than [`RING_CORNERS`] corners, or does not go
/// from the one end of the border to the other. [`EditFault::NoMemory`] where an allocation is refused.
pub fn shift<A: Allocator + Copy>(
    alloc: A,
    a: &[Corner],
    b: &[Corner],
    path: &[Corner],
) -> Result<(Corners<A>, Corners<A>), EditFault>
    requires { IsSimpleRing a.now }
    ensures rings { IfOk result (λ rings. IsMove a.now b.now path.now rings.0 rings.1) }
    ensures err { IfErr result (λ fault. (fault ≡ NoMemory) ⊎ IsBorderFault a.now b.now fault
        ⊎ ((fault ≡ BadPath) × IsBadBorder a.now b.now path.now)) }
    // Memory is asked for only where nothing else refuses it.
    ensures memory { IsErrOf result NoMemory → IsBorderPath a.now b.now path.now }
{
    let border = border_of(a, b)?;
    if !joins(path, a, border.from_in_a, border.to_in_a) {
        return Err(EditFault::BadPath);
    }
    let of_a = path_and_run(alloc, path, a, border.to_in_a, border.from_in_a)?;
    let back = backwards(alloc, path)?;
    let of_b = path_and_run(alloc, &back, b, border.from_in_b, border.to_in_b)?;
    Ok((of_a, of_b))
}

/// Whether the path goes from the corner of the ring with the one number to that with the other, and is not too long.
fn joins(path: &[Corner], ring: &[Corner], i: usize, j: usize) -> bool
    requires i_in_ring { i < length ring.now }
    requires j_in_ring { j < length ring.now }
    requires apart { corner_at ring.now i ≢ corner_at ring.now j }
    ensures { IsTrue result
        ↔ ((between : List Corner) × IsPath path.now (corner_at ring.now i) between (corner_at ring.now j)) }
{
    let [first, .., last] = path else {
        return false;
    };
    path.len() <= RING_CORNERS && are_same(*first, ring[i]) && are_same(*last, ring[j])
}

/// The path backwards.
fn backwards<A: Allocator>(alloc: A, path: &[Corner]) -> Result<Vec<Corner, A>, AllocError>
    ensures { IfOk result (λ back. back.items ≡ reverse path.now) }
{
    let mut back = Vec::from_slice(alloc, path)?;
    back.as_mut_slice().reverse();
    Ok(back)
}
