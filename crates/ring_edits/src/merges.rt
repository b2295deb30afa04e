//! Two neighbours' rings made one.

ghost use Rattle.std.specs.Prelude.{◌≡◌, ◌≢◌, ◌⊎◌, ◌<◌, ◌++◌, ◌∷◌, length, IfOk, IfErr, IsErrOf};
ghost use Rattle.geo_exact.specs.Places.{corner_at};
ghost use Rattle.geo_exact.specs.Rings.{begun_at_least};
ghost use Rattle.ring_core.specs.Simple.{IsSimpleRing};
ghost use Rattle.ring_edits.specs.declared.fault.EditFault.TheVariants.{NoMemory};
ghost use Rattle.ring_edits.specs.Edits.{IsBorderFault, IsMerge, ShareOneRun};
ghost use Rattle.ring_edits.specs.own.Between.{between};

use crate::border::border_of;
use crate::fault::EditFault;
use crate::round::push_between;
use geo_exact::{Corner, Corners};
use std::alloc::{AllocError, Allocator};

/// The ring of two neighbours without the border between them, begun at its least corner. The ends of the border
/// stay, the corners between them go. Corners are in whole millimetres.
///
/// It need not be simple, and has at most as many corners as the two rings together.
///
/// # Errors
///
/// [`EditFault::NotNeighbours`] (E4) where the rings share no edge. [`EditFault::SharedTwice`] (E5) where the edges
/// that they share are not one unbroken run, or are all of `a`. [`EditFault::NoMemory`] where an allocation is
/// refused.
pub fn merge<A: Allocator + Copy>(
    alloc: A,
    a: &[Corner],
    b: &[Corner],
) -> Result<Corners<A>, EditFault>
    requires { IsSimpleRing a.now }
    ensures ring { IfOk result (λ ring. IsMerge a.now b.now ring) }
    ensures err { IfErr result (λ fault. (fault ≡ NoMemory) ⊎ IsBorderFault a.now b.now fault) }
    // Memory is asked for only where nothing else refuses it.
    ensures memory { IsErrOf result NoMemory → ShareOneRun a.now b.now }
{
    let border = border_of(a, b)?;
    let ring = two_runs(
        alloc,
        a,
        border.to_in_a,
        border.from_in_a,
        b,
        border.from_in_b,
        border.to_in_b,
    )?;
    Ok(ring)
}

/// The run of one ring from number `i` on to number `j`, and then that of the other from number `k` on to number `l`,
/// each without its last corner.
fn two_runs<A: Allocator>(
    alloc: A,
    a: &[Corner],
    i: usize,
    j: usize,
    b: &[Corner],
    k: usize,
    l: usize,
) -> Result<Corners<A>, AllocError>
    requires i_in_ring { i < length a.now }
    requires j_in_ring { j < length a.now }
    requires apart { i ≢ j }
    requires k_in_ring { k < length b.now }
    requires l_in_ring { l < length b.now }
    requires apart_in_b { k ≢ l }
    ensures { IfOk result (λ corners. corners
        ≡ begun_at_least (corner_at a.now i ∷ between a.now i j ++ corner_at a.now j ∷ between b.now k l)) }
{
    let mut list = Vec::new(alloc);
    list.push(a[i])?;
    push_between(&mut list, a, i, j)?;
    list.push(a[j])?;
    push_between(&mut list, b, k, l)?;
    let mut corners = Corners::from_vec(list);
    corners.begin_at_least();
    Ok(corners)
}
