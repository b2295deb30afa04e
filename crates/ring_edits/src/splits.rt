//! A ring cut in two along a path.

ghost use Rattle.std.specs.Prelude.{◌≡◌, ◌≢◌, ◌↔◌, ◌<◌, ◌++◌, ◌∷◌, length, reverse, IfOk, IsErrOf, MatchOption};
ghost use Rattle.geo_exact.specs.Places.{corner_at};
ghost use Rattle.geo_exact.specs.Rings.{begun_at_least};
ghost use Rattle.ring_edits.specs.declared.fault.EditFault.TheVariants.{BadPath, NoMemory};
ghost use Rattle.ring_edits.specs.Edits.{IsPathAcross, IsSplit};
ghost use Rattle.ring_edits.specs.own.Between.{between, IsPathAt};

use crate::fault::EditFault;
use crate::round::{path_and_run, place_of, push_between};
use geo_exact::{Corner, Corners, RING_CORNERS};
use std::alloc::{AllocError, Allocator};

/// The numbers of the corners of the ring where the path begins and ends, where it is a path from one to another.
fn ends_in(ring: &[Corner], path: &[Corner]) -> Option<(usize, usize)>
    ensures { MatchOption result (¬ IsPathAcross ring.now path.now) (λ ends. IsPathAt ring.now path.now ends.0 ends.1) }
{
    let [from, .., to] = path else {
        return None;
    };
    if path.len() > RING_CORNERS || from == to {
        return None;
    }
    let i = place_of(ring, *from)?;
    let j = place_of(ring, *to)?;
    Some((i, j))
}

/// The ring's run from number `i` on to number `j`, and the corners between the ends of a path backwards.
fn run_and_back<A: Allocator + Copy>(
    alloc: A,
    ring: &[Corner],
    i: usize,
    j: usize,
    middle: &[Corner],
) -> Result<Corners<A>, AllocError>
    requires i_in_ring { i < length ring.now }
    requires j_in_ring { j < length ring.now }
    requires apart { i ≢ j }
    ensures { IfOk result (λ corners. corners
        ≡ begun_at_least (corner_at ring.now i ∷ between ring.now i j ++ corner_at ring.now j ∷ reverse middle.now)) }
{
    let mut list = Vec::new(alloc);
    list.push(ring[i])?;
    push_between(&mut list, ring, i, j)?;
    list.push(ring[j])?;
    let mut back = Vec::from_slice(alloc, middle)?;
    back.as_mut_slice().reverse();
    list.extend_from_slice(&back)?;
    let mut corners = Corners::from_vec(list);
    corners.begin_at_least();
    Ok(corners)
}

/// The two rings that a path from a corner of the ring to another cuts it into: first the one left of the path, then
/// the one right of it, each begun at its least corner. Corners are in whole millimetres.
///
/// They need not be simple, and may have as many corners as the ring and the path together.
///
/// # Errors
///
/// [`EditFault::BadPath`] (E3) where the path has fewer than 2 or more than [`RING_CORNERS`] corners, its first is
/// its last, or one of these two is no corner of the ring. [`EditFault::NoMemory`] where an allocation is refused.
#[tactic(auto, using(crate::proofs::Rounds::across, crate::proofs::Rounds::is_split))]
pub fn split<A: Allocator + Copy>(
    alloc: A,
    ring: &[Corner],
    path: &[Corner],
) -> Result<(Corners<A>, Corners<A>), EditFault>
    ensures rings { IfOk result (λ rings. IsSplit ring.now path.now rings.0 rings.1) }
    ensures bad_path { IsErrOf result BadPath ↔ (¬ IsPathAcross ring.now path.now) }
    // Memory is asked for only where nothing else refuses it.
    ensures memory { IsErrOf result NoMemory → IsPathAcross ring.now path.now }
{
    let Some((i, j)) = ends_in(ring, path) else {
        return Err(EditFault::BadPath);
    };
    let left = path_and_run(alloc, path, ring, j, i)?;
    let right = run_and_back(alloc, ring, i, j, &path[1..path.len() - 1])?;
    Ok((left, right))
}
