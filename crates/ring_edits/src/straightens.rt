//! A corner taken out of rings that are straight there.

ghost use Rattle.std.specs.Prelude.{◌≡◌, ◌↔◌, ◌<◌, length, IfOk, IfSome, IsNone, IsTrue};
ghost use Rattle.ring_edits.specs.Edits.{BendsAt, has_corner, straightened, without_corner};
ghost use Rattle.ring_edits.specs.own.Between.{IsBentAt};

use crate::inserts::is_between;
use crate::round::{are_same, following, preceding};
use geo_exact::{Corner, Corners};
use std::alloc::{AllocError, Allocator};

/// Whether the ring bends at the corner: somewhere it has the corner, and there it does not lie strictly between its
/// two neighbours on the edge that joins them. Then an edit is refused (E12).
pub fn is_bent(ring: &[Corner], at: Corner) -> bool
    ensures { IsTrue result ↔ BendsAt at ring.now }
{
    for i in 0..ring.len() {
        if is_bent_at(ring, i, at) {
            return true;
        }
    }
    false
}

/// Whether the corner with this number is the one, and does not lie strictly between its two neighbours.
fn is_bent_at(ring: &[Corner], i: usize, at: Corner) -> bool
    requires { i < length ring.now }
    ensures { IsTrue result ↔ IsBentAt ring.now at i }
{
    let before = ring[preceding(ring.len(), i)];
    let after = ring[following(ring.len(), i)];
    are_same(ring[i], at) && !is_between(before, after, at)
}

/// The ring without a corner, wherever it has it, begun at its least corner; or `None` where it does not have it
/// (E11, where no parcel has it).
///
/// Whether the ring bends there is not looked at: see [`is_bent`].
///
/// # Errors
///
/// [`AllocError`] where an allocation is refused.
pub fn straighten<A: Allocator + Copy>(
    alloc: A,
    ring: &[Corner],
    at: Corner,
) -> Result<Option<Corners<A>>, AllocError>
    ensures none { IfOk result (λ found. IsNone found ↔ (¬ IsTrue (has_corner at ring.now))) }
    ensures some { IfOk result (λ found. IfSome found (λ out. out ≡ straightened at ring.now)) }
{
    let Some(mut corners) = take_out(alloc, ring, at)? else {
        return Ok(None);
    };
    corners.begin_at_least();
    Ok(Some(corners))
}

/// The same, but not begun anew: the first of the other corners comes first. Where the ring does not have the corner,
/// nothing is allocated, however long it is.
///
/// # Errors
///
/// [`AllocError`] where an allocation is refused.
pub fn take_out<A: Allocator + Copy>(
    alloc: A,
    ring: &[Corner],
    at: Corner,
) -> Result<Option<Corners<A>>, AllocError>
    ensures none { IfOk result (λ found. IsNone found ↔ (¬ IsTrue (has_corner at ring.now))) }
    ensures some { IfOk result (λ found. IfSome found (λ out. out ≡ without_corner at ring.now)) }
{
    if !has(ring, at) {
        return Ok(None);
    }
    let list = all_but(alloc, ring, at)?;
    Ok(Some(Corners::from_vec(list)))
}

/// Whether the ring has the corner.
fn has(ring: &[Corner], at: Corner) -> bool
    ensures { result ≡ has_corner at ring.now }
{
    ring.contains(&at)
}

/// The other corners of the ring, in their order.
fn all_but<A: Allocator>(
    alloc: A,
    ring: &[Corner],
    at: Corner,
) -> Result<Vec<Corner, A>, AllocError>
    ensures { IfOk result (λ list. list.items ≡ without_corner at ring.now) }
{
    let mut list = Vec::from_slice(alloc, ring)?;
    list.retain(|corner| *corner != at);
    Ok(list)
}
