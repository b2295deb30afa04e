//! A corner put into a ring's edge.

ghost use Rattle.std.specs.Prelude.{◌≡◌, ◌⊎◌, ◌↔◌, ◌<◌, length, IfOk, IfSome, IsNone, IsTrue};
ghost use Rattle.geo_exact.specs.Segments.{IsStrictlyInside};
ghost use Rattle.ring_edits.specs.Edits.{joins, has_edge_between, put_between, with_corner};
ghost use Rattle.ring_edits.specs.own.Between.{edge_at};

use crate::round::{are_same, following};
use geo_exact::{Corner, Corners, on_segment};
use std::alloc::{AllocError, Allocator};

/// Whether a corner lies strictly between two others on the edge that joins them; where it does not, an edit is
/// refused (E8).
pub fn is_between(from: Corner, to: Corner, at: Corner) -> bool
    ensures { IsTrue result ↔ IsStrictlyInside at from to }
{
    on_segment(from, to, at) && !are_same(at, from) && !are_same(at, to)
}

/// The ring with a corner put into its edge between two corners, in whichever direction it has that edge, begun at
/// its least corner; or `None` where it has no such edge, or the two are one corner (E7, where no parcel has it). A
/// ring that has the edge more than once gets the corner into each.
///
/// Whether the corner lies on the edge is not looked at: see [`is_between`].
///
/// # Errors
///
/// [`AllocError`] where an allocation is refused.
pub fn insert<A: Allocator + Copy>(
    alloc: A,
    ring: &[Corner],
    from: Corner,
    to: Corner,
    at: Corner,
) -> Result<Option<Corners<A>>, AllocError>
    ensures none { IfOk result (λ found. IsNone found
        ↔ ((from ≡ to) ⊎ (¬ IsTrue (has_edge_between from to ring.now)))) }
    ensures some { IfOk result (λ found. IfSome found (λ out. out ≡ with_corner from to at ring.now)) }
{
    let Some(mut corners) = put_into(alloc, ring, from, to, at)? else {
        return Ok(None);
    };
    corners.begin_at_least();
    Ok(Some(corners))
}

/// The same, but not begun anew: the ring's first corner stays first. Where the ring has no such edge, nothing is
/// allocated, however long it is.
///
/// # Errors
///
/// [`AllocError`] where an allocation is refused.
pub fn put_into<A: Allocator + Copy>(
    alloc: A,
    ring: &[Corner],
    from: Corner,
    to: Corner,
    at: Corner,
) -> Result<Option<Corners<A>>, AllocError>
    ensures none { IfOk result (λ found. IsNone found
        ↔ ((from ≡ to) ⊎ (¬ IsTrue (has_edge_between from to ring.now)))) }
    ensures some { IfOk result (λ found. IfSome found (λ out. out ≡ put_between from to at ring.now)) }
{
    if are_same(from, to) || !has_edge(ring, from, to) {
        return Ok(None);
    }
    let list = put_all(alloc, ring, from, to, at)?;
    Ok(Some(Corners::from_vec(list)))
}

/// Whether the ring has an edge between the two corners, in either direction.
fn has_edge(ring: &[Corner], from: Corner, to: Corner) -> bool
    ensures { result ≡ has_edge_between from to ring.now }
{
    for i in 0..ring.len() {
        if is_joining(ring, i, from, to) {
            return true;
        }
    }
    false
}

/// The corners of the ring, each with the new one behind it where its edge goes between the two corners.
fn put_all<A: Allocator>(
    alloc: A,
    ring: &[Corner],
    from: Corner,
    to: Corner,
    at: Corner,
) -> Result<Vec<Corner, A>, AllocError>
    ensures { IfOk result (λ list. list.items ≡ put_between from to at ring.now) }
{
    let mut list = Vec::with_capacity(alloc, ring.len() + 1)?;
    for i in 0..ring.len() {
        list.push(ring[i])?;
        if is_joining(ring, i, from, to) {
            list.push(at)?;
        }
    }
    Ok(list)
}

/// Whether the edge with this number goes between the two corners, in either direction.
fn is_joining(ring: &[Corner], i: usize, from: Corner, to: Corner) -> bool
    requires { i < length ring.now }
    ensures { result ≡ joins from to (edge_at ring.now i) }
{
    let start = ring[i];
    let end = ring[following(ring.len(), i)];
    (start == from && end == to) || (start == to && end == from)
}
