//! Numbers of corners and edges round a ring, and runs of them.

ghost use Rattle.std.specs.Prelude.{◌≡◌, ◌≢◌, ◌↔◌, ◌<◌, ◌++◌, length, IfOk, IsTrue, MatchOption, OnOk};
ghost use Rattle.std.specs.List.{Contains};
ghost use Rattle.geo_exact.specs.Places.{corner_at, after, before};
ghost use Rattle.ring_edits.specs.Round.{HasEdge, HasEdgeAt};
ghost use Rattle.geo_exact.specs.Rings.{begun_at_least};
ghost use Rattle.ring_edits.specs.own.Between.{between};

use geo_exact::{Corner, Corners};
use std::alloc::{AllocError, Allocator};

/// The number of the first place where the corner stands.
pub(crate) fn place_of(ring: &[Corner], corner: Corner) -> Option<usize>
    ensures { MatchOption result (¬ Contains ring.now corner)
        (λ i. (i < length ring.now) × (corner_at ring.now i ≡ corner)) }
{
    for i in 0..ring.len() {
        if ring[i] == corner {
            return Some(i);
        }
    }
    None
}

/// The number of the first edge that goes from the one corner to the other.
pub(crate) fn edge_place(ring: &[Corner], from: Corner, to: Corner) -> Option<usize>
    ensures { MatchOption result (¬ HasEdge ring.now from to) (λ k. HasEdgeAt ring.now from to k) }
{
    for i in 0..ring.len() {
        if is_edge_at(ring, i, from, to) {
            return Some(i);
        }
    }
    None
}

/// Whether the edge with this number goes from the one corner to the other.
fn is_edge_at(ring: &[Corner], i: usize, from: Corner, to: Corner) -> bool
    requires { i < length ring.now }
    ensures { IsTrue result ↔ HasEdgeAt ring.now from to i }
{
    are_same(ring[i], from) && are_same(ring[following(ring.len(), i)], to)
}

/// Whether the two are one corner.
pub(crate) fn are_same(a: Corner, b: Corner) -> bool
    ensures { IsTrue result ↔ (a ≡ b) }
{
    a == b
}

/// The number that follows `i` round a ring of `count` corners.
pub(crate) fn following(count: usize, i: usize) -> usize
    requires { i < count }
    ensures { result ≡ after count i }
{
    if i + 1 == count { 0 } else { i + 1 }
}

/// The number that `i` follows round a ring of `count` corners.
pub(crate) fn preceding(count: usize, i: usize) -> usize
    requires { i < count }
    ensures { result ≡ before count i }
{
    if i == 0 { count - 1 } else { i - 1 }
}

/// Appends the corners behind number `i` and before number `j`, round the ring.
pub(crate) fn push_between<A: Allocator>(
    list: &mut Vec<Corner, A>,
    ring: &[Corner],
    i: usize,
    j: usize,
) -> Result<(), AllocError>
    requires i_in_ring { i < length ring.now }
    requires j_in_ring { j < length ring.now }
    requires apart { i ≢ j }
    ensures { OnOk result (list.new.items ≡ list.old.items ++ between ring.now i j) }
{
    if i < j {
        list.extend_from_slice(&ring[i + 1..j])?;
    } else {
        list.extend_from_slice(&ring[i + 1..])?;
        list.extend_from_slice(&ring[..j])?;
    }
    Ok(())
}

/// The ring of a path and then the ring's run from number `i` on to number `j`, both without their last corner.
pub(crate) fn path_and_run<A: Allocator>(
    alloc: A,
    path: &[Corner],
    ring: &[Corner],
    i: usize,
    j: usize,
) -> Result<Corners<A>, AllocError>
    requires i_in_ring { i < length ring.now }
    requires j_in_ring { j < length ring.now }
    requires apart { i ≢ j }
    ensures { IfOk result (λ corners. corners ≡ begun_at_least (path.now ++ between ring.now i j)) }
{
    let mut list = Vec::from_slice(alloc, path)?;
    push_between(&mut list, ring, i, j)?;
    let mut corners = Corners::from_vec(list);
    corners.begin_at_least();
    Ok(corners)
}
