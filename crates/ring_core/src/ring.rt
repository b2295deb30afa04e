//! A simple ring, or why corners are none.

ghost use Rattle.std.specs.Prelude.{◌≡◌, ◌↔◌, ℕ, ◌<◌, ◌≤◌, false, length, IsTrue, IsOk, IfOk, IfErr, MatchOption};
ghost use Rattle.geo_exact.specs.Bounds.{EdgeBoxesMeet};
ghost use Rattle.geo_exact.specs.Places.{after, corner_at};
ghost use Rattle.geo_exact.specs.declared.limits.TheConstants.{LIST_CORNERS};
ghost use Rattle.ring_core.specs.Simple.{IsSimpleRing, MeetOtherwise};
ghost use Rattle.ring_core.specs.Faults.{IsFirstMeeting, IsRingFault};

use crate::by_place::is_clear_by_place;
use crate::leaning::{BLOCK_EDGES, box_of_edges};
use crate::meeting::{box_meets, doubles_back, edge_box, have_common_point};
use crate::places::following;
use geo_exact::{Corner, Corners, area2, edge_boxes_meet};
use std::alloc::{AllocError, Allocator};

/// The most edges of a ring whose pairs are tried one by one: to put boxes round fewer takes longer than it spares.
const FEW_EDGES: usize = 64;

/// A simple ring: counterclockwise, of positive area, and its edges meet only as neighbours, in their
/// shared corner alone (OGC 06-103r4, 6.1.7, LinearRing). Edge `i` joins corner `i` to the next, and the
/// last corner to the first; corners are in whole millimetres. A corner may lie on the edge between its
/// neighbours.
#[derive(Debug, Drop, PartialEq, Eq)]
pub struct Ring<A: Allocator> {
    /// Its corners, counterclockwise, the first not repeated.
    pub corners: Corners<A>,
    pub ghost is_simple: { IsSimpleRing corners },
}

/// Why a list of corners is no simple ring: the first that applies, in this order.
#[derive(Clone, Copy, Debug, PartialEq, Eq)]
pub enum RingFault {
    /// G1: the signed area is 0.
    ZeroArea,
    /// G3: the signed area is negative.
    Clockwise,
    /// G2: two edges meet otherwise than as neighbours in their shared corner: the first two, by
    /// the first edge's number and then by the second's, counted from 0.
    EdgesMeet(usize, usize),
}

/// Whether the edges `i` and `j` of the ring, whose boxes meet, meet otherwise than as neighbours in their
/// shared corner.
fn meet_otherwise(ring: &[Corner], i: usize, j: usize) -> bool
    requires long { 3 ≤ length ring.now }
    requires ordered { i < j }
    requires in_ring { j < length ring.now }
    requires boxes_meet { EdgeBoxesMeet (corner_at ring.now i) (corner_at ring.now (after (length ring.now) i))
        (corner_at ring.now j) (corner_at ring.now (after (length ring.now) j)) }
    ensures { IsTrue result ↔ MeetOtherwise ring.now i j }
{
    let next = following(ring.len(), j);
    let a = ring[i];
    let b = ring[i + 1];
    let c = ring[j];
    let d = ring[next];
    if i + 1 == j {
        return doubles_back(a, c, d);
    }
    if next == i {
        return doubles_back(c, a, b);
    }
    have_common_point(a, b, c, d)
}

/// Whether edge `i` and the later edge `j` meet otherwise than as neighbours in their shared corner: their boxes
/// first.
pub fn meets(ring: &[Corner], i: usize, j: usize) -> bool
    requires long { 3 ≤ length ring.now }
    requires ordered { i < j }
    requires in_ring { j < length ring.now }
    ensures { result ≡ false → ¬ MeetOtherwise ring.now i j }
{
    edge_boxes_meet(
        ring[i],
        ring[i + 1],
        ring[j],
        ring[following(ring.len(), j)],
    ) && meet_otherwise(ring, i, j)
}

/// The first edge after edge `i` that meets it otherwise than as its neighbour.
fn first_meeting_with(ring: &[Corner], i: usize) -> Option<usize>
    requires long { 3 ≤ length ring.now }
    requires in_ring { i < length ring.now }
    ensures { MatchOption result
        ((j : ℕ) → i < j → j < length ring.now → ¬ MeetOtherwise ring.now i j)
        (λ j. (i < j) × (j < length ring.now) × MeetOtherwise ring.now i j
        × ((l : ℕ) → i < l → l < j → ¬ MeetOtherwise ring.now i l)) }
{
    let bounds = edge_box(ring[i], ring[following(ring.len(), i)]);
    for j in i + 1..ring.len() {
        if box_meets(bounds, ring[j], ring[following(ring.len(), j)])
            && meet_otherwise(ring, i, j)
        {
            return Some(j);
        }
    }
    None
}

/// Whether one of the edges from number `start` on and before `end` meets the later edge `j` otherwise than
/// as its neighbour.
fn meets_one(ring: &[Corner], start: usize, end: usize, j: usize) -> bool
    requires long { 3 ≤ length ring.now }
    requires earlier { end ≤ j }
    requires in_ring { j < length ring.now }
    ensures { result ≡ false → (i : ℕ) → start ≤ i → i < end → ¬ MeetOtherwise ring.now i j }
{
    for i in start..end {
        if meets(ring, i, j) {
            return true;
        }
    }
    false
}

/// Whether no edge from number `start` on and before `end` meets a later one otherwise than as its
/// neighbour: the later ones that a leaning box of these edges lets come near are tried.
fn is_clear(ring: &[Corner], start: usize, end: usize) -> bool
    requires long { 3 ≤ length ring.now }
    requires some { start < end }
    requires in_ring { end ≤ length ring.now }
    ensures { IsTrue result → (i j : ℕ) → start ≤ i → i < end → i < j → j < length ring.now
        → ¬ MeetOtherwise ring.now i j }
{
    let held = box_of_edges(ring, start, end);
    for j in start..ring.len() {
        if !held.misses(ring[j], ring[following(ring.len(), j)])
            && meets_one(ring, start, end.min(j), j)
        {
            return false;
        }
    }
    true
}

/// An edge number, `i` or a greater one: no edge from `i` on and before it meets a later one otherwise than
/// as its neighbour. Edges are looked at a block at a time, and those of a small ring not at all.
fn clear_until(ring: &[Corner], i: usize) -> usize
    requires long { 3 ≤ length ring.now }
    requires in_ring { i < length ring.now }
    ensures { (k j : ℕ) → i ≤ k → k < result → k < j → j < length ring.now → ¬ MeetOtherwise ring.now k j }
{
    if ring.len() <= FEW_EDGES {
        return i;
    }
    let end = ring.len().min(i + BLOCK_EDGES);
    if is_clear(ring, i, end) { end } else { i }
}

/// The first two edges, by the first's number and then by the second's, that meet otherwise than as
/// neighbours.
fn first_meeting(ring: &[Corner]) -> Option<(usize, usize)>
    requires { 3 ≤ length ring.now }
    ensures { MatchOption result
        ((i j : ℕ) → i < j → j < length ring.now → ¬ MeetOtherwise ring.now i j)
        (λ pair. IsFirstMeeting ring.now pair.0 pair.1) }
{
    if is_clear_by_place(ring) {
        return None;
    }
    let mut clear = 0;
    for i in 0..ring.len() {
        if clear <= i {
            clear = clear_until(ring, i);
        }
        if clear > i {
            continue;
        }
        if let Some(j) = first_meeting_with(ring, i) {
            return Some((i, j));
        }
    }
    None
}

impl<A: Allocator + Copy> Clone for Ring<A> {
    ghost use Rattle.std.specs.Prelude.{◌≡◌};

    ghost is_clone = { λ ring copy. copy.corners ≡ ring.corners };

    fn clone(&self) -> Result<Ring<A>, AllocError> {
        let corners = self.corners.clone()?;
        Ok(Ring { corners })
    }
}

impl<A: Allocator> Ring<A> {
    /// The ring of these corners, at most 10,000,000. It allocates nothing; the corners are dropped on a
    /// fault.
    ///
    /// The time grows with the square of the number of corners. Of more than 64 edges, eight that follow one
    /// another are looked at together; of 1,025 to 4,096 that wind, first eight that lie near each other.
    ///
    /// # Errors
    ///
    /// The first of these that applies: [`RingFault::ZeroArea`] (G1), [`RingFault::Clockwise`] (G3),
    /// [`RingFault::EdgesMeet`] (G2).
    ///
    /// ```
    /// // (0, 0) (100, 0) (100, 100) (50, 0) (0, 100): edges 0 and 2 meet.
    /// assert_eq!(Ring::check(corners), Err(RingFault::EdgesMeet(0, 2)));
    /// ```
    pub fn check(corners: Corners<A>) -> Result<Ring<A>, RingFault>
        requires { length corners ≤ LIST_CORNERS }
        ensures valid { IsOk result ↔ IsSimpleRing corners }
        ensures ok { IfOk result (λ ring. ring.corners ≡ corners) }
        ensures err { IfErr result (λ fault. IsRingFault corners fault) }
    {
        let area = area2(corners.as_slice());
        if area == 0 {
            return Err(RingFault::ZeroArea);
        }
        if area < 0 {
            return Err(RingFault::Clockwise);
        }
        if let Some((i, j)) = first_meeting(corners.as_slice()) {
            return Err(RingFault::EdgesMeet(i, j));
        }
        Ok(Ring { corners })
    }
}
