//! How a point lies to a ring, with most edges passed over by their boxes.

ghost use Rattle.std.specs.Prelude.{◌≡◌, ℕ, ◌+◌, ◌<◌, ◌≤◌, ◌*◌, false, length, IsTrue};
ghost use Rattle.geo_exact.specs.declared.limits.TheConstants.{RING_CORNERS};
ghost use Rattle.ring_core.specs.Simple.{MeetOnlyAsNeighbours};
ghost use Rattle.ring_core.specs.own.ByPlace.{AreBoxed, AreClear, AreEdgesOf, AreInRing};
ghost use Rattle.ring_core.specs.own.ByPlace.{HoldsEdge, IsBlockClear, edge_at};
ghost use Rattle.ring_core.specs.own.Blocks.{IsInSpan};

use crate::blocks::Span;
use crate::boxes::are_apart;
use crate::leaning::{BLOCK_EDGES, box_of_edges};
use crate::places::following;
use crate::ring::meets;
use arrayvec::ArrayVec;
use geo_exact::{Corner, LIMIT, RING_CORNERS};
use leaning_boxes::{LeaningBox, reach};

/// The most edges of a ring that are not put in order: to do so for fewer takes longer than it spares.
const FEW_PLACED: usize = 1_024;

/// The part of the edges behind, one of so many, that a wound ring has near a few of its edges at least.
const WOUND_PART: usize = 8;

/// The most blocks of edges.
const MOST_BLOCKS: usize = RING_CORNERS / BLOCK_EDGES;

/// An edge of a ring by its number, beside its place in Morton's order (Z-order), which neighbours in the
/// plane mostly have near each other. Only the speed rests on it.
#[derive(Clone, Copy, Debug, Default)]
pub struct Placed {
    /// The place of its middle.
    pub place: u64,
    /// Its number.
    pub edge: usize,
}

/// The low 32 bits of a number, each with an empty one before it. (A coordinate has no
/// more, in squares of 64 millimetres.)
fn spread(number: u64) -> u64 {
    let mut bits = number & 0xffff_ffff;
    bits = (bits | bits << 16) & 0x0000_ffff_0000_ffff;
    bits = (bits | bits << 8) & 0x00ff_00ff_00ff_00ff;
    bits = (bits | bits << 4) & 0x0f0f_0f0f_0f0f_0f0f;
    bits = (bits | bits << 2) & 0x3333_3333_3333_3333;
    (bits | bits << 1) & 0x5555_5555_5555_5555
}

/// The place of the middle of an edge, in squares of 64 by 64 millimetres: the bits of its two coordinates in
/// turn.
fn place_of(a: Corner, b: Corner) -> u64 {
    // Half the sum of two, in squares of 2 ^ 6. No sum saturates: a distance within the limit has 38 bits.
    let across = a.x.abs_diff(-LIMIT).saturating_add(b.x.abs_diff(-LIMIT)) >> 7;
    let up = a.y.abs_diff(-LIMIT).saturating_add(b.y.abs_diff(-LIMIT)) >> 7;
    spread(across) | spread(up) << 1
}

/// The edges of a ring, in the order of their places.
fn edges_by_place(ring: &[Corner]) -> ArrayVec<Placed, RING_CORNERS>
    requires few { length ring.now ≤ RING_CORNERS }
    ensures { AreEdgesOf (length ring.now) result.items }
{
    let mut edges = edges_in_order(ring);
    edges.sort_unstable_by_key(|it| it.place);
    edges
}

/// The edges of a ring beside their places, in the ring's order.
fn edges_in_order(ring: &[Corner]) -> ArrayVec<Placed, RING_CORNERS>
    requires few { length ring.now ≤ RING_CORNERS }
    ensures { AreEdgesOf (length ring.now) result.items }
{
    let mut edges = ArrayVec::new();
    for i in 0..ring.len() {
        edges.push(Placed {
            place: place_of(ring[i], ring[following(ring.len(), i)]),
            edge: i,
        });
    }
    edges
}

/// Of the listed edges from place `start` on and before `end`, the number of one that goes farthest.
fn longest_of(ring: &[Corner], edges: &[Placed], start: usize, end: usize) -> usize
    requires some { start < end }
    requires in_list { end ≤ length edges.now }
    requires in_ring { AreInRing (length ring.now) edges.now }
    ensures { result < length ring.now }
{
    let mut longest = edges[start].edge;
    let mut most = 0;
    for p in start..end {
        let i = edges[p].edge;
        let far = reach(ring[i], ring[following(ring.len(), i)]);
        if far > most {
            most = far;
            longest = i;
        }
    }
    longest
}

/// A leaning box of the listed edges from place `start` on and before `end`, along the longest.
fn box_of(ring: &[Corner], edges: &[Placed], start: usize, end: usize) -> LeaningBox
    requires some { start < end }
    requires in_list { end ≤ length edges.now }
    requires in_ring { AreInRing (length ring.now) edges.now }
    ensures { (p : ℕ) → start ≤ p → p < end → HoldsEdge result ring.now (edge_at edges.now p) }
{
    let long = longest_of(ring, edges, start, end);
    let from = ring[long];
    let mut held = LeaningBox::of_corner(from, ring[following(ring.len(), long)], from);
    for p in start..end {
        let i = edges[p].edge;
        held = held.around(ring[i]);
        held = held.around(ring[following(ring.len(), i)]);
    }
    held
}

/// The leaning boxes of the listed edges, a block of them at a time.
fn boxes_of(ring: &[Corner], edges: &[Placed]) -> ArrayVec<LeaningBox, MOST_BLOCKS>
    requires some { 0 < length edges.now }
    requires few { length edges.now ≤ RING_CORNERS }
    requires in_ring { AreInRing (length ring.now) edges.now }
    ensures { AreBoxed ring.now edges.now result.items }
{
    let mut boxes = ArrayVec::new();
    for b in 0..(edges.len() - 1) / BLOCK_EDGES + 1 {
        let span = span_of(edges.len(), b);
        boxes.push(box_of(ring, edges, span.start, span.end));
    }
    boxes
}

/// The places of block `b` in a list of so many edges.
fn span_of(count: usize, b: usize) -> Span
    requires { BLOCK_EDGES * b < count }
    ensures start { result.start ≡ BLOCK_EDGES * b }
    ensures some { result.start < result.end }
    ensures in_list { result.end ≤ count }
    ensures most { result.end ≤ BLOCK_EDGES * b + BLOCK_EDGES }
    ensures all { (p : ℕ) → p < BLOCK_EDGES * b + BLOCK_EDGES → p < count → p < result.end }
{
    let start = BLOCK_EDGES * b;
    Span {
        start,
        end: start + BLOCK_EDGES.min(count - start),
    }
}

/// Whether two edges, in whichever order, meet otherwise than as neighbours in their shared corner.
fn meet_in_turn(ring: &[Corner], i: usize, j: usize) -> bool
    requires long { 3 ≤ length ring.now }
    requires one { i < length ring.now }
    requires other { j < length ring.now }
    ensures { result ≡ false → AreClear ring.now i j }
{
    if i < j {
        return meets(ring, i, j);
    }
    j < i && meets(ring, j, i)
}

/// Whether one of the listed edges from place `start` on and before `end` meets edge `j` otherwise than as its
/// neighbour.
fn one_meets(ring: &[Corner], edges: &[Placed], span: Span, j: usize) -> bool
    requires long { 3 ≤ length ring.now }
    requires in_list { span.end ≤ length edges.now }
    requires in_ring { AreInRing (length ring.now) edges.now }
    requires edge { j < length ring.now }
    ensures { result ≡ false → (p : ℕ) → IsInSpan p span → AreClear ring.now (edge_at edges.now p) j }
{
    for p in span.start..span.end {
        if meet_in_turn(ring, edges[p].edge, j) {
            return true;
        }
    }
    false
}

/// Whether no edge of one block, which the leaning box holds, meets one of another block otherwise than as its
/// neighbour: those of the other that the box lets come near are tried.
fn are_clear(ring: &[Corner], edges: &[Placed], held: LeaningBox, one: Span, other: Span) -> bool
    requires long { 3 ≤ length ring.now }
    requires one { one.end ≤ length edges.now }
    requires other { other.end ≤ length edges.now }
    requires in_ring { AreInRing (length ring.now) edges.now }
    requires held { (p : ℕ) → IsInSpan p one → HoldsEdge held ring.now (edge_at edges.now p) }
    ensures { IsTrue result → (p q : ℕ) → IsInSpan p one → IsInSpan q other
        → AreClear ring.now (edge_at edges.now p) (edge_at edges.now q) }
{
    for q in other.start..other.end {
        let j = edges[q].edge;
        if !held.misses(ring[j], ring[following(ring.len(), j)]) && one_meets(ring, edges, one, j) {
            return false;
        }
    }
    true
}

/// Whether no edge of block `b` meets one of its own or of a later block otherwise than as its neighbour.
fn is_clear_from(ring: &[Corner], edges: &[Placed], boxes: &[LeaningBox], b: usize) -> bool
    requires long { 3 ≤ length ring.now }
    requires in_ring { AreInRing (length ring.now) edges.now }
    requires boxed { AreBoxed ring.now edges.now boxes.now }
    requires block { b < length boxes.now }
    ensures { IsTrue result → IsBlockClear ring.now edges.now b }
{
    let held = boxes[b];
    let one = span_of(edges.len(), b);
    for c in b..boxes.len() {
        if !are_apart(held.bounds, boxes[c].bounds)
            && !are_clear(ring, edges, held, one, span_of(edges.len(), c))
        {
            return false;
        }
    }
    true
}

/// Whether the edges of a ring, which are listed and boxed, meet only as neighbours, in their shared corner.
fn are_all_clear(ring: &[Corner], edges: &[Placed], boxes: &[LeaningBox]) -> bool
    requires long { 3 ≤ length ring.now }
    requires edges { AreEdgesOf (length ring.now) edges.now }
    requires boxed { AreBoxed ring.now edges.now boxes.now }
    ensures { IsTrue result → MeetOnlyAsNeighbours ring.now }
{
    for b in 0..boxes.len() {
        if !is_clear_from(ring, edges, boxes, b) {
            return false;
        }
    }
    true
}

/// Whether more than an eighth of the edges from number `start` on come near a leaning box of the first eight of
/// them.
fn is_wound_at(ring: &[Corner], start: usize) -> bool
    requires behind { start < length ring.now }
    requires few { length ring.now ≤ RING_CORNERS }
{
    let held = box_of_edges(ring, start, ring.len().min(start + BLOCK_EDGES));
    let mut near = 0;
    for j in start..ring.len() {
        if !held.misses(ring[j], ring[following(ring.len(), j)]) {
            near += 1;
        }
    }
    WOUND_PART * near > ring.len() - start
}

/// Whether edges that follow one another are near many others, as in a spiral: tried at a quarter, a half and three
/// quarters of the ring. Only the speed rests on it.
fn is_wound(ring: &[Corner]) -> bool
    requires some { 0 < length ring.now }
    requires few { length ring.now ≤ RING_CORNERS }
{
    let quarter = ring.len() / 4;
    is_wound_at(ring, quarter) || is_wound_at(ring, 2 * quarter) || is_wound_at(ring, 3 * quarter)
}

/// Whether the edges of a ring, put in the order of their places, meet only as neighbours, in their shared corner.
/// The lists are large: they stand in a frame of their own, which other checks do without.
#[inline(never)]
fn is_clear_in_order(ring: &[Corner]) -> bool
    requires long { 3 ≤ length ring.now }
    requires few { length ring.now ≤ RING_CORNERS }
    ensures { IsTrue result → MeetOnlyAsNeighbours ring.now }
{
    let edges = edges_by_place(ring);
    let boxes = boxes_of(ring, &edges);
    are_all_clear(ring, &edges, &boxes)
}

/// Whether the edges of a ring meet only as neighbours, in their shared corner, as far as it can be told by
/// their places; a ring of so few edges or so many that they are not put in order is not told of, nor one whose
/// edges are as well looked at in their own order. False says nothing.
pub fn is_clear_by_place(ring: &[Corner]) -> bool
    requires { 3 ≤ length ring.now }
    ensures { IsTrue result → MeetOnlyAsNeighbours ring.now }
{
    if ring.len() <= FEW_PLACED || ring.len() > RING_CORNERS || !is_wound(ring) {
        return false;
    }
    is_clear_in_order(ring)
}
