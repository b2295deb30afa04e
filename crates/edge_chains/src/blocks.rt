//! Corners for many searches, in blocks of neighbours with a box round each.

ghost use Rattle.std.specs.Prelude.{◌≡◌, ◌↔◌, ℕ, ◌+◌, ◌*◌, ◌<◌, ◌≤◌, List, length, map, slice_index};
ghost use Rattle.std.specs.Prelude.{slice_index_or, IfOk, IfSome};
ghost use Rattle.std.specs.List.{filter, Contains};
ghost use Rattle.edge_chains.specs.own.Inside.{is_strictly_inside};
ghost use Rattle.geo_exact.specs.Bounds.{holds_corner, HoldsCorner};
ghost use Rattle.edge_chains.specs.own.Blocks.{AreEnds, HasBlock, AreBlocks};

use crate::edge_tests::{are_disjoint, is_in, is_strictly_inside, misses};
use geo_exact::{Bounds, Corner, LIMIT};
use std::alloc::{AllocError, Allocator};
use std::marker::Model;

/// How many neighbours in the list are a group, for which one box is kept.
pub(crate) const GROUP: usize = 4;

/// Corners for many searches, as a list in some order: at each group a block of corners begins, with its box.
#[derive(Drop)]
pub(crate) struct Blocks<A: Allocator> {
    corners: Vec<Corner, A>,
    ends: Vec<usize, A>,
    boxes: Vec<Bounds, A>,
}

impl<A: Allocator> Model for Blocks<A> {
    ghost use Rattle.std.specs.Prelude.{List};
    ghost use Rattle.geo_exact.specs.declared.corner.Corner.{Corner};
    ghost use Rattle.edge_chains.specs.own.Blocks.{AreBlocks};

    ghost Value = { List Corner };

    ghost view = { λ blocks. blocks.corners.items };

    ghost invariant = { λ blocks. AreBlocks blocks.corners.items blocks.ends.items blocks.boxes.items };
}

impl<A: Allocator + Copy> Blocks<A> {
    /// The blocks of these corners.
    pub fn new(alloc: A, corners: &[Corner]) -> Result<Blocks<A>, AllocError>
        ensures { IfOk result (λ blocks. (c : Corner) → Contains blocks c ↔ Contains corners.now c) }
    {
        let corners = by_place(alloc, corners)?;
        let ends = block_ends(alloc, corners.len())?;
        let boxes = block_boxes(alloc, &corners, &ends)?;
        Ok(Blocks {
            corners,
            ends,
            boxes,
        })
    }

    /// What new lists are allocated by.
    pub fn alloc(&self) -> A {
        *self.corners.allocator()
    }

    /// All the corners.
    pub fn corners(&self) -> &[Corner]
        ensures { result.now ≡ self.now }
    {
        self.corners.as_slice()
    }

    /// Those of the corners that lie strictly inside the edge from a to b, in the order of the list;
    /// `None` where more than `most` boxes are looked at.
    pub fn inside(
        &self,
        a: Corner,
        b: Corner,
        most: usize,
    ) -> Result<Option<Vec<Corner, A>>, AllocError>
        ensures { IfOk result (λ seen. IfSome seen (λ found.
            found.items ≡ filter (λ c. is_strictly_inside c a b) self.now)) }
    {
        collect(
            *self.corners.allocator(),
            &self.corners,
            &self.ends,
            &self.boxes,
            (a, b),
            most,
        )
    }

    /// Those of the corners that are in a box, in the order of the list; `None` where they are more than `most`, or
    /// more than `most_off` blocks that lie off it are passed over on the way through the list.
    pub fn within(
        &self,
        bounds: &Bounds,
        most: usize,
        most_off: usize,
    ) -> Result<Option<Vec<Corner, A>>, AllocError>
        ensures { IfOk result (λ few. IfSome few (λ found.
            found.items ≡ filter (λ c. holds_corner bounds.now c) self.now)) }
    {
        collect_few(
            *self.corners.allocator(),
            &self.corners,
            &self.ends,
            &self.boxes,
            bounds,
            (most, most_off),
        )
    }
}

/// The place of a corner in Morton's order (Z-order), which neighbours in the plane mostly have
/// near each other, and where the corner is listed. Only the speed rests on the place.
#[derive(Clone, Copy)]
struct Placed {
    place: u64,
    index: usize,
}

/// The corners, so ordered that neighbours in the list are close to each other in the plane.
fn by_place<A: Allocator + Copy>(alloc: A, corners: &[Corner]) -> Result<Vec<Corner, A>, AllocError>
    ensures { IfOk result (λ ordered. (c : Corner) → Contains ordered.items c ↔ Contains corners.now c) }
{
    let mut placed = with_places(alloc, corners)?;
    placed.sort_unstable_by_key(|it| it.place);
    let mut ordered = corners_of(alloc, corners, &placed, Corner { x: 0, y: 0 })?;
    ordered.dedup();
    Ok(ordered)
}

/// Where corners are listed, beside their places.
fn with_places<A: Allocator>(alloc: A, corners: &[Corner]) -> Result<Vec<Placed, A>, AllocError>
    ensures { IfOk result (λ placed. (none : Corner) →
        map (λ it. slice_index_or corners.now it.index none) placed.items ≡ corners.now) }
{
    let mut placed = Vec::with_capacity(alloc, corners.len())?;
    for (index, corner) in corners.iter().enumerate() {
        placed.push(Placed {
            place: place_of(*corner),
            index,
        })?;
    }
    Ok(placed)
}

/// The corners that are listed there, in the order of their places; `none` for one that is listed nowhere.
fn corners_of<A: Allocator>(
    alloc: A,
    corners: &[Corner],
    placed: &[Placed],
    none: Corner,
) -> Result<Vec<Corner, A>, AllocError>
    ensures { IfOk result (λ found. found.items ≡ map (λ it. slice_index_or corners.now it.index none) placed.now) }
{
    let mut found = Vec::with_capacity(alloc, placed.len())?;
    for it in placed {
        found.push(corner_at(corners, it.index, none))?;
    }
    Ok(found)
}

/// The corner that is listed there; `none` past the end.
fn corner_at(corners: &[Corner], index: usize, none: Corner) -> Corner
    ensures { result ≡ slice_index_or corners.now index none }
{
    if index < corners.len() {
        corners[index]
    } else {
        none
    }
}

/// The place of a corner's square of 64 by 64 millimetres: the bits of its two coordinates in turn.
fn place_of(corner: Corner) -> u64 {
    let across = (corner.x + LIMIT) as u64 >> 6;
    let up = (corner.y + LIMIT) as u64 >> 6;
    spread(across) | spread(up) << 1
}

/// The low 32 bits of a number, each with an empty one before it.
fn spread(number: u64) -> u64 {
    let mut bits = number & 0xffff_ffff;
    bits = (bits | bits << 16) & 0x0000_ffff_0000_ffff;
    bits = (bits | bits << 8) & 0x00ff_00ff_00ff_00ff;
    bits = (bits | bits << 4) & 0x0f0f_0f0f_0f0f_0f0f;
    bits = (bits | bits << 2) & 0x3333_3333_3333_3333;
    (bits | bits << 1) & 0x5555_5555_5555_5555
}

/// Those of the corners that lie strictly inside an edge, in the order of the list; `None` where
/// more than `most` boxes are looked at.
///
/// At each group a block begins that goes up to `ends`, with its box; a block whose box the edge misses is passed over.
fn collect<A: Allocator + Copy>(
    alloc: A,
    corners: &[Corner],
    ends: &[usize],
    boxes: &[Bounds],
    edge: (Corner, Corner),
    most: usize,
) -> Result<Option<Vec<Corner, A>>, AllocError>
    requires { AreBlocks corners.now ends.now boxes.now }
    ensures { IfOk result (λ seen. IfSome seen (λ found.
        found.items ≡ filter (λ c. is_strictly_inside c edge.0 edge.1) corners.now)) }
{
    let (a, b) = edge;
    let mut found = Vec::new(alloc);
    let mut at = 0;
    let mut left = most;
    while at < corners.len() {
        if at % GROUP == 0 {
            if left == 0 {
                return Ok(None);
            }
            left -= 1;
        }
        let group = at / GROUP;
        if at % GROUP == 0 && misses(boxes[group], a, b) {
            at = ends[group];
        } else {
            let corner = corners[at];
            if is_strictly_inside(corner, a, b) {
                found.push(corner)?;
            }
            at += 1;
        }
    }
    Ok(Some(found))
}

/// Those of the corners that are in a box, in the order of the list; `None` where they are more than the first of
/// `most`.
///
/// A block whose own box is off this one is passed over; `None` where more than the second of `most` are.
fn collect_few<A: Allocator + Copy>(
    alloc: A,
    corners: &[Corner],
    ends: &[usize],
    boxes: &[Bounds],
    bounds: &Bounds,
    most: (usize, usize),
) -> Result<Option<Vec<Corner, A>>, AllocError>
    requires { AreBlocks corners.now ends.now boxes.now }
    ensures { IfOk result (λ few. IfSome few (λ found.
        found.items ≡ filter (λ c. holds_corner bounds.now c) corners.now)) }
{
    let (most, mut left) = most;
    let mut found = Vec::with_capacity(alloc, most)?;
    let mut at = 0;
    while at < corners.len() {
        let group = at / GROUP;
        if at % GROUP == 0 && are_disjoint(boxes[group], *bounds) {
            if left == 0 {
                return Ok(None);
            }
            left -= 1;
            at = ends[group];
        } else {
            let corner = corners[at];
            if is_in(*bounds, corner) {
                if found.len() == most {
                    return Ok(None);
                }
                found.push(corner)?;
            }
            at += 1;
        }
    }
    Ok(Some(found))
}

/// Where the block at each group of n corners ends: those of a tree in which a block is its first
/// group and two halves of the rest.
pub(crate) fn block_ends<A: Allocator + Copy>(
    alloc: A,
    n: usize,
) -> Result<Vec<usize, A>, AllocError>
    ensures { IfOk result (λ ends. AreEnds n ends.items) }
{
    let full = n / GROUP;
    let mut ends = vec![in alloc; n; full + 1]?;
    for group in 0..full {
        let next = group + 1;
        let end = ends[group];
        let last = end / GROUP;
        if next < last {
            let middle = last - (last - next) / 2;
            ends[next] = middle * GROUP;
            if middle < last {
                ends[middle] = end;
            }
        }
    }
    Ok(ends)
}

/// The box of the block at a group, where those of the later blocks are known.
fn block_box(corners: &[Corner], ends: &[usize], boxes: &[Bounds], group: usize) -> Bounds
    requires place { group * GROUP < length corners.now }
    requires ends { AreEnds (length corners.now) ends.now }
    requires as_many { length boxes.now ≡ length ends.now }
    requires later { (i : ℕ) → group < i → i * GROUP < length corners.now → HasBlock corners.now ends.now boxes.now i }
    ensures { (k : ℕ) (c : Corner) → group * GROUP ≤ k → k < slice_index ends.now group
        → HoldsCorner result (slice_index_or corners.now k c) }
{
    let mut bounds = group_box(corners, group);
    let mut at = group * GROUP + GROUP;
    let end = corners.len().min(ends[group]);
    while at < end {
        bounds = bounds.around(boxes[at / GROUP]);
        at = ends[at / GROUP];
    }
    bounds
}

/// The box of the corners of a group.
fn group_box(corners: &[Corner], group: usize) -> Bounds
    requires { group * GROUP < length corners.now }
    ensures { (k : ℕ) (c : Corner) → group * GROUP ≤ k → k < group * GROUP + GROUP → k < length corners.now
        → HoldsCorner result (slice_index_or corners.now k c) }
{
    let mut at = group * GROUP;
    let end = corners.len().min(at + GROUP);
    let mut bounds = Bounds::of_corner(corners[at]);
    while at < end {
        bounds = bounds.around(Bounds::of_corner(corners[at]));
        at += 1;
    }
    bounds
}

/// The boxes of all blocks.
fn block_boxes<A: Allocator + Copy>(
    alloc: A,
    corners: &[Corner],
    ends: &[usize],
) -> Result<Vec<Bounds, A>, AllocError>
    requires { AreEnds (length corners.now) ends.now }
    ensures { IfOk result (λ boxes. AreBlocks corners.now ends.now boxes.items) }
{
    let mut boxes = vec![in alloc; Bounds::nowhere(); ends.len()]?;
    let mut at = corners.len().div_ceil(GROUP);
    while at > 0 {
        at -= 1;
        let bounds = block_box(corners, ends, &boxes, at);
        boxes[at] = bounds;
    }
    Ok(boxes)
}

/// Those of the corners that lie strictly inside the edge from a to b, in the order of the list: each is tried.
pub(crate) fn inside_of<A: Allocator>(
    alloc: A,
    corners: &[Corner],
    a: Corner,
    b: Corner,
) -> Result<Vec<Corner, A>, AllocError>
    ensures { IfOk result (λ found. found.items ≡ filter (λ c. is_strictly_inside c a b) corners.now) }
{
    let mut found = Vec::new(alloc);
    for corner in corners {
        if is_strictly_inside(*corner, a, b) {
            found.push(*corner)?;
        }
    }
    Ok(found)
}
