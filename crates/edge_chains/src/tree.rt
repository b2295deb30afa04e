//! A tree of boxes that lean with what they hold, for edges that boxes along the axes tell nothing of.
ghost use Rattle.std.specs.Prelude.{◌≡◌, ◌↔◌, ℕ, ◌*◌, ◌<◌, ◌≤◌, length, slice_index, slice_index_or, IfOk};
ghost use Rattle.std.specs.List.{filter, Contains};
ghost use Rattle.std.specs.List.Sorted.{IsPermutation};
ghost use Rattle.geo_exact.specs.declared.corner.Corner.{Corner as CornerValue};
ghost use Rattle.leaning_boxes.specs.Leaning.{IsHeld};
ghost use Rattle.edge_chains.specs.own.Inside.{is_strictly_inside};
ghost use Rattle.edge_chains.specs.own.Blocks.{AreEnds};
ghost use Rattle.edge_chains.specs.own.Tree.{AreLeaning};

use crate::blocks::{GROUP, block_ends};
use crate::edge_tests::is_strictly_inside;
use geo_exact::{Corner, turn};
use leaning_boxes::{LeaningBox, reach};
use std::alloc::{AllocError, Allocator};
use std::marker::Model;

/// How many corners a block has at most whose box is not looked at: each corner is tried.
const LEAF: usize = 16;

/// Corners for many searches, as a list in some order: at each group of four a block of corners begins, with a box
/// that leans with them. A block is its first group and two halves of the rest, parted in turn along its longest
/// way and across it.
#[derive(Drop)]
pub(crate) struct Tree<A: Allocator> {
    corners: Vec<Corner, A>,
    ends: Vec<usize, A>,
    boxes: Vec<LeaningBox, A>,
}

impl<A: Allocator> Model for Tree<A> {
    ghost use Rattle.std.specs.Prelude.{List};
    ghost use Rattle.geo_exact.specs.declared.corner.Corner.{Corner};
    ghost use Rattle.edge_chains.specs.own.Tree.{AreLeaning};

    ghost Value = { List Corner };

    ghost view = { λ tree. tree.corners.items };

    ghost invariant = { λ tree. AreLeaning tree.corners.items tree.ends.items tree.boxes.items };
}

impl<A: Allocator + Copy> Tree<A> {
    /// The tree of these corners.
    pub fn new(alloc: A, corners: &[Corner]) -> Result<Tree<A>, AllocError>
        ensures { IfOk result (λ tree. (c : CornerValue) → Contains tree c ↔ Contains corners.now c) }
    {
        let mut list = Vec::from_slice(alloc, corners)?;
        part(list.as_mut_slice(), Split::Along);
        let ends = block_ends(alloc, list.len())?;
        let boxes = leaning_boxes(alloc, &list, &ends)?;
        Ok(Tree {
            corners: list,
            ends,
            boxes,
        })
    }

    /// Those of the corners that lie strictly inside the edge from a to b, in the order of the list.
    pub fn inside(&self, alloc: A, a: Corner, b: Corner) -> Result<Vec<Corner, A>, AllocError>
        ensures { IfOk result (λ found. found.items ≡ filter (λ c. is_strictly_inside c a b) self.now) }
    {
        gather(alloc, &self.corners, &self.ends, &self.boxes, a, b)
    }
}

/// Which way corners are parted.
#[derive(Clone, Copy)]
enum Split {
    /// Those near one end of their longest way from those near the other.
    Along,
    /// Those left of it from those right of it.
    Across,
}

impl Split {
    /// The other one.
    fn turned(self) -> Split {
        match self {
            Split::Along => Split::Across,
            Split::Across => Split::Along,
        }
    }

    /// How far a corner is along the way between two others, or left of it.
    fn key(self, from: Corner, to: Corner, corner: Corner) -> i128 {
        match self {
            Split::Across => turn(from, to, corner),
            Split::Along if from.x.abs_diff(to.x) < from.y.abs_diff(to.y) => i128::from(corner.y),
            Split::Along => i128::from(corner.x),
        }
    }
}

/// Two of the corners that are far from each other: the first and the last in x, or in y.
fn far_ends(corners: &[Corner]) -> (Corner, Corner)
    requires { 0 < length corners.now }
{
    let mut west = corners[0];
    let mut east = corners[0];
    let mut south = corners[0];
    let mut north = corners[0];
    for corner in corners {
        if corner.x < west.x {
            west = *corner;
        }
        if corner.x > east.x {
            east = *corner;
        }
        if corner.y < south.y {
            south = *corner;
        }
        if corner.y > north.y {
            north = *corner;
        }
    }
    if reach(west, east) < reach(south, north) {
        (south, north)
    } else {
        (west, east)
    }
}

/// Puts corners into an order in which each block has its first group, and then two halves of the rest that lie
/// apart: along the block's longest way or across it, in turn.
fn part(corners: &mut [Corner], split: Split)
    ensures { IsPermutation corners.old corners.new }
{
    if corners.len() <= LEAF {
        return;
    }
    let groups = corners.len() / GROUP;
    let (from, to) = far_ends(corners);
    let (_, rest) = corners.split_at_mut(GROUP);
    rest.sort_unstable_by_key(|it| split.key(from, to, *it));
    let (low, high) = rest.split_at_mut(groups / 2 * GROUP);
    part(low, split.turned());
    part(high, split.turned());
}

/// The boxes of all blocks.
fn leaning_boxes<A: Allocator>(
    alloc: A,
    corners: &[Corner],
    ends: &[usize],
) -> Result<Vec<LeaningBox, A>, AllocError>
    requires { AreEnds (length corners.now) ends.now }
    ensures { IfOk result (λ boxes. AreLeaning corners.now ends.now boxes.items) }
{
    let mut boxes = Vec::with_capacity(alloc, ends.len())?;
    for group in 0..ends.len() {
        boxes.push(box_at(corners, ends, group))?;
    }
    Ok(boxes)
}

/// The leaning box of the block at a group; any where no corner stands there.
fn box_at(corners: &[Corner], ends: &[usize], group: usize) -> LeaningBox
    requires ends { AreEnds (length corners.now) ends.now }
    requires in_list { group < length ends.now }
    ensures { group * GROUP < length corners.now → (k : ℕ) (c : CornerValue) → group * GROUP ≤ k
        → k < slice_index ends.now group
        → IsHeld result (slice_index_or corners.now k c) }
{
    let start = group * GROUP;
    let end = ends[group].min(corners.len());
    if start < end {
        box_of(corners, start, end)
    } else {
        LeaningBox::default()
    }
}

/// The leaning box of the corners from number `start` on and before `end`, along two that are far from each other.
fn box_of(corners: &[Corner], start: usize, end: usize) -> LeaningBox
    requires some { start < end }
    requires in_list { end ≤ length corners.now }
    ensures { (k : ℕ) (c : CornerValue) → start ≤ k → k < end → IsHeld result (slice_index_or corners.now k c) }
{
    let (from, to) = far_ends(&corners[start..end]);
    let mut held = LeaningBox::of_corner(from, to, corners[start]);
    for k in start..end {
        held = held.around(corners[k]);
    }
    held
}

/// Those of the corners that lie strictly inside an edge, in the order of the list: a block whose box lies off the
/// edge is passed over.
fn gather<A: Allocator>(
    alloc: A,
    corners: &[Corner],
    ends: &[usize],
    boxes: &[LeaningBox],
    a: Corner,
    b: Corner,
) -> Result<Vec<Corner, A>, AllocError>
    requires { AreLeaning corners.now ends.now boxes.now }
    ensures { IfOk result (λ found. found.items ≡ filter (λ c. is_strictly_inside c a b) corners.now) }
{
    let mut found = Vec::new(alloc);
    let mut at = 0;
    while at < corners.len() {
        let group = at / GROUP;
        if at % GROUP == 0 && are_many(at, ends[group]) && boxes[group].is_off(a, b) {
            at = ends[group];
        } else {
            let corner = corners[at];
            if is_strictly_inside(corner, a, b) {
                found.push(corner)?;
            }
            at += 1;
        }
    }
    Ok(found)
}

/// Whether so many corners stand from one place on and before another that their box is worth a look.
fn are_many(start: usize, end: usize) -> bool {
    end.saturating_sub(start) > LEAF
}
