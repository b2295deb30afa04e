//! What clipping has left of a ring.

ghost use Rattle.std.specs.Prelude.{◌≡◌, ◌<◌, length, IfOk, MatchOption};
ghost use Rattle.std.specs.List.{remove};
ghost use Rattle.ring_core.specs.Clipping.{IsEar, IsFlat};
ghost use Rattle.geo_exact.specs.First.{HasNone, IsFirst};

use crate::blocks::{BLOCK_CORNERS, BlockList, blocks_of, close_gap};
use crate::kind::{Kind, first_ear, first_flat, kinds_of, update_kinds};
use crate::left::{free_without, take_out};
use crate::marks::{Reach, marks_of, numbers_of};
use crate::seen::Seen;
use crate::sorted::{Sorted, sorted_of};
use geo_exact::Corner;
use std::alloc::{AllocError, Allocator};
use std::marker::Model;

/// What the clipping has left of a ring: a list of corners, which contracts see as that list.
///
/// Beside each corner stand its kind, and a number that it keeps; the numbers ascend. A left turn is a
/// candidate until another corner is found in its triangle, its witness, whose mark then tells where the
/// left turn is; it is a candidate again when its witness is taken out. A corner that is taken out leaves
/// its two neighbours to be looked at again, and no other but those whose witness it was. Of a large ring,
/// corners that follow one another are blocks, each with a box that held its corners when it was made and
/// holds those that are left; and the corners as they were are in order along each axis.
#[derive(Debug, Drop)]
pub struct Rest<A: Allocator> {
    // Of the next three lists so many places at the beginning are free.
    start: usize,
    corners: Vec<Corner, A>,
    numbers: Vec<u16, A>,
    kinds: Vec<Kind, A>,
    marks: Vec<Reach, A>,
    seen: Seen,
    blocks: BlockList<A>,
    sorted: Sorted<A>,
}

impl<A: Allocator> Model for Rest<A> {
    ghost use Rattle.geo_exact.specs.declared.corner.Corner.{Corner};
    ghost use Rattle.std.specs.Prelude.{List, drop};
    ghost use Rattle.ring_core.specs.own.Blocks.{AreBlocksOrNone};
    ghost use Rattle.ring_core.specs.own.Kinds.{AreKept, HaveFree};
    ghost use Rattle.ring_core.specs.own.Sorted.{AreSortedOrNone};

    ghost Value = { List Corner };

    ghost view = { λ rest. drop rest.start rest.corners.items };

    ghost invariant = { λ rest. HaveFree rest.start rest.corners.items rest.numbers.items rest.kinds.items
        × AreKept (drop rest.start rest.corners.items) (drop rest.start rest.numbers.items)
        (drop rest.start rest.kinds.items)
        rest.marks.items rest.seen
        × AreBlocksOrNone (drop rest.start rest.corners.items) rest.blocks.spans.items rest.blocks.boxes.items
        × AreSortedOrNone (drop rest.start rest.corners.items) (drop rest.start rest.numbers.items)
        rest.sorted.by_x.items rest.sorted.by_y.items };
}

impl<A: Allocator + Copy> Rest<A> {
    /// All the corners, with their kinds.
    ///
    /// # Errors
    ///
    /// [`AllocError`] where an allocation fails.
    pub(crate) fn from_corners(alloc: A, corners: &[Corner]) -> Result<Rest<A>, AllocError>
        ensures { IfOk result (λ rest. rest ≡ corners.now) }
    {
        let numbers = numbers_of(alloc, corners.len())?;
        let kinds = kinds_of(alloc, corners)?;
        let blocks = blocks_of(alloc, corners)?;
        let sorted = sorted_of(alloc, corners, numbers.as_slice())?;
        let marks = marks_of(alloc, blocks.spans.len() * BLOCK_CORNERS)?;
        let mut list = Vec::new(alloc);
        list.extend_from_slice(corners)?;
        Ok(Rest {
            start: 0,
            corners: list,
            numbers,
            kinds,
            marks,
            seen: Seen {
                flats: 0,
                candidates: 0,
            },
            blocks,
            sorted,
        })
    }
}

impl<A: Allocator> Rest<A> {
    /// The corners in order.
    pub fn as_slice(&self) -> &[Corner]
        ensures { result.now ≡ self.now }
    {
        &self.corners[self.start..]
    }

    /// Takes corner `k` out.
    pub(crate) fn remove(&mut self, k: usize)
        requires below { k < length self.old }
        requires more_than_two { 2 < length self.old }
        ensures { self.new ≡ remove self.old k }
    {
        let start = self.start;
        let free = free_without(self.corners.len(), start, k);
        take_out(&mut self.corners, start, k, free);
        let gone = take_out(&mut self.numbers, start, k, free);
        take_out(&mut self.kinds, start, k, free);
        self.start = free;
        close_gap(self.blocks.spans.as_mut_slice(), k);
        self.seen = update_kinds(
            &self.corners[free..],
            &self.numbers[free..],
            &mut self.kinds[free..],
            k,
            gone,
            self.marks.as_slice(),
            self.seen.without(k),
        );
    }

    /// The first flat corner. The corners stay; how far none is flat is kept.
    pub(crate) fn first_flat(&mut self) -> Option<usize>
        ensures same { self.new ≡ self.old }
        ensures flat { MatchOption result
            (HasNone (IsFlat self.new) (length self.new))
            (λ k. IsFirst (IsFlat self.new) (length self.new) k) }
    {
        let kinds = &self.kinds[self.start..];
        let count = kinds.len();
        let k = first_flat(kinds, self.seen.flats);
        self.seen.flats = k;
        if k < count { Some(k) } else { None }
    }

    /// The first ear. The corners stay; what is found out about those before it is kept.
    pub(crate) fn first_ear(&mut self) -> Option<usize>
        ensures same { self.new ≡ self.old }
        ensures ear { MatchOption result
            (HasNone (IsEar self.new) (length self.new))
            (λ k. IsFirst (IsEar self.new) (length self.new) k) }
    {
        let start = self.start;
        let count = self.corners.len() - start;
        let k = first_ear(
            &self.corners[start..],
            &self.numbers[start..],
            &mut self.kinds[start..],
            self.marks.as_mut_slice(),
            self.seen.candidates,
            &self.blocks,
            &self.sorted,
        );
        self.seen.candidates = k;
        if k < count { Some(k) } else { None }
    }
}
