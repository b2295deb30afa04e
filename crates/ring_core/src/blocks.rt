//! A ring's corners in blocks, each with a box, for the search of witnesses.

ghost use Rattle.std.specs.Prelude.{◌≡◌, ◌<◌, List, length, IfOk};
ghost use Rattle.std.specs.List.{remove};
ghost use Rattle.geo_exact.specs.declared.corner.Corner.{Corner as CornerValue};
ghost use Rattle.leaning_boxes.specs.declared.leaning.LeaningBox.{LeaningBox as BoxValue};
ghost use Rattle.ring_core.specs.own.Blocks.{AreBlocksOrNone, number_less};

use crate::leaning::box_of_edges;
use crate::places::renumbered;
use geo_exact::Corner;
use leaning_boxes::LeaningBox;
use std::alloc::{AllocError, Allocator};

/// The most corners of a ring that is clipped without blocks: to make them for fewer takes longer than it spares.
const FEW_CORNERS: usize = 64;

/// How many corners a block has, as it is made: so few in a row lie near each other, and their box is narrow.
pub const BLOCK_CORNERS: usize = 16;

/// Numbers that follow one another: from `start` on and before `end`, as 3, 4 and 5 from 3 on and before 6.
#[derive(Clone, Copy, Debug)]
pub struct Span {
    /// The first number.
    pub start: usize,
    /// The number behind the last.
    pub end: usize,
}

impl Span {
    /// The same numbers, once number `k` went and those behind it moved up.
    fn without(self, k: usize) -> Span
        ensures start { result.start ≡ number_less k self.start }
        ensures end { result.end ≡ number_less k self.end }
    {
        Span {
            start: renumbered(k, self.start),
            end: renumbered(k, self.end),
        }
    }
}

/// Brings the spans up to date after number `k` went.
pub fn close_gap(spans: &mut [Span], k: usize)
    ensures { (whole rest : List CornerValue) (boxes : List BoxValue) → k < length whole → rest ≡ remove whole k
        → AreBlocksOrNone whole spans.old boxes → AreBlocksOrNone rest spans.new boxes }
{
    for b in 0..spans.len() {
        spans[b] = spans[b].without(k);
    }
}

/// The blocks of a ring's corners.
#[derive(Debug, Drop)]
pub struct BlockList<A: Allocator> {
    /// The numbers of the corners of each.
    pub spans: Vec<Span, A>,
    /// A box of each.
    pub boxes: Vec<LeaningBox, A>,
}

/// The blocks of corners; of a small ring there is none.
///
/// # Errors
///
/// [`AllocError`] where an allocation fails.
pub fn blocks_of<A: Allocator + Copy>(
    alloc: A,
    corners: &[Corner],
) -> Result<BlockList<A>, AllocError>
    ensures { IfOk result (λ blocks. AreBlocksOrNone corners.now blocks.spans.items blocks.boxes.items) }
{
    let mut spans = Vec::new(alloc);
    let mut boxes = Vec::new(alloc);
    if corners.len() > FEW_CORNERS {
        for b in 0..corners.len() / BLOCK_CORNERS + 1 {
            let start = BLOCK_CORNERS * b;
            if start < corners.len() {
                let end = corners.len().min(start + BLOCK_CORNERS);
                spans.push(Span { start, end })?;
                boxes.push(box_of_edges(corners, start, end))?;
            }
        }
    }
    Ok(BlockList { spans, boxes })
}
