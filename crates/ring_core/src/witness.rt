//! Corners that keep a left turn from being an ear.

ghost use Rattle.std.specs.Prelude.{◌≡◌, ◌↔◌, ℕ, ◌<◌, ◌≤◌, IfNone, IfSome, IsTrue, MatchOption, length, slice_index_or};
ghost use Rattle.std.specs.List.Sorted.{IsNonDecreasing};
ghost use Rattle.geo_exact.specs.First.{HasNone};
ghost use Rattle.ring_core.specs.Boxes.{HoldsTriangle};
ghost use Rattle.ring_core.specs.Clipping.{Blocks, IsInTriangle, IsTriangleAt};
ghost use Rattle.ring_core.specs.declared.sorted.Axis.{Axis as AxisValue};
ghost use Rattle.ring_core.specs.own.Blocks.{AreBlocks, AreBlocksOrNone, IsInSpan};
ghost use Rattle.ring_core.specs.own.Kinds.{TurnsLeft};
ghost use Rattle.ring_core.specs.own.Sorted.{AreSortedOrNone, IsListedAt};

use crate::blocks::{BlockList, Span};
use crate::boxes::bounds_of;
use crate::ear::{is_in_triangle, triangle_at};
use crate::leaning::misses_triangle;
use crate::places::{following, preceding};
use crate::sorted::{Axis, Listed, Sorted, few_between};
use crate::triangle::Tri;
use geo_exact::{Bounds, Corner};
use leaning_boxes::LeaningBox;
use std::alloc::Allocator;

/// Whether `q` lies in the closed triangle, which the box holds: the box is looked at first.
fn is_in_boxed(bounds: Bounds, triangle: Tri, q: Corner) -> bool
    requires { HoldsTriangle bounds triangle }
    ensures { IsTrue result ↔ IsInTriangle q triangle.a triangle.b triangle.c }
{
    if !bounds.holds(q) {
        return false;
    }
    is_in_triangle(q, triangle.a, triangle.b, triangle.c)
}

/// A corner, from number `start` on and before `end`, that keeps corner `k` from being an ear.
fn witness_between(
    corners: &[Corner],
    k: usize,
    start: usize,
    end: usize,
    triangle: Tri,
    bounds: Bounds,
) -> Option<usize>
    requires in_rest { k < length corners.now }
    requires in_ring { end ≤ length corners.now }
    requires is_triangle { IsTriangleAt corners.now k triangle }
    requires held { HoldsTriangle bounds triangle }
    ensures { MatchOption result
        ((j : ℕ) → start ≤ j → j < end → ¬ Blocks corners.now k j)
        (λ j. (j < length corners.now) × Blocks corners.now k j) }
{
    let before = preceding(corners.len(), k);
    let after = following(corners.len(), k);
    for j in start..end {
        let corner = corners[j];
        if is_in_boxed(bounds, triangle, corner) && j != before && j != k && j != after {
            return Some(j);
        }
    }
    None
}

/// The places of the corners with the number.
fn places_of(numbers: &[u16], number: u16) -> Span
    requires ascend { IsNonDecreasing numbers.now }
    ensures within { result.end ≤ length numbers.now }
    ensures has { (j : ℕ) → j < length numbers.now → slice_index_or numbers.now j 0 ≡ number → IsInSpan j result }
{
    Span {
        start: numbers.partition_point(|it| *it < number),
        end: numbers.partition_point(|it| *it <= number),
    }
}

/// A corner that keeps corner `k` from being an ear, of those that stand in a list in the span.
#[inline(never)]
fn witness_listed(
    corners: &[Corner],
    numbers: &[u16],
    k: usize,
    list: &[Listed],
    span: Span,
    triangle: Tri,
    bounds: Bounds,
) -> Option<usize>
    requires as_many { length numbers.now ≡ length corners.now }
    requires ascend { IsNonDecreasing numbers.now }
    requires in_rest { k < length corners.now }
    requires in_list { span.end ≤ length list.now }
    requires is_triangle { IsTriangleAt corners.now k triangle }
    requires held { HoldsTriangle bounds triangle }
    ensures some { IfSome result (λ j. (j < length corners.now) × Blocks corners.now k j) }
    ensures none { IfNone result ((i j : ℕ) (axis : AxisValue) → IsInSpan i span → j < length corners.now
        → IsListedAt axis corners.now numbers.now j list.now i → ¬ Blocks corners.now k j) }
{
    for i in span.start..span.end {
        let it = list[i];
        if is_in_boxed(bounds, triangle, it.corner) {
            let places = places_of(numbers, it.number);
            if let Some(j) = witness_between(
                corners,
                k,
                places.start,
                places.end,
                triangle,
                bounds,
            ) {
                return Some(j);
            }
        }
    }
    None
}

/// The most blocks whose boxes are not looked at closely: to do so takes longer than it spares.
const FEW_BLOCKS: usize = 65;

/// A corner that keeps corner `k` from being an ear. Blocks whose boxes the triangle misses are passed over.
#[inline(never)]
fn witness_in_blocks(
    corners: &[Corner],
    k: usize,
    spans: &[Span],
    boxes: &[LeaningBox],
    triangle: Tri,
    bounds: Bounds,
) -> Option<usize>
    requires in_rest { k < length corners.now }
    requires blocks { AreBlocks corners.now spans.now boxes.now }
    requires is_triangle { IsTriangleAt corners.now k triangle }
    requires held { HoldsTriangle bounds triangle }
    ensures { MatchOption result
        (HasNone (Blocks corners.now k) (length corners.now))
        (λ j. (j < length corners.now) × Blocks corners.now k j) }
{
    let closely = spans.len() > FEW_BLOCKS;
    for b in 0..spans.len() {
        let start = spans[b].start;
        let end = spans[b].end.min(corners.len());
        if start >= end || misses_triangle(boxes[b], triangle, bounds, closely) {
            continue;
        }
        if let Some(j) = witness_between(corners, k, start, end, triangle, bounds) {
            return Some(j);
        }
    }
    None
}

/// A corner that keeps corner `k`, a left turn, from being an ear. Where few corners lie as far along an
/// axis as its triangle, these are gone through, and else the blocks.
pub fn witness_of<A: Allocator>(
    corners: &[Corner],
    numbers: &[u16],
    k: usize,
    blocks: &BlockList<A>,
    sorted: &Sorted<A>,
) -> Option<usize>
    requires as_many { length numbers.now ≡ length corners.now }
    requires ascend { IsNonDecreasing numbers.now }
    requires in_rest { k < length corners.now }
    requires turns_left { TurnsLeft corners.now k }
    requires blocks { AreBlocksOrNone corners.now blocks.now.spans.items blocks.now.boxes.items }
    requires sorted { AreSortedOrNone corners.now numbers.now sorted.now.by_x.items sorted.now.by_y.items }
    ensures { MatchOption result
        (HasNone (Blocks corners.now k) (length corners.now))
        (λ j. (j < length corners.now) × Blocks corners.now k j) }
{
    let triangle = triangle_at(corners, k);
    let bounds = bounds_of(&triangle);
    let spans = blocks.spans.as_slice();
    if spans.is_empty() {
        return witness_between(corners, k, 0, corners.len(), triangle, bounds);
    }
    let by_x = sorted.by_x.as_slice();
    if let Some(span) = few_between(by_x, Axis::X, bounds, spans.len()) {
        return witness_listed(corners, numbers, k, by_x, span, triangle, bounds);
    }
    let by_y = sorted.by_y.as_slice();
    if let Some(span) = few_between(by_y, Axis::Y, bounds, spans.len()) {
        return witness_listed(corners, numbers, k, by_y, span, triangle, bounds);
    }
    witness_in_blocks(corners, k, spans, blocks.boxes.as_slice(), triangle, bounds)
}
