//! The kind of a corner: flat, a left turn or a right turn.

ghost use Rattle.std.specs.Prelude.{◌≡◌, ◌≢◌, ◌⊎◌, ◌↔◌, ℕ, ◌<◌, ◌≤◌, IfOk, IsTrue};
ghost use Rattle.std.specs.Prelude.{List, length, slice_index_or};
ghost use Rattle.std.specs.List.Sorted.{IsNonDecreasing};
ghost use Rattle.geo_exact.specs.declared.corner.Corner.{Corner};
ghost use Rattle.geo_exact.specs.First.{HasNone, IsFirst};
ghost use Rattle.geo_exact.specs.Places.{before};
ghost use Rattle.ring_core.specs.Clipping.{IsEar};
ghost use Rattle.ring_core.specs.own.Blocks.{AreBlocksOrNone};
ghost use Rattle.ring_core.specs.own.Kinds.{AreKinds, AreKindsOnceOut, IsKind, WasBeside};
ghost use Rattle.ring_core.specs.own.Kinds.{AreMarked, AreSeen, IsReleased, KeepsMarks, NeedNoMark};
ghost use Rattle.ring_core.specs.own.Sorted.{AreSortedOrNone};

use crate::blocks::BlockList;
use crate::ear::{corner_after, corner_before, is_flat, is_left};
use crate::marks::{Reach, first_place, mark, reach_of};
use crate::places::preceding;
use crate::seen::Seen;
use crate::sorted::Sorted;
use crate::witness::witness_of;
use geo_exact::Corner;
use std::alloc::{AllocError, Allocator};

/// What the clipping knows of a corner of a ring: of a square each corner is a candidate at first, and of an L the
/// inner one is bent.
#[derive(Clone, Copy, Debug)]
pub enum Kind {
    /// It lies on the edge between its neighbours.
    Flat,
    /// It is neither flat nor a left turn.
    Bent,
    /// A left turn of which no more is known: it may be an ear.
    Candidate,
    /// A left turn that is no ear: another corner, its witness, which has this number, lies in the
    /// closed triangle of it and its neighbours.
    Blocked(u16),
}

/// The kind of corner `k`, by its neighbours alone.
pub fn kind_at(corners: &[Corner], k: usize) -> Kind
    requires { k < length corners.now }
    ensures is_kind { (numbers : List ℕ) → IsKind corners.now numbers k result }
    ensures unblocked { (n : ℕ) → result ≢ Kind.Blocked n }
{
    if is_left(
        corner_before(corners, k),
        corners[k],
        corner_after(corners, k),
    ) {
        return Kind::Candidate;
    }
    if is_flat(corners, k) {
        return Kind::Flat;
    }
    Kind::Bent
}

/// The kinds of all corners, in order.
///
/// # Errors
///
/// [`AllocError`] where an allocation fails.
pub fn kinds_of<A: Allocator>(alloc: A, corners: &[Corner]) -> Result<Vec<Kind, A>, AllocError>
    ensures are { IfOk result (λ kinds. (numbers : List ℕ) → AreKinds corners.now numbers kinds.items) }
    ensures unblocked { IfOk result (λ kinds. NeedNoMark kinds.items) }
{
    let mut kinds = Vec::with_capacity(alloc, corners.len())?;
    for k in 0..corners.len() {
        kinds.push(kind_at(corners, k))?;
    }
    Ok(kinds)
}

/// Whether the kind is a flat corner's.
fn is_flat_kind(kind: Kind) -> bool
    ensures { IsTrue result ↔ kind ≡ Kind.Flat }
{
    matches!(kind, Kind::Flat)
}

/// Whether the kind is that of a left turn of which no more is known.
fn is_candidate(kind: Kind) -> bool
    ensures { IsTrue result ↔ kind ≡ Kind.Candidate }
{
    matches!(kind, Kind::Candidate)
}

/// Whether the kind is that of a left turn whose witness has the number.
fn is_blocked_by(kind: Kind, number: u16) -> bool
    ensures { IsTrue result ↔ kind ≡ Kind.Blocked number }
{
    match kind {
        Kind::Blocked(witness) => witness == number,
        _ => false,
    }
}

/// The first flat corner from number `start` on, by the corners' kinds; their number where there is none.
pub fn first_flat(kinds: &[Kind], start: usize) -> usize
    ensures within { result ≤ length kinds.now }
    ensures flat { result < length kinds.now → slice_index_or kinds.now result Kind.Flat ≡ Kind.Flat }
    ensures none { (j : ℕ) → start ≤ j → j < result → slice_index_or kinds.now j Kind.Flat ≢ Kind.Flat }
{
    for k in start..kinds.len() {
        if is_flat_kind(kinds[k]) {
            return k;
        }
    }
    kinds.len()
}

/// The first ear, where no candidate is before number `start`: the first candidate that has no witness.
/// Those before it are blocked by theirs, whose marks tell of them. The answer is the number of
/// corners where there is none.
pub fn first_ear<A: Allocator>(
    corners: &[Corner],
    numbers: &[u16],
    kinds: &mut [Kind],
    marks: &mut [Reach],
    start: usize,
    blocks: &BlockList<A>,
    sorted: &Sorted<A>,
) -> usize
    requires as_many { length numbers.now ≡ length corners.now }
    requires ascend { IsNonDecreasing numbers.now }
    requires kinds { AreKinds corners.now numbers.now kinds.old }
    requires marked { AreMarked kinds.old numbers.now marks.old }
    requires seen { (j : ℕ) → j < start → j < length kinds.old → slice_index_or kinds.old j Kind.Flat ≢ Kind.Candidate }
    requires blocks { AreBlocksOrNone corners.now blocks.now.spans.items blocks.now.boxes.items }
    requires sorted { AreSortedOrNone corners.now numbers.now sorted.now.by_x.items sorted.now.by_y.items }
    ensures kinds { AreKinds corners.now numbers.now kinds.new }
    ensures marked { AreMarked kinds.new numbers.now marks.new }
    ensures others { (j : ℕ) → slice_index_or kinds.new j Kind.Flat ≡ Kind.Flat
        → slice_index_or kinds.old j Kind.Flat ≡ Kind.Flat }
    ensures seen { (j : ℕ) → j < result → j < length kinds.new → slice_index_or kinds.new j Kind.Flat ≢ Kind.Candidate }
    ensures within { result ≤ length corners.now }
    ensures ear { result < length corners.now → IsFirst (IsEar corners.now) (length corners.now) result }
    ensures none { result ≡ length corners.now → HasNone (IsEar corners.now) (length corners.now) }
{
    for k in start..kinds.len() {
        if is_candidate(kinds[k]) {
            let Some(j) = witness_of(corners, numbers, k, blocks, sorted) else {
                return k;
            };
            let witness = numbers[j];
            kinds[k] = Kind::Blocked(witness);
            mark(marks, witness, numbers[k]);
        }
    }
    kinds.len()
}

/// Makes those candidates again whose witness had the number `gone`, that of a corner that was taken out.
/// They are looked for where its mark tells. Returns how far the kinds are then looked through.
fn release(numbers: &[u16], kinds: &mut [Kind], gone: u16, marks: &[Reach], seen: Seen) -> Seen
    requires as_many { length numbers.now ≡ length kinds.old }
    requires ascend { IsNonDecreasing numbers.now }
    requires marked { AreMarked kinds.old numbers.now marks.now }
    requires seen { AreSeen kinds.old seen }
    ensures released { (j : ℕ) → j < length kinds.old
        → IsReleased gone (slice_index_or kinds.old j Kind.Flat) (slice_index_or kinds.new j Kind.Flat) }
    ensures marked { AreMarked kinds.new numbers.now marks.now }
    ensures seen { AreSeen kinds.new result }
{
    let reach = reach_of(marks, gone);
    let mut after = seen;
    for j in first_place(numbers, reach)..kinds.len() {
        if numbers[j] > reach.last {
            return after;
        }
        if is_blocked_by(kinds[j], gone) {
            kinds[j] = Kind::Candidate;
            after = after.with(j, Kind::Candidate);
        }
    }
    after
}

/// Of `count` corners, the one that followed the corner that was taken out at `k`.
fn after_gap(count: usize, k: usize) -> usize
    requires within { k ≤ count }
    requires some { 0 < count }
    ensures below { result < count }
    ensures beside { (j : ℕ) → j < count → WasBeside count k j → (j ≡ result) ⊎ (j ≡ before count result) }
{
    if k == count { 0 } else { k }
}

/// Looks anew at corner `k`. Returns how far the kinds are then looked through.
fn look_at(corners: &[Corner], kinds: &mut [Kind], k: usize, seen: Seen) -> Seen
    requires in_rest { k < length corners.now }
    requires same_length { length kinds.old ≡ length corners.now }
    requires seen { AreSeen kinds.old seen }
    ensures here { (numbers : List ℕ) → IsKind corners.now numbers k (slice_index_or kinds.new k Kind.Flat) }
    ensures others { (j : ℕ) → j ≢ k → slice_index_or kinds.new j Kind.Flat ≡ slice_index_or kinds.old j Kind.Flat }
    ensures marked { KeepsMarks kinds.old kinds.new }
    ensures seen { AreSeen kinds.new result }
{
    let kind = kind_at(corners, k);
    kinds[k] = kind;
    seen.with(k, kind)
}

/// Brings the kinds up to date after the corner with the number `gone` was taken out at `k`: those that it
/// was a witness of are candidates again, and its two neighbours are looked at anew. Returns how far the
/// kinds are then looked through.
pub fn update_kinds(
    corners: &[Corner],
    numbers: &[u16],
    kinds: &mut [Kind],
    k: usize,
    gone: u16,
    marks: &[Reach],
    seen: Seen,
) -> Seen
    requires as_many { length numbers.now ≡ length corners.now }
    requires same_length { length kinds.old ≡ length corners.now }
    requires within { k ≤ length corners.now }
    requires some { 0 < length corners.now }
    requires ascend { IsNonDecreasing numbers.now }
    requires marked { AreMarked kinds.old numbers.now marks.now }
    requires seen { AreSeen kinds.old seen }
    ensures are { AreKindsOnceOut k gone corners.now numbers.now kinds.old kinds.new }
    ensures marked { AreMarked kinds.new numbers.now marks.now }
    ensures seen { AreSeen kinds.new result }
{
    let released = release(numbers, kinds, gone, marks, seen);
    let after = after_gap(corners.len(), k);
    let before = preceding(corners.len(), after);
    let last = look_at(corners, kinds, after, released);
    look_at(corners, kinds, before, last)
}
