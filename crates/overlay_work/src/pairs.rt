//! The pairs that hands kept, put together.

ghost use Rattle.std.specs.Prelude.{IfOk, IsPermutation};
ghost use Rattle.overlay_work.specs.own.Gathered.{ArePairsOfHands, AreSortedPairsOf};
ghost use Rattle.overlay_work.specs.Sharing.{joined};

use crate::hand::Hand;
use crate::queues::Queues;
use std::alloc::{AllocError, Allocator};

/// The pairs that hands kept, in order. They are put together by rising parcels, as far as those of each hand rise;
/// so little or nothing is left to the sort.
pub(crate) fn sorted_pairs<'t, 'h, H: Allocator>(
    heap: &'h H,
    hands: &[Hand<'t, 'h, H>],
) -> Result<Vec<(u64, u64), &'h H>, AllocError>
    ensures { IfOk result (λ pairs. AreSortedPairsOf hands.now pairs.items) }
{
    let kept = kept_by(heap, hands)?;
    let mut pairs = merged(heap, kept, count_of(hands))?;
    pairs.sort()?;
    Ok(pairs)
}

/// The pairs that each hand kept.
fn kept_by<'l, 't, 'h, H: Allocator>(
    heap: &'h H,
    hands: &'l [Hand<'t, 'h, H>],
) -> Result<Queues<'l, (u64, u64), &'h H>, AllocError>
    ensures { IfOk result (λ kept. ArePairsOfHands hands.now (joined kept)) }
{
    let mut kept = Queues::with_capacity(heap, hands.len())?;
    for hand in hands {
        kept.push(hand.kept())?;
    }
    Ok(kept)
}

/// How many pairs hands kept.
fn count_of<'t, 'h, H: Allocator>(hands: &[Hand<'t, 'h, H>]) -> usize {
    // It says for how many pairs room is made, and no more: `merged` takes any number of them.
    let mut count = 0usize;
    for hand in hands {
        count = count.saturating_add(hand.kept().len());
    }
    count
}

/// All pairs of some lists, which may be so many: in turn those of the least parcel.
fn merged<'l, 'h, H: Allocator>(
    heap: &'h H,
    lists: Queues<'l, (u64, u64), &'h H>,
    count: usize,
) -> Result<Vec<(u64, u64), &'h H>, AllocError>
    ensures { IfOk result (λ pairs. IsPermutation (joined lists.entry) pairs.items) }
{
    let mut queues = lists;
    let mut pairs = Vec::with_capacity(heap, count)?;
    let mut at = 0;
    // No parcel's id, so that the first list is looked for.
    let mut parcel = 0;
    for _ in 0..count {
        at = next_list(&queues, at, parcel);
        if let Some(pair) = queues.take(at) {
            parcel = pair.0;
            pairs.push(pair)?;
        }
    }
    queues.put_behind(&mut pairs)?;
    Ok(pairs)
}

/// The list whose pair is the next: the same, while it has pairs of the parcel; the one behind it, where it has the
/// next parcel's, as where parcels were dealt one by one; and else one with the least parcel.
fn next_list<A: Allocator>(queues: &Queues<'_, (u64, u64), A>, at: usize, parcel: u64) -> usize {
    if has_parcel(queues, at, parcel) {
        return at;
    }
    let behind = at.saturating_add(1);
    let next = if behind < queues.len() { behind } else { 0 };
    if has_parcel(queues, next, parcel.saturating_add(1)) {
        return next;
    }
    least_list(queues)
}

/// Whether the next pair of a list is the parcel's.
fn has_parcel<A: Allocator>(queues: &Queues<'_, (u64, u64), A>, at: usize, parcel: u64) -> bool {
    match queues.first(at) {
        Some((id, _)) => id == parcel,
        None => false,
    }
}

/// A list whose next pair has the least parcel.
fn least_list<A: Allocator>(queues: &Queues<'_, (u64, u64), A>) -> usize {
    let mut least = 0;
    // Above the id of each parcel, so that any pair is less.
    let mut parcel = u64::MAX;
    for at in 0..queues.len() {
        if let Some((id, _)) = queues.first(at)
            && id < parcel
        {
            least = at;
            parcel = id;
        }
    }
    least
}
