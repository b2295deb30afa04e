//! Whether lists share the parcels of a sheet.

ghost use Rattle.std.specs.Prelude.{◌≡◌, IfOk, IsTrue, MatchOption, map, length};
ghost use Rattle.std.specs.List.Sorted.{IsPermutation};
ghost use Rattle.fabric_core.specs.Rows.{numbers};
ghost use Rattle.overlay_work.specs.Sharing.{joined, IsLeastOutOfPlace};
ghost use Rattle.overlay_work.specs.own.Differences.{IsFirstDifference};

use crate::queues::Queues;
use fabric_core::{Ids, Sheet};
use std::alloc::{AllocError, Allocator};

/// The least id that is out of place in lists of a sheet's parcels, where there is one; else they share the parcels.
pub(crate) fn least_out_of_place<'h, H: Allocator>(
    heap: &'h H,
    sheet: &Sheet<'h, H>,
    lists: &[Vec<u64, &'h H>],
) -> Result<Option<u64>, AllocError>
    ensures { IfOk result (λ found. MatchOption found
        (IsPermutation (joined (map (λ list. list.items) lists.now)) (numbers sheet.now.now.rows))
        (IsLeastOutOfPlace (numbers sheet.now.now.rows) (map (λ list. list.items) lists.now))) }
{
    if are_dealt_in_order(heap, lists, sheet.ids())? {
        return Ok(None);
    }
    let mut dealt = joined_lists(heap, lists)?;
    dealt.sort()?;
    Ok(first_difference(dealt.as_slice(), sheet.ids()))
}

/// Whether each id in turn is the next of some list, and no list has more, as where the ids of each list
/// rise. Where it is not so, the lists may share the ids in another order.
fn are_dealt_in_order<'h, H: Allocator, A: Allocator>(
    heap: &'h H,
    lists: &[Vec<u64, &'h H>],
    ids: Ids<'_, A>,
) -> Result<bool, AllocError>
    ensures { IfOk result (λ yes. IsTrue yes → IsPermutation (joined (map (λ list. list.items) lists.now)) ids.entry) }
{
    let mut queues = queues_of(heap, lists)?;
    let mut turn = 0;
    for id in ids {
        let at = list_with(&queues, turn, id);
        let Some(next) = queues.take(at) else {
            return Ok(false);
        };
        if next != id {
            return Ok(false);
        }
        // Where ids were dealt one by one, the next list has the next id.
        turn = at.saturating_add(1);
    }
    Ok(queues.are_empty())
}

/// Lists from which nothing was taken.
fn queues_of<'l, 'h, H: Allocator>(
    heap: &'h H,
    lists: &'l [Vec<u64, &'h H>],
) -> Result<Queues<'l, u64, &'h H>, AllocError>
    ensures { IfOk result (λ queues. queues ≡ map (λ list. list.items) lists.now) }
{
    let mut queues = Queues::with_capacity(heap, lists.len())?;
    for list in lists {
        queues.push(list.as_slice())?;
    }
    Ok(queues)
}

/// The number of a list whose next is the id, or else of none; that at `turn` is looked at first.
fn list_with<A: Allocator>(queues: &Queues<'_, u64, A>, turn: usize, id: u64) -> usize {
    if queues.first(turn) == Some(id) {
        return turn;
    }
    for at in 0..queues.len() {
        if queues.first(at) == Some(id) {
            return at;
        }
    }
    queues.len()
}

/// All lists, one behind the other.
fn joined_lists<'h, H: Allocator>(
    heap: &'h H,
    lists: &[Vec<u64, &'h H>],
) -> Result<Vec<u64, &'h H>, AllocError>
    ensures { IfOk result (λ all. all.items ≡ joined (map (λ list. list.items) lists.now)) }
{
    let mut all = Vec::new(heap);
    for list in lists {
        all.extend_from_slice(list.as_slice())?;
    }
    Ok(all)
}

/// The lesser of the first numbers in which a list and ids differ, where they do.
fn first_difference<A: Allocator>(dealt: &[u64], ids: Ids<'_, A>) -> Option<u64>
    ensures { MatchOption result (dealt.now ≡ ids.entry) (IsFirstDifference dealt.now ids.entry) }
{
    let mut left = dealt;
    for id in ids {
        let Some((first, rest)) = left.split_first() else {
            return Some(id);
        };
        if *first != id {
            return Some(id.min(*first));
        }
        left = rest;
    }
    left.first().copied()
}

/// How long the lists are.
pub(crate) fn lengths_of<'h, H: Allocator>(
    heap: &'h H,
    lists: &[Vec<u64, &'h H>],
) -> Result<Vec<u64, &'h H>, AllocError>
    ensures { IfOk result (λ lengths. lengths.items ≡ map (λ list. length list.items) lists.now) }
{
    let mut lengths = Vec::with_capacity(heap, lists.len())?;
    for list in lists {
        lengths.push(list.len() as u64)?;
    }
    Ok(lengths)
}
