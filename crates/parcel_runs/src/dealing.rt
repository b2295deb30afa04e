//! How parcels are dealt to those who overlay them.

ghost use Rattle.std.specs.Prelude.{◌≡◌, ◌<◌, [], length, IfOk, IsPermutation};
ghost use Rattle.overlay_work.specs.Sharing.{joined};
ghost use Rattle.parcel_runs.specs.own.Dealing.{dealt, AreDealtInTurn};

use fabric_core::Ids;
use std::alloc::{AllocError, Allocator};

/// Deals ids to so many workers one by one, in their order: worker k gets those at places k, k +
/// workers and so on. Each id is dealt once.
pub fn deal<'h, H: Allocator>(
    heap: &'h H,
    ids: Ids<'_, &'h H>,
    workers: usize,
) -> Result<Vec<Vec<u64, &'h H>, &'h H>, AllocError>
    requires { 0 < workers }
    ensures count { IfOk result (λ lists. length lists.items ≡ workers) }
    ensures each_once { IfOk result (λ lists. IsPermutation (joined (dealt lists.items)) ids.entry) }
    ensures in_turn { IfOk result (λ lists. AreDealtInTurn workers ids.entry (dealt lists.items)) }
{
    let mut lists = no_lists(heap, workers)?;
    let mut worker = 0;
    for id in ids {
        lists[worker].push(id)?;
        worker = (worker + 1) % workers;
    }
    Ok(lists)
}

/// So many empty lists.
fn no_lists<'h, H: Allocator>(
    heap: &'h H,
    count: usize,
) -> Result<Vec<Vec<u64, &'h H>, &'h H>, AllocError>
    ensures count { IfOk result (λ lists. length lists.items ≡ count) }
    ensures none { IfOk result (λ lists. joined (dealt lists.items) ≡ []) }
{
    let mut lists = Vec::with_capacity(heap, count)?;
    for _ in 0..count {
        lists.push(Vec::new(heap))?;
    }
    Ok(lists)
}
