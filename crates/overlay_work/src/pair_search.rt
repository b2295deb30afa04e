//! Which zones a parcel overlaps.

ghost use Rattle.std.specs.Prelude.{◌≡◌, ◌+◌, length, vec_len, vec_capacity, ◌≤◌, IfOk, OnErr};
ghost use Rattle.std.specs.List.{All, Contains};
ghost use Rattle.std.specs.List.Sorted.{IsStrictlyIncreasing};
ghost use Rattle.fabric_core.specs.Rows.{numbers};
ghost use Rattle.overlay_work.specs.own.Kept.{KeepsFound, KeepsPairs};

use crate::work::Work;
use fabric_core::Layer;
use ring_core::Shape;
use std::alloc::{AllocError, Allocator};
use tri_overlap::shapes_overlap;

/// Keeps the pairs of a parcel and the zones that it overlaps, each found among the candidates for
/// the parcel's box alone, and answers how many these are. Nothing is kept where an allocation is
/// refused.
pub(crate) fn keep_pairs<'t, 'h, H: Allocator>(
    work: &Work<'t, 'h, H>,
    id: u64,
    kept: &mut Vec<(u64, u64), &'h H>,
) -> Result<usize, AllocError>
    requires { Contains (numbers work.now.rows) id }
    ensures ok { IfOk result (λ tests. KeepsPairs work.now id kept.old.items kept.new.items tests) }
    ensures err { OnErr result (kept.new.items ≡ kept.old.items) }
{
    let sheet = work.sheet();
    let zones = work.zones();
    let Some(parcel) = sheet.shape(id) else {
        unreachable!();
    };
    sheet.use_invariant();
    let _ = sheet.ids();
    let bounds = parcel.bounds;
    let candidates = zones.candidates(bounds.low, bounds.high)?;
    kept.reserve(candidates.len())?;
    keep_found(zones, id, parcel, candidates.as_slice(), kept);
    Ok(candidates.len())
}

/// Keeps the pairs of a parcel and those of these zones that it overlaps.
fn keep_found<'h, H: Allocator>(
    zones: &Layer<'h, H>,
    id: u64,
    parcel: &Shape<&'h H>,
    candidates: &[u64],
    kept: &mut Vec<(u64, u64), &'h H>,
)
    requires ascend { IsStrictlyIncreasing candidates.now }
    requires here { All (Contains (numbers zones.now.rows)) candidates.now }
    requires room { vec_len kept.old + length candidates.now ≤ vec_capacity kept.old }
    ensures { KeepsFound zones.now.rows parcel.now.ring.corners id candidates.now kept.old.items kept.new.items }
{
    let _ = zones.ids();
    for zone in candidates {
        let Some(shape) = zones.shape(*zone) else {
            unreachable!();
        };
        if shapes_overlap(parcel, shape) {
            kept.push_reserved((id, *zone));
        }
    }
}
