//! The shapes of an edit's new rings.

ghost use Rattle.std.specs.Prelude.{◌≡◌, ◌⊎◌, ◌≤◌, length, IfOk, IfErr};
ghost use Rattle.std.specs.List.{AllByRecursion};
ghost use Rattle.geo_exact.specs.declared.limits.TheConstants.{LAYER_RECORDS, RING_CORNERS};
ghost use Rattle.fabric_core.specs.declared.refusal.Refusal.TheVariants.{NoMemory};
ghost use Rattle.fabric_core.specs.own.EntryRows.{rows_of_entry};
ghost use Rattle.fabric_core.specs.Tiling.{corner_lists};
ghost use Rattle.fabric_core.specs.own.Changes.{IsRingRefusal, rings_of_shapes};

use crate::journal::Row;
use crate::refusal::Refusal;
use ring_core::{Ring, Shape};
use std::alloc::Allocator;

/// The shapes of new rows, in their order: each row's ring, if it is a simple one, clipped to triangles.
pub(crate) fn simple_shapes<A: Allocator + Copy>(
    alloc: A,
    rows: &[Row<A>],
) -> Result<Vec<Shape<A>, A>, Refusal>
    requires short { AllByRecursion (λ row. length row.corners ≤ RING_CORNERS) (rows_of_entry rows.now) }
    requires few { length rows.now ≤ LAYER_RECORDS }
    ensures ok { IfOk result (λ shapes. rings_of_shapes shapes.items ≡ corner_lists (rows_of_entry rows.now)) }
    ensures err { IfErr result (λ refusal. IsRingRefusal (rows_of_entry rows.now) refusal ⊎ (refusal ≡ NoMemory)) }
{
    let mut shapes = Vec::with_capacity(alloc, rows.len())?;
    for (which, row) in rows.iter().enumerate() {
        let corners = row.corners.clone()?;
        match Ring::check(corners) {
            Ok(ring) => shapes.push(Shape::clip(alloc, ring)?)?,
            Err(fault) => {
                return Err(Refusal::Ring {
                    which: which as u32 + 1,
                    fault,
                });
            }
        }
    }
    Ok(shapes)
}
