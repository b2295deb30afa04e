//! The pairs of a table, each parcel tested against each zone.

ghost use Rattle.std.specs.Prelude.{IfOk, [], ◌∷◌};
ghost use Rattle.geo_exact.specs.Layers.{numbered};
ghost use Rattle.zone_tables.specs.Overlap.{IsOverlapTable};

use fabric_core::{Layer, Sheet};
use ring_core::Shape;
use std::alloc::{AllocError, Allocator};
use tri_overlap::shapes_overlap;

/// All pairs of a parcel and a zone whose interiors have a common point.
pub fn all_pairs<'h, H: Allocator, A: Allocator + Copy>(
    alloc: A,
    sheet: &Sheet<'h, H>,
    zones: &Layer<'h, H>,
) -> Result<Vec<(u64, u64), A>, AllocError>
    ensures { IfOk result (λ pairs. IsOverlapTable sheet.now.now.rows zones.now.rows pairs.items) }
{
    let _ = sheet.ids();
    let mut pairs = Vec::new(alloc);
    for (id, shape) in sheet.shapes() {
        let own = pairs_of(alloc, id, shape, zones)?;
        pairs.extend_from_slice(&own)?;
    }
    Ok(pairs)
}

/// The pairs of one parcel.
fn pairs_of<'h, H: Allocator, A: Allocator + Copy>(
    alloc: A,
    id: u64,
    shape: &Shape<&'h H>,
    zones: &Layer<'h, H>,
) -> Result<Vec<(u64, u64), A>, AllocError>
    ensures { IfOk result (λ pairs. IsOverlapTable (numbered id shape.now.ring.corners ∷ [])
        zones.now.rows pairs.items) }
{
    let _ = zones.ids();
    let mut pairs = Vec::new(alloc);
    for (zone, other) in zones.shapes() {
        if shapes_overlap(shape, other) {
            pairs.push((id, zone))?;
        }
    }
    Ok(pairs)
}
