//! The digest of the layer that a journal was begun with.

ghost use Rattle.std.specs.Prelude.{◌≡◌, ◌++◌, map, IfOk, OnOk};
ghost use Rattle.geo_exact.specs.Layers.{numbered};
ghost use Rattle.journal_records.specs.Journals.{seal_text};
ghost use Rattle.journal_replays.specs.Replays.{outlines, layer_text};

use fabric_core::{Fabric, Shapes};
use journal_records::{Seal, push_outline};
use std::alloc::{AllocError, Allocator};

/// The digest of a layer, as the fabric that was opened over it has it: of a line for the city, and one for each
/// parcel, by ascending id.
///
/// # Errors
///
/// [`AllocError`] where an allocation fails.
pub fn seal_of_layer<'h, H: Allocator>(
    heap: &'h H,
    fabric: &Fabric<'h, H>,
) -> Result<Seal, AllocError>
    ensures { IfOk result (λ seal. seal.digits ≡ seal_text (layer_text fabric.now.city fabric.now.now.rows)) }
{
    let mut text = Vec::new(heap);
    push_outline(&mut text, 0, fabric.city())?;
    push_outlines(&mut text, fabric.shapes())?;
    Ok(Seal::of(text.as_slice(), &[], &[]))
}

/// Adds the lines of shapes, each under its number.
fn push_outlines<A: Allocator, B: Allocator>(
    text: &mut Vec<u8, A>,
    shapes: Shapes<'_, B>,
) -> Result<(), AllocError>
    ensures { OnOk result (text.new.items
        ≡ text.old.items ++ outlines (map (λ shape. numbered shape.0 shape.1.ring.corners) shapes.entry)) }
{
    for (id, shape) in shapes {
        push_outline(text, id, shape.ring.corners.as_slice())?;
    }
    Ok(())
}
