//! The parcels of a run, after the edits of its clerks.

ghost use Rattle.std.specs.Prelude.{◌≡◌, ◌≤◌, [], length, IfOk, IfErr};
ghost use Rattle.clerk_runs.specs.ClerkRuns.{register_of, AreMade, AreLocated};
ghost use Rattle.parcel_runs.specs.RunFaults.{IsWant};
ghost use Rattle.desk_lock.specs.declared.opening.TheConstants.{MOST_PLACES};

use city_layers::ToolFault;
use clerk_runs::{ClerkEdits, Edited, RunFault, edit_by_clerks};
use fabric_core::{At, Fabric, Layer, Sheet};
use geo_exact::Corner;
use std::alloc::{AllocError, Allocator};
use std::sync::Wait;
use std::thread::Threads;

/// A layer after the edits of clerks, all of whom make theirs at the same time at one office, each
/// in a thread of their own; and where corners lie then. Without clerks no office is opened, and the
/// sheet is the layer's opening. Nothing is copied.
///
/// # Errors
///
/// [`ToolFault::NoWindow`] (K3), and [`ToolFault::NoMemory`].
pub fn edit_layer<'h, R: Threads + Wait + Sync, H: Allocator + Send + Sync>(
    rt: &R,
    heap: &'h H,
    layer: Layer<'h, H>,
    clerks: Vec<ClerkEdits<&'h H>, &'h H>,
    corners: &[Corner],
) -> Result<Edited<'h, H>, ToolFault<'static>>
    requires { length clerks.items ≤ MOST_PLACES }
    ensures made { IfOk result (λ edited.
        AreMade layer.entry clerks.entry.items (register_of edited.sheet) edited.lines.items) }
    ensures city { IfOk result (λ edited. edited.sheet.city ≡ layer.entry.city) }
    ensures places { IfOk result (λ edited. AreLocated edited.sheet.now.rows corners.now edited.places.items) }
    ensures fault { IfErr result (IsWant (length clerks.entry.items)) }
{
    if clerks.is_empty() {
        return Ok(as_read(heap, layer, corners)?);
    }
    match edit_by_clerks(rt, heap, layer, clerks, corners) {
        Ok(edited) => Ok(edited),
        Err(RunFault::NoWindow(window)) => Err(ToolFault::NoWindow(window)),
        Err(RunFault::NoMemory) => Err(ToolFault::NoMemory),
    }
}

/// A layer that no clerk edits, and where corners lie in it.
fn as_read<'h, H: Allocator>(
    heap: &'h H,
    layer: Layer<'h, H>,
    corners: &[Corner],
) -> Result<Edited<'h, H>, AllocError>
    ensures made { IfOk result (λ edited.
        AreMade layer.entry [] (register_of edited.sheet) edited.lines.items) }
    ensures city { IfOk result (λ edited. edited.sheet.city ≡ layer.entry.city) }
    ensures places { IfOk result (λ edited. AreLocated edited.sheet.now.rows corners.now edited.places.items) }
{
    layer.use_invariant();
    let Ok(sheet) = Fabric::open(layer) else {
        unreachable!()
    };
    let places = locate_all(heap, &sheet, corners)?;
    Ok(Edited {
        sheet,
        lines: Vec::new(heap),
        places,
    })
}

/// Where corners lie among the parcels of a sheet, in their order.
fn locate_all<'h, H: Allocator>(
    heap: &'h H,
    sheet: &Sheet<'h, H>,
    corners: &[Corner],
) -> Result<Vec<At<&'h H>, &'h H>, AllocError>
    ensures { IfOk result (λ places. AreLocated sheet.now.now.rows corners.now places.items) }
{
    let mut places = Vec::new(heap);
    for corner in corners {
        let at = sheet.locate(*corner)?;
        places.push(at)?;
    }
    Ok(places)
}

/// How many parcels a sheet has.
pub(crate) fn parcel_count<'h, H: Allocator>(sheet: &Sheet<'h, H>) -> usize
    ensures { result ≡ length sheet.now.now.rows }
{
    sheet.ids().len()
}
