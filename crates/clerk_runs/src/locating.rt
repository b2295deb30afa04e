//! Where corners lie after the clerks' edits: asked at the office's window, once it learnt every receipt.

ghost use Rattle.std.specs.Prelude.{◌≡◌, true, All, IfOk};
ghost use mathlib.Core.List.{IsPrefix};
ghost use Rattle.geo_exact.specs.Point.{corner_point};
ghost use Rattle.fabric_core.specs.Locate.{IsLocatedAt};
ghost use Rattle.clerk_runs.specs.ClerkRuns.{AreLocated};
ghost use Rattle.clerk_runs.specs.own.Windows.{IsLearnt};

use desk_lock::{LocateFault, Naming, Receipt, Window};
use fabric_core::{At, Sheet};
use geo_exact::Corner;
use std::alloc::{AllocError, Allocator};

/// Lets a window learn receipts; whether all of them were published.
pub(crate) fn learn_all<'h, H: Allocator, J: Naming<H>>(
    window: &mut Window<'h, H, J>,
    receipts: &[Receipt<'h, H, J>],
) -> bool
    ensures opening { window.new.opening ≡ window.old.opening }
    ensures begins { IsPrefix window.old.seen window.new.seen }
    ensures learnt { result ≡ true → All (IsLearnt window.new.seen) receipts.now }
{
    let mut all = true;
    for receipt in receipts {
        window.learn(receipt);
        all &= receipt.published();
    }
    all
}

/// Where corners lie among the parcels of a sheet, asked at a window that has seen all of the
/// sheet's entries, or of the sheet where it has not.
pub(crate) fn locate_all<'h, H: Allocator, J: Naming<H>>(
    heap: &'h H,
    window: &mut Window<'h, H, J>,
    has_seen: bool,
    sheet: &Sheet<'h, H>,
    corners: &[Corner],
) -> Result<Vec<At<&'h H>, &'h H>, AllocError>
    requires opening { window.old.opening ≡ sheet.now.opening }
    requires has_seen { has_seen ≡ true → IsPrefix sheet.now.journal window.old.seen }
    ensures { IfOk result (λ places. AreLocated sheet.now.now.rows corners.now places.items) }
{
    let mut places = Vec::new(heap);
    for corner in corners {
        places.push(locate_one(window, has_seen, sheet, *corner)?)?;
    }
    Ok(places)
}

/// Where a corner lies among the parcels of a sheet, asked at a window that has seen all of the
/// sheet's entries. Where it has not, its answer rests on more entries, or it has no version, the
/// sheet is asked.
fn locate_one<'h, H: Allocator, J: Naming<H>>(
    window: &mut Window<'h, H, J>,
    has_seen: bool,
    sheet: &Sheet<'h, H>,
    corner: Corner,
) -> Result<At<&'h H>, AllocError>
    requires opening { window.old.opening ≡ sheet.now.opening }
    requires has_seen { has_seen ≡ true → IsPrefix sheet.now.journal window.old.seen }
    ensures opening { window.new.opening ≡ window.old.opening }
    ensures begins { IsPrefix window.old.seen window.new.seen }
    ensures at { IfOk result (λ at. IsLocatedAt sheet.now.now.rows (corner_point corner) at) }
{
    if !has_seen {
        return sheet.locate(corner);
    }
    sheet.use_invariant();
    match window.locate(corner) {
        Ok((entries, at)) if entries == sheet.entries() => Ok(at),
        Ok(_) | Err(LocateFault::NoVersion) => sheet.locate(corner),
        Err(LocateFault::NoMemory) => Err(AllocError),
    }
}
