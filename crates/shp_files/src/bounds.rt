//! The bounding box of corners.

ghost use Rattle.std.specs.Prelude.{◌≡◌, ◌++◌, ◌∷◌, [], Some, OnOk, List};
ghost use Rattle.geo_exact.specs.declared.corner.Corner.{Corner as CornerValue};
ghost use Rattle.shp_files.specs.Written as written;
ghost use Rattle.shp_files.specs.own.Writing.{AreBounds, MayBeBounds};

use crate::put::put_point;
use geo_exact::{Bounds, Corner};
use std::alloc::{AllocError, Allocator};

/// The bounds with one more corner.
fn with_corner(bounds: Option<Bounds>, corner: Corner) -> Bounds
    ensures { (before : List CornerValue) → MayBeBounds bounds before → AreBounds result (before ++ corner ∷ []) }
{
    let own = Bounds::of_corner(corner);
    match bounds {
        None => own,
        Some(bounds) => bounds.around(own),
    }
}

/// The bounds with more corners.
pub fn with_corners(bounds: Option<Bounds>, corners: &[Corner]) -> Option<Bounds>
    ensures { (before : List CornerValue) → MayBeBounds bounds before → MayBeBounds result (before ++ corners.now) }
{
    let mut bounds = bounds;
    for corner in corners {
        bounds = Some(with_corner(bounds, *corner));
    }
    bounds
}

/// The box of corners, all 0 for no corner: of a file without records the Technical Description leaves it open.
pub fn put_box<A: Allocator>(out: &mut Vec<u8, A>, bounds: Option<Bounds>) -> Result<(), AllocError>
    ensures { (corners : List CornerValue) → MayBeBounds bounds corners
        → OnOk result (out.new.items ≡ out.old.items ++ written.box corners) }
{
    let bounds = bounds.unwrap_or(Bounds {
        low: Corner { x: 0, y: 0 },
        high: Corner { x: 0, y: 0 },
    });
    put_point(out, bounds.low)?;
    put_point(out, bounds.high)
}
