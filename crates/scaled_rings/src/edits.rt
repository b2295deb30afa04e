//! Edits with each coordinate ten times.

ghost use Rattle.std.specs.Prelude.{◌++◌, List, IfOk};
ghost use Rattle.std.specs.List.{AllByRecursion};
ghost use Rattle.geo_exact.specs.declared.corner.Corner.{Corner as CornerValue};
ghost use Rattle.scaled_rings.specs.Tenfold.{IsNear, IsLeastFarOf};
ghost use Rattle.scaled_rings.specs.TenfoldEdits.{IsTenfoldEdit, corners_of_edit};

use crate::corners::{least_far, tenfold, tenfold_all};
use geo_exact::Corner;
use ring_edits::Edit;
use std::alloc::{AllocError, Allocator};

/// The edit, each corner that it names ten times.
///
/// # Errors
///
/// [`AllocError`] where an allocation fails.
pub fn tenfold_edit<A: Allocator>(alloc: A, edit: &Edit<A>) -> Result<Edit<A>, AllocError>
    requires { AllByRecursion IsNear (corners_of_edit edit.now) }
    ensures { IfOk result (λ other. IsTenfoldEdit edit.now other) }
{
    match edit {
        Edit::Split { id, path } => {
            let path = tenfold_all(alloc, path.as_slice())?;
            Ok(Edit::Split { id: *id, path })
        }
        Edit::Merge { a, b } => Ok(Edit::Merge { a: *a, b: *b }),
        Edit::Move { a, b, path } => {
            let path = tenfold_all(alloc, path.as_slice())?;
            Ok(Edit::Move { a: *a, b: *b, path })
        }
        Edit::Insert { from, to, at } => Ok(Edit::Insert {
            from: tenfold(*from),
            to: tenfold(*to),
            at: tenfold(*at),
        }),
        Edit::Straighten { at } => Ok(Edit::Straighten { at: tenfold(*at) }),
    }
}

/// The least, by `x` and then by `y`, of the corners that an edit names and that are not near, and of one found before.
pub fn least_far_of_edit<A: Allocator>(edit: &Edit<A>, found: Option<Corner>) -> Option<Corner>
    ensures { (before : List CornerValue) → IsLeastFarOf before found
        → IsLeastFarOf (before ++ corners_of_edit edit.now) result }
{
    match edit {
        Edit::Split { path, .. } => least_far(path.as_slice(), found),
        Edit::Merge { .. } => found,
        Edit::Move { path, .. } => least_far(path.as_slice(), found),
        Edit::Insert { from, to, at } => least_far(&[*from, *to, *at], found),
        Edit::Straighten { at } => least_far(&[*at], found),
    }
}
