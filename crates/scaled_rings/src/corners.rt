//! Corners with each coordinate ten times.

ghost use Rattle.std.specs.Prelude.{◌≡◌, ◌↔◌, ◌∷◌, [], ◌++◌, if◌then◌else◌, List, IfOk, IsTrue};
ghost use Rattle.geo_exact.specs.Order.{is_before};
ghost use Rattle.std.specs.List.{AllByRecursion};
ghost use Rattle.geo_exact.specs.declared.corner.Corner.{Corner as CornerValue};
ghost use Rattle.scaled_rings.specs.Tenfold.{IsNear, IsTenTimes, AreTenTimes, IsUpTo, IsLeastBeyondOf, IsLeastFarOf};

use crate::limits::NEAR_LIMIT;
use geo_exact::{Corner, Corners, comes_before};
use std::alloc::{AllocError, Allocator};

/// Whether the corner is at most so far from 0 along each axis.
pub fn is_up_to(corner: Corner, most: u64) -> bool
    ensures { IsTrue result ↔ IsUpTo most corner }
{
    corner.x.unsigned_abs() <= most && corner.y.unsigned_abs() <= most
}

/// The corner, each coordinate times ten.
pub fn tenfold(corner: Corner) -> Corner
    requires { IsNear corner }
    ensures { IsTenTimes corner result }
{
    Corner {
        x: corner.x * 10,
        y: corner.y * 10,
    }
}

/// The corners, each ten times.
///
/// # Errors
///
/// [`AllocError`] where an allocation fails.
pub fn tenfold_all<A: Allocator>(alloc: A, corners: &[Corner]) -> Result<Corners<A>, AllocError>
    requires { AllByRecursion IsNear corners.now }
    ensures { IfOk result (λ others. AreTenTimes corners.now others) }
{
    let mut others = Corners::with_capacity(alloc, corners.len())?;
    for corner in corners {
        others.push(tenfold(*corner))?;
    }
    Ok(others)
}

/// The lesser of two corners, by `x` and then by `y`.
fn lesser(corner: Corner, other: Corner) -> Corner
    ensures { result ≡ (if is_before corner other then corner else other) }
{
    if comes_before(corner, other) {
        corner
    } else {
        other
    }
}

/// Of a corner and one found before, the one to be told: the lesser of those that are further from 0.
fn lesser_beyond(most: u64, corner: Corner, found: Option<Corner>) -> Option<Corner>
    ensures { (corners : List CornerValue) → IsLeastBeyondOf most corners found
        → IsLeastBeyondOf most (corners ++ corner ∷ []) result }
{
    if is_up_to(corner, most) {
        return found;
    }
    match found {
        None => Some(corner),
        Some(least) => Some(lesser(corner, least)),
    }
}

/// The least, by `x` and then by `y`, of the corners that are further from 0 along an axis, and of one found before.
pub fn least_beyond(most: u64, corners: &[Corner], found: Option<Corner>) -> Option<Corner>
    ensures { (before : List CornerValue) → IsLeastBeyondOf most before found
        → IsLeastBeyondOf most (before ++ corners.now) result }
{
    let mut least = found;
    for corner in corners {
        least = lesser_beyond(most, *corner, least);
    }
    least
}

/// The least, by `x` and then by `y`, of the corners that are not near, and of one found before.
pub fn least_far(corners: &[Corner], found: Option<Corner>) -> Option<Corner>
    ensures { (before : List CornerValue) → IsLeastFarOf before found → IsLeastFarOf (before ++ corners.now) result }
{
    least_beyond(NEAR_LIMIT.unsigned_abs(), corners, found)
}
