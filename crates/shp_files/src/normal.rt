//! The normal form of a ring.

ghost use Rattle.std.specs.Prelude.{◌≡◌, ◌≤◌, ◌||◌, false, length, IfOk};
ghost use Rattle.shp_files.specs.Checks.{is_not};
ghost use Rattle.shp_files.specs.NormalForm.{kept_once as kept_once_of, counterclockwise};
ghost use Rattle.geo_exact.specs.Rings.{HasNoRepeats};
ghost use Rattle.geo_exact.specs.declared.limits.TheConstants.{RING_CORNERS};

use geo_exact::{Corner, Corners, area2};
use std::alloc::{AllocError, Allocator};

/// Whether two corners differ.
pub fn is_other(a: Corner, b: Corner) -> bool
    ensures { result ≡ (is_not a.x b.x || is_not a.y b.y) }
{
    a != b
}

/// Whether two neighbours of the ring are equal; its last corner and its first are neighbours.
fn has_repeats(ring: &[Corner]) -> bool
    ensures { result ≡ false → HasNoRepeats ring.now }
{
    let Some((first, rest)) = ring.split_first() else {
        return false;
    };
    let first = *first;
    let mut from = first;
    for to in rest {
        if !is_other(from, *to) {
            return true;
        }
        from = *to;
    }
    !is_other(from, first)
}

/// The ring's corners, of neighbours that are equal, round the ring, one: the list itself, where none are.
pub fn kept_once<A: Allocator + Copy>(alloc: A, drawn: Corners<A>) -> Result<Corners<A>, AllocError>
    ensures { IfOk result (λ kept. kept ≡ kept_once_of drawn) }
{
    if has_repeats(drawn.as_slice()) {
        without_repeats(alloc, drawn.as_slice())
    } else {
        Ok(drawn)
    }
}

/// The corners that are kept of a ring, in a list of their own.
fn without_repeats<A: Allocator + Copy>(
    alloc: A,
    drawn: &[Corner],
) -> Result<Corners<A>, AllocError>
    ensures { IfOk result (λ kept. kept ≡ kept_once_of drawn.now) }
{
    let mut kept = Corners::with_capacity(alloc, drawn.len())?;
    let Some(first) = drawn.first() else {
        return Ok(kept);
    };
    let mut from = *first;
    for to in drawn {
        if is_other(from, *to) {
            kept.push(from)?;
        }
        from = *to;
    }
    if is_other(from, *first) {
        kept.push(from)?;
    }
    Ok(kept)
}

/// Turns a clockwise ring round, with its first corner kept first.
pub fn turn_counterclockwise<A: Allocator>(ring: &mut Corners<A>)
    requires { length ring.old ≤ RING_CORNERS }
    ensures { ring.new ≡ counterclockwise ring.old }
{
    if area2(ring.as_slice()) < 0 {
        ring.turn_round();
    }
}
