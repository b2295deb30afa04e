//! A point inside a triangle and off all edges.

ghost use Rattle.std.specs.Prelude.{IsTrue};
ghost use Rattle.geo_exact.specs.declared.corner.Corner.{Corner as CornerValue};
ghost use Rattle.geo_exact.specs.Bounds.{HoldsCorner, IsBeyondBox};
ghost use Rattle.geo_exact.specs.Point.{Point, corner_point};
ghost use Rattle.geo_exact.specs.Turn.{IsOnRing};
ghost use Rattle.geo_exact.specs.Winding.{IsInterior};

use crate::meeting::{box_meets, edge_box};
use crate::side::{Side, side_of};
use geo_exact::{Bounds, Corner, RING_CORNERS};
use leaning_boxes::is_beside;

/// Whether each edge of a ring lies beside a box, so that the ring does not come into it.
fn misses(ring: &[Corner], bounds: Bounds) -> bool
    ensures { IsTrue result → (p : Point) → IsOnRing p ring.now → IsBeyondBox p bounds }
{
    let Some((first, rest)) = ring.split_first() else {
        return true;
    };
    let first = *first;
    let mut from = first;
    for to in rest {
        if !is_beside(from, *to, bounds) {
            return false;
        }
        from = *to;
    }
    is_beside(from, first, bounds)
}

/// The middle of a box, in whole millimetres.
fn middle(bounds: Bounds) -> Option<Corner> {
    Corner::new(
        (bounds.low.x + bounds.high.x) / 2,
        (bounds.low.y + bounds.high.y) / 2,
    )
}

/// What is left of a box round a seed where one side is moved to lie beside an edge's box: the side
/// that then is farther from the seed.
fn cut(bounds: Bounds, edge: Bounds, seed: Corner) -> Option<Bounds> {
    let (low, high) = (bounds.low, bounds.high);
    let (left, right) = (edge.low.x - 1, edge.high.x + 1);
    let (under, over) = (edge.low.y - 1, edge.high.y + 1);
    let (west, east) = (left - seed.x, seed.x - right);
    let (south, north) = (under - seed.y, seed.y - over);
    let across = west.max(east);
    let along = south.max(north);
    if across.max(along) < 0 {
        return None;
    }
    let (low, high) = if across >= along {
        if 0 <= west {
            (low, Corner::new(left, high.y)?)
        } else {
            (Corner::new(right, low.y)?, high)
        }
    } else if 0 <= south {
        (low, Corner::new(high.x, under)?)
    } else {
        (Corner::new(low.x, over)?, high)
    };
    Some(Bounds { low, high })
}

/// A box round the middle of a ring's least box that the ring seems not to come into: edge after
/// edge, the least box is cut.
fn find_box(ring: &[Corner], bounds: Bounds) -> Option<Bounds> {
    let seed = middle(bounds)?;
    let mut from = *ring.last()?;
    let mut found = bounds;
    for to in ring {
        if box_meets(found, from, *to) {
            found = cut(found, edge_box(from, *to), seed)?;
        }
        from = *to;
    }
    Some(found)
}

/// A box in which every point is inside the ring; where none is found, or the ring is too long for
/// a layer, a box that holds none. How good the box is that is looked for is not promised, and
/// nothing rests on it.
pub(crate) fn core_of(ring: &[Corner], bounds: Bounds) -> Bounds
    ensures { (corner : CornerValue) → HoldsCorner result corner → IsInterior (corner_point corner) ring.now }
{
    if ring.len() > RING_CORNERS {
        return Bounds::nowhere();
    }
    let Some(found) = find_box(ring, bounds) else {
        return Bounds::nowhere();
    };
    if found.is_empty() || !misses(ring, found) {
        return Bounds::nowhere();
    }
    match side_of(ring, found.low) {
        Side::Inside => found,
        _ => Bounds::nowhere(),
    }
}
