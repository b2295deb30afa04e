//! Where a corner lies, found by a scan over all parcels.

use fabric_core::{At, Fabric};
use geo_exact::{Corner, on_segment, turn};
use std::alloc::Allocator;

/// Whether a corner is as high as some place of an edge.
fn is_beside(from: Corner, to: Corner, place: Corner) -> bool {
    from.y.min(to.y) <= place.y && place.y <= from.y.max(to.y)
}

/// Whether a corner lies on an edge of a ring.
fn is_on_edge(ring: &[Corner], place: Corner) -> bool {
    let Some(last) = ring.last() else {
        return false;
    };
    let mut from = *last;
    for to in ring {
        if is_beside(from, *to, place) && on_segment(from, *to, place) {
            return true;
        }
        from = *to;
    }
    false
}

/// How many times a ring goes round a corner: the edges that pass it upward on its right, less
/// those that pass it downward there.
fn winding(ring: &[Corner], place: Corner) -> i64 {
    let Some(last) = ring.last() else {
        return 0;
    };
    let mut wound = 0i64;
    let mut from = *last;
    for to in ring {
        if from.y <= place.y && place.y < to.y && turn(from, *to, place) > 0 {
            wound = wound.saturating_add(1);
        }
        if to.y <= place.y && place.y < from.y && turn(from, *to, place) < 0 {
            wound = wound.saturating_sub(1);
        }
        from = *to;
    }
    wound
}

/// Whether this id stands at this place of those that the corner is on an edge of.
fn has_at<A: Allocator>(at: &At<A>, place: usize, id: u64) -> bool {
    match at {
        At::OnEdge(ids) => ids.get(place) == Some(&id),
        At::Inside(_) | At::Outside => false,
    }
}

/// Whether a scan over all parcels finds a corner where it is said to be.
pub fn is_found<H: Allocator, A: Allocator>(
    fabric: &Fabric<'_, H>,
    place: Corner,
    at: &At<A>,
) -> bool {
    let mut on_edge = 0usize;
    let mut inside = None;
    for (id, shape) in fabric.shapes() {
        let ring = shape.ring.corners.as_slice();
        if is_on_edge(ring, place) {
            if !has_at(at, on_edge, id) {
                return false;
            }
            on_edge = on_edge.wrapping_add(1);
        } else if winding(ring, place) > 0 {
            inside = Some(id);
        }
    }
    match at {
        At::OnEdge(ids) => on_edge > 0 && on_edge == ids.len(),
        At::Inside(id) => on_edge == 0 && inside == Some(*id),
        At::Outside => on_edge == 0 && inside.is_none(),
    }
}
