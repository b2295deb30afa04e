//! How a point lies to a ring, by its winding number.

ghost use Rattle.std.specs.Prelude.{◌≡◌, ◌≤◌, length, pos, IsTrue};
ghost use Rattle.geo_exact.specs.Limit.{IsWithin};
ghost use Rattle.geo_exact.specs.Point.{corner_point};
ghost use Rattle.geo_exact.specs.Turn.{IsOnEdge};
ghost use Rattle.geo_exact.specs.Winding.{crossing as crossing_of};
ghost use Rattle.geo_exact.specs.declared.limits.TheConstants.{RING_CORNERS};
ghost use Rattle.ring_core.specs.Sides.{IsSide};

use geo_exact::{Corner, on_segment, turn};

/// How a point lies to a ring.
#[derive(Clone, Copy, Debug, PartialEq, Eq)]
pub enum Side {
    /// Inside the ring.
    Inside,
    /// On one of its edges.
    OnEdge,
    /// Neither.
    Outside,
}

/// How the edge crosses the ray from a point to the right: 1 upward, -1 downward, else 0.
fn crossing(from: Corner, to: Corner, place: Corner) -> i64
    ensures value { result ≡ crossing_of (corner_point place) from to }
    ensures bound { IsWithin 1 result }
{
    if from.y <= place.y {
        if to.y <= place.y {
            return 0;
        }
        if turn(from, to, place) > 0 { 1 } else { 0 }
    } else {
        if to.y > place.y {
            return 0;
        }
        if turn(from, to, place) < 0 { -1 } else { 0 }
    }
}

/// Whether an edge lies wholly below a point or wholly above it, as most edges of a ring do.
fn is_passed(from: Corner, to: Corner, place: Corner) -> bool
    ensures { IsTrue result → (¬ IsOnEdge (corner_point place) from to)
        × (crossing_of (corner_point place) from to ≡ pos 0) }
{
    if from.y < place.y {
        to.y < place.y
    } else {
        from.y > place.y && to.y > place.y
    }
}

/// How a point lies to a ring, by the winding number.
///
/// ```
/// // (50, 50) in the square from (0, 0) to (100, 100):
/// assert_eq!(side_of(ring.corners.as_slice(), place), Side::Inside);
/// ```
pub fn side_of(ring: &[Corner], place: Corner) -> Side
    requires { length ring.now ≤ RING_CORNERS }
    ensures { IsSide (corner_point place) ring.now result }
{
    let Some((first, rest)) = ring.split_first() else {
        return Side::Outside;
    };
    let first = *first;
    let mut from = first;
    let mut sum = 0i64;
    for to in rest {
        if is_passed(from, *to, place) {
            from = *to;
            continue;
        }
        if on_segment(from, *to, place) {
            return Side::OnEdge;
        }
        sum += crossing(from, *to, place);
        from = *to;
    }
    if on_segment(from, first, place) {
        return Side::OnEdge;
    }
    if sum + crossing(from, first, place) >= 1 {
        Side::Inside
    } else {
        Side::Outside
    }
}
