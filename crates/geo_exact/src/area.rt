//! Twice the area of a ring, exactly.

ghost use Rattle.std.specs.Prelude.{◌≡◌, ◌*◌, ◌≤◌, ◌-ℤ◌, ◌*ℤ◌, length};
ghost use Rattle.geo_exact.specs.Area.{area2 as area2_of};
ghost use Rattle.geo_exact.specs.Limit.{IsWithin, limit};

use crate::corner::Corner;
use crate::limits::LIST_CORNERS;
use crate::products::wide_product;

/// The product of two coordinates.
#[tactic(auto, using(crate::proofs::numbers::Within::product_within))]
fn coordinate_product(u: i64, v: i64) -> i128
    requires first { IsWithin limit u }
    requires second { IsWithin limit v }
    ensures value { result ≡ u *ℤ v }
    ensures bound { IsWithin (limit * limit) result }
{
    wide_product(u, v)
}

/// Twice the signed area of the triangle from the origin to the edge.
fn edge_area2(from: Corner, to: Corner) -> i128
    ensures value { result ≡ from.x *ℤ to.y -ℤ to.x *ℤ from.y }
    ensures bound { IsWithin (2 * (limit * limit)) result }
{
    coordinate_product(from.x, to.y) - coordinate_product(to.x, from.y)
}

/// Twice the signed area that a ring of corners goes round, in square millimetres: positive for a
/// counterclockwise ring, 0 for no corner. A ring here has at most [`LIST_CORNERS`](crate::LIST_CORNERS) corners.
///
/// ```
/// // The square (0, 0) (100, 0) (100, 100) (0, 100):
/// assert_eq!(area2(square.as_slice()), 20_000);
/// ```
pub fn area2(ring: &[Corner]) -> i128
    requires { length ring.now ≤ LIST_CORNERS }
    ensures value { result ≡ area2_of ring.now }
    ensures bound { IsWithin (2 * (limit * limit) * length ring.now) result }
{
    let Some((first, rest)) = ring.split_first() else {
        return 0;
    };
    let first = *first;
    let mut from = first;
    let mut sum = 0i128;
    for to in rest {
        sum += edge_area2(from, *to);
        from = *to;
    }
    sum + edge_area2(from, first)
}
