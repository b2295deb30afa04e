//! On which side of a line a corner lies.

ghost use Rattle.std.specs.Prelude.{◌≡◌, ◌-ℤ◌, ◌*ℤ◌, ◌*◌};
ghost use Rattle.geo_exact.specs.Limit.{IsWithin, limit};
ghost use Rattle.geo_exact.specs.Turn.{turn as turn_of};

use crate::corner::Corner;
use crate::products::wide_product;

/// The way from one corner to another, in millimetres.
#[derive(Clone, Copy)]
struct Way {
    x: i64,
    y: i64,
    ghost x_in_range: { IsWithin (2 * limit) x },
    ghost y_in_range: { IsWithin (2 * limit) y },
}

fn way_between(from: Corner, to: Corner) -> Way
    ensures x { result.x ≡ to.x -ℤ from.x }
    ensures y { result.y ≡ to.y -ℤ from.y }
{
    Way {
        x: to.x - from.x,
        y: to.y - from.y,
    }
}

/// The product of two sides of a box.
#[tactic(auto, using(crate::proofs::numbers::Within::product_within))]
fn side_product(u: i64, v: i64) -> i128
    requires first { IsWithin (2 * limit) u }
    requires second { IsWithin (2 * limit) v }
    ensures value { result ≡ u *ℤ v }
    ensures bound { IsWithin (4 * (limit * limit)) result }
{
    wide_product(u, v)
}

/// Twice the signed area that two ways from one corner span.
fn spanned(u: Way, v: Way) -> i128
    ensures value { result ≡ u.x *ℤ v.y -ℤ u.y *ℤ v.x }
    ensures bound { IsWithin (8 * (limit * limit)) result }
{
    side_product(u.x, v.y) - side_product(u.y, v.x)
}

/// The orientation of three corners: twice the signed area of the triangle `a`, `b`, `c`, in square
/// millimetres, positive where `c` is left of the way from `a` to `b`.
///
/// ```
/// // From (0, 0) to (10, 0), (0, 5) is on the left:
/// assert_eq!(turn(a, b, c), 50);
/// ```
pub fn turn(a: Corner, b: Corner, c: Corner) -> i128
    ensures value { result ≡ turn_of a b c }
    ensures bound { IsWithin (8 * (limit * limit)) result }
{
    spanned(way_between(a, b), way_between(a, c))
}
