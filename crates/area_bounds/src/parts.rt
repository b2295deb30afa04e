//! Fractions counted in parts, rounded down, with a count of what was rounded.

ghost use Rattle.std.specs.Prelude.{◌≡◌, ◌+◌, ◌*◌, ◌^◌, ◌<◌, ◌≤◌, ◌+ℤ◌};
ghost use Rattle.geo_exact.specs.Limit.{IsWithin, limit};
ghost use Rattle.area_bounds.specs.Parts.{IsShare};
ghost use Rattle.area_bounds.specs.Rounded.{rest_of};

use wide_numbers::{divided_with_rest, product};

/// How many parts a square millimetre has, 2 ^ 26. Each pair of edges loses one part at most, so fewer pairs lose less
/// than a square millimetre together.
pub const PARTS: u64 = 67_108_864;

/// So many parts, rounded down: of 10/3 square millimetres 223,696,213, and 1 is lost.
#[derive(Clone, Copy, Debug, PartialEq, Eq)]
pub struct Counted {
    /// The whole parts.
    pub parts: u128,
    /// 0 where that is all, else 1.
    pub lost: u64,
}

/// A sum of parts: at least so many, and at most so many more as were lost.
#[derive(Clone, Copy, Debug, PartialEq, Eq)]
pub struct Parts {
    /// The least number.
    pub low: i128,
    /// How many more there may be.
    pub lost: u64,
}

impl Parts {
    /// The sum of both.
    pub fn plus(self, other: Parts) -> Parts
        requires low { IsWithin (2 ^ 126) (self.low +ℤ other.low) }
        requires lost { self.lost + other.lost < 2 ^ 64 }
        ensures low { result.low ≡ self.low +ℤ other.low }
        ensures lost { result.lost ≡ self.lost + other.lost }
    {
        Parts {
            low: self.low + other.low,
            lost: self.lost + other.lost,
        }
    }
}

/// Whether something was left: 0 or 1.
fn lost_in(once: u128, twice: u128) -> u64
    ensures none { result ≡ 0 → (once ≡ 0) × (twice ≡ 0) }
    ensures some { once ≡ 0 → twice ≡ 0 → result ≡ 0 }
    ensures one { result ≤ 1 }
{
    if once == 0 && twice == 0 { 0 } else { 1 }
}

/// The parts of a trapezoid's area, from the sum of its sides times both rises.
pub fn trapezoid(height: u64, rises: u128, sides: u128) -> Counted
    requires height { height ≤ 2 * limit }
    requires some { 0 < rises }
    requires rises { rises ≤ 2 * limit * (2 * limit) }
    requires sides { sides ≤ 4 * limit * rises }
    ensures counted { IsShare result.parts result.lost (height * sides) (2 * rises) }
    ensures bound { result.parts ≤ PARTS * (2 * limit * (2 * limit)) }
    ensures lost { result.lost ≤ 1 }
    ensures rounded { result.lost ≤ rest_of (PARTS * (height * sides)) (2 * rises) }
{
    let shared = divided_with_rest(product(u128::from(height * PARTS), sides), 2 * rises);
    Counted {
        parts: shared.whole.narrow(),
        lost: lost_in(shared.rest, 0),
    }
}

/// The parts of the area of two triangles, between two lines that cross, from their sides times both rises.
pub fn triangles(height: u64, rises: u128, parting: u128, first: u128, second: u128) -> Counted
    requires height { height ≤ 2 * limit }
    requires some { 0 < rises }
    requires rises { rises ≤ 2 * limit * (2 * limit) }
    requires sides { first + second ≤ 4 * limit * rises }
    requires apart { 0 < parting }
    requires parting { parting ≤ 2 * (2 * limit * (2 * limit)) }
    requires sides_part { first + second ≡ parting * height }
    ensures counted { IsShare result.parts result.lost (height * (first * first + second * second))
        (2 * rises * (first + second)) }
    ensures bound { result.parts ≤ PARTS * (2 * limit * (2 * limit)) }
    ensures lost { result.lost ≤ 1 }
    ensures rounded { result.lost ≤ rest_of (PARTS * (height * (first * first + second * second)))
        (2 * rises * (first + second)) }
{
    let squares = product(first, first)
        .plus(product(second, second))
        .times(PARTS);
    let once = divided_with_rest(squares, 2 * rises);
    let twice = divided_with_rest(once.whole, parting);
    Counted {
        parts: twice.whole.narrow(),
        lost: lost_in(once.rest, twice.rest),
    }
}
