//! An edge as a row of equal steps between whole places.
ghost use Rattle.std.specs.Prelude.{◌≡◌, ℤ, pos, ◌+ℤ◌, ◌*ℤ◌, IsTrue, IfSome};
ghost use Rattle.edge_chains.specs.own.Steps.{AreSteps};

use crate::edge_tests::difference;
use geo_exact::{Corner, wide_product};

/// How many steps an edge may have, which is more than any has.
const MOST: u64 = 1 << 40;

/// Equal steps from one end of an edge to the other: how far each goes, in millimetres, and how many there are.
///
/// Between two steps there is no whole place on the edge.
#[derive(Clone, Copy)]
pub(crate) struct Steps {
    pub across: i64,
    pub up: i64,
    pub count: u64,
}

/// The steps of the edge from a to b; `None` for an edge of no length.
pub(crate) fn steps_of(a: Corner, b: Corner) -> Option<Steps>
    ensures { IfSome result (λ steps. AreSteps a b steps.across steps.up steps.count) }
{
    let (dx, dy) = (difference(b.x, a.x), difference(b.y, a.y));
    let shares = shares_of(dx.unsigned_abs(), dy.unsigned_abs());
    let count = shares.divisor;
    if count == 0 || count > MOST {
        return None;
    }
    let (across, up) = (dx / count as i64, dy / count as i64);
    if is_product(count as i64, across, dx)
        && is_product(count as i64, up, dy)
        && make_one(
            across,
            with_sign(shares.first, dx),
            up,
            with_sign(shares.second, dy),
        )
    {
        Some(Steps { across, up, count })
    } else {
        None
    }
}

/// The greatest common divisor of two numbers, and how often each is taken to make it, in two's complement. Nothing is
/// proved of them: whoever uses them tests them.
#[derive(Clone, Copy)]
struct Shares {
    divisor: u64,
    first: u64,
    second: u64,
}

/// Euclid's algorithm.
fn shares_of(u: u64, v: u64) -> Shares {
    let (mut divisor, mut rest) = (u, v);
    let (mut first, mut next_first) = (1u64, 0u64);
    let (mut second, mut next_second) = (0u64, 1u64);
    while rest > 0 {
        let times = divisor / rest;
        let left = divisor % rest;
        divisor = rest;
        rest = left;
        let later_first = first.wrapping_sub(times.wrapping_mul(next_first));
        first = next_first;
        next_first = later_first;
        let later_second = second.wrapping_sub(times.wrapping_mul(next_second));
        second = next_second;
        next_second = later_second;
    }
    Shares {
        divisor,
        first,
        second,
    }
}

/// A number in two's complement, turned round where the other is below 0.
fn with_sign(share: u64, other: i64) -> i64 {
    if other < 0 {
        share.wrapping_neg().cast_signed()
    } else {
        share.cast_signed()
    }
}

/// Whether z is u times v.
fn is_product(u: i64, v: i64, z: i64) -> bool
    ensures { IsTrue result → u *ℤ v ≡ z }
{
    wide_product(u, v) == i128::from(z)
}

/// Whether u times p and v times q are 1 together.
fn make_one(u: i64, p: i64, v: i64, q: i64) -> bool
    ensures { IsTrue result → u *ℤ p +ℤ v *ℤ q ≡ pos 1 }
{
    match wide_product(u, p).checked_add(wide_product(v, q)) {
        Some(sum) => sum == 1,
        None => false,
    }
}
