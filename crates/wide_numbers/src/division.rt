//! Quotients of wide numbers, rounded down.

ghost use Rattle.std.specs.Prelude.{◌≡◌, ◌+◌, ◌*◌, ◌^◌, ◌<◌, ◌/◌};
ghost use Rattle.wide_numbers.specs.Value.{value};

use crate::wide::{WORD, Wide, words_of};

/// How many numbers half a word has, 2 ^ 32.
const HALF: u64 = 4_294_967_296;

/// A part of a quotient, and what is left to divide.
#[derive(Clone, Copy)]
struct Shared {
    quotient: u64,
    rest: u128,
}

/// Divides what is left and the next half word.
fn half_shared(rest: u128, half: u64, divisor: u128) -> Shared
    requires left { rest < divisor }
    requires half { half < 2 ^ 32 }
    requires divisor { divisor < 2 ^ 96 }
    ensures exact { rest * 2 ^ 32 + half ≡ result.quotient * divisor + result.rest }
    ensures left { result.rest < divisor }
    ensures half { result.quotient < 2 ^ 32 }
{
    // It fits: what is left is below the divisor, so below 2 ^ 96.
    let whole = rest * u128::from(HALF) + u128::from(half);
    Shared {
        quotient: (whole / divisor) as u64,
        rest: whole % divisor,
    }
}

/// Divides what is left and the next word, by a divisor of one word.
fn word_shared_by_word(rest: u128, word: u64, divisor: u128) -> Shared
    requires left { rest < divisor }
    requires divisor { divisor < 2 ^ 64 }
    ensures exact { rest * 2 ^ 64 + word ≡ result.quotient * divisor + result.rest }
    ensures left { result.rest < divisor }
{
    let whole = rest * WORD + u128::from(word);
    let quotient = whole / divisor;
    Shared {
        quotient: quotient as u64,
        rest: whole - quotient * divisor,
    }
}

/// Divides what is left and the next word.
fn word_shared(rest: u128, word: u64, divisor: u128) -> Shared
    requires left { rest < divisor }
    requires divisor { divisor < 2 ^ 96 }
    ensures exact { rest * 2 ^ 64 + word ≡ result.quotient * divisor + result.rest }
    ensures left { result.rest < divisor }
{
    if divisor < WORD {
        return word_shared_by_word(rest, word, divisor);
    }
    let high = half_shared(rest, word / HALF, divisor);
    let low = half_shared(high.rest, word % HALF, divisor);
    Shared {
        quotient: high.quotient * HALF + low.quotient,
        rest: low.rest,
    }
}

/// A quotient, rounded down, and what is left.
#[derive(Clone, Copy, Debug, PartialEq, Eq)]
pub struct Quotient {
    /// How often the divisor goes into the number.
    pub whole: Wide,
    /// What is left, less than the divisor.
    pub rest: u128,
}

/// The quotient of a number of two words, and what is left: one division and one product.
fn narrow_shared(dividend: u128, divisor: u128) -> Quotient
    requires some { 0 < divisor }
    ensures exact { dividend ≡ value result.whole * divisor + result.rest }
    ensures left { result.rest < divisor }
{
    let quotient = dividend / divisor;
    let words = words_of(quotient);
    Quotient {
        whole: Wide {
            a: words.low,
            b: words.high,
            c: 0,
            d: 0,
        },
        rest: dividend - quotient * divisor,
    }
}

/// The quotient of a number of four words, word by word, and what is left.
fn wide_shared(dividend: Wide, divisor: u128) -> Quotient
    requires some { 0 < divisor }
    requires small { divisor < 2 ^ 96 }
    ensures exact { value dividend ≡ value result.whole * divisor + result.rest }
    ensures left { result.rest < divisor }
{
    let d = word_shared(0, dividend.d, divisor);
    let c = word_shared(d.rest, dividend.c, divisor);
    let b = word_shared(c.rest, dividend.b, divisor);
    let a = word_shared(b.rest, dividend.a, divisor);
    let whole = Wide {
        a: a.quotient,
        b: b.quotient,
        c: c.quotient,
        d: d.quotient,
    };
    Quotient {
        whole,
        rest: a.rest,
    }
}

/// The quotient of a wide number by a divisor of up to 96 bits, and what is left.
pub fn divided_with_rest(dividend: Wide, divisor: u128) -> Quotient
    requires some { 0 < divisor }
    requires small { divisor < 2 ^ 96 }
    ensures exact { value dividend ≡ value result.whole * divisor + result.rest }
    ensures left { result.rest < divisor }
{
    if dividend.c == 0 && dividend.d == 0 {
        return narrow_shared(dividend.narrow(), divisor);
    }
    wide_shared(dividend, divisor)
}

/// The quotient of a wide number, rounded down, by a divisor of up to 96 bits.
pub fn divided(dividend: Wide, divisor: u128) -> Wide
    requires some { 0 < divisor }
    requires small { divisor < 2 ^ 96 }
    ensures { value result ≡ value dividend / divisor }
{
    divided_with_rest(dividend, divisor).whole
}
