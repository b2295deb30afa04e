//! Four words of 64 bits, and products.

ghost use Rattle.std.specs.Prelude.{◌≡◌, ◌+◌, ◌*◌, ◌^◌, ◌<◌};
ghost use Rattle.wide_numbers.specs.Value.{value};

/// How many numbers a word has, 2 ^ 64.
pub const WORD: u128 = 18_446_744_073_709_551_616;

/// A whole number of 256 bits, in four words, the least first.
#[derive(Clone, Copy, Debug, PartialEq, Eq)]
pub struct Wide {
    /// The least word.
    pub a: u64,
    /// The next one, which counts 2 ^ 64 times as much.
    pub b: u64,
    /// The next.
    pub c: u64,
    /// The greatest.
    pub d: u64,
}

/// The two words of a number of 128 bits.
#[derive(Clone, Copy)]
pub struct Words {
    /// The lesser.
    pub low: u64,
    /// The greater, which counts 2 ^ 64 times as much.
    pub high: u64,
}

/// Splits a number into its words.
pub fn words_of(n: u128) -> Words
    ensures { n ≡ result.low + 2 ^ 64 * result.high }
{
    Words {
        low: (n % WORD) as u64,
        high: (n / WORD) as u64,
    }
}

/// A word times a factor, and a carry: no more than two words.
fn carried(word: u64, factor: u64, carry: u64) -> Words
    ensures { word * factor + carry ≡ result.low + 2 ^ 64 * result.high }
{
    words_of(u128::from(word) * u128::from(factor) + u128::from(carry))
}

/// The product of two words, by one multiplication.
fn word_product(m: u128, n: u128) -> Wide
    requires first { m < 2 ^ 64 }
    requires second { n < 2 ^ 64 }
    ensures { value result ≡ m * n }
{
    let words = words_of(m * n);
    Wide {
        a: words.low,
        b: words.high,
        c: 0,
        d: 0,
    }
}

/// The product of two numbers of two words, by the products of the words.
fn wide_product(m: u128, n: u128) -> Wide
    ensures { value result ≡ m * n }
{
    let first = words_of(m);
    let second = words_of(n);
    let a = carried(first.low, second.low, 0);
    let b = carried(first.high, second.low, a.high);
    let c = carried(first.low, second.high, b.low);
    let d = carried(first.high, second.high, c.high);
    let e = words_of(u128::from(d.low) + u128::from(b.high));
    Wide {
        a: a.low,
        b: c.low,
        c: e.low,
        d: d.high + e.high,
    }
}

/// The product of two numbers of 128 bits, exactly.
pub fn product(m: u128, n: u128) -> Wide
    ensures { value result ≡ m * n }
{
    if m < WORD && n < WORD {
        return word_product(m, n);
    }
    wide_product(m, n)
}

impl Wide {
    /// The number times a factor, where the product has no more than 256 bits.
    pub fn times(self, factor: u64) -> Wide
        requires { value self * factor < 2 ^ 256 }
        ensures { value result ≡ value self * factor }
    {
        let a = carried(self.a, factor, 0);
        let b = carried(self.b, factor, a.high);
        let c = carried(self.c, factor, b.high);
        let d = carried(self.d, factor, c.high);
        Wide {
            a: a.low,
            b: b.low,
            c: c.low,
            d: d.low,
        }
    }

    /// The sum of two, where it has no more than 256 bits.
    pub fn plus(self, other: Wide) -> Wide
        requires { value self + value other < 2 ^ 256 }
        ensures { value result ≡ value self + value other }
    {
        let a = words_of(u128::from(self.a) + u128::from(other.a));
        let b = words_of(u128::from(self.b) + u128::from(other.b) + u128::from(a.high));
        let c = words_of(u128::from(self.c) + u128::from(other.c) + u128::from(b.high));
        let d = words_of(u128::from(self.d) + u128::from(other.d) + u128::from(c.high));
        Wide {
            a: a.low,
            b: b.low,
            c: c.low,
            d: d.low,
        }
    }

    /// The number, where it has no more than 128 bits.
    pub fn narrow(self) -> u128
        requires { value self < 2 ^ 128 }
        ensures { result ≡ value self }
    {
        u128::from(self.b) * WORD + u128::from(self.a)
    }
}
