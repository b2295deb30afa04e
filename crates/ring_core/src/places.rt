//! Numbers round a ring: the following and the preceding one.

ghost use Rattle.std.specs.Prelude.{◌≡◌, ◌<◌};
ghost use Rattle.geo_exact.specs.Places.{after, before};
ghost use Rattle.ring_core.specs.own.Blocks.{number_less};

/// The number that follows `i` round a ring of `count` corners.
pub fn following(count: usize, i: usize) -> usize
    requires { i < count }
    ensures { result ≡ after count i }
{
    if i + 1 == count { 0 } else { i + 1 }
}

/// The number that `i` follows round a ring of `count` corners.
pub fn preceding(count: usize, i: usize) -> usize
    requires { i < count }
    ensures { result ≡ before count i }
{
    if i == 0 { count - 1 } else { i - 1 }
}

/// What number `n` is once number `k` went.
pub fn renumbered(k: usize, n: usize) -> usize
    ensures { result ≡ number_less k n }
{
    if k < n { n - 1 } else { n }
}
