//! The order of corners: by `x`, then by `y`.

ghost use Rattle.std.specs.Prelude.{◌≡◌};
ghost use Rattle.geo_exact.specs.Order.{is_before};

use crate::corner::Corner;

/// Whether `a` comes before `b`, by `x` and then by `y`: what `<` answers.
///
/// ```
/// // (0, 100) comes before (60, 0), and (60, 0) before (60, 100).
/// assert!(comes_before(a, b));
/// ```
pub fn comes_before(a: Corner, b: Corner) -> bool
    ensures { result ≡ is_before a b }
{
    a < b
}
