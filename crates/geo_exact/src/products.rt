//! Exact products of differences of coordinates.

ghost use Rattle.std.specs.Prelude.{◌≡◌, ◌*ℤ◌};

/// The exact product.
pub fn wide_product(u: i64, v: i64) -> i128
    ensures { result ≡ u *ℤ v }
{
    i128::from(u) * i128::from(v)
}
