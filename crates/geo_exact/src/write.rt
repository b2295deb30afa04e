//! Coordinates in whole millimetres as doubles.

ghost use Rattle.std.specs.Prelude.{◌≡◌, ◌*◌, ◌^◌, ◌+◌, ◌-◌, ◌<◌, ◌≤◌, ◌*ℤ◌, pos, Ok};
ghost use Rattle.geo_exact.specs.declared.coord.Unit.TheVariants.{Mm};
ghost use Rattle.geo_exact.specs.Doubles.{bits_of, highest_bit as highest_bit_of, whole_bits as whole_bits_of};
ghost use Rattle.geo_exact.specs.Grid.{IsOnGrid, coordinate, scaled_value};
ghost use Rattle.geo_exact.specs.Limit.{IsWithin, limit};

/// The place of the highest 1.
fn highest_bit(size: u64) -> u64
    requires some { 0 < size }
    requires small { size < 2 ^ 53 }
    ensures value { result ≡ highest_bit_of size }
    ensures low { 2 ^ result ≤ size }
    ensures high { size < 2 ^ (result + 1) }
    ensures bound { result ≤ 52 }
{
    63 - u64::from(size.leading_zeros())
}

/// The fraction bits of a size whose highest 1 stands at a place.
fn whole_fraction(size: u64, place: u64) -> u64
    requires low { 2 ^ place ≤ size }
    requires high { size < 2 ^ (place + 1) }
    requires bound { place ≤ 52 }
    ensures value { result ≡ size * 2 ^ (52 - place) - 2 ^ 52 }
    ensures bound { result < 2 ^ 52 }
{
    // Without the highest 1, which a double does not store: 2 ^ 52.
    (size << (52 - place)) - 0x0010_0000_0000_0000
}

/// The double that is exactly a size.
fn whole_bits(size: u64) -> u64
    requires { size < 2 ^ 53 }
    ensures value { result ≡ whole_bits_of size }
    ensures bound { result < 2 ^ 63 }
{
    if size == 0 {
        return 0;
    }
    let place = highest_bit(size);
    ((1023 + place) << 52) + whole_fraction(size, place)
}

/// The double that is exactly a coordinate.
fn coordinate_bits(k: i64) -> u64
    requires { IsWithin limit k }
    ensures { result ≡ bits_of k }
{
    let bits = whole_bits(k.unsigned_abs());
    if k < 0 {
        // The sign bit.
        bits + 0x8000_0000_0000_0000
    } else {
        bits
    }
}

/// The bits of the double that is exactly a coordinate `k` in millimetres (IEEE 754, binary64). 0 is written with
/// sign bit 0.
///
/// [`read_coord`](crate::read_coord) in [`Unit::Mm`](crate::Unit::Mm) reads `k` back.
///
/// ```
/// assert_eq!(write_coord(100), 0x4059000000000000);
/// ```
pub fn write_coord(k: i64) -> u64
    requires { IsWithin limit k }
    ensures value { result ≡ bits_of k }
    ensures exact { scaled_value result ≡ k *ℤ pos (2 ^ 1075) }
    ensures zero { k ≡ pos 0 → result ≡ 0 }
    ensures on_grid { IsOnGrid result Mm k }
    ensures read_back { coordinate result Mm ≡ Ok k }
{
    coordinate_bits(k)
}
