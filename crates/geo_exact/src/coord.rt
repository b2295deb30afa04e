//! Coordinates: a double and a unit as whole millimetres, or why it is none.

ghost use Rattle.std.specs.Prelude.{◌≡◌, ◌↔◌, ℕ, ◌+◌, ◌*◌, ◌^◌, ◌<◌, ◌≤◌, max, ℤ, Ok, Err, IfOk, IfErr, IfSome};
ghost use Rattle.geo_exact.specs.Grid.{IsOnGrid, IsCoordFault, coordinate, size_of};
ghost use Rattle.geo_exact.specs.Grid.{millimetres as millimetres_of, exponent_field, magnitude};
ghost use Rattle.geo_exact.specs.Limit.{IsWithin, limit};

use crate::limits::LIMIT;

/// The unit in which a file's coordinates are meant. The double 12.34 is 12,340 mm where they are metres; where they
/// are millimetres or centimetres it is off the grid.
#[derive(Clone, Copy, Debug, PartialEq, Eq)]
pub enum Unit {
    /// Millimetres.
    Mm,
    /// Centimetres.
    Cm,
    /// Metres.
    M,
}

/// Why a double is no coordinate.
#[derive(Clone, Copy, Debug, PartialEq, Eq)]
pub enum CoordFault {
    /// C1: an infinity or a not-a-number.
    NotNumber,
    /// C2: no whole millimetre is within 1/1024 mm.
    OffGrid,
    /// C3: beyond [`LIMIT`](crate::LIMIT).
    TooFar,
}

fn millimetres(unit: Unit) -> u64
    ensures { result ≡ millimetres_of unit }
{
    match unit {
        Unit::Mm => 1,
        Unit::Cm => 10,
        Unit::M => 1_000,
    }
}

fn exponent(bits: u64) -> u64
    ensures { result ≡ exponent_field bits }
{
    (bits >> 52) & 0x7FF
}

/// The fraction with its leading bit, where the double is no subnormal: its absolute value is that significand times
/// `2 ^ (exponent - 1075)`.
fn normal_significand(bits: u64) -> u64
    requires { 0 < exponent_field bits }
    ensures value { result * 2 ^ max 1 (exponent_field bits) ≡ magnitude bits }
    ensures bound { result < 2 ^ 53 }
{
    (bits & 0x000F_FFFF_FFFF_FFFF) + 0x0010_0000_0000_0000
}

/// The same for any double: its absolute value is the significand times `2 ^ (max(1, exponent) - 1075)`.
fn significand(bits: u64) -> u64
    ensures value { result * 2 ^ max 1 (exponent_field bits) ≡ magnitude bits }
    ensures bound { result < 2 ^ 53 }
{
    if exponent(bits) == 0 {
        bits & 0x000F_FFFF_FFFF_FFFF
    } else {
        normal_significand(bits)
    }
}

/// The quotient `numerator / 2 ^ shift`, where it is whole.
fn whole_quotient(numerator: u64, shift: u64) -> Option<u64>
    ensures { IfSome result (λ whole. whole * 2 ^ shift ≡ numerator) }
{
    if shift >= 64 {
        return None;
    }
    let whole = numerator >> shift;
    if whole << shift == numerator {
        Some(whole)
    } else {
        None
    }
}

/// The whole number within 1/1024 of `numerator / 2 ^ shift`.
fn near_size(numerator: u64, shift: u64) -> Result<u64, CoordFault>
    requires small { numerator < 2 ^ 63 }
    ensures value { result ≡ size_of numerator (2 ^ shift) }
    ensures bound { IfOk result (λ size. size ≤ limit) }
{
    // Below 2 ^ 63 / 2 ^ 74 = 1/2048: the nearest whole number is 0, and near enough.
    if shift >= 74 {
        return Ok(0);
    }
    let numerator = u128::from(numerator);
    let denominator = 1u128 << shift;
    let nearest = (2 * numerator + denominator) >> (shift + 1);
    if numerator.abs_diff(nearest * denominator) * 1024 > denominator {
        return Err(CoordFault::OffGrid);
    }
    if nearest > LIMIT as u128 {
        return Err(CoordFault::TooFar);
    }
    Ok(nearest as u64)
}

/// The coordinate of a double of a size from 1 to `2 ^ 52` where it is a whole number of
/// millimetres within the limit: of those of a file nearly all are.
fn whole_coordinate(bits: u64, unit: Unit) -> Option<i64>
    ensures { IfSome result (λ k. coordinate bits unit ≡ Ok k) }
{
    let exponent = exponent(bits);
    if !(1023..1075).contains(&exponent) {
        return None;
    }
    let numerator = millimetres(unit) * normal_significand(bits);
    let whole = whole_quotient(numerator, 1075 - exponent)?;
    if whole > LIMIT as u64 {
        return None;
    }
    let size = whole as i64;
    Some(if bits >> 63 == 0 { size } else { -size })
}

/// The coordinate of any double. It stands apart, so that its 128-bit steps take no registers from
/// the loop that reads whole numbers.
#[inline(never)]
fn signed_coordinate(bits: u64, unit: Unit) -> Result<i64, CoordFault>
    ensures { result ≡ coordinate bits unit }
{
    let exponent = exponent(bits);
    // The exponent of infinities and of what is not a number.
    if exponent == 2047 {
        return Err(CoordFault::NotNumber);
    }
    // From 2 ^ 52 on, which is beyond the limit in each unit; and below it the shift is positive.
    if exponent >= 1075 {
        return Err(CoordFault::TooFar);
    }
    let numerator = millimetres(unit) * significand(bits);
    let size = near_size(numerator, 1075 - exponent.max(1))? as i64;
    Ok(if bits >> 63 == 0 { size } else { -size })
}

/// The coordinate by the short way, or else by the other.
fn any_coordinate(bits: u64, unit: Unit) -> Result<i64, CoordFault>
    ensures { result ≡ coordinate bits unit }
{
    match whole_coordinate(bits, unit) {
        Some(k) => Ok(k),
        None => signed_coordinate(bits, unit),
    }
}

/// The whole millimetre that the double with these bits is meant for.
///
/// With `s` the millimetres of the unit, a value `v` is read as `k` where `s * v` is within 1/1024 of it
/// (IEEE 754, binary64: 1 sign bit, 11 exponent bits, 52 fraction bits). Subnormals and minus zero are 0.
///
/// # Errors
///
/// [`CoordFault::NotNumber`] for an infinity or a not-a-number, [`CoordFault::OffGrid`] where there is no such
/// `k`, [`CoordFault::TooFar`] where it is beyond [`LIMIT`](crate::LIMIT).
///
/// ```
/// assert_eq!(read_coord(0x4028AE147AE147AE, Unit::M), Ok(12340)); // 12.34 m
/// assert_eq!(read_coord(0x3F40000000000000, Unit::M), Err(CoordFault::OffGrid)); // 1/2048 m
/// ```
pub fn read_coord(bits: u64, unit: Unit) -> Result<i64, CoordFault>
    ensures exact { result ≡ coordinate bits unit }
    ensures on_grid { IfOk result (λ k. IsOnGrid bits unit k) }
    ensures within { IfOk result (λ k. IsWithin limit k) }
    ensures accepted { (k : ℤ) → IsOnGrid bits unit k → IsWithin limit k → result ≡ Ok k }
    ensures refused { IfErr result (IsCoordFault bits unit) }
    ensures fault { (f : CoordFault) → IsCoordFault bits unit f → result ≡ Err f }
{
    any_coordinate(bits, unit)
}

/// A double is on the grid at one whole millimetre at most.
#[tactic(auto, using(crate::proofs::doubles::Coordinates::one_fits))]
pub fn one_millimetre_fits()
    ensures { (bits : ℕ) (unit : Unit) (k l : ℤ) → IsOnGrid bits unit k → IsOnGrid bits unit l → k ≡ l }
{}

/// `coordinate` answers `k` exactly where the double is on the grid at `k`, within the limit.
pub fn coordinates_are_on_the_grid()
    ensures { (bits : ℕ) (unit : Unit) (k : ℤ)
        → (coordinate bits unit ≡ Ok k) ↔ (IsOnGrid bits unit k × IsWithin limit k) }
{}

/// `coordinate` answers a fault exactly where it is the double's.
#[tactic(auto, using(crate::proofs::doubles::Coordinates::refused_iff))]
pub fn coordinate_faults_are_exact()
    ensures { (bits : ℕ) (unit : Unit) (f : CoordFault) → (coordinate bits unit ≡ Err f) ↔ IsCoordFault bits unit f }
{}
