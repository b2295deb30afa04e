//! Doubles of a file, by their bits.

use std::alloc::{AllocError, Global};

/// Bits of a fraction that are kept: those of each double that is no whole number and off the grid. In metres such a
/// double is above 1/1024 mm, so from 2 ^ -20 on, and its last bit stands 52 places behind its first.
const FRACTION_BITS: u64 = 72;

/// What stands for 1 among these fractions.
const ONE: u128 = 1 << 72;

/// The bits of 180, in degrees. Doubles without a sign are in order as their bits are, as numbers.
const HALF_TURN: u64 = 0x4066_8000_0000_0000;

/// The bits of 90.
const QUARTER_TURN: u64 = 0x4056_8000_0000_0000;

/// The bits of the double at a byte, its least significant byte first.
pub(crate) fn double_at(file: &[u8], at: usize) -> Option<u64> {
    let (_, behind) = file.split_at_checked(at)?;
    let (bytes, _) = behind.split_at_checked(8)?;
    let mut bits: u64 = 0;
    for byte in bytes.iter().rev() {
        bits = (bits << 8) | u64::from(*byte);
    }
    Some(bits)
}

/// The four bytes at a place as a number, its least significant byte first.
pub(crate) fn little_at(file: &[u8], at: usize) -> Option<u32> {
    let (_, behind) = file.split_at_checked(at)?;
    let (bytes, _) = behind.split_at_checked(4)?;
    let mut number: u32 = 0;
    for byte in bytes.iter().rev() {
        number = (number << 8) | u32::from(*byte);
    }
    Some(number)
}

/// The four bytes at a place as a number, its most significant byte first.
pub(crate) fn big_at(file: &[u8], at: usize) -> Option<u32> {
    let (_, behind) = file.split_at_checked(at)?;
    let (bytes, _) = behind.split_at_checked(4)?;
    let mut number: u32 = 0;
    for byte in bytes {
        number = (number << 8) | u32::from(*byte);
    }
    Some(number)
}

/// Whether a double can be a longitude, in degrees.
pub(crate) fn is_longitude(bits: u64) -> bool {
    bits & 0x7FFF_FFFF_FFFF_FFFF <= HALF_TURN
}

/// Whether a double can be a latitude, in degrees.
pub(crate) fn is_latitude(bits: u64) -> bool {
    bits & 0x7FFF_FFFF_FFFF_FFFF <= QUARTER_TURN
}

/// A double as a decimal, with all its digits; `None` for one that is larger than 2 to the 52, or smaller than any that
/// is off the grid.
pub(crate) fn exact_decimal(alloc: Global, bits: u64) -> Result<Option<String>, AllocError> {
    let exponent = (bits >> 52) & 0x7FF;
    if !(1003..1075).contains(&exponent) {
        return Ok(None);
    }
    let significand = (bits & 0x000F_FFFF_FFFF_FFFF) + 0x0010_0000_0000_0000;
    let shift = FRACTION_BITS - (1075 - exponent);
    let scaled = u128::from(significand) << shift;
    let whole = scaled / ONE;
    let sign = if bits >> 63 == 0 { "" } else { "-" };
    let mut text = format!(in alloc; "{sign}{whole}")?;
    push_fraction(&mut text, scaled % ONE)?;
    Ok(Some(text))
}

/// Puts a point and the digits of a fraction behind a text, up to the last that is not 0; nothing where there is none.
fn push_fraction(text: &mut String, fraction: u128) -> Result<(), AllocError> {
    if fraction == 0 {
        return Ok(());
    }
    text.push('.')?;
    let mut rest = fraction;
    for _ in 0..FRACTION_BITS {
        let ten = (rest % ONE) * 10;
        text.push(digit_of(ten / ONE))?;
        rest = ten % ONE;
        if rest == 0 {
            return Ok(());
        }
    }
    Ok(())
}

/// The digit of a number below 10.
fn digit_of(number: u128) -> char {
    match number {
        0 => '0',
        1 => '1',
        2 => '2',
        3 => '3',
        4 => '4',
        5 => '5',
        6 => '6',
        7 => '7',
        8 => '8',
        _ => '9',
    }
}
