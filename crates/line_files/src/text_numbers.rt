//! Numbers in texts.

ghost use Rattle.std.specs.Prelude.{◌≡◌, ℕ, ℤ, pos, ◌*◌, ◌≤◌, length, IfSome, IfNone};
ghost use Rattle.std.specs.Str.Parse.{AllDigits, digits_value};
ghost use Rattle.geo_exact.specs.declared.corner.Corner.{Corner as CornerValue};
ghost use Rattle.geo_exact.specs.Limit.{IsWithin, limit};
ghost use Rattle.line_files.specs.Grids.{step};
ghost use Rattle.line_files.specs.TextNumbers.{IsNumber, IsCoordinate, IsCornerText};
ghost use Rattle.line_files.specs.declared.grids.Grid.TheVariants.{Millimetres};
ghost use Rattle.line_files.specs.declared.text_numbers.TheConstants.{MOST_DIGITS};

use crate::grids::Grid;
use geo_exact::{Corner, LIMIT};

/// The most digits of a number in a text: each number of so many fits 64 bits, and not each of one more.
pub const MOST_DIGITS: usize = 19;

/// A number in a text has at most 19 digits, and not one fewer.
pub fn a_number_has_at_most_so_many_digits()
    ensures { MOST_DIGITS ≡ 19 }
{}

/// The corner with these two coordinates, in whole millimetres; `None` where one is no number or beyond the limit.
pub fn read_corner(x: &[u8], y: &[u8]) -> Option<Corner>
    ensures found { IfSome result (IsCornerText Millimetres x.now y.now) }
    ensures none { IfNone result ((corner : CornerValue) → ¬ IsCornerText Millimetres x.now y.now corner) }
{
    read_corner_on(Grid::Millimetres, x, y)
}

/// The corner with these two coordinates, on this grid; `None` where one is no number or beyond the limit.
pub fn read_corner_on(grid: Grid, x: &[u8], y: &[u8]) -> Option<Corner>
    ensures found { IfSome result (IsCornerText grid x.now y.now) }
    ensures none { IfNone result ((corner : CornerValue) → ¬ IsCornerText grid x.now y.now corner) }
{
    let x = read_coordinate(grid, x)?;
    let y = read_coordinate(grid, y)?;
    Some(Corner { x, y })
}

/// The coordinate that a text is, on this grid; `None` where it is no number, or one beyond the limit.
fn read_coordinate(grid: Grid, text: &[u8]) -> Option<i64>
    ensures found { IfSome result (λ z. IsCoordinate grid text.now z × IsWithin limit z) }
    ensures none { IfNone result ((z : ℤ) → IsWithin limit z → ¬ IsCoordinate grid text.now z) }
{
    let (first, digits) = text.split_first()?;
    if *first == b'-' {
        Some(-read_distance(grid, digits)?)
    } else {
        read_distance(grid, text)
    }
}

/// The distance from 0 that digits are, in millimetres; `None` where they are none, or beyond the limit.
fn read_distance(grid: Grid, digits: &[u8]) -> Option<i64>
    ensures found { IfSome result (λ z. (n : ℕ) × (z ≡ pos (step grid * n)) × IsNumber digits.now n
        × IsWithin limit z) }
    ensures none { IfNone result ((n : ℕ) → IsWithin limit (pos (step grid * n)) → ¬ IsNumber digits.now n) }
{
    let number = read_number(digits)?;
    let step = grid.step();
    if number <= LIMIT.unsigned_abs() / step {
        Some((step * number) as i64)
    } else {
        None
    }
}

/// The number that 1 to 19 digits are; `None` for any other text.
pub fn read_number(digits: &[u8]) -> Option<u64>
    ensures found { IfSome result (IsNumber digits.now) }
    ensures none { IfNone result ((n : ℕ) → ¬ IsNumber digits.now n) }
{
    if digits.is_empty() || digits.len() > MOST_DIGITS {
        return None;
    }
    value_of(digits)
}

/// The number that so few digits are; `None` where a byte is no digit.
fn value_of(digits: &[u8]) -> Option<u64>
    requires { length digits.now ≤ MOST_DIGITS }
    ensures found { IfSome result (λ n. AllDigits 10 digits.now × (n ≡ digits_value 10 digits.now)) }
    ensures none { IfNone result (¬ AllDigits 10 digits.now) }
{
    let mut value: u64 = 0;
    for byte in digits {
        let digit = char::from(*byte).to_digit(10)?;
        value = value * 10 + u64::from(digit);
    }
    Some(value)
}
