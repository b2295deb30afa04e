//! The points of a text of lines.

ghost use Rattle.std.specs.Prelude.{◌≡◌, ◌⊎◌, ℕ, List, IfOk, IfSome, IfNone, IsErrAnd, IsErrOf, MatchResult};
ghost use Rattle.geo_exact.specs.declared.corner.Corner.{Corner as CornerValue};
ghost use Rattle.line_files.specs.PointLines.{IsPointLine, ArePoints, IsFirstBadPoint};
ghost use Rattle.line_files.specs.own.ReadLines.{IsLine};
ghost use Rattle.line_files.specs.declared.points.PointsFault.TheVariants.{BadLine, NoMemory};

use crate::grids::{Grid, split_grid};
use crate::text_lines::{is_skipped, split_at_byte, split_line};
use crate::text_numbers::read_corner_on;
use geo_exact::Corner;
use std::alloc::{AllocFailed, Allocator};

/// Why a text is no list of points.
#[derive(Clone, Copy, Debug, PartialEq, Eq)]
pub enum PointsFault {
    /// L1: the first line, counted from 1, that is neither skipped nor a point.
    BadLine(usize),
    /// An allocation failed.
    NoMemory,
}

impl<T: Drop> From<AllocFailed<T>> for PointsFault {
    ghost from_gives = { λ _ fault. fault ≡ NoMemory };

    fn from(_: AllocFailed<T>) -> PointsFault {
        PointsFault::NoMemory
    }
}

/// The points of a text, in order: each line is a point `X Y`, unless it is skipped. Coordinates are in
/// whole millimetres, or in whole centimetres where the text's first line is `grid cm`. That line is
/// counted, and is no point; anywhere else it is a bad one.
///
/// # Errors
///
/// [`PointsFault::BadLine`] with the first line that is neither a point nor skipped, and [`PointsFault::NoMemory`].
///
/// ```
/// // "10 10\n\n60 50\n": two points.
/// let points = read_points(alloc, text)?;
/// ```
pub fn read_points<A: Allocator>(alloc: A, text: &[u8]) -> Result<Vec<Corner, A>, PointsFault>
    ensures points { IfOk result (λ points. ArePoints text.now points.items) }
    ensures bad { (number : ℕ) → IsErrOf result (PointsFault.BadLine number) → IsFirstBadPoint text.now number }
    // A list of points is read, unless memory runs out.
    ensures reads { (points : List CornerValue) → ArePoints text.now points
        → MatchResult result (λ found. found.items ≡ points) (λ fault. fault ≡ NoMemory) }
    // The first bad line is told, unless memory runs out.
    ensures refuses { (number : ℕ) → IsFirstBadPoint text.now number
        → IsErrAnd result (λ fault. (fault ≡ BadLine number) ⊎ (fault ≡ NoMemory)) }
{
    let mut points = Vec::new(alloc);
    let (grid, mut rest) = split_grid(text);
    let mut number = usize::from(grid.is_named());
    while !rest.is_empty() {
        let (line, behind) = split_line(rest);
        rest = behind;
        number += 1;
        match read_line(grid, line) {
            Line::Skipped => {}
            Line::Point(point) => points.push(point)?,
            Line::Bad => return Err(PointsFault::BadLine(number)),
        }
    }
    Ok(points)
}

/// What a line of points is.
enum Line {
    Skipped,
    Point(Corner),
    Bad,
}

/// What a line is, on this grid.
fn read_line(grid: Grid, line: &[u8]) -> Line
    ensures { IsLine grid line.now result }
{
    if is_skipped(line) {
        return Line::Skipped;
    }
    match read_point(grid, line) {
        Some(point) => Line::Point(point),
        None => Line::Bad,
    }
}

/// The point that a line is, on this grid; `None` where it is none.
fn read_point(grid: Grid, line: &[u8]) -> Option<Corner>
    ensures found { IfSome result (IsPointLine grid line.now) }
    ensures none { IfNone result ((corner : CornerValue) → ¬ IsPointLine grid line.now corner) }
{
    let (x, y) = split_at_byte(line, b' ')?;
    read_corner_on(grid, x, y)
}
