//! The cells of a box, as a range of columns and a range of rows.

ghost use Rattle.std.specs.Prelude.{◌≡◌, ◌+◌, ◌<◌, ◌↔◌, ℕ, IsTrue};
ghost use Rattle.cell_index.specs.Cells.{cell_of as cell_along, box_cells, stands_in, IsCellBetween};
ghost use Rattle.cell_index.specs.own.Ranges.{HasCell, cell_count, column_at, row_at, number_at};
ghost use Rattle.cell_index.specs.own.Ranges.{is_first_at, is_first_common as first_common, common_along, has_some_of};
ghost use Rattle.cell_index.specs.declared.axis.TheConstants.{ACROSS};

use crate::axis::{ACROSS, Span, cell_of, cells_from_to, into_range};
use geo_exact::{Bounds, Corner};

/// The cells that some columns and some rows of the grid have in common: six of two columns and three rows.
#[derive(Clone, Copy)]
pub struct CellRange {
    /// The columns.
    pub columns: Span,
    /// The rows.
    pub rows: Span,
}

/// The cells that a box stands in.
pub fn cells_of(area: Bounds, bounds: Bounds) -> CellRange
    ensures count { cell_count result ≡ box_cells area bounds }
    ensures cells { (i j : ℕ) → i < ACROSS → j < ACROSS → HasCell result i j ↔ IsTrue (stands_in area i j bounds) }
{
    CellRange {
        columns: cells_from_to(area.low.x, area.high.x, bounds.low.x, bounds.high.x),
        rows: cells_from_to(area.low.y, area.high.y, bounds.low.y, bounds.high.y),
    }
}

/// The cells between those of two corners, these included, when both corners are brought into the area.
pub fn cells_toward(area: Bounds, low: Corner, high: Corner) -> CellRange
    ensures { (i j : ℕ) → i < ACROSS → j < ACROSS → HasCell result i j ↔ IsCellBetween area low high i j }
{
    let west = into_range(area.low.x, area.high.x, low.x);
    let south = into_range(area.low.y, area.high.y, low.y);
    let east = into_range(area.low.x, area.high.x, high.x);
    let north = into_range(area.low.y, area.high.y, high.y);
    CellRange {
        columns: cells_from_to(area.low.x, area.high.x, west, east),
        rows: cells_from_to(area.low.y, area.high.y, south, north),
    }
}

/// Whether cell `i` along an axis, from `first` on, is the first in common with the cells from that of `z` on.
fn is_first_common(first: usize, i: usize, low: i64, high: i64, z: i64) -> bool
    requires { i < ACROSS }
    ensures { result ≡ first_common first (cell_along low high z) i }
{
    i == first || i == cell_of(low, high, z)
}

/// Whether some cells of a span along an axis are among those from the one that `from` is in to the
/// one that `to` is in.
fn have_common(span: Span, low: i64, high: i64, from: i64, to: i64) -> bool
    ensures { result ≡ common_along span (cell_along low high from) (cell_along low high to) }
{
    let first = span.first.max(cell_of(low, high, from));
    let end = (span.first + span.count).min(cell_of(low, high, to) + 1);
    first < end
}

impl CellRange {
    /// How many cells there are.
    pub fn count(self) -> usize
        ensures { result ≡ cell_count self }
    {
        self.columns.count * self.rows.count
    }

    /// The column of the `n`-th cell.
    fn column(self, n: usize) -> usize
        requires { n < cell_count self }
        ensures value { result ≡ column_at self n }
        ensures in_grid { result < ACROSS }
    {
        self.columns.first + n / self.rows.count
    }

    /// The row of the `n`-th cell.
    fn row(self, n: usize) -> usize
        requires { n < cell_count self }
        ensures value { result ≡ row_at self n }
        ensures in_grid { result < ACROSS }
    {
        self.rows.first + n % self.rows.count
    }

    /// Whether the `n`-th cell is the first, in both directions, that the range has in common with
    /// the cells of a box that stands there.
    pub fn is_first(self, area: Bounds, n: usize, bounds: Bounds) -> bool
        requires { n < cell_count self }
        ensures { result ≡ is_first_at area self n bounds }
    {
        is_first_common(
            self.columns.first,
            self.column(n),
            area.low.x,
            area.high.x,
            bounds.low.x,
        ) && is_first_common(
            self.rows.first,
            self.row(n),
            area.low.y,
            area.high.y,
            bounds.low.y,
        )
    }

    /// Whether a box stands in some cell of the range.
    pub fn has_some_of(self, area: Bounds, bounds: Bounds) -> bool
        ensures { result ≡ has_some_of area self bounds }
    {
        have_common(
            self.columns,
            area.low.x,
            area.high.x,
            bounds.low.x,
            bounds.high.x,
        ) && have_common(
            self.rows,
            area.low.y,
            area.high.y,
            bounds.low.y,
            bounds.high.y,
        )
    }

    /// The number of the `n`-th cell among all of the grid.
    pub fn number(self, n: usize) -> usize
        requires { n < cell_count self }
        ensures value { result ≡ number_at self n }
        ensures in_grid { result < 4096 }
    {
        ACROSS * self.column(n) + self.row(n)
    }
}
