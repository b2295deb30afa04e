//! Where an entry is kept: in each cell of its box, or beside the cells where its box is wide.

ghost use Rattle.std.specs.Prelude.{◌≡◌, ◌<◌, ◌≤◌, ◌↔◌, ℕ, IsTrue};
ghost use Rattle.cell_index.specs.own.Ranges.{is_kept_in, place_count, place_at, HasPlace};

use crate::axis::{ACROSS, MOST_CELLS};
use crate::range::{CellRange, cells_of};
use geo_exact::Bounds;

/// The number of the cell that the entries with wide boxes are kept in, behind those of the grid.
pub(crate) const WIDE_CELL: usize = ACROSS * ACROSS;

/// The cells that an entry is kept in.
#[derive(Clone, Copy)]
pub enum Places {
    /// Those of the grid where its box stands.
    Cells(CellRange),
    /// The one of the wide boxes.
    Wide,
}

/// The cells that an entry with this box is kept in.
pub fn places_of(area: Bounds, bounds: Bounds) -> Places
    ensures { (k : ℕ) → k ≤ WIDE_CELL → HasPlace result k ↔ IsTrue (is_kept_in area k bounds) }
{
    let range = cells_of(area, bounds);
    if range.count() > MOST_CELLS {
        Places::Wide
    } else {
        Places::Cells(range)
    }
}

impl Places {
    /// How many cells they are.
    pub fn count(self) -> usize
        ensures { result ≡ place_count self }
    {
        match self {
            Places::Cells(range) => range.count(),
            Places::Wide => 1,
        }
    }

    /// The number of the `n`-th of them.
    pub fn number(self, n: usize) -> usize
        requires { n < place_count self }
        ensures value { result ≡ place_at self n }
        ensures kept { result ≤ WIDE_CELL }
    {
        match self {
            Places::Cells(range) => range.number(n),
            Places::Wide => WIDE_CELL,
        }
    }
}
