//! The cells along one axis: how long they are, and which one a coordinate lies in.

ghost use Rattle.std.specs.Prelude.{◌≡◌, ◌+◌, ◌-◌, ◌<◌, ◌≤◌, ◌↔◌, ℕ, min};
ghost use Rattle.cell_index.specs.declared.axis.TheConstants.{ACROSS};
ghost use Rattle.cell_index.specs.Cells.{distance as distance_of, cell_side as side_of};
ghost use Rattle.cell_index.specs.Cells.{cell_of as cell_along, cells_along, brought_into};

/// How many cells the grid has along each axis.
pub(crate) const ACROSS: usize = 64;

/// The most cells that a box stands in and is still kept in: two columns, or two rows. A strip
/// across the area stands in no more.
pub(crate) const MOST_CELLS: usize = 128;

/// How far `to` is above `from`, in millimetres; 0 where it is not.
fn distance(from: i64, to: i64) -> u64
    ensures { result ≡ distance_of from to }
{
    if from < to { to.abs_diff(from) } else { 0 }
}

/// The side of a cell along an axis on which the area goes from `low` to `high`, in millimetres.
fn cell_side(low: i64, high: i64) -> u64
    ensures { result ≡ side_of low high }
{
    // One more than the share, so that the high end lies in the last cell.
    distance(low, high) / 64 + 1
}

/// The cell along that axis that `z` is in, or 64 where it is further up than the area's cells.
pub fn cell_of(low: i64, high: i64, z: i64) -> usize
    ensures { result ≡ min ACROSS (cell_along low high z) }
{
    let cell = distance(low, z) / cell_side(low, high);
    cell.min(64) as usize
}

/// Brings `z` into the range from `low` to `high`, to the nearer end where it lies outside.
pub fn into_range(low: i64, high: i64, z: i64) -> i64
    ensures { result ≡ brought_into low high z }
{
    low.max(high.min(z))
}

/// Cells of the grid that follow one another along an axis.
#[derive(Clone, Copy)]
pub struct Span {
    /// The first of them.
    pub first: usize,
    /// How many they are.
    pub count: usize,
    pub ghost is_in_grid: { first + count ≤ ACROSS },
}

/// The cells of the grid from one to another; none where the first comes after the last.
fn cells_between(first: usize, last: usize) -> Span
    ensures count { result.count ≡ min ACROSS (last + 1) - min ACROSS first }
    ensures cells { (i : ℕ) → i < ACROSS
        → ((result.first ≤ i) × (i < result.first + result.count)) ↔ ((first ≤ i) × (i ≤ last)) }
{
    let begin = first.min(ACROSS);
    let last = last.min(ACROSS - 1);
    Span {
        first: begin,
        count: (last + 1).saturating_sub(begin),
    }
}

/// The cells along an axis from the one that a coordinate is in to the one that another is in.
pub fn cells_from_to(low: i64, high: i64, from: i64, to: i64) -> Span
    ensures count { result.count ≡ cells_along low high from to }
    ensures cells { (i : ℕ) → i < ACROSS → ((result.first ≤ i) × (i < result.first + result.count))
        ↔ ((cell_along low high from ≤ i) × (i ≤ cell_along low high to)) }
{
    cells_between(cell_of(low, high, from), cell_of(low, high, to))
}
