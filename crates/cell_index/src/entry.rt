//! A key with its box, as a cell keeps it.

ghost use Rattle.std.specs.Prelude.{◌≡◌};
ghost use Rattle.cell_index.specs.Cells.{is_same_entry};

use geo_exact::Bounds;

/// A key with its box beside it: of a fabric's parcel the key in its table, and the box of its ring. Coordinates are in
/// whole millimetres.
#[derive(Clone, Copy, Debug, PartialEq, Eq)]
pub struct IndexEntry {
    /// What the entry stands for, as its owner numbers it.
    pub key: usize,
    /// The box that says in which cells the entry stands.
    pub bounds: Bounds,
}

impl Default for IndexEntry {
    /// An entry with a box that holds no corner.
    fn default() -> IndexEntry {
        IndexEntry {
            key: 0,
            bounds: Bounds::nowhere(),
        }
    }
}

/// Whether two entries have the same key and the same box.
pub(crate) fn is_entry(a: &IndexEntry, b: &IndexEntry) -> bool
    ensures { result ≡ is_same_entry a.now b.now }
{
    if a.key != b.key {
        return false;
    }
    a.bounds.low == b.bounds.low && a.bounds.high == b.bounds.high
}
