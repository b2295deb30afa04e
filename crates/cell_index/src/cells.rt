//! One cell's list of entries, and room for more in each of some cells.

ghost use Rattle.std.specs.Prelude.{◌≡◌, length, not, OnOk};
ghost use Rattle.std.specs.List.{filter};
ghost use Rattle.cell_index.specs.Cells.{is_same_entry};
ghost use Rattle.cell_index.specs.own.Ranges.{place_count, contents, HaveRoom, KeepRoom};
ghost use Rattle.cell_index.specs.own.Ranges.{IsChanged, with_entry, passing};

use crate::entry::{IndexEntry, is_entry};
use crate::places::Places;
use smallvec::SmallVec;
use std::alloc::{AllocError, Allocator};

/// What is kept in one cell. Four entries lie in the cell itself: most cells over a town of a
/// thousand parcels have no more, and need no memory of their own.
pub type Cell<'a, H> = SmallVec<IndexEntry, 4, &'a H>;

/// Makes room for `count` more entries in each of some cells. What is kept in them does not change,
/// also where memory is refused.
pub fn make_room<'a, H: Allocator>(
    cells: &mut [Cell<'a, H>],
    places: Places,
    count: usize,
) -> Result<(), AllocError>
    requires { length cells.old ≡ 4097 }
    ensures kept { contents cells.new ≡ contents cells.old }
    ensures room { OnOk result (HaveRoom places (place_count places) count cells.new) }
    ensures no_less { KeepRoom cells.old cells.new }
{
    for n in 0..places.count() {
        cells[places.number(n)].reserve(count)?;
    }
    Ok(())
}

/// Adds an entry to each of some cells, which have room.
pub fn push_all<'a, H: Allocator>(cells: &mut [Cell<'a, H>], places: Places, entry: IndexEntry)
    requires all { length cells.old ≡ 4097 }
    requires room { HaveRoom places (place_count places) 1 cells.old }
    ensures { IsChanged places (place_count places) (with_entry entry) cells.old cells.new }
{
    for n in 0..places.count() {
        cells[places.number(n)].push_reserved(entry);
    }
}

/// Takes an entry out of one cell.
fn take_from<'a, H: Allocator>(cell: &mut Cell<'a, H>, gone: IndexEntry)
    ensures items { cell.new.items ≡ filter (λ entry. not (is_same_entry entry gone)) cell.old.items }
    ensures capacity { cell.new.capacity ≡ cell.old.capacity }
{
    cell.retain(|entry| !is_entry(entry, &gone));
}

/// Takes an entry out of each of some cells.
pub fn take_out<'a, H: Allocator>(cells: &mut [Cell<'a, H>], places: Places, gone: IndexEntry)
    requires { length cells.old ≡ 4097 }
    ensures { IsChanged places (place_count places) (passing (λ entry. not (is_same_entry entry gone)))
        cells.old cells.new }
{
    for n in 0..places.count() {
        take_from(&mut cells[places.number(n)], gone);
    }
}
