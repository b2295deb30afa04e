//! Entries of many cells at once: room for them, taking them out, and adding them.

ghost use Rattle.std.specs.Prelude.{◌≡◌, ◌++◌, length, ℕ, List, OnOk};
ghost use Rattle.cell_index.specs.declared.entry.IndexEntry.{IndexEntry};
ghost use Rattle.cell_index.specs.Cells.{without};
ghost use Rattle.cell_index.specs.own.Ranges.{contents, HaveRoomForAll, Keeps};

use crate::cells::{Cell, make_room, push_all, take_out};
use crate::entry::IndexEntry;
use crate::places::places_of;
use geo_exact::Bounds;
use std::alloc::{AllocError, Allocator};

/// Makes room for so many entries in each cell that some entries will be kept in. What is kept does
/// not change, also where memory is refused.
pub fn make_room_for_all<'a, H: Allocator>(
    cells: &mut [Cell<'a, H>],
    area: Bounds,
    come: &[IndexEntry],
) -> Result<(), AllocError>
    requires { length cells.old ≡ 4097 }
    ensures kept { contents cells.new ≡ contents cells.old }
    ensures room { OnOk result (HaveRoomForAll area come.now (length come.now) cells.new) }
{
    for entry in come {
        make_room(cells, places_of(area, entry.bounds), come.len())?;
    }
    Ok(())
}

/// Takes entries out of all cells that they are kept in. No cell has less room than before.
pub fn take_all_out<'a, H: Allocator>(cells: &mut [Cell<'a, H>], area: Bounds, gone: &[IndexEntry])
    requires { length cells.old ≡ 4097 }
    ensures kept { (entries : List IndexEntry) → Keeps area cells.old entries
        → Keeps area cells.new (without gone.now entries) }
    ensures room { (come : List IndexEntry) (count : ℕ) → HaveRoomForAll area come count cells.old
        → HaveRoomForAll area come count cells.new }
{
    for entry in gone {
        take_out(cells, places_of(area, entry.bounds), *entry);
    }
}

/// Adds entries to all cells that they will be kept in, which have room for all of them.
pub fn push_all_in<'a, H: Allocator>(cells: &mut [Cell<'a, H>], area: Bounds, come: &[IndexEntry])
    requires all { length cells.old ≡ 4097 }
    requires room { HaveRoomForAll area come.now (length come.now) cells.old }
    ensures { (entries : List IndexEntry) → Keeps area cells.old entries → Keeps area cells.new (entries ++ come.now) }
{
    for entry in come {
        push_all(cells, places_of(area, entry.bounds), *entry);
    }
}
