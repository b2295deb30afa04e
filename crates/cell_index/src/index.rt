//! The index: which boxes stand in which cells of a grid over an area.

ghost use Rattle.std.specs.Prelude.{◌≡◌, ◌≢◌, ◌↔◌, ℕ, List, [], ◌∷◌, ◌++◌, map, IfOk, OnOk, OnErr};
ghost use Rattle.std.specs.List.{filter, Contains, AllPairs};
ghost use Rattle.geo_exact.specs.Bounds.{HoldsCorner};
ghost use Rattle.cell_index.specs.declared.entry.IndexEntry.{IndexEntry};
ghost use Rattle.cell_index.specs.Cells.{stands_at, wide, narrow, Indexes, without, HaveOwnKeys, IsKeyBetween};
ghost use Rattle.cell_index.specs.own.Ranges.{cell_count, gathered, has_some_of};

use crate::axis::{ACROSS, cell_of};
use crate::batch::{make_room_for_all, push_all_in, take_all_out};
use crate::cells::{Cell, make_room, push_all, take_out};
use crate::entry::IndexEntry;
use crate::places::{WIDE_CELL, places_of};
use crate::range::{CellRange, cells_toward};
use geo_exact::{Bounds, Corner};
use smallvec::SmallVec;
use std::alloc::{AllocError, Allocator};
use std::marker::Model;

/// Which boxes stand in which cells of a grid of 64 by 64 cells over an area. Contracts see the
/// area and what stands in each cell.
///
/// A cell is `(high - low) / 64 + 1` millimetres wide, whole division, and likewise high. A box
/// stands in the cells between those of its two corners, these included. An entry is kept in each
/// cell where its box stands, its key and its box side by side; but where these are more than 128
/// cells, the box is wide, and its entry is kept once, beside the cells. So a search reads one cell
/// and what is beside the cells. The memory is that of the heap that was lent.
#[derive(Drop)]
pub struct CellIndex<'a, H: Allocator> {
    area: Bounds,
    /// The cells of the grid, column by column, and the one of the wide boxes.
    cells: Vec<Cell<'a, H>, &'a H>,
}

impl<'a, H: Allocator> Model for CellIndex<'a, H> {
    ghost use Rattle.std.specs.Prelude.{◌≡◌, length};
    ghost use Rattle.cell_index.specs.Cells.{Grid};
    ghost use Rattle.cell_index.specs.own.Ranges.{shown};

    ghost Value = { Grid };

    ghost view = { λ index. shown index.area index.cells.items };

    ghost invariant = { λ index. length index.cells.items ≡ 4097 };
}

impl<'a, H: Allocator> CellIndex<'a, H> {
    /// An index of no boxes, over an area.
    ///
    /// # Errors
    ///
    /// [`AllocError`] where the memory of the cells is refused.
    pub fn new(heap: &'a H, area: Bounds) -> Result<CellIndex<'a, H>, AllocError>
        ensures area { IfOk result (λ index. index.area ≡ area) }
        ensures empty { IfOk result (λ index. Indexes index []) }
    {
        let mut cells = Vec::with_capacity(heap, WIDE_CELL + 1)?;
        for _ in 0..WIDE_CELL + 1 {
            cells.push(SmallVec::new(heap))?;
        }
        Ok(CellIndex { area, cells })
    }

    /// The area that the cells cover.
    pub fn area(&self) -> Bounds
        ensures { result ≡ self.now.area }
    {
        self.area
    }

    /// Adds an entry. It costs the cells that it is kept in; where memory is refused, nothing has changed.
    ///
    /// # Errors
    ///
    /// [`AllocError`] where the memory of a cell is refused.
    pub fn add(&mut self, entry: IndexEntry) -> Result<(), AllocError>
        ensures area { self.new.area ≡ self.old.area }
        ensures ok { (entries : List IndexEntry) → Indexes self.old entries
            → OnOk result (Indexes self.new (entries ++ entry ∷ [])) }
        ensures err { OnErr result (self.new ≡ self.old) }
    {
        let places = places_of(self.area, entry.bounds);
        make_room(self.cells.as_mut_slice(), places, 1)?;
        push_all(self.cells.as_mut_slice(), places, entry);
        Ok(())
    }

    /// Takes an entry out, its key and its box both the same; where there is none, nothing changes.
    pub fn remove(&mut self, entry: IndexEntry)
        ensures area { self.new.area ≡ self.old.area }
        ensures removed { (entries : List IndexEntry) → Indexes self.old entries
            → Indexes self.new (without (entry ∷ []) entries) }
    {
        take_out(
            self.cells.as_mut_slice(),
            places_of(self.area, entry.bounds),
            entry,
        );
    }

    /// Takes out what is gone and then adds what comes. Room is made for all of it first, so where
    /// memory is refused, nothing has changed.
    ///
    /// # Errors
    ///
    /// [`AllocError`] where the memory of a cell is refused.
    pub fn change(&mut self, gone: &[IndexEntry], come: &[IndexEntry]) -> Result<(), AllocError>
        ensures area { self.new.area ≡ self.old.area }
        ensures ok { (entries : List IndexEntry) → Indexes self.old entries
            → OnOk result (Indexes self.new (without gone.now entries ++ come.now)) }
        ensures err { OnErr result (self.new ≡ self.old) }
    {
        make_room_for_all(self.cells.as_mut_slice(), self.area, come)?;
        take_all_out(self.cells.as_mut_slice(), self.area, gone);
        push_all_in(self.cells.as_mut_slice(), self.area, come);
        Ok(())
    }

    /// What is kept in the cell of a corner in the area: what stands there and is not wide. What is
    /// wide is [`beside`](Self::beside) the cells, wherever it stands.
    pub fn at(&self, corner: Corner) -> &[IndexEntry]
        requires { HoldsCorner self.now.area corner }
        ensures { (entries : List IndexEntry) → Indexes self.now entries → result.now
            ≡ filter (λ entry. stands_at self.now.area corner entry.bounds) (narrow self.now.area entries) }
    {
        let column = cell_of(self.area.low.x, self.area.high.x, corner.x);
        let row = cell_of(self.area.low.y, self.area.high.y, corner.y);
        self.cells[ACROSS * column + row].as_slice()
    }

    /// What is kept beside the cells: the entries whose boxes are wide.
    pub fn beside(&self) -> &[IndexEntry]
        ensures { (entries : List IndexEntry) → Indexes self.now entries → result.now ≡ wide self.now.area entries }
    {
        let kept = &self.cells[WIDE_CELL];
        kept.as_slice()
    }

    /// The keys of the entries that stand in some cell between the cells of two corners, these
    /// included, each once. The corners, the first west and south of the second, are brought into the
    /// area first, to the nearer end where a coordinate lies outside.
    ///
    /// # Errors
    ///
    /// [`AllocError`] where the list of keys is refused.
    pub fn between(&self, low: Corner, high: Corner) -> Result<Vec<usize, &'a H>, AllocError>
        ensures found { (entries : List IndexEntry) → Indexes self.now entries
            → IfOk result (λ keys. (key : ℕ) → Contains keys.items key
            ↔ IsKeyBetween self.now.area low high entries key) }
        ensures once { (entries : List IndexEntry) → Indexes self.now entries → HaveOwnKeys entries
            → IfOk result (λ keys. AllPairs (λ a b. a ≢ b) keys.items) }
    {
        let range = cells_toward(self.area, low, high);
        let mut keys = self.gather(range)?;
        self.gather_beside(range, &mut keys)?;
        Ok(keys)
    }

    /// The keys of the entries in the cells of a range, each from the first cell where it stands.
    fn gather(&self, range: CellRange) -> Result<Vec<usize, &'a H>, AllocError>
        ensures { IfOk result (λ keys. keys.items ≡ gathered self.now.area range self.now.cells (cell_count range)) }
    {
        let mut keys = Vec::new(*self.cells.allocator());
        for n in 0..range.count() {
            for entry in self.cells[range.number(n)].as_slice() {
                if range.is_first(self.area, n, entry.bounds) {
                    keys.push(entry.key)?;
                }
            }
        }
        Ok(keys)
    }

    /// Adds the keys of the entries beside the cells that stand in some cell of a range.
    fn gather_beside(
        &self,
        range: CellRange,
        keys: &mut Vec<usize, &'a H>,
    ) -> Result<(), AllocError>
        ensures { OnOk result (keys.new.items ≡ keys.old.items
            ++ map (λ entry. entry.key) (filter (λ entry. has_some_of self.now.area range entry.bounds)
            self.now.beside)) }
    {
        for entry in self.cells[WIDE_CELL].as_slice() {
            if range.has_some_of(self.area, entry.bounds) {
                keys.push(entry.key)?;
            }
        }
        Ok(())
    }
}

impl<'a, H: Allocator> Clone for CellIndex<'a, H> {
    ghost is_clone = { λ index copy. copy ≡ index };

    fn clone(&self) -> Result<CellIndex<'a, H>, AllocError> {
        let heap = *self.cells.allocator();
        let mut cells = Vec::with_capacity(heap, WIDE_CELL + 1)?;
        for cell in self.cells.as_slice() {
            cells.push(SmallVec::from_slice(heap, cell.as_slice())?)?;
        }
        Ok(CellIndex {
            area: self.area,
            cells,
        })
    }
}
