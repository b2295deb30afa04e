//! The journal's rows and entries.

ghost use Rattle.std.specs.Prelude.{◌≡◌, ◌↔◌, map, IsTrue};
ghost use Rattle.fabric_core.specs.JournalRows.{row_of};
ghost use Rattle.fabric_core.specs.own.EntryRows.{rows_of_entry};

use geo_exact::Corners;
use ring_edits::Edit;
use std::alloc::{AllocError, Allocator};
use std::marker::Model;

/// The most entries of a journal, 2 ^ 20. An edit gives out two ids at most, so ids stay below 2 ^ 22, and the table
/// with a place for each stays small.
pub const JOURNAL_ENTRIES: usize = 1_048_576;

/// A parcel as a journal has it: its ring under its id. Corners are in whole millimetres.
#[derive(Debug, Drop)]
pub struct Row<A: Allocator> {
    /// The parcel's id.
    pub id: u64,
    /// Its ring, begun at its least corner.
    pub corners: Corners<A>,
}

impl<A: Allocator + Copy> Clone for Row<A> {
    ghost use Rattle.std.specs.Prelude.{◌≡◌};

    ghost is_clone = { λ row copy. copy ≡ row };

    fn clone(&self) -> Result<Row<A>, AllocError> {
        let corners = self.corners.clone()?;
        Ok(Row {
            id: self.id,
            corners,
        })
    }
}

/// An edit that was accepted: an entry of the journal. It says all that the edit changed, so that
/// the journal can be replayed.
#[derive(Debug)]
pub struct Entry<A: Allocator> {
    number: u64,
    clerk: u32,
    edit: Edit<A>,
    out: Vec<u64, A>,
    rows: Vec<Row<A>, A>,
}

// Not derived: whoever drops it makes one call, and what that does is proved once, here.
impl<A: Allocator> Drop for Entry<A> {
    fn drop(self) {
        let Entry {
            number: _,
            clerk: _,
            edit: _,
            out: _,
            rows: _,
        } = self;
    }
}

impl<A: Allocator> Model for Entry<A> {
    ghost use Rattle.std.specs.Prelude.{map};
    ghost use Rattle.fabric_core.specs.Journal.{JournalEntry};
    ghost use Rattle.fabric_core.specs.JournalRows.{row_of};

    ghost Value = { JournalEntry A };

    ghost view = { λ entry. record {
      number = entry.number;
      clerk = entry.clerk;
      edit = entry.edit;
      out = entry.out.items;
      rows = map row_of entry.rows.items;
    } };
}

impl<A: Allocator> Entry<A> {
    /// An entry of these parts.
    pub(crate) fn new(
        number: u64,
        clerk: u32,
        edit: Edit<A>,
        out: Vec<u64, A>,
        rows: Vec<Row<A>, A>,
    ) -> Entry<A>
        ensures number { result.number ≡ number }
        ensures clerk { result.clerk ≡ clerk }
        ensures edit { result.edit ≡ edit }
        ensures out { result.out ≡ out.items }
        ensures rows { result.rows ≡ map row_of rows.items }
    {
        Entry {
            number,
            clerk,
            edit,
            out,
            rows,
        }
    }

    /// Its number in the journal, from 1.
    pub fn number(&self) -> u64
        ensures { result ≡ self.now.number }
    {
        self.number
    }

    /// Who made the edit.
    pub fn clerk(&self) -> u32
        ensures { result ≡ self.now.clerk }
    {
        self.clerk
    }

    /// The edit.
    pub fn edit(&self) -> &Edit<A>
        ensures { result.now ≡ self.now.edit }
    {
        &self.edit
    }

    /// The ids of the parcels that it took out, in the order of the edit.
    pub fn out(&self) -> &[u64]
        ensures { result.now ≡ self.now.out }
    {
        self.out.as_slice()
    }

    /// The parcels that it brought: their rings under their ids.
    pub fn rows(&self) -> &[Row<A>]
        ensures { map row_of result.now ≡ self.now.rows }
    {
        self.rows.as_slice()
    }

    /// Whether it takes out and brings what another entry does.
    pub(crate) fn changes_as(&self, other: &Entry<A>) -> bool
        ensures { IsTrue result ↔ ((self.now.out ≡ other.now.out) × (self.now.rows ≡ other.now.rows)) }
    {
        self.out() == other.out() && are_same_rows(self.rows(), other.rows())
    }
}

impl<A: Allocator + Copy> Clone for Entry<A> {
    ghost use Rattle.std.specs.Prelude.{◌≡◌};

    ghost is_clone = { λ entry copy. copy ≡ entry };

    fn clone(&self) -> Result<Entry<A>, AllocError> {
        let edit = self.edit.clone()?;
        let out = self.out.clone()?;
        let rows = self.rows.clone()?;
        Ok(Entry {
            number: self.number,
            clerk: self.clerk,
            edit,
            out,
            rows,
        })
    }
}

/// Whether two parcels have one id and one ring.
fn is_same_row<A: Allocator>(row: &Row<A>, other: &Row<A>) -> bool
    ensures { IsTrue result ↔ (row_of row.now ≡ row_of other.now) }
{
    row.id == other.id && row.corners == other.corners
}

/// Whether two lists have the same parcels, in one order.
fn are_same_rows<A: Allocator>(rows: &[Row<A>], others: &[Row<A>]) -> bool
    ensures { IsTrue result ↔ (rows_of_entry rows.now ≡ rows_of_entry others.now) }
{
    if rows.len() != others.len() {
        return false;
    }
    for place in 0..rows.len() {
        if !is_same_row(&rows[place], &others[place]) {
            return false;
        }
    }
    true
}
