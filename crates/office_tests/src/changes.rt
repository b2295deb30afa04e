//! Edits as tables have them.

use ring_edits::Edit;
use std::alloc::Allocator;
use std::test::Fail;
use test_builders::{Place, corner, corners};

/// An edit, its corners given as places.
#[derive(Clone, Copy)]
pub enum Change {
    /// A parcel is cut along a path.
    Split(u64, &'static [Place]),
    /// Two parcels become one.
    Merge(u64, u64),
    /// The last corner is put into the edge between the first two.
    Insert(Place, Place, Place),
    /// A corner is taken out of all rings that have it.
    Straighten(Place),
}

/// The path that cuts the first parcel in two halves.
const MIDDLE: [Place; 2] = [(30, 0), (30, 100)];

/// The first of two parcels gets a corner in its south edge and one in its north edge, and is cut between them.
pub static INTO_HALVES: [Change; 3] = [
    Change::Insert((0, 0), (60, 0), (30, 0)),
    Change::Insert((0, 100), (60, 100), (30, 100)),
    Change::Split(1, &MIDDLE),
];

/// The edit of a table's row.
pub fn edit_of<A: Allocator>(alloc: A, change: Change) -> Result<Edit<A>, Fail> {
    match change {
        Change::Split(id, path) => Ok(Edit::Split {
            id,
            path: corners(alloc, path)?,
        }),
        Change::Merge(a, b) => Ok(Edit::Merge { a, b }),
        Change::Insert(from, to, at) => Ok(Edit::Insert {
            from: corner(from)?,
            to: corner(to)?,
            at: corner(at)?,
        }),
        Change::Straighten(at) => Ok(Edit::Straighten { at: corner(at)? }),
    }
}
