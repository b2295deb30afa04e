//! An edit: what a clerk changes.

ghost use Rattle.std.specs.Prelude.{◌≡◌};

use geo_exact::{Corner, Corners};
use std::alloc::{AllocError, Allocator};

/// What a clerk changes in a fabric of parcels. Corners are in whole millimetres; the numbers are those of parcels.
#[derive(Debug)]
#[derive_where(PartialEq)]
pub enum Edit<A: Allocator> {
    /// A parcel is cut in two along a path from one of its corners to another.
    Split {
        /// The parcel.
        id: u64,
        /// The path.
        path: Corners<A>,
    },
    /// Two neighbours become one parcel.
    Merge {
        /// The one parcel.
        a: u64,
        /// The other.
        b: u64,
    },
    /// The border between two neighbours is moved to a path.
    Move {
        /// The one parcel; the border runs in its direction.
        a: u64,
        /// The other.
        b: u64,
        /// The new border.
        path: Corners<A>,
    },
    /// A corner is put into an edge.
    Insert {
        /// One end of the edge.
        from: Corner,
        /// Its other end.
        to: Corner,
        /// The new corner, on the edge between them.
        at: Corner,
    },
    /// A corner is taken out of all rings that have it, each of which is straight there.
    Straighten {
        /// The corner.
        at: Corner,
    },
}

// Not derived: whoever drops it makes one call, and what that does is proved once, here.
impl<A: Allocator> Drop for Edit<A> {
    fn drop(self) {
        match self {
            Edit::Split { id: _, path: _ } => {}
            Edit::Merge { a: _, b: _ } => {}
            Edit::Move {
                a: _,
                b: _,
                path: _,
            } => {}
            Edit::Insert {
                from: _,
                to: _,
                at: _,
            } => {}
            Edit::Straighten { at: _ } => {}
        }
    }
}

impl<A: Allocator + Copy> Clone for Edit<A> {
    ghost use Rattle.std.specs.Prelude.{◌≡◌};

    ghost is_clone = { λ edit copy. copy ≡ edit };

    fn clone(&self) -> Result<Edit<A>, AllocError> {
        match self {
            Edit::Split { id, path } => {
                let path = path.clone()?;
                Ok(Edit::Split { id: *id, path })
            }
            Edit::Merge { a, b } => Ok(Edit::Merge { a: *a, b: *b }),
            Edit::Move { a, b, path } => {
                let path = path.clone()?;
                Ok(Edit::Move { a: *a, b: *b, path })
            }
            Edit::Insert { from, to, at } => Ok(Edit::Insert {
                from: *from,
                to: *to,
                at: *at,
            }),
            Edit::Straighten { at } => Ok(Edit::Straighten { at: *at }),
        }
    }
}
