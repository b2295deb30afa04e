//! What an edit does to each ring that has an edge, or a corner: a corner is put in, or taken out.

ghost use Rattle.std.specs.Prelude.{◌≡◌, ◌↔◌, IfOk, IfSome, IsNone, IsTrue};
ghost use Rattle.fabric_core.specs.own.RingChanges.{HasTwoEnds, changed_city, changed_ring, corner_of, is_changed};

use crate::ring_edges::has_edge;
use geo_exact::{Corner, Corners};
use ring_edits::{insert, put_into, straighten, take_out};
use std::alloc::{AllocError, Allocator};

/// What an edit does to each ring that has an edge, or a corner.
#[derive(Clone, Copy, Debug)]
pub(crate) enum RingChange {
    /// A corner is put into the edge between two others.
    PutIn {
        /// One end of the edge.
        from: Corner,
        /// Its other end.
        to: Corner,
        /// The new corner.
        at: Corner,
    },
    /// A corner is taken out.
    TakeOut {
        /// The corner.
        at: Corner,
    },
}

impl RingChange {
    /// A corner that each ring has which is changed.
    pub(crate) fn corner(self) -> Corner
        ensures { result ≡ corner_of self }
    {
        match self {
            RingChange::PutIn { from, .. } => from,
            RingChange::TakeOut { at } => at,
        }
    }

    /// Whether a ring is changed, which is seen without memory.
    pub(crate) fn changes(self, ring: &[Corner]) -> bool
        ensures { result ≡ is_changed self ring.now }
    {
        match self {
            RingChange::PutIn { from, to, .. } => has_edge(ring, from, to),
            RingChange::TakeOut { at } => ring.contains(&at),
        }
    }

    /// A parcel's ring after the change, begun at its least corner; `None` where it is not changed.
    pub(crate) fn of_ring<A: Allocator + Copy>(
        self,
        alloc: A,
        ring: &[Corner],
    ) -> Result<Option<Corners<A>>, AllocError>
        requires { HasTwoEnds self }
        ensures none { IfOk result (λ found. IsNone found ↔ (¬ IsTrue (is_changed self ring.now))) }
        ensures some { IfOk result (λ found. IfSome found (λ out. out ≡ changed_ring self ring.now)) }
    {
        match self {
            RingChange::PutIn { from, to, at } => insert(alloc, ring, from, to, at),
            RingChange::TakeOut { at } => straighten(alloc, ring, at),
        }
    }

    /// The city's ring after the change, not begun anew; `None` where it is not changed.
    pub(crate) fn of_city<A: Allocator + Copy>(
        self,
        alloc: A,
        ring: &[Corner],
    ) -> Result<Option<Corners<A>>, AllocError>
        requires { HasTwoEnds self }
        ensures none { IfOk result (λ found. IsNone found ↔ (¬ IsTrue (is_changed self ring.now))) }
        ensures some { IfOk result (λ found. IfSome found (λ out. out ≡ changed_city self ring.now)) }
    {
        match self {
            RingChange::PutIn { from, to, at } => put_into(alloc, ring, from, to, at),
            RingChange::TakeOut { at } => take_out(alloc, ring, at),
        }
    }
}
