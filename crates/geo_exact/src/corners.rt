//! A list of corners, as a ring has it.

ghost use Rattle.std.specs.Prelude.{◌≡◌, ◌↔◌, ◌≤◌, ◌==◌, OnOk, OnErr, IfOk, IsTrue, length, ◌++◌, ◌∷◌, []};
ghost use Rattle.std.specs.List.{position_or_len};
ghost use Rattle.std.specs.Cmp.Lexicographic.{pointwise, lists_equiv};
ghost use Rattle.std.specs.Cmp.{partial_equiv_from_equiv};
ghost use Rattle.geo_exact.specs.Order.{is_least, is_same, is_same_equivalence};
ghost use Rattle.geo_exact.specs.Rings.{begun_at_least, turned_round};

use crate::corner::Corner;
use crate::order::comes_before;
use std::alloc::{AllocError, Allocator};
use std::marker::Model;

/// A list of corners, which contracts see as that list: a ring's, where the first is not repeated at the end.
#[derive(Debug, Drop)]
pub struct Corners<A: Allocator> {
    list: Vec<Corner, A>,
}

impl<A: Allocator> Model for Corners<A> {
    ghost use Rattle.geo_exact.specs.declared.corner.Corner.{Corner};
    ghost use Rattle.std.specs.Prelude.{List};

    ghost Value = { List Corner };

    ghost view = { λ corners. corners.list.items };
}

impl<A: Allocator> Corners<A> {
    /// No corner yet; nothing is allocated.
    pub fn new(alloc: A) -> Corners<A>
        ensures { result ≡ [] }
    {
        Corners {
            list: Vec::new(alloc),
        }
    }

    /// No corner yet, and room for so many.
    ///
    /// # Errors
    ///
    /// [`AllocError`] where the room is refused.
    pub fn with_capacity(alloc: A, capacity: usize) -> Result<Corners<A>, AllocError>
        ensures { IfOk result (λ corners. corners ≡ []) }
    {
        let list = Vec::with_capacity(alloc, capacity)?;
        Ok(Corners { list })
    }

    /// The corners of a vector, which is not copied.
    pub fn from_vec(list: Vec<Corner, A>) -> Corners<A>
        ensures { result ≡ list.items }
    {
        Corners { list }
    }

    /// The corners as a vector; they are not copied.
    pub fn into_vec(self) -> Vec<Corner, A>
        ensures { result.items ≡ self }
    {
        self.list
    }

    /// How many corners there are.
    pub fn len(&self) -> usize
        ensures { result ≡ length self.now }
    {
        self.list.len()
    }

    /// Whether there is no corner.
    pub fn is_empty(&self) -> bool
        ensures { IsTrue result ↔ (self.now ≡ []) }
    {
        self.list.is_empty()
    }

    /// Adds a corner at the end.
    ///
    /// # Errors
    ///
    /// [`AllocError`] where an allocation fails; the list is unchanged then.
    pub fn push(&mut self, corner: Corner) -> Result<(), AllocError>
        ensures ok { OnOk result (self.new ≡ self.old ++ corner ∷ []) }
        ensures err { OnErr result (self.new ≡ self.old) }
    {
        self.list.push(corner)?;
        Ok(())
    }

    /// Turns the ring round, with its first corner kept first.
    ///
    /// ```
    /// // (0, 0) (0, 100) (100, 100) becomes (0, 0) (100, 100) (0, 100).
    /// ring.turn_round();
    /// ```
    pub fn turn_round(&mut self)
        ensures { self.new ≡ turned_round self.old }
    {
        if let [_, rest @ ..] = self.list.as_mut_slice() {
            rest.reverse();
        }
    }

    /// Begins the ring at its least corner, by `x` and then by `y`: where that corner comes more than
    /// once, at the first of its places. The corners before it come last, so the ring has the same
    /// edges, begun elsewhere.
    ///
    /// ```
    /// // (100, 0) (100, 100) (0, 100) (0, 0) becomes (0, 0) (100, 0) (100, 100) (0, 100).
    /// ring.begin_at_least();
    /// ```
    pub fn begin_at_least(&mut self)
        ensures { self.new ≡ begun_at_least self.old }
    {
        let place = least_place(&self.list);
        self.list.as_mut_slice().rotate_left(place);
    }

    /// The corners in order.
    pub fn as_slice(&self) -> &[Corner]
        ensures { result.now ≡ self.now }
    {
        self.list.as_slice()
    }
}

impl<A: Allocator + Copy> Clone for Corners<A> {
    ghost is_clone = { λ corners copy. copy ≡ corners };

    fn clone(&self) -> Result<Corners<A>, AllocError> {
        let list = Vec::from_slice(*self.list.allocator(), &self.list)?;
        Ok(Corners { list })
    }
}

impl<A: Allocator> PartialEq for Corners<A> {
    ghost eq = { λ x y. pointwise is_same x y };

    ghost laws = { partial_equiv_from_equiv (lists_equiv is_same_equivalence) };

    fn eq(&self, other: &Self) -> bool
        ensures value { result ≡ pointwise is_same self.now other.now }
        ensures same { IsTrue result ↔ (self.now ≡ other.now) }
    {
        self.as_slice() == other.as_slice()
    }
}

impl<A: Allocator> Eq for Corners<A> {
    ghost laws = { lists_equiv is_same_equivalence };
}

/// The number of the least corner, at the first of its places; 0 where there is no corner.
fn least_place(corners: &[Corner]) -> usize
    ensures value { result ≡ position_or_len (is_least corners.now) corners.now }
    ensures bound { result ≤ length corners.now }
{
    if corners.is_empty() {
        return 0;
    }
    let mut least = 0;
    for k in 1..corners.len() {
        if comes_before(corners[k], corners[least]) {
            least = k;
        }
    }
    least
}
