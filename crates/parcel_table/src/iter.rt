//! The parcels of a table, one by one.

ghost use Rattle.std.specs.Prelude.{◌≡◌, length, map};
ghost use Rattle.slab.specs.Slab.{slab_len};
ghost use Rattle.std.specs.Iterator.{YieldsFirst, YieldsFirstBy, item_count};
ghost use Rattle.parcel_table.specs.own.Places.{shapes_at};

use crate::parcels::Parcel;
use crate::place::{Place, parcel_of};
use ring_core::Shape;
use slab::Slab;
use std::alloc::Allocator;
use std::iter::FusedIterator;
use std::marker::Model;

/// The ids and the shapes of a layer's parcels, by ascending id. Contracts see the list of those that are left.
#[derive(Drop)]
pub struct Shapes<'l, A: Allocator> {
    slab: &'l Slab<Parcel<A>, A>,
    places: &'l [Place],
    // How many are left.
    left: usize,
}

impl<'l, A: Allocator> Model for Shapes<'l, A> {
    ghost use Rattle.std.specs.Prelude.{◌≡◌, ℕ, List, length};
    ghost use Rattle.ring_core.specs.declared.shape.Shape.{Shape};

    ghost Value = { List (ℕ × Shape A) };

    ghost use Rattle.parcel_table.specs.own.Places.{shapes_at};

    ghost view = { λ it. shapes_at it.slab.now it.places.now };

    ghost invariant = { λ it. it.left ≡ length (shapes_at it.slab.now it.places.now) };
}

impl<'l, A: Allocator> Shapes<'l, A> {
    /// The parcels that these places lead to, of which there are so many.
    pub(crate) fn new(slab: &'l Slab<Parcel<A>, A>, places: &'l [Place]) -> Shapes<'l, A>
        requires { slab_len slab.now ≡ length (shapes_at slab.now places.now) }
        ensures { result ≡ shapes_at slab.now places.now }
    {
        Shapes {
            slab,
            places,
            left: slab.len(),
        }
    }
}

impl<'l, A: Allocator> Iterator for Shapes<'l, A> {
    type Item = (u64, &'l Shape<A>);

    ghost next_gives = { YieldsFirstBy (λ item. (item.0, item.1.now)) (λ rest. rest) };

    ghost remaining = { item_count (λ rest. rest) };

    fn next(&mut self) -> Option<(u64, &'l Shape<A>)> {
        while let Some((place, rest)) = self.places.split_first() {
            self.places = rest;
            if let Some(parcel) = parcel_of(self.slab, *place) {
                self.left -= 1;
                return Some((parcel.id, &parcel.shape));
            }
        }
        None
    }

    fn size_hint(&self) -> (usize, Option<usize>) {
        (self.left, Some(self.left))
    }
}

impl<'l, A: Allocator> ExactSizeIterator for Shapes<'l, A> {
    fn len(&self) -> usize {
        self.left
    }
}

impl<'l, A: Allocator> FusedIterator for Shapes<'l, A> {}

/// The ids of a layer's parcels, ascending. Contracts see the list of those that are left.
#[derive(Drop)]
pub struct Ids<'l, A: Allocator> {
    shapes: Shapes<'l, A>,
}

impl<'l, A: Allocator> Model for Ids<'l, A> {
    ghost use Rattle.std.specs.Prelude.{ℕ, List, map};

    ghost Value = { List ℕ };

    ghost view = { λ it. map (λ shape. shape.0) it.shapes };
}

impl<'l, A: Allocator> Ids<'l, A> {
    /// The ids beside these shapes.
    pub(crate) fn new(shapes: Shapes<'l, A>) -> Ids<'l, A>
        ensures { result ≡ map (λ shape. shape.0) shapes.entry }
    {
        Ids { shapes }
    }
}

impl<'l, A: Allocator> Iterator for Ids<'l, A> {
    type Item = u64;

    ghost next_gives = { YieldsFirst (λ rest. rest) };

    ghost remaining = { item_count (λ rest. rest) };

    fn next(&mut self) -> Option<u64> {
        let (id, _) = self.shapes.next()?;
        Some(id)
    }

    fn size_hint(&self) -> (usize, Option<usize>) {
        self.shapes.size_hint()
    }
}

impl<'l, A: Allocator> ExactSizeIterator for Ids<'l, A> {
    fn len(&self) -> usize {
        self.shapes.len()
    }
}

impl<'l, A: Allocator> FusedIterator for Ids<'l, A> {}
