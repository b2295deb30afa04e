//! Which of many corners lie strictly inside an edge.

ghost use Rattle.std.specs.Prelude.{◌≡◌, List, IfOk};
ghost use Rattle.std.specs.List.{filter};
ghost use Rattle.edge_chains.specs.own.Steps.{AreInside};
ghost use Rattle.geo_exact.specs.Bounds.{holds_corner};

use crate::blocks::{Blocks, inside_of};
use crate::edge_tests::covers;
use crate::far::Far;
use geo_exact::{Bounds, Corner};
use std::alloc::{AllocError, Allocator};
use std::marker::Model;

/// How many of the corners ahead a box is put round.
const AHEAD: usize = 16;

/// How many blocks off the box are passed over at most, for each edge that it may serve, while its corners are looked
/// up: some ten times as many as in a city. A box as tall as all the corners lies beside many more, and where its ring
/// has few corners, each edge is searched by itself in less time.
const BLOCKS_AN_EDGE: usize = 256;

/// How many corners a box that is kept has at most.
const MOST: usize = 64;

/// After how many edges at most a box is tried again where the last ones had too many corners, or too many blocks
/// beside them.
const MOST_REST: usize = 31;

/// Corners for many searches, as a list in some order.
///
/// Edges that follow each other are close to each other. So the corners of a box round the next edges are kept, where
/// they are few, and an edge in that box is searched among them alone. Where box after box has too many corners, or too
/// many blocks lie beside it, some edges go by, more each time, before the next is tried.
#[derive(Drop)]
pub(crate) struct Search<'b, A: Allocator> {
    far: Far<'b, A>,
    bounds: Bounds,
    near: Vec<Corner, A>,
    rest: usize,
    left: usize,
}

impl<'b, A: Allocator> Model for Search<'b, A> {
    ghost use Rattle.std.specs.Prelude.{◌≡◌, List};
    ghost use Rattle.std.specs.List.{filter};
    ghost use Rattle.geo_exact.specs.declared.corner.Corner.{Corner};
    ghost use Rattle.geo_exact.specs.Bounds.{holds_corner};

    ghost Value = { List Corner };

    ghost view = { λ search. search.far };

    ghost invariant = { λ search. search.near.items ≡ filter (λ c. holds_corner search.bounds c) search.far };
}

impl<'b, A: Allocator + Copy> Search<'b, A> {
    /// A search among the corners of these blocks, which others may search at the same time.
    pub fn new(blocks: &'b Blocks<A>) -> Search<'b, A>
        ensures { result ≡ blocks.now }
    {
        Search {
            far: Far::new(blocks),
            bounds: Bounds::nowhere(),
            near: Vec::new(blocks.alloc()),
            rest: 0,
            left: 0,
        }
    }

    /// Those of the corners that lie strictly inside the edge between two corners, in any order.
    ///
    /// `ahead` are the corners that come next in the ring: only the speed rests on them.
    pub fn inside(
        &mut self,
        from: Corner,
        to: Corner,
        ahead: &[Corner],
    ) -> Result<Vec<Corner, A>, AllocError>
        ensures same { self.new ≡ self.old }
        ensures found { IfOk result (λ found. AreInside self.old from to found.items) }
    {
        if !covers(self.bounds, from, to) {
            self.move_to(from, to, ahead)?;
        }
        if covers(self.bounds, from, to) {
            inside_of(*self.near.allocator(), &self.near, from, to)
        } else {
            self.far.inside(from, to)
        }
    }

    /// Keeps the corners of a box round the edge and the corners ahead, where they are few and found soon.
    fn move_to(&mut self, from: Corner, to: Corner, ahead: &[Corner]) -> Result<(), AllocError>
        ensures { self.new ≡ self.old }
    {
        if self.left > 0 {
            self.left -= 1;
            return Ok(());
        }
        let bounds = bounds_of(from, to, ahead);
        let most_off = BLOCKS_AN_EDGE * (1 + ahead.len().min(AHEAD));
        if let Some(near) = self.far.within(&bounds, MOST, most_off)? {
            self.bounds = bounds;
            self.near = near;
            self.rest = 0;
        } else {
            self.rest = longer(self.rest);
            self.left = self.rest;
        }
        Ok(())
    }
}

/// The box of an edge's ends and of the first of the corners ahead.
fn bounds_of(from: Corner, to: Corner, ahead: &[Corner]) -> Bounds {
    let mut bounds = Bounds::of_corner(from).around(Bounds::of_corner(to));
    for corner in ahead.iter().take(AHEAD) {
        bounds = bounds.around(Bounds::of_corner(*corner));
    }
    bounds
}

/// How many edges go by before the next box, where so many went by before this one.
fn longer(rest: usize) -> usize {
    rest.min(MOST_REST / 2) * 2 + 1
}
