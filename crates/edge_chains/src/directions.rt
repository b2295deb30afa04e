//! The directions in which many edges go.
ghost use Rattle.std.specs.Prelude.{◌≡◌, List, [], ◌∷◌, ◌++◌, OnErr, OnOk, IfSome};
ghost use Rattle.std.specs.List.{Contains};

use crate::lines::Lines;
use crate::steps::Steps;
use std::alloc::{AllocError, Allocator};
use std::collections::HashMap;
use std::hash::{BuildHasherDefault, FoldHasher};
use std::marker::Model;

/// How many directions are kept at most.
const MOST_DIRECTIONS: usize = 16;

/// How many slow edges in one direction are worth putting all corners in order across it.
const MANY: u64 = 256;

/// In how many directions slow edges are counted at most.
///
/// The counts then begin anew, so that they need little memory where each edge has a direction of its own. Between two
/// beginnings at least as many edges are slow: so a direction that one in 64 of them has comes to [`MANY`] before.
const MOST_COUNTED: usize = 16_384;

/// How many edges were slow, by the way of their steps across and up, in millimetres.
type Counts<A> = HashMap<(i64, i64), u64, BuildHasherDefault<FoldHasher>, A>;

/// The directions so far across which all corners are in order, and how many edges were slow in others of late.
#[derive(Drop)]
pub(crate) struct Directions<A: Allocator> {
    lines: Vec<Lines<A>, A>,
    counts: Counts<A>,
}

impl<A: Allocator> Model for Directions<A> {
    ghost use Rattle.std.specs.Prelude.{List};
    ghost use Rattle.edge_chains.specs.own.Lines.{Ranks};

    ghost Value = { List Ranks };

    ghost view = { λ directions. directions.lines.items };
}

impl<A: Allocator + Copy> Directions<A> {
    /// No direction yet; nothing is allocated.
    pub fn new(alloc: A) -> Directions<A>
        ensures { result ≡ [] }
    {
        Directions {
            lines: Vec::new(alloc),
            counts: HashMap::new(alloc),
        }
    }

    /// The corners in order across the direction of these steps, where it is kept.
    pub fn find(&self, steps: Steps) -> Option<&Lines<A>>
        ensures { IfSome result (λ lines. Contains self.now lines.now
            × (lines.now.across ≡ steps.across) × (lines.now.up ≡ steps.up)) }
    {
        for lines in &self.lines {
            if lines.are_along(steps) {
                return Some(lines);
            }
        }
        None
    }

    /// Counts a slow edge; whether its direction is worth keeping from now on.
    pub fn count(&mut self, steps: Steps) -> Result<bool, AllocError>
        ensures { self.new ≡ self.old }
    {
        if self.lines.len() >= MOST_DIRECTIONS {
            return Ok(false);
        }
        if self.counts.len() >= MOST_COUNTED {
            self.counts.clear();
        }
        let count = self.counts.entry((steps.across, steps.up))?.or_insert(0);
        *count = count.wrapping_add(1);
        Ok(*count >= MANY)
    }

    /// Keeps a direction.
    pub fn keep(&mut self, lines: Lines<A>) -> Result<(), AllocError>
        ensures kept { OnOk result (self.new ≡ self.old ++ lines ∷ []) }
        ensures err { OnErr result (self.new ≡ self.old) }
    {
        self.lines.push(lines)?;
        Ok(())
    }
}
