//! The state that a fabric was opened in.

ghost use Rattle.std.specs.Prelude.{◌≡◌, ◌≤◌, ◌++◌, List};
ghost use Rattle.std.specs.List.{AllByRecursion};
ghost use Rattle.geo_exact.specs.declared.corner.Corner.{Corner as CornerValue};
ghost use Rattle.geo_exact.specs.declared.limits.TheConstants.{LAYER_CORNERS};
ghost use Rattle.geo_exact.specs.Layers.{corner_count};
ghost use Rattle.parcel_table.specs.Table.{rows_of as rows_of_shapes};
ghost use Rattle.scaled_rings.specs.Tenfold.{IsLeastFarOf, IsNear};
ghost use Rattle.fabric_core.specs.Tenfold.{IsTenfoldState, corners_of_state};
ghost use Rattle.fabric_core.specs.own.Changes.{state_of};

use crate::farthest::Farthest;
use crate::tiled::Tiled;
use geo_exact::Corner;
use parcel_table::Shapes;
use scaled_rings::least_far;
use std::alloc::Allocator;
use std::marker::Model;
use std::snapshot::Snapshot;

/// The state in which a fabric was opened: what its journal is replayed on. Only clauses read it, so nothing of it is
/// kept when the program runs, but for what a move to a finer grid asks: the least of its corners beyond each limit.
#[derive(Drop)]
pub(crate) struct Opening<'a, H: Allocator> {
    was: Snapshot<Tiled<'a, H>>,
    farthest: Farthest,
}

impl<'a, H: Allocator> Model for Opening<'a, H> {
    ghost use Rattle.fabric_core.specs.Journal.{State};
    ghost use Rattle.fabric_core.specs.Tenfold.{corners_of_state};
    ghost use Rattle.fabric_core.specs.own.Changes.{state_of};
    ghost use Rattle.fabric_core.specs.own.Farthest.{AreLeastBeyond};

    ghost Value = { State };

    ghost view = { λ opening. state_of opening.was.value };

    ghost invariant = { λ opening. AreLeastBeyond (corners_of_state (state_of opening.was.value))
        opening.farthest.least };
}

/// A snapshot, as one of any value: it has no bytes that say of which. The caller's proof picks the value, from that of
/// another snapshot.
fn stands_for<T>(snapshot: Snapshot<T>, _beside: &Snapshot<T>) -> Snapshot<T>
    ghost value: { T }
    ensures { result.value ≡ value }
{
    snapshot
}

/// How many corners the rings of shapes have together.
pub(crate) fn count_corners<A: Allocator>(shapes: Shapes<'_, A>) -> usize
    requires { corner_count (rows_of_shapes shapes) ≤ LAYER_CORNERS }
    ensures { result ≡ corner_count (rows_of_shapes shapes.entry) }
{
    let mut sum = 0;
    for (_, shape) in shapes {
        sum += shape.ring.corners.len();
    }
    sum
}

impl<'a, H: Allocator> Opening<'a, H> {
    /// The state of parcels, as one in which a fabric is opened.
    pub(crate) fn of_tiled(tiled: &Tiled<'a, H>) -> Opening<'a, H>
        ensures { result ≡ state_of tiled.now }
    {
        Opening {
            was: Snapshot::of(tiled),
            farthest: Farthest::of_tiled(tiled),
        }
    }

    /// The same opening once more. The parcels only lend the snapshot that is to stand for it.
    pub(crate) fn again(&self, tiled: &Tiled<'a, H>) -> Opening<'a, H>
        ensures { result ≡ self.now }
    {
        Opening {
            was: stands_for(Snapshot::of(tiled), &self.was),
            farthest: self.farthest,
        }
    }

    /// The least corner of the rows and of the refined ring that is too far to be ten times as far, and of one found
    /// before.
    pub(crate) fn least_far(&self, found: Option<Corner>) -> Option<Corner>
        ensures { (before : List CornerValue) → IsLeastFarOf before found
            → IsLeastFarOf (before ++ corners_of_state self.now) result }
    {
        match self.farthest.too_far() {
            None => found,
            Some(corner) => least_far(&[corner], found),
        }
    }

    /// The opening, each corner ten times. The parcels only lend the snapshot, as in `again`.
    pub(crate) fn tenfold(&self, tiled: &Tiled<'a, H>) -> Opening<'a, H>
        requires { AllByRecursion IsNear (corners_of_state self.now) }
        ensures { IsTenfoldState self.now result }
    {
        Opening {
            was: stands_for(Snapshot::of(tiled), &self.was),
            farthest: self.farthest.tenfold(),
        }
    }
}
