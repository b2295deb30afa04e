//! Where a point lies among the parcels.

ghost use Rattle.std.specs.Prelude.{◌≡◌, ◌≤◌, ◌++◌, ℕ, List, length, IfOk, MatchOption};
ghost use Rattle.std.specs.List.{Contains};
ghost use Rattle.geo_exact.specs.declared.limits.TheConstants.{RING_CORNERS};
ghost use Rattle.geo_exact.specs.Layers.{NumberedRing};
ghost use Rattle.geo_exact.specs.Point.{Point, corner_point};
ghost use Rattle.cell_index.specs.declared.entry.IndexEntry.{IndexEntry as IndexEntryValue};
ghost use Rattle.parcel_table.specs.declared.parcels.Parcel.{Parcel as ParcelValue};
ghost use Rattle.parcel_table.specs.Table.{rows_of_keyed, entries_of};
ghost use Rattle.fabric_core.specs.Locate.{IsInsideOf, IsLocatedAt};
ghost use Rattle.fabric_core.specs.own.Sides.{IsFound};

use crate::candidates::sort_once;
use cell_index::IndexEntry;
use geo_exact::Corner;
use parcel_table::Parcels;
use ring_core::{Side, side_of};
use std::alloc::{AllocError, Allocator};

/// Where a corner lies among the parcels of a layer: where four squares meet, it is on an edge of all four; a
/// millimetre off their edges it is inside one.
#[derive(Debug, Drop)]
pub enum At<A: Allocator> {
    /// Inside the parcel with this id.
    Inside(u64),
    /// On the edges of the parcels with these ids, which ascend.
    OnEdge(Vec<u64, A>),
    /// In no parcel, and on no edge of one.
    Outside,
}

/// Where a corner lies that no parcel has inside, by the ids of those that have it on an edge.
pub(crate) fn on_edge_or_outside<A: Allocator>(mut on_edge: Vec<u64, A>) -> At<A>
    ensures { (rows : List NumberedRing) (p : Point) → IsFound rows p on_edge.items → IsLocatedAt rows p result }
{
    if on_edge.is_empty() {
        return At::Outside;
    }
    sort_once(&mut on_edge);
    At::OnEdge(on_edge)
}

/// Searches the parcels of some entries for those that have a corner on an edge, up to one that has
/// it inside, which is the answer: in a tiling, what is inside one parcel is on no edge.
pub(crate) fn search<A: Allocator>(
    parcels: &Parcels<A>,
    entries: &[IndexEntry],
    corner: Corner,
    on_edge: &mut Vec<u64, A>,
) -> Result<Option<u64>, AllocError>
    requires { (entry : IndexEntryValue) → Contains entries.now entry → (parcel : ParcelValue A)
        × Contains parcels.now.parcels (entry.key, parcel) × (length parcel.shape.ring.corners ≤ RING_CORNERS) }
    ensures { (some : List (ℕ × ParcelValue A)) → entries.now ≡ entries_of some
        → ((parcel : ℕ × ParcelValue A) → Contains some parcel → Contains parcels.now.parcels parcel)
        → (rows : List NumberedRing) → IsFound rows (corner_point corner) on_edge.old.items
        → IfOk result (λ inside. MatchOption inside
        (IsFound (rows ++ rows_of_keyed some) (corner_point corner) on_edge.new.items)
        (IsInsideOf (rows_of_keyed some) (corner_point corner))) }
{
    for entry in entries {
        if !entry.bounds.holds(corner) {
            continue;
        }
        let parcel = parcels.at(entry.key);
        match side_of(parcel.shape.ring.corners.as_slice(), corner) {
            Side::Inside => return Ok(Some(parcel.id)),
            Side::OnEdge => on_edge.push(parcel.id)?,
            Side::Outside => {}
        }
    }
    Ok(None)
}
