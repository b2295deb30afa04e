//! The table of an overlay.

ghost use Rattle.std.specs.Prelude.{◌≡◌, ◌≢◌, ◌↔◌, ℕ, length, Some, IfOk, MatchOption};
ghost use Rattle.std.specs.List.{Contains};
ghost use Rattle.std.specs.List.Sorted.{IsStrictlyIncreasing};
ghost use Rattle.geo_exact.specs.Layers.{NumberedRing, numbered};
ghost use Rattle.fabric_core.specs.Tiling.{IsTiling};
ghost use Rattle.fabric_core.specs.Faults.{AreSimple};
ghost use Rattle.fabric_core.specs.Rows.{numbers};
ghost use Rattle.zone_tables.specs.Overlap.{IsOverlapTable, AreSplitZoned, OverlapsAlone};
ghost use Rattle.zone_tables.specs.Within.{IsWithinZone};

use crate::zoning::{Zonings, only_zone};
use fabric_core::{Layer, Sheet};
use ring_core::Ring;
use std::alloc::{AllocError, Allocator};
use std::marker::Model;

/// Which parcels of a sheet and which zones overlap: all pairs of a parcel and a zone whose
/// interiors have a common point, each once, by ascending parcel and then by ascending zone.
/// Touching along an edge or in a corner is no overlap.
///
/// Contracts see the parcels' rows and the zones', the city that both tile, the pairs, and how many
/// entries the sheet's journal has.
#[derive(Drop)]
pub struct Table<'t, 'h, H: Allocator, A: Allocator> {
    sheet: &'t Sheet<'h, H>,
    zones: &'t Layer<'h, H>,
    pairs: Vec<(u64, u64), A>,
}

impl<'t, 'h, H: Allocator, A: Allocator> Model for Table<'t, 'h, H, A> {
    ghost use Rattle.std.specs.Prelude.{◌≡◌, length};
    ghost use Rattle.zone_tables.specs.Overlap.{Overlay, IsOverlapTable};

    ghost Value = { Overlay };

    ghost view = { λ table. record {
      rows = table.sheet.now.now.rows;
      zones = table.zones.now.rows;
      city = table.sheet.now.city;
      pairs = table.pairs.items;
      entries = length table.sheet.now.journal;
    } };

    ghost invariant = { λ table.
        IsOverlapTable table.sheet.now.now.rows table.zones.now.rows table.pairs.items
        × (table.zones.now.city ≡ table.sheet.now.city) };
}

impl<'t, 'h, H: Allocator, A: Allocator> Table<'t, 'h, H, A> {
    /// The table of pairs that were found for a sheet and the zones of its city.
    pub fn gather(
        sheet: &'t Sheet<'h, H>,
        zones: &'t Layer<'h, H>,
        pairs: Vec<(u64, u64), A>,
    ) -> Table<'t, 'h, H, A>
        requires table { IsOverlapTable sheet.now.now.rows zones.now.rows pairs.items }
        requires city { zones.now.city ≡ sheet.now.city }
        ensures rows { result.rows ≡ sheet.now.now.rows }
        ensures zones { result.zones ≡ zones.now.rows }
        ensures city { result.city ≡ sheet.now.city }
        ensures pairs { result.pairs ≡ pairs.items }
        ensures entries { result.entries ≡ length sheet.now.journal }
    {
        Table {
            sheet,
            zones,
            pairs,
        }
    }

    /// Only teaches the prover: the pairs are all those of a parcel and a zone whose interiors meet, and parcels and
    /// zones both tile the city.
    pub fn use_invariant(&self)
        ensures table { IsOverlapTable self.now.rows self.now.zones self.now.pairs }
        ensures tiling { IsTiling self.now.rows self.now.city }
        ensures zones_tile { IsTiling self.now.zones self.now.city }
        ensures simple { AreSimple self.now.rows }
        ensures ids_rise { IsStrictlyIncreasing (numbers self.now.rows) }
        ensures zones_rise { IsStrictlyIncreasing (numbers self.now.zones) }
    {
        self.sheet.use_invariant();
        self.zones.use_invariant();
        let _ = self.sheet.ids();
        let _ = self.zones.ids();
        let _ = &self.pairs;
    }

    /// All pairs of a parcel and a zone whose interiors have a common point, ascending.
    pub fn pairs(&self) -> &[(u64, u64)]
        ensures pairs { result.now ≡ self.now.pairs }
        ensures table { IsOverlapTable self.now.rows self.now.zones result.now }
    {
        self.pairs.as_slice()
    }

    /// How many entries the journal of the sheet has.
    pub fn entries(&self) -> u64
        ensures { result ≡ self.now.entries }
    {
        self.sheet.entries()
    }

    /// The ring of a parcel, begun at its least corner; `None` where the id is no parcel's.
    pub fn parcel(&self, id: u64) -> Option<&Ring<&'h H>>
        ensures ring { MatchOption result
            ((row : NumberedRing) → Contains self.now.rows row → row.number ≢ id)
            (λ ring. Contains self.now.rows (numbered id ring.now.corners)) }
    {
        self.sheet.ring(id)
    }

    /// The ring of a zone, begun at its least corner; `None` where the id is no zone's.
    pub fn zone(&self, id: u64) -> Option<&Ring<&'h H>>
        ensures ring { MatchOption result
            ((row : NumberedRing) → Contains self.now.zones row → row.number ≢ id)
            (λ ring. Contains self.now.zones (numbered id ring.now.corners)) }
    {
        self.zones.ring(id)
    }

    /// The parcels that overlap two zones or more, ascending.
    ///
    /// # Errors
    ///
    /// [`AllocError`] where the list is refused.
    ///
    /// ```
    /// let split = table.split_zoned()?; // ids of the parcels with two zones or more
    /// ```
    pub fn split_zoned(&self) -> Result<Vec<u64, A>, AllocError>
    where
        A: Copy,
        ensures { IfOk result (λ ids. AreSplitZoned self.now.rows self.now.zones ids.items) }
    {
        self.use_invariant();
        let mut ids = Vec::new(*self.pairs.allocator());
        for parcel in Zonings::new(&self.pairs) {
            if parcel.is_split {
                ids.push(parcel.id)?;
            }
        }
        Ok(ids)
    }

    /// The zone that a parcel is within: each interior point of the parcel that lies on no zone's
    /// edge is an interior point of that zone. It is the one zone that the parcel overlaps; `None`
    /// where it overlaps more, or the id is no parcel's.
    ///
    /// ```
    /// // Parcels 1 and 2, zones from 0 to 50 and from 50 to 100:
    /// assert_eq!(table.within(2), Some(2));
    /// ```
    pub fn within(&self, id: u64) -> Option<u64>
        ensures within { (zone : ℕ) → (result ≡ Some zone) ↔ IsWithinZone self.now.rows self.now.zones id zone }
        ensures alone { (zone : ℕ) → (result ≡ Some zone) ↔ OverlapsAlone self.now.rows self.now.zones id zone }
    {
        self.use_invariant();
        only_zone(id, &self.pairs)
    }
}
