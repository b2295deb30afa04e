//! Laws: what the overlay's pairs tell of parcels and zones.

ghost use Rattle.std.specs.Prelude.{◌↔◌, ℕ, List};
ghost use Rattle.std.specs.List.{Contains};
ghost use Rattle.std.specs.List.Sorted.{IsStrictlyIncreasing};
ghost use Rattle.geo_exact.specs.declared.corner.Corner.{Corner};
ghost use Rattle.geo_exact.specs.Layers.{NumberedRing};
ghost use Rattle.fabric_core.specs.Faults.{AreSimple};
ghost use Rattle.fabric_core.specs.Rows.{numbers};
ghost use Rattle.fabric_core.specs.Tiling.{IsTiling};
ghost use Rattle.zone_tables.specs.Overlap.{Overlaps, OverlapsAlone};
ghost use Rattle.zone_tables.specs.Within.{IsWithinZone};

/// Where parcels that are simple and zones tile one city, each parcel overlaps a zone.
///
/// A simple ring has an interior point, and beside it one off all edges. That one lies in the city, and so in a zone.
pub fn each_parcel_overlaps_a_zone()
    ensures { (rows zones : List NumberedRing) (city : List Corner) (id : ℕ)
        → AreSimple rows → IsTiling rows city → IsTiling zones city → Contains (numbers rows) id
        → (zone : ℕ) × Overlaps rows zones id zone }
{}

/// Where parcels that are simple and zones tile one city, a parcel is within a zone exactly where
/// it overlaps this zone and no other.
///
/// Beside an interior point of the parcel that is on no zone's edge is one off all edges, and the
/// zones go round both alike. It lies in one zone, which the parcel overlaps.
pub fn a_parcel_is_within_its_only_zone()
    ensures { (rows zones : List NumberedRing) (city : List Corner) (id zone : ℕ)
        → AreSimple rows → IsTiling rows city → IsTiling zones city
        → IsStrictlyIncreasing (numbers rows) → IsStrictlyIncreasing (numbers zones)
        → IsWithinZone rows zones id zone ↔ OverlapsAlone rows zones id zone }
{}
