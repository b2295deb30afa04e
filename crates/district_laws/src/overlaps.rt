//! Laws: the overlay of a city, and the overlays of its districts.

ghost use Rattle.std.specs.Prelude.{◌≡◌, ◌↔◌, ℕ, List};
ghost use Rattle.std.specs.List.{AllByRecursion, Contains};
ghost use Rattle.geo_exact.specs.declared.corner.Corner.{Corner};
ghost use Rattle.geo_exact.specs.Interiors.{InteriorsMeet};
ghost use Rattle.geo_exact.specs.Layers.{NumberedRing};
ghost use Rattle.zone_tables.specs.Overlap.{Overlaps, IsOverlapTable};
ghost use Rattle.district_laws.specs.Districts.{District, district_rows, all_rows};
ghost use Rattle.district_laws.specs.Zones.{ZonedDistrict, parcel_layers, zone_layers, AreZonedDistricts, IsCutZone};

/// Where the parcels and the zones of each district tile it, a parcel and a zone that overlap are of one district. So
/// the pairs of the city are those of its districts.
///
/// A common inner point of both is inside both their districts, and the city has it inside one.
pub fn pairs_of_districts_are_the_pairs_of_their_city()
    ensures one_district { (districts : List ZonedDistrict) (city : List Corner) (one other : ZonedDistrict)
        (parcel zone : NumberedRing) → AreZonedDistricts districts city
        → Contains districts one → Contains districts other
        → Contains one.parcels.rows parcel → Contains other.zones zone
        → InteriorsMeet parcel.corners zone.corners → one ≡ other }
    ensures overlaps { (districts : List ZonedDistrict) (city : List Corner) (id zone : ℕ)
        → AreZonedDistricts districts city
        → Overlaps (all_rows (parcel_layers districts)) (all_rows (zone_layers districts)) id zone
        ↔ ((district : ZonedDistrict) × Contains districts district
        × Overlaps district.parcels.rows district.zones id zone) }
    ensures tables { (districts : List ZonedDistrict) (city : List Corner) (pairs : List (ℕ × ℕ))
        (table : ZonedDistrict → List (ℕ × ℕ)) (id zone : ℕ) → AreZonedDistricts districts city
        → IsOverlapTable (all_rows (parcel_layers districts)) (all_rows (zone_layers districts)) pairs
        → ((district : ZonedDistrict) → Contains districts district
        → IsOverlapTable district.parcels.rows district.zones (table district))
        → Contains pairs (id, zone)
        ↔ ((district : ZonedDistrict) × Contains districts district × Contains (table district) (id, zone)) }
{}

/// A zone that is cut into pieces overlaps the parcels that its pieces overlap: where the pieces keep their zone's
/// number, the pairs are the same before and after the cut. So where the zones are cut by the districts' borders, they
/// are those of the districts.
pub fn cutting_zones_changes_no_pair()
    ensures pieces { (rows : List NumberedRing) (zones : List District) (id zone : ℕ) → AllByRecursion IsCutZone zones
        → Overlaps rows (all_rows zones) id zone ↔ Overlaps rows (district_rows zones) id zone }
    ensures districts { (districts : List ZonedDistrict) (city : List Corner) (zones : List District) (id zone : ℕ)
        → AreZonedDistricts districts city → AllByRecursion IsCutZone zones
        → ((piece : NumberedRing) → Contains (all_rows zones) piece ↔ Contains (all_rows (zone_layers districts)) piece)
        → Overlaps (all_rows (parcel_layers districts)) (district_rows zones) id zone
        ↔ ((district : ZonedDistrict) × Contains districts district
        × Overlaps district.parcels.rows district.zones id zone) }
{}
