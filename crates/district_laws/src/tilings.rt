//! Laws: tilings of districts, and the tiling of their city.

ghost use Rattle.std.specs.Prelude.{◌≡◌, List};
ghost use Rattle.std.specs.List.{AllZip};
ghost use Rattle.geo_exact.specs.declared.corner.Corner.{Corner};
ghost use Rattle.geo_exact.specs.Layers.{NumberedRing};
ghost use Rattle.geo_exact.specs.Rings.{begun_at_least};
ghost use Rattle.ring_edits.specs.Edits.{CoversAlike};
ghost use Rattle.fabric_core.specs.Rows.{AreRefined, IsRowOf};
ghost use Rattle.fabric_core.specs.Tiling.{corner_lists, IsTiling};
ghost use Rattle.district_laws.specs.Districts.{District, AreDistricts, IsLayerOf, all_rows, district_rows};

/// Where districts tile a city, and the rows of each tile the district, all rows together tile the city, whatever
/// numbers they get.
///
/// What is said of a point off the edges of all rows and of the city holds also where it is on a district's edge: at
/// each point, on edges, too, the rows' winding numbers sum to the districts', and those to the city's.
pub fn tilings_of_districts_tile_their_city()
    ensures { (districts : List District) (city : List Corner) (rows : List NumberedRing) → AreDistricts districts city
        → corner_lists rows ≡ corner_lists (all_rows districts) → IsTiling rows city }
{}

/// Rows that tile a city tile it under other numbers, too.
pub fn what_tiles_says_nothing_of_numbers()
    ensures { (rows others : List NumberedRing) (city : List Corner)
        → corner_lists others ≡ corner_lists rows → IsTiling rows city → IsTiling others city }
{}

/// Where the districts are a layer of the city, and each has a layer whose city is the ring of its record, they are
/// districts of the city. A record's row covers what the record's ring does: noding and another first corner change
/// nothing. So layers that are loaded one by one (`Layer::load`) meet what the other laws ask.
pub fn layers_of_the_records_are_districts()
    ensures covers { (corners : List Corner) (record_ring row : NumberedRing) → IsRowOf corners record_ring row
        → CoversAlike (begun_at_least record_ring.corners) row.corners }
    ensures districts { (records : List NumberedRing) (city refined : List Corner) (districts : List District)
        → AreRefined records city (district_rows districts) refined → IsTiling (district_rows districts) city
        → AllZip IsLayerOf records districts → AreDistricts districts city }
{}
