//! Laws: where a point lies among the rows of all districts.

ghost use Rattle.std.specs.Prelude.{◌≡◌, ◌≢◌, ◌↔◌, ℕ, List};
ghost use Rattle.std.specs.List.{Contains};
ghost use Rattle.geo_exact.specs.declared.corner.Corner.{Corner};
ghost use Rattle.geo_exact.specs.Layers.{NumberedRing};
ghost use Rattle.geo_exact.specs.Point.{Point};
ghost use Rattle.geo_exact.specs.Turn.{IsOnRing};
ghost use Rattle.geo_exact.specs.Winding.{IsInterior};
ghost use Rattle.ring_core.specs.Simple.{IsSimpleRing};
ghost use Rattle.fabric_core.specs.declared.locate.At.{At as AtValue};
ghost use Rattle.fabric_core.specs.declared.locate.At.TheVariants.{Inside, Outside};
ghost use Rattle.fabric_core.specs.Faults.{AreSimple};
ghost use Rattle.fabric_core.specs.Locate.{IsInsideOf, IsOnEdgeOf, IsLocatedAt};
ghost use Rattle.fabric_core.specs.Tiling.{IsTiling};
ghost use Rattle.district_laws.specs.Districts.{District, AreDistricts, AreSimpleDistricts, district_rows, all_rows};

use std::alloc::Allocator;

/// Rows that tile a simple ring reach all of it: each point of the ring is on an edge of a row. Simple rows reach no
/// farther: what is inside a row is inside the ring, and what is on an edge of a row is on the ring or inside it.
///
/// Noded for all their corners, the ring and the rows have one net number at each edge, and at an edge of a simple ring
/// that is not 0. The same holds of the triangles that the rows are clipped to; so no point of the ring is inside one,
/// and the way from an edge of it to its centre meets the ring nowhere.
pub fn rows_lie_in_the_ring_that_they_tile()
    ensures boundary { (rows : List NumberedRing) (ring : List Corner) (p : Point)
        → IsSimpleRing ring → IsTiling rows ring
        → IsOnRing p ring → (row : NumberedRing) × Contains rows row × IsOnRing p row.corners }
    ensures inside { (rows : List NumberedRing) (ring : List Corner) (p : Point) (row : NumberedRing)
        → IsSimpleRing ring → AreSimple rows → IsTiling rows ring → Contains rows row
        → IsInterior p row.corners → IsInterior p ring }
    ensures edges { (rows : List NumberedRing) (ring : List Corner) (p : Point) (row : NumberedRing)
        → IsSimpleRing ring → AreSimple rows → IsTiling rows ring → Contains rows row
        → IsOnRing p row.corners → ¬ IsOnRing p ring → IsInterior p ring }
{}

/// Of the rows of all districts, those that have inside, or on an edge, a point that is inside a district are that
/// district's own, whatever their numbers are. Of those that have it inside no ring need be simple.
pub fn rows_at_a_point_inside_a_district_are_its_own()
    ensures inside { (districts : List District) (city : List Corner) (district : District) (p : Point)
        (row : NumberedRing)
        → AreDistricts districts city → Contains districts district → IsInterior p district.row.corners
        → Contains (all_rows districts) row → IsInterior p row.corners → Contains district.rows row }
    ensures edges { (districts : List District) (city : List Corner) (district : District) (p : Point)
        (row : NumberedRing)
        → AreDistricts districts city → AreSimpleDistricts districts → Contains districts district
        → IsInterior p district.row.corners
        → Contains (all_rows districts) row → IsOnRing p row.corners → Contains district.rows row }
{}

/// Inside a district a point lies among the rows of all districts as among that district's own, by the rows' numbers:
/// inside the same rows, on the edges of the same rows, and so it is located alike.
pub fn a_point_inside_a_district_is_located_by_it<A: Allocator>()
    ensures inside { (districts : List District) (city : List Corner) (district : District) (p : Point) (id : ℕ)
        → AreDistricts districts city → Contains districts district → IsInterior p district.row.corners
        → IsInsideOf (all_rows districts) p id ↔ IsInsideOf district.rows p id }
    ensures edges { (districts : List District) (city : List Corner) (district : District) (p : Point) (id : ℕ)
        → AreDistricts districts city → AreSimpleDistricts districts → Contains districts district
        → IsInterior p district.row.corners
        → IsOnEdgeOf (all_rows districts) p id ↔ IsOnEdgeOf district.rows p id }
    ensures located { (districts : List District) (city : List Corner) (district : District)
        (p : Point) (at : AtValue A)
        → AreDistricts districts city → AreSimpleDistricts districts → Contains districts district
        → IsInterior p district.row.corners
        → IsLocatedAt (all_rows districts) p at ↔ IsLocatedAt district.rows p at }
{}

/// On a district's edge a point is on an edge of a row of that district, so that among the rows of all it is located on
/// edges, too, and inside none. The rows that have it on an edge are those of each district that do, and a district
/// that does not have it on its own edge has none of them.
pub fn a_point_on_a_districts_edge_is_on_an_edge_of_its_rows<A: Allocator>()
    ensures own { (districts : List District) (city : List Corner) (district : District) (p : Point)
        → AreDistricts districts city → AreSimple (district_rows districts) → Contains districts district
        → IsOnRing p district.row.corners → (id : ℕ) × IsOnEdgeOf district.rows p id }
    ensures located { (districts : List District) (city : List Corner) (district : District)
        (p : Point) (at : AtValue A)
        → AreDistricts districts city → AreSimple (district_rows districts) → Contains districts district
        → IsOnRing p district.row.corners → IsLocatedAt (all_rows districts) p at
        → ((id : ℕ) → at ≢ Inside id) × (at ≢ Outside) }
    ensures inside { (districts : List District) (city : List Corner) (district : District) (p : Point) (id : ℕ)
        → AreDistricts districts city → AreSimpleDistricts districts → Contains districts district
        → IsOnRing p district.row.corners → ¬ IsInsideOf (all_rows districts) p id }
    ensures others { (districts : List District) (city : List Corner) (one other : District) (p : Point) (id : ℕ)
        → AreDistricts districts city → AreSimpleDistricts districts → Contains districts one → Contains districts other
        → IsOnRing p one.row.corners → ¬ IsOnRing p other.row.corners → ¬ IsOnEdgeOf other.rows p id }
    ensures of_all { (districts : List District) (p : Point) (id : ℕ) → IsOnEdgeOf (all_rows districts) p id
        ↔ ((district : District) × Contains districts district × IsOnEdgeOf district.rows p id) }
{}

/// What is inside no district, and on no district's edge, is inside no row, and on no row's edge: outside all districts
/// a point is outside all rows.
pub fn a_point_outside_all_districts_is_outside_all_rows<A: Allocator>()
    ensures inside { (districts : List District) (city : List Corner) (p : Point) (id : ℕ)
        → AreDistricts districts city → AreSimpleDistricts districts
        → ((other : ℕ) → ¬ IsInsideOf (district_rows districts) p other) → ¬ IsInsideOf (all_rows districts) p id }
    ensures edges { (districts : List District) (city : List Corner) (p : Point) (id : ℕ)
        → AreDistricts districts city → AreSimpleDistricts districts
        → ((other : ℕ) → ¬ IsInsideOf (district_rows districts) p other)
        → ((other : ℕ) → ¬ IsOnEdgeOf (district_rows districts) p other) → ¬ IsOnEdgeOf (all_rows districts) p id }
    ensures located { (districts : List District) (city : List Corner) (p : Point) (at : AtValue A)
        → AreDistricts districts city → AreSimpleDistricts districts
        → at ≡ Outside → IsLocatedAt (district_rows districts) p at → IsLocatedAt (all_rows districts) p at }
{}
