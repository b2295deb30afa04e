//! Laws: which rows tile a city.

ghost use Rattle.std.specs.Prelude.{◌≡◌, ◌≢◌, ◌↔◌, ◌<◌, ℕ, pos, List, ◌∷◌, [], ◌++◌, map};
ghost use Rattle.std.specs.List.{AllByRecursion, Contains};
ghost use Rattle.geo_exact.specs.declared.corner.Corner.{Corner};
ghost use Rattle.geo_exact.specs.Point.{Point};
ghost use Rattle.geo_exact.specs.Turn.{IsOnRing};
ghost use Rattle.geo_exact.specs.Winding.{winding, IsInterior};
ghost use Rattle.geo_exact.specs.Area.{area2};
ghost use Rattle.geo_exact.specs.Layers.{NumberedRing};
ghost use Rattle.cell_index.specs.Cells.{Grid, standing};
ghost use Rattle.ring_core.specs.declared.triangle.Tri.{Tri};
ghost use Rattle.ring_core.specs.Sums.{MakeUp};
ghost use Rattle.edge_chains.specs.Net.{net_count};
ghost use Rattle.edge_chains.specs.Noding.{IsNoded, AreFullyNoded};
ghost use Rattle.edge_chains.specs.Jump.{net_difference};
ghost use Rattle.fabric_core.specs.declared.journal.TheConstants.{JOURNAL_ENTRIES};
ghost use Rattle.fabric_core.specs.Tiling.{corner_lists, IsTiling, IsWoundAtMostOnce, IsOffEdges};
ghost use Rattle.fabric_core.specs.Faults.{AreSimple};
ghost use Rattle.fabric_core.specs.GridIndex.{IsIndexed, ReachesCell};
ghost use Rattle.fabric_core.specs.Locate.{IsInsideOf, IsInsideOneOnly, IsOnEdgeOf};
ghost use Rattle.fabric_core.specs.Rows.{AreRefined, IsUntiledBeside};

/// Rows that are made up of counterclockwise triangles, and have the net edges of a city that goes
/// round no point twice, tile the city. The city's edges may be noded.
///
/// Each row's winding number is the sum of its triangles', so it is not negative. All together they
/// are the city's, which is 0 or 1. So where it is 1 exactly one row has 1, and where it is 0 none
/// has.
pub fn rows_with_the_nets_of_a_city_tile_it()
    ensures { (rows : List NumberedRing) (city corners refined : List Corner)
        → AllByRecursion (λ row. (ts : List Tri) × MakeUp ts row.corners) rows
        → ((p : Point) → IsWoundAtMostOnce p city)
        → IsNoded city corners refined
        → ((a b : Corner) → net_count (corner_lists rows) a b ≡ net_count (refined ∷ []) a b)
        → IsTiling rows city }
{}

/// An edge whose net number is not the city's is no false alarm: where no corner lies strictly
/// inside an edge, the rows do not tile the city. Of two points beside that edge, one has a sum of
/// winding numbers that is not the city's.
pub fn an_unbalanced_edge_is_no_tiling()
    ensures beside { (rows : List NumberedRing) (city corners refined : List Corner) (a b : Corner)
        → IsNoded city corners refined → AreFullyNoded (corner_lists rows ++ refined ∷ [])
        → net_difference (corner_lists rows) (refined ∷ []) a b ≢ pos 0
        → IsUntiledBeside rows city refined a b }
    ensures no_tiling { (rows : List NumberedRing) (city refined : List Corner) (a b : Corner)
        → IsUntiledBeside rows city refined a b → ¬ IsTiling rows city }
{}

/// A city keeps its ground when it is refined: its winding number round every rational point, its
/// boundary and its area.
pub fn a_refined_city_keeps_its_ground()
    ensures windings { (records rows : List NumberedRing) (city refined : List Corner) (p : Point)
        → AreRefined records city rows refined → winding p refined ≡ winding p city }
    ensures boundary { (records rows : List NumberedRing) (city refined : List Corner) (p : Point)
        → AreRefined records city rows refined → IsOnRing p refined ↔ IsOnRing p city }
    ensures area { (records rows : List NumberedRing) (city refined : List Corner)
        → AreRefined records city rows refined → area2 refined ≡ area2 city }
{}

/// In a tiling, a point inside the city and off all edges is inside exactly one parcel, and on no edge of one.
#[tactic(auto, using(crate::proofs::tilings::OneParcel::inside_one_only))]
pub fn a_place_off_all_edges_is_inside_one_parcel()
    ensures { (rows : List NumberedRing) (city : List Corner) (p : Point) → IsTiling rows city → IsOffEdges p rows city
        → IsInterior p city → IsInsideOneOnly rows p }
{}

/// In a tiling of simple rings, what is inside one parcel is on no edge of a parcel and inside no
/// other, and the city goes round it once. So a search for where a point lies may end at the first
/// parcel that has it inside.
///
/// An edge that the point lies on is that of a parcel's triangle, and from there a little way
/// towards the triangle's centre are points inside both parcels. But off all edges a point is in
/// one parcel alone.
pub fn what_is_inside_a_parcel_is_in_no_other()
    ensures edges { (rows : List NumberedRing) (city : List Corner) (p : Point) (id other : ℕ) → AreSimple rows
        → IsTiling rows city
        → IsInsideOf rows p id → ¬ IsOnEdgeOf rows p other }
    ensures others { (rows : List NumberedRing) (city : List Corner) (p : Point) (id other : ℕ) → AreSimple rows
        → IsTiling rows city
        → IsInsideOf rows p id → IsInsideOf rows p other → other ≡ id }
    ensures city { (rows : List NumberedRing) (city : List Corner) (p : Point) (id : ℕ) → AreSimple rows
        → IsTiling rows city
        → IsInsideOf rows p id → winding p city ≡ pos 1 }
{}

/// In a cell of an index that agrees with rows an id stands exactly where a row with this id
/// reaches the cell by its least box.
pub fn an_id_stands_in_the_cells_that_its_row_reaches()
    ensures { (rows : List NumberedRing) (city : List Corner) (index : Grid) (i j id : ℕ) → IsIndexed rows city index
        → i < 64 → j < 64
        → Contains (map (λ entry. entry.key) (standing index i j)) id ↔ ReachesCell rows index.area i j id }
{}

/// A journal is full with 1,048,576 entries: so many the page of limits allows, and not one fewer.
pub fn a_journal_has_room_for_so_many_entries()
    ensures { JOURNAL_ENTRIES ≡ 1048576 }
{}
