//! Laws of common areas.

ghost use Rattle.std.specs.Prelude.{◌≡◌, ◌↔◌, ℕ, pos, ◌*ℤ◌, ◌<ℤ◌, ◌≤ℤ◌, List};
ghost use Rattle.geo_exact.specs.declared.corner.Corner.{Corner};
ghost use Rattle.geo_exact.specs.Area.{area2};
ghost use Rattle.geo_exact.specs.Interiors.{InteriorsMeet};
ghost use Rattle.geo_exact.specs.Rings.{Edge, edges as edges_of};
ghost use Rattle.common_areas.specs.Fractions.{AreEqual, whole};
ghost use Rattle.common_areas.specs.Common.{common_area2};
ghost use Rattle.common_areas.specs.Grid.{Grid, IsFine, Reaches, cells};
ghost use Rattle.common_areas.specs.Sums.{WindsOnce, IsCoveredBy, common_with, MakeUpOffEdges};

/// The area common to two rings is the same whichever of them is named first.
pub fn a_common_area_has_no_order()
    ensures { (r s : List Corner) → common_area2 r s ≡ common_area2 s r }
{}

/// The area common to two rings is a count of cells: in a grid that is fine enough, twice the sum over its cells of
/// the product of the winding numbers round the cell's middle is, in cells, twice the area common to both.
pub fn common_areas_are_counts_of_cells()
    ensures count { (r s : List Corner) (grid : Grid) (m n : ℕ) → IsFine grid (edges_of r) (edges_of s)
        → Reaches grid m n
        → (common_area2 r s).n *ℤ (grid.columns *ℤ grid.rows) ≡ pos 2 *ℤ cells grid m n r s *ℤ (common_area2 r s).d }
    ensures fraction { (r s : List Corner) (grid : Grid) (m n : ℕ) → IsFine grid (edges_of r) (edges_of s)
        → Reaches grid m n → pos 0 <ℤ (common_area2 r s).d }
{}

/// For any edges there is a grid that is fine enough, and numbers of its columns and
/// rows that reach as far as the limit.
pub fn a_fine_grid_is_there()
    ensures { (es fs : List Edge) → (grid : Grid) × (m : ℕ) × (n : ℕ) × IsFine grid es fs × Reaches grid m n }
{}

/// The area common to two rings that wind at most once is not negative, and it is positive exactly where some
/// rational point is interior to both.
pub fn a_common_area_is_one_of_interiors()
    ensures not_negative { (r s : List Corner) → WindsOnce r → WindsOnce s → pos 0 ≤ℤ (common_area2 r s).n }
    ensures exactly { (r s : List Corner) → WindsOnce r → WindsOnce s
        → (pos 0 <ℤ (common_area2 r s).n) ↔ InteriorsMeet r s }
{}

/// The areas that a ring has in common with rings that together go round each point off all edges as often as one ring
/// does sum to the area that it has in common with that one, exactly.
pub fn common_areas_add_up()
    ensures { (r ring : List Corner) (parts : List (List Corner)) → MakeUpOffEdges parts ring
        → AreEqual (common_with r parts) (common_area2 r ring) }
{}

/// A ring that winds at most once has its whole area in common with a ring that goes once round its interior, exactly.
pub fn a_covered_ring_has_its_whole_area_in_common()
    ensures { (r s : List Corner) → WindsOnce r → IsCoveredBy r s → AreEqual (common_area2 r s) (whole (area2 r)) }
{}
