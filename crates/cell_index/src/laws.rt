//! Laws: what stands in a cell, and that a search of a few cells misses nothing.

ghost use Rattle.std.specs.Prelude.{◌≡◌, ◌<◌, ℕ, Bool, List, IsTrue};
ghost use Rattle.std.specs.List.{All, filter, count_by};
ghost use Rattle.geo_exact.specs.declared.bounds.Bounds.{Bounds};
ghost use Rattle.geo_exact.specs.declared.corner.Corner.{Corner};
ghost use Rattle.geo_exact.specs.Bounds.{HoldsCorner, IsWider};
ghost use Rattle.geo_exact.specs.Interiors.{InteriorsMeet};
ghost use Rattle.geo_exact.specs.Point.{corner_point};
ghost use Rattle.geo_exact.specs.Turn.{IsOnRing};
ghost use Rattle.geo_exact.specs.Winding.{IsInterior};
ghost use Rattle.cell_index.specs.declared.axis.TheConstants.{ACROSS};
ghost use Rattle.cell_index.specs.declared.entry.IndexEntry.{IndexEntry};
ghost use Rattle.cell_index.specs.Cells.{stands_in, stands_at, Grid, standing, Indexes, StandsBetween};

/// In each cell of an index stand exactly the entries whose boxes stand there, each as often as in
/// the list, wherever it is kept: no test on entries tells the two lists apart by how many pass it.
pub fn in_each_cell_stand_the_entries_of_its_boxes()
    ensures { (grid : Grid) (entries : List IndexEntry) → Indexes grid entries → (i j : ℕ) → i < ACROSS → j < ACROSS
        → (test : IndexEntry → Bool)
        → count_by test (standing grid i j)
        ≡ count_by test (filter (λ entry. stands_in grid.area i j entry.bounds) entries) }
{}

/// A ring whose box does not stand in the cell of a corner has it neither on an edge nor inside: so
/// a search for the rings at a corner reads one cell.
pub fn a_corner_is_off_what_does_not_stand_in_its_cell()
    ensures { (area bounds : Bounds) (ring : List Corner) (corner : Corner) → All (HoldsCorner bounds) ring
        → ¬ IsTrue (stands_at area corner bounds)
        → (¬ IsOnRing (corner_point corner) ring) × (¬ IsInterior (corner_point corner) ring) }
{}

/// A ring in the area whose interior meets that of another, with all its corners between two
/// corners, stands in some cell between the cells of these two: so a search for what meets a ring
/// reads the cells of the ring's box.
pub fn rings_whose_interiors_meet_share_a_cell()
    ensures { (area bounds : Bounds) (low high : Corner) (ring other : List Corner) → All (HoldsCorner bounds) ring
        → IsWider bounds area → All (HoldsCorner (record { low = low; high = high })) other → InteriorsMeet ring other
        → StandsBetween area low high bounds }
{}
