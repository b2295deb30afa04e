//! Laws of triangles that overlap.

ghost use Rattle.std.specs.Prelude.{◌≡◌, ◌↔◌, ◌⊎◌, pos, List};
ghost use Rattle.geo_exact.specs.declared.corner.Corner.{Corner};
ghost use Rattle.geo_exact.specs.Interiors.{InteriorsMeet};
ghost use Rattle.geo_exact.specs.Point.{Point};
ghost use Rattle.geo_exact.specs.Winding.{winding};
ghost use Rattle.ring_core.specs.declared.triangle.Tri.{Tri};
ghost use Rattle.ring_core.specs.Sums.{triangle_ring, MakeUp};
ghost use Rattle.tri_overlap.specs.Folding.{HasNoOverlap};
ghost use Rattle.tri_overlap.specs.Separation.{SomeEdgeSeparates};

/// Two triangles have no common inner point exactly where some edge of one has all corners of the
/// other on its right or on its line.
pub fn triangles_are_apart_by_an_edge()
    ensures { (s t : Tri) → (¬ InteriorsMeet (triangle_ring s) (triangle_ring t))
        ↔ (SomeEdgeSeparates s t ⊎ SomeEdgeSeparates t s) }
{}

/// A ring whose triangles do not overlap is nowhere folded over itself: where no two of the
/// triangles that make it up have a common inner point, it goes round each rational point once or
/// not at all.
pub fn a_shape_without_overlaps_winds_at_most_once()
    ensures { (ring : List Corner) (ts : List Tri) → MakeUp ts ring → HasNoOverlap ts
        → (p : Point) → (winding p ring ≡ pos 0) ⊎ (winding p ring ≡ pos 1) }
{}
