//! Laws: rows lie in their city's box, and candidates by boxes miss no parcel.

ghost use Rattle.std.specs.Prelude.{◌≡◌, List, ◌∷◌, []};
ghost use Rattle.std.specs.List.{All, AllByRecursion, Contains};
ghost use Rattle.geo_exact.specs.declared.bounds.Bounds.{Bounds};
ghost use Rattle.geo_exact.specs.declared.corner.Corner.{Corner};
ghost use Rattle.geo_exact.specs.Bounds.{HoldsCorner, IsLeastBox};
ghost use Rattle.geo_exact.specs.Interiors.{InteriorsMeet};
ghost use Rattle.geo_exact.specs.Layers.{NumberedRing};
ghost use Rattle.edge_chains.specs.Net.{net_count};
ghost use Rattle.edge_chains.specs.Noding.{IsNoded};
ghost use Rattle.fabric_core.specs.GridIndex.{IsCandidate};
ghost use Rattle.fabric_core.specs.Tiling.{corner_lists};
ghost use Rattle.fabric_core.specs.Faults.{AreSimple};

/// Simple rows that have the net edges of a city, whose own may be noded, lie in each box that
/// holds the city's corners.
///
/// Beyond the box the city goes round no point, and so no row does, nor any of the triangles that
/// it is clipped to. But near a corner of a triangle there are points inside it.
pub fn rows_lie_in_the_box_of_their_city()
    ensures { (rows : List NumberedRing) (city corners refined : List Corner) (bounds : Bounds)
        → AreSimple rows → IsNoded city corners refined
        → ((a b : Corner) → net_count (corner_lists rows) a b ≡ net_count (refined ∷ []) a b)
        → All (HoldsCorner bounds) city → AllByRecursion (λ row. All (HoldsCorner bounds) row.corners) rows }
{}

/// A parcel whose interior meets that of a ring with all corners between two corners is a candidate
/// of these two, where the parcels are simple and have the net edges of a city, whose own may be
/// noded. So a search for what meets a ring looks at the candidates of the ring's box alone.
pub fn a_parcel_that_meets_a_ring_is_a_candidate()
    ensures { (rows : List NumberedRing) (city corners refined : List Corner) (area box : Bounds) (low high : Corner)
        (row : NumberedRing) (ring : List Corner) → AreSimple rows → IsNoded city corners refined
        → ((a b : Corner) → net_count (corner_lists rows) a b ≡ net_count (refined ∷ []) a b)
        → IsLeastBox area city → Contains rows row → IsLeastBox box row.corners
        → All (HoldsCorner (record { low = low; high = high })) ring → InteriorsMeet row.corners ring
        → IsCandidate rows city low high row.number }
{}
