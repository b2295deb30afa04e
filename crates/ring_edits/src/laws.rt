//! Laws: an edit's new rings have the net edges of the old.

ghost use Rattle.std.specs.Prelude.{◌≡◌, ◌≢◌, ◌↔◌, ℕ, ◌+◌, ◌<◌, ◌≤◌, IsTrue, List, [], ◌∷◌, length, map};
ghost use Rattle.std.specs.List.{AllByRecursion};
ghost use Rattle.geo_exact.specs.declared.bounds.Bounds.{Bounds};
ghost use Rattle.geo_exact.specs.declared.corner.Corner.{Corner};
ghost use Rattle.geo_exact.specs.Bounds.{IsLeastBox};
ghost use Rattle.geo_exact.specs.Places.{corner_at};
ghost use Rattle.geo_exact.specs.Point.{Point};
ghost use Rattle.geo_exact.specs.Rings.{begun_at_least};
ghost use Rattle.geo_exact.specs.Segments.{IsStrictlyInside};
ghost use Rattle.geo_exact.specs.Winding.{winding};
ghost use Rattle.ring_core.specs.Clipping.{IsFlat};
ghost use Rattle.ring_core.specs.Simple.{IsSimpleRing};
ghost use Rattle.edge_chains.specs.Net.{net_count, winding_of_rings};
ghost use Rattle.edge_chains.specs.Noding.{IsNoded};
ghost use Rattle.ring_edits.specs.Edits.{IsSplit, IsMerge, IsMove, CoversAlike, has_edge_between, put_between};
ghost use Rattle.ring_edits.specs.Edits.{with_corner, BendsAt, has_corner, straightened, without_corner};
ghost use Rattle.ring_edits.specs.Round.{HasApartCorners};

/// The rings that an edit makes have, for every two corners, the net number of directed edges from the one to the
/// other that the rings had which they replace.
pub fn new_rings_have_the_nets_of_the_old()
    ensures split { (ring path left right : List Corner) → IsSplit ring path left right → (c d : Corner)
        → net_count (left ∷ right ∷ []) c d ≡ net_count (ring ∷ []) c d }
    ensures merged { (a b out : List Corner) → IsSimpleRing a → IsSimpleRing b → IsMerge a b out → (c d : Corner)
        → net_count (out ∷ []) c d ≡ net_count (a ∷ b ∷ []) c d }
    ensures moved { (a b path out_a out_b : List Corner) → IsSimpleRing a → IsSimpleRing b → IsMove a b path out_a out_b
        → (c d : Corner) → net_count (out_a ∷ out_b ∷ []) c d ≡ net_count (a ∷ b ∷ []) c d }
{}

/// Where rows and a city have the same net numbers of directed edges, they still have them with a corner put into
/// each edge between two corners, in either direction: in all the rings that have it, whatever rings they are, and
/// wherever the rows begin then.
#[tactic(auto, using(crate::proofs::PutNets::put_nets, crate::proofs::PutNets::with_corner_nets))]
pub fn inserting_into_all_keeps_equal_nets()
    ensures put { (from to at : Corner) (rows : List (List Corner)) (city : List Corner) → from ≢ to
        → ((c d : Corner) → net_count rows c d ≡ net_count (city ∷ []) c d)
        → (c d : Corner) → net_count (map (put_between from to at) rows) c d
        ≡ net_count (put_between from to at city ∷ []) c d }
    ensures begun { (from to at : Corner) (rows : List (List Corner)) (city : List Corner) → from ≢ to
        → ((c d : Corner) → net_count rows c d ≡ net_count (city ∷ []) c d)
        → (c d : Corner) → net_count (map (with_corner from to at) rows) c d
        ≡ net_count (put_between from to at city ∷ []) c d }
{}

/// A corner strictly inside an edge changes nothing that a ring covers, where it is put into each of its edges
/// between the same two corners: neither a winding number, nor the boundary, nor the area; whatever ring it is.
pub fn inserting_covers_alike()
    ensures put { (from to at : Corner) (ring : List Corner) → IsStrictlyInside at from to
        → CoversAlike ring (put_between from to at ring) }
    ensures begun { (from to at : Corner) (ring : List Corner) → IsStrictlyInside at from to
        → CoversAlike ring (with_corner from to at ring) }
{}

/// Nor does it change the least box that holds the ring.
pub fn inserting_keeps_the_least_box()
    ensures put { (bounds : Bounds) (from to at : Corner) (ring : List Corner) → IsStrictlyInside at from to
        → IsLeastBox bounds ring → IsLeastBox bounds (put_between from to at ring) }
    ensures begun { (bounds : Bounds) (from to at : Corner) (ring : List Corner) → IsStrictlyInside at from to
        → IsLeastBox bounds ring → IsLeastBox bounds (with_corner from to at ring) }
{}

/// A ring that begins at its least corner still begins there where a corner is put in strictly
/// inside an edge, and stays as it is where it has no such edge. (What is begun at its least corner
/// begins there.)
pub fn inserting_keeps_where_a_ring_begins()
    ensures begun { (from to at : Corner) (ring : List Corner) → IsStrictlyInside at from to
        → begun_at_least ring ≡ ring
        → with_corner from to at ring ≡ put_between from to at ring }
    ensures unchanged { (from to at : Corner) (ring : List Corner) → ¬ IsTrue (has_edge_between from to ring)
        → put_between from to at ring ≡ ring }
    ensures begins { (ring : List Corner) → begun_at_least (begun_at_least ring) ≡ begun_at_least ring }
{}

/// A corner taken out of a ring changes nothing that the ring covers where it is straight at each place that has the
/// corner: neither a winding number, nor the boundary, nor the area; whatever ring it is.
pub fn straightening_covers_alike()
    ensures taken { (at : Corner) (ring : List Corner) → ¬ BendsAt at ring → CoversAlike ring (without_corner at ring) }
    ensures begun { (at : Corner) (ring : List Corner) → ¬ BendsAt at ring → CoversAlike ring (straightened at ring) }
{}

/// Nor does it change the least box that holds the ring.
pub fn straightening_keeps_the_least_box()
    ensures taken { (bounds : Bounds) (at : Corner) (ring : List Corner) → ¬ BendsAt at ring
        → IsLeastBox bounds ring → IsLeastBox bounds (without_corner at ring) }
    ensures begun { (bounds : Bounds) (at : Corner) (ring : List Corner) → ¬ BendsAt at ring
        → IsLeastBox bounds ring → IsLeastBox bounds (straightened at ring) }
{}

/// A ring that does not have a corner is the same without it.
#[tactic(auto, using(crate::proofs::Straight::lacking_stays))]
pub fn a_ring_that_lacks_a_corner_stays()
    ensures { (at : Corner) (ring : List Corner) → ¬ IsTrue (has_corner at ring) → without_corner at ring ≡ ring }
{}

/// A simple ring bends at each of its corners but the flat ones, which clipping takes out first.
pub fn a_simple_ring_bends_where_a_corner_is_not_flat()
    ensures { (ring : List Corner) → IsSimpleRing ring → (k : ℕ) → k < length ring
        → BendsAt (corner_at ring k) ring ↔ (¬ IsFlat ring k) }
{}

/// A simple ring stays simple where it is noded, for whatever corners; where a corner that lies strictly between two
/// others is put into its edge between them; and where a corner is taken out at which it is straight.
pub fn simple_rings_stay_simple()
    ensures noded { (ring corners noded : List Corner) → IsSimpleRing ring → IsNoded ring corners noded
        → IsSimpleRing noded }
    ensures put { (from to at : Corner) (ring : List Corner) → IsStrictlyInside at from to → IsSimpleRing ring
        → IsSimpleRing (put_between from to at ring) }
    ensures taken { (at : Corner) (ring : List Corner) → ¬ BendsAt at ring → IsSimpleRing ring
        → IsSimpleRing (without_corner at ring) }
{}

/// A simple ring bends at no corner where none of some rings bends, if these together go round each point as often as
/// it does: a city bends only where one of the parcels bends that tile it.
pub fn a_simple_ring_bends_only_with_its_parts()
    ensures { (at : Corner) (rings : List (List Corner)) (city : List Corner) → IsSimpleRing city
        → ((p : Point) → winding_of_rings p rings ≡ winding p city)
        → AllByRecursion (λ ring. ¬ BendsAt at ring) rings → ¬ BendsAt at city }
{}

/// A simple ring has three corners and more, at different places.
#[tactic(auto, using(crate::proofs::Apart::has_apart_corners))]
pub fn a_simple_ring_has_its_corners_apart()
    ensures { (ring : List Corner) → IsSimpleRing ring → HasApartCorners ring }
{}

/// Each edit has one result: of a ring whose corners are apart a path cuts off one left and one right part, and where
/// those of `b` are, two rings are merged, or their border is moved, in one way.
pub fn each_edit_has_one_result()
    ensures split { (ring path left right other_left other_right : List Corner) → HasApartCorners ring
        → IsSplit ring path left right → IsSplit ring path other_left other_right
        → (other_left ≡ left) × (other_right ≡ right) }
    ensures merged { (a b out other : List Corner) → HasApartCorners b → IsMerge a b out
        → IsMerge a b other → other ≡ out }
    ensures moved { (a b path out_a out_b other_a other_b : List Corner) → HasApartCorners b
        → IsMove a b path out_a out_b
        → IsMove a b path other_a other_b → (other_a ≡ out_a) × (other_b ≡ out_b) }
{}

/// How many corners new rings have: of a cut, together as many as the ring and twice the path, but for two; and each
/// at most as many as the lists that it is made of, but for two. A corner that is put in is one more, where the ring
/// has its corners apart and so the edge once; in any ring there are not fewer. With a corner taken out there are not
/// more.
pub fn new_rings_have_so_many_corners()
    ensures split_both { (ring path left right : List Corner) → IsSplit ring path left right
        → length left + length right + 2 ≡ length ring + (length path + length path) }
    ensures split_each { (ring path left right : List Corner) → IsSplit ring path left right
        → (length left + 2 ≤ length ring + length path) × (length right + 2 ≤ length ring + length path) }
    ensures inserted { (ring : List Corner) (from to at : Corner) → HasApartCorners ring → from ≢ to
        → IsTrue (has_edge_between from to ring) → length (put_between from to at ring) ≡ length ring + 1 }
    ensures not_fewer { (ring : List Corner) (from to at : Corner)
        → length ring ≤ length (put_between from to at ring) }
    ensures begun { (ring : List Corner) (from to at : Corner)
        → length (with_corner from to at ring) ≡ length (put_between from to at ring) }
    ensures straightened { (at : Corner) (ring : List Corner) → length (straightened at ring) ≤ length ring }
    ensures merged { (a b out : List Corner) → IsMerge a b out → length out + 2 ≤ length a + length b }
    ensures moved { (a b path out_a out_b : List Corner) → IsMove a b path out_a out_b
        → (length out_a + 2 ≤ length a + length path) × (length out_b + 2 ≤ length b + length path) }
{}
