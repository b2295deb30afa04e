//! Laws of areas, boxes and the order of corners.

ghost use Rattle.std.specs.List.{All, AllByRecursion};
ghost use Rattle.std.specs.Prelude.{◌≡◌, ◌⊎◌, ◌↔◌, ℕ, ◌≤◌, pos, neg_ℤ, ◌<ℤ◌, List, [], ◌∷◌, ◌++◌, length};
ghost use Rattle.geo_exact.specs.declared.bounds.Bounds.{Bounds};
ghost use Rattle.geo_exact.specs.declared.corner.Corner.{Corner};
ghost use Rattle.geo_exact.specs.Bounds.{HoldsCorner, IsBeyondBox};
ghost use Rattle.geo_exact.specs.Point.{Point, corner_point};
ghost use Rattle.geo_exact.specs.Order.{IsBefore};
ghost use Rattle.geo_exact.specs.Rings.{begun_at, begun_at_least, edges as edges_of, path, turned_round};
ghost use Rattle.geo_exact.specs.Segments.{IsOnSegment};
ghost use Rattle.geo_exact.specs.Turn.{turn, turn_at, IsOnEdge, IsOnRing, IsOnSome};
ghost use Rattle.geo_exact.specs.Winding.{winding, IsInterior};
ghost use Rattle.geo_exact.specs.Area.{area2};
ghost use Rattle.geo_exact.specs.declared.limits.TheConstants.{COUNTED_EDGES, FILE_BYTES, LAYER_CORNERS, LAYER_RECORDS};
ghost use Rattle.geo_exact.specs.declared.limits.TheConstants.{LIMIT, LIST_CORNERS, RING_CORNERS};

/// A ring has no first corner: begun at another corner it has the same edges, begun there too, and so the same winding
/// number round every point, the same signed area and the same boundary.
pub fn a_ring_has_no_first_corner()
    ensures edges { (k : ℕ) (ring : List Corner) → k ≤ length ring
        → edges_of (begun_at k ring) ≡ begun_at k (edges_of ring) }
    ensures winding_number { (k : ℕ) (p : Point) (ring : List Corner) → k ≤ length ring
        → winding p (begun_at k ring) ≡ winding p ring }
    ensures signed_area { (k : ℕ) (ring : List Corner) → k ≤ length ring → area2 (begun_at k ring) ≡ area2 ring }
    ensures boundary { (k : ℕ) (p : Point) (ring : List Corner) → k ≤ length ring
        → IsOnRing p (begun_at k ring) ↔ IsOnRing p ring }
{}

/// A ring begun at its least corner is the ring begun at one of its corners.
pub fn a_ring_is_begun_at_a_corner_of_it()
    ensures { (ring : List Corner) → (k : ℕ) × (k ≤ length ring) × (begun_at_least ring ≡ begun_at k ring) }
{}

/// A ring turned round, its first corner kept first, has the opposite winding number round every
/// point, and the opposite signed area.
#[tactic(auto, using(crate::proofs::rings::Windings::winding_turned_round, crate::proofs::rings::Windings::area2_turned_round))]
pub fn a_ring_turned_round_has_the_opposite_orientation()
    ensures winding_number { (p : Point) (ring : List Corner) → winding p (turned_round ring) ≡ neg_ℤ (winding p ring) }
    ensures signed_area { (ring : List Corner) → area2 (turned_round ring) ≡ neg_ℤ (area2 ring) }
{}

/// What a corner turns is what it turns as a rational point.
#[tactic(auto, using(crate::proofs::corners_and_turns::TurnLaws::turn_at_corner))]
pub fn a_corner_turns_as_its_place()
    ensures { (a b c : Corner) → turn_at a b (corner_point c) ≡ turn a b c }
{}

/// A corner put into an edge that it lies on changes nothing: each winding number and the signed
/// area stay.
#[tactic(auto, using(crate::proofs::rings::Windings::winding_inserts, crate::proofs::rings::Windings::area2_inserts))]
pub fn a_corner_on_an_edge_changes_nothing()
    ensures winding_number { (p : Point) (front back : List Corner) (a b m : Corner) → IsOnEdge (corner_point m) a b
        → winding p (front ++ a ∷ m ∷ b ∷ back) ≡ winding p (front ++ a ∷ b ∷ back) }
    ensures signed_area { (front back : List Corner) (a b m : Corner) → IsOnEdge (corner_point m) a b
        → area2 (front ++ a ∷ m ∷ b ∷ back) ≡ area2 (front ++ a ∷ b ∷ back) }
{}

/// A counterclockwise triangle goes round a point once or not at all: once round each point that is
/// left of its three edges, and not at all round a point that is right of one of them.
#[tactic(auto, using(crate::proofs::rings::Triangles::triangle_windings))]
pub fn a_triangle_winds_once_round_its_inside()
    ensures at_most_once { (a b c : Corner) (p : Point) → pos 0 <ℤ turn a b c
        → (winding p (a ∷ b ∷ c ∷ []) ≡ pos 0) ⊎ (winding p (a ∷ b ∷ c ∷ []) ≡ pos 1) }
    ensures inside { (a b c : Corner) (p : Point) → pos 0 <ℤ turn a b c
        → pos 0 <ℤ turn_at a b p → pos 0 <ℤ turn_at b c p → pos 0 <ℤ turn_at c a p
        → winding p (a ∷ b ∷ c ∷ []) ≡ pos 1 }
    ensures outside { (a b c : Corner) (p : Point) → pos 0 <ℤ turn a b c
        → ((turn_at a b p <ℤ pos 0) ⊎ (turn_at b c p <ℤ pos 0) ⊎ (turn_at c a p <ℤ pos 0))
        → winding p (a ∷ b ∷ c ∷ []) ≡ pos 0 }
{}

/// The interior of a counterclockwise triangle is the set of the points left of its three edges.
#[tactic(auto, using(crate::proofs::rings::Triangles::triangle_interior))]
pub fn the_interior_of_a_triangle_is_left_of_its_edges()
    ensures interior { (a b c : Corner) (p : Point) → pos 0 <ℤ turn a b c
        → IsInterior p (a ∷ b ∷ c ∷ [])
        ↔ ((pos 0 <ℤ turn_at a b p) × (pos 0 <ℤ turn_at b c p) × (pos 0 <ℤ turn_at c a p)) }
{}

/// Along a way that meets no edge of a ring its winding number stays: where no point of the segment
/// from p to q is on the ring, the ring goes round q as often as round p.
#[tactic(auto, using(crate::proofs::rings::Ways::winding_along))]
pub fn a_way_off_the_ring_keeps_its_winding_number()
    ensures winding_number { (p q : Point) (ring : List Corner)
        → ((m : Point) → IsOnSegment m p q → ¬ IsOnRing m ring)
        → winding p ring ≡ winding q ring }
{}

/// A ring that turns left at its least corner v, which comes before all others by x and then by y,
/// does not go round a corner c that v sees outside: c comes after v, the segment from v to c meets
/// no edge that is not at v, and c is not between the two edges at v.
pub fn a_ring_does_not_go_round_what_its_least_corner_sees_outside()
    ensures { (v n p c : Corner) (between : List Corner)
        → IsBefore v n → AllByRecursion (IsBefore v) between → IsBefore v p → IsBefore v c
        → ((m : Point) → IsOnSegment m (corner_point v) (corner_point c) → ¬ IsOnSome m (path n between p))
        → pos 0 <ℤ turn p v n → ((turn v n c <ℤ pos 0) ⊎ (turn p v c <ℤ pos 0))
        → winding (corner_point c) (v ∷ n ∷ (between ++ p ∷ [])) ≡ pos 0 }
{}

/// A point beyond a box that holds all corners of a ring is on no edge of the ring, and the ring does not go round it.
pub fn a_place_beyond_a_box_is_off_the_rings_in_it()
    ensures { (p : Point) (bounds : Bounds) (ring : List Corner) → All (HoldsCorner bounds) ring → IsBeyondBox p bounds
        → (¬ IsOnRing p ring) × (winding p ring ≡ pos 0) }
{}

/// The limits are these numbers, and not one more or less: a definition that names a constant means its number.
pub fn the_limits_are_these_numbers()
    ensures coordinate { LIMIT ≡ pos 100000000000 }
    ensures ring { RING_CORNERS ≡ 4096 }
    ensures layer { LAYER_CORNERS ≡ 1000000 }
    ensures records { LAYER_RECORDS ≡ 65536 }
    ensures file { FILE_BYTES ≡ 67108864 }
    ensures list { LIST_CORNERS ≡ 10000000 }
    ensures edges { COUNTED_EDGES ≡ 1000000000000 }
{}
