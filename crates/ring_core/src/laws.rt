//! Laws: a ring, its numbers and its two ears.

ghost use Rattle.std.specs.Prelude.{◌≡◌, ◌⊎◌, ◌↔◌, ℕ, ◌<◌, pos, ◌<ℤ◌, ◌+◌, List, ◌∷◌, take, drop};
ghost use Rattle.std.specs.Prelude.{Some, length, slice_get};
ghost use Rattle.geo_exact.specs.declared.corner.Corner.{Corner};
ghost use Rattle.geo_exact.specs.Point.{Point};
ghost use Rattle.geo_exact.specs.Rings.{Edge, edges};
ghost use Rattle.geo_exact.specs.Turn.{IsOnRing, turn};
ghost use Rattle.ring_core.specs.declared.triangle.Tri.{Tri};
ghost use Rattle.geo_exact.specs.Places.{corner_at, after, before};
ghost use Rattle.ring_core.specs.Simple.{IsOnEdgeAt, IsSimpleRing, MeetOnlyAsNeighbours};
ghost use Rattle.ring_core.specs.Clipping.{Blocks, IsClippedTo, IsEar, IsFlat, next, previous};
ghost use Rattle.ring_core.specs.Diagonals.{IsDiagonal};
ghost use Rattle.ring_core.specs.Ears.{AreNoNeighbours};
ghost use Rattle.geo_exact.specs.First.{HasNone};
ghost use Rattle.std.specs.List.{remove};

/// The edges by number are the ring's: it has as many as corners, edge i joins corner i to the next
/// and the last to the first, and a point lies on the ring exactly where it lies on the edge of
/// some number.
pub fn edges_are_those_of_their_numbers()
    ensures as_many { (ring : List Corner) → length (edges ring) ≡ length ring }
    ensures joined { (ring : List Corner) (i : ℕ) (edge : Edge) → slice_get (edges ring) i ≡ Some edge
        → (edge.from ≡ corner_at ring i) × (edge.to ≡ corner_at ring (after (length ring) i)) }
    ensures points { (p : Point) (ring : List Corner)
        → IsOnRing p ring ↔ ((i : ℕ) × (i < length ring) × IsOnEdgeAt p ring i) }
{}

/// A simple ring of more than three corners has two ears that are no neighbours, so that they do not
/// overlap; where it has flat corners, each of the two is flat or an ear.
pub fn a_simple_ring_has_two_ears()
    ensures ears { (ring : List Corner) → IsSimpleRing ring → 3 < length ring → HasNone (IsFlat ring) (length ring)
        → (j k : ℕ) × AreNoNeighbours (length ring) j k × IsEar ring j × IsEar ring k }
    ensures flat_or_ears { (ring : List Corner) → IsSimpleRing ring → 3 < length ring
        → (j k : ℕ) × AreNoNeighbours (length ring) j k × (IsFlat ring j ⊎ IsEar ring j)
        × (IsFlat ring k ⊎ IsEar ring k) }
{}

/// A simple ring is clipped to triangles, and a ring is clipped to one list of them alone.
pub fn a_ring_is_clipped_in_one_way()
    ensures to_triangles { (ring : List Corner) → IsSimpleRing ring → (ts : List Tri) × IsClippedTo ring ts }
    ensures one_way { (ring : List Corner) (ts us : List Tri) → IsClippedTo ring ts → IsClippedTo ring us → ts ≡ us }
{}

/// What clipping takes out, a flat corner or an ear, leaves a ring whose edges still meet only as
/// neighbours, as long as three corners are left.
pub fn what_clipping_takes_out_leaves_a_simple_ring()
    ensures { (ring : List Corner) (k : ℕ) → 3 < length ring → k < length ring → MeetOnlyAsNeighbours ring
        → IsFlat ring k ⊎ IsEar ring k → MeetOnlyAsNeighbours (remove ring k) }
{}

/// In a ring whose edges meet only as neighbours, a left turn that is no ear is at the end of a
/// diagonal: some corner in its closed triangle is joined to it by a segment that meets the ring at
/// its two ends alone.
pub fn a_left_turn_that_is_no_ear_has_a_diagonal()
    ensures { (ring : List Corner) (k j : ℕ) → k < length ring → j < length ring → MeetOnlyAsNeighbours ring
        → pos 0 <ℤ turn (previous ring k) (corner_at ring k) (next ring k) → Blocks ring k j
        → (z : ℕ) × (z < length ring) × Blocks ring k z × IsDiagonal ring k z }
{}

/// A left turn in a ring whose edges meet only as neighbours stays one where its neighbour, a flat
/// corner or an ear, is clipped: the neighbour after it, or the one before it.
pub fn a_left_turn_stays_where_a_neighbour_is_clipped()
    ensures after_it { (ring : List Corner) (v : ℕ) → 3 < length ring → v < length ring → MeetOnlyAsNeighbours ring
        → pos 0 <ℤ turn (previous ring v) (corner_at ring v) (next ring v)
        → IsFlat ring (after (length ring) v) ⊎ IsEar ring (after (length ring) v)
        → pos 0 <ℤ turn (previous ring v) (corner_at ring v) (next ring (after (length ring) v)) }
    ensures before_it { (ring : List Corner) (v : ℕ) → 3 < length ring → v < length ring → MeetOnlyAsNeighbours ring
        → pos 0 <ℤ turn (previous ring v) (corner_at ring v) (next ring v)
        → IsFlat ring (before (length ring) v) ⊎ IsEar ring (before (length ring) v)
        → pos 0 <ℤ turn (previous ring (before (length ring) v)) (corner_at ring v) (next ring v) }
{}

/// A diagonal from the first corner of a ring whose edges meet only as neighbours, to one that is no
/// neighbour of it, cuts the ring into two such rings.
pub fn a_diagonal_cuts_a_ring_in_two()
    ensures { (ring : List Corner) (z : ℕ) → 1 < z → z + 1 < length ring → MeetOnlyAsNeighbours ring
        → IsDiagonal ring 0 z
        → MeetOnlyAsNeighbours (take (z + 1) ring) × MeetOnlyAsNeighbours (corner_at ring 0 ∷ drop z ring) }
{}
