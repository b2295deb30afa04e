//! Laws: equal net numbers cover alike, and noding changes no ground.

ghost use Rattle.std.specs.Prelude.{◌≡◌, ◌≢◌, ◌↔◌, pos, List, ◌++◌};
ghost use Rattle.std.specs.List.{AllZip, Contains};
ghost use Rattle.geo_exact.specs.declared.corner.Corner.{Corner};
ghost use Rattle.geo_exact.specs.Point.{Point};
ghost use Rattle.geo_exact.specs.Turn.{IsOnRing};
ghost use Rattle.geo_exact.specs.Winding.{winding};
ghost use Rattle.geo_exact.specs.Area.{area2};
ghost use Rattle.edge_chains.specs.Noding.{IsNoded, all_corners, AreFullyNoded};
ghost use Rattle.edge_chains.specs.Jump.{net_difference, IsJump};
ghost use Rattle.edge_chains.specs.Net.{net_count, winding_of_rings, area2_of_rings};

/// Two sets of rings whose net numbers of directed edges are equal go round each point equally often, and have the
/// same area.
pub fn equal_nets_cover_alike()
    ensures windings { (added taken : List (List Corner)) → ((a b : Corner) → net_count added a b ≡ net_count taken a b)
        → (p : Point) → winding_of_rings p added ≡ winding_of_rings p taken }
    ensures areas { (added taken : List (List Corner)) → ((a b : Corner) → net_count added a b ≡ net_count taken a b)
        → area2_of_rings added ≡ area2_of_rings taken }
{}

/// Noding changes neither the winding number round any point, nor the boundary, nor the area of a ring; and rings
/// noded for all of their corners have no corner strictly inside an edge any more.
pub fn noding_changes_no_ground()
    ensures windings { (p : Point) (ring corners noded : List Corner) → IsNoded ring corners noded
        → winding p noded ≡ winding p ring }
    ensures boundaries { (p : Point) (ring corners noded : List Corner) → IsNoded ring corners noded
        → IsOnRing p noded ↔ IsOnRing p ring }
    ensures areas { (ring corners noded : List Corner) → IsNoded ring corners noded → area2 noded ≡ area2 ring }
    ensures cuts { (corners : List Corner) (rings noded : List (List Corner))
        → AllZip (λ ring out. IsNoded ring corners out) rings noded
        → ((c : Corner) → Contains (all_corners rings) c → Contains corners c) → AreFullyNoded noded }
{}

/// In rings that are noded for all of their corners, an edge whose net count isn't the same in the added and the taken
/// rings is no false alarm: it has two points beside it, off all edges and with no other edge between them. The
/// difference of the winding numbers left of the edge, less the one right of it, is the edge's net count; differences
/// and net counts are those of the added rings less those of the taken ones.
pub fn an_unbalanced_edge_is_a_jump()
    ensures { (added taken : List (List Corner)) → AreFullyNoded (added ++ taken) → (a b : Corner)
        → net_difference added taken a b ≢ pos 0
        → (left : Point) × (right : Point) × IsJump added taken a b left right }
{}

/// And the other way round: in rings that are noded for all of their corners, net numbers of directed edges are equal
/// where the rings of both sides together go round each point equally often.
pub fn rings_that_wind_alike_have_equal_nets()
    ensures { (added taken : List (List Corner)) → AreFullyNoded (added ++ taken)
        → ((p : Point) → winding_of_rings p added ≡ winding_of_rings p taken)
        → (a b : Corner) → net_count added a b ≡ net_count taken a b }
{}

/// Each ring is noded for whatever corners, in some way.
pub fn each_ring_is_noded()
    ensures { (ring corners : List Corner) → (noded : List Corner) × IsNoded ring corners noded }
{}
