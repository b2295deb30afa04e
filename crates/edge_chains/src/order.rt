//! The order of edges: by their first corners, then by their second.

ghost use Rattle.std.specs.Prelude.{◌≡◌};
ghost use Rattle.edge_chains.specs.Counts.{is_edge_before};

use geo_exact::Corner;

/// Whether one edge comes before another, by their first corners and then by their second.
pub(crate) fn comes_first(p: (Corner, Corner), q: (Corner, Corner)) -> bool
    ensures { result ≡ is_edge_before p q }
{
    p < q
}
