//! Whether a ring has an edge, in either direction.

ghost use Rattle.std.specs.Prelude.{◌≡◌, ◌<◌, length};
ghost use Rattle.geo_exact.specs.Places.{after, corner_at};
ghost use Rattle.ring_edits.specs.Edits.{has_edge_between, joins};

use geo_exact::Corner;

/// Whether the ring has an edge between the two corners, in either direction.
pub(crate) fn has_edge(ring: &[Corner], from: Corner, to: Corner) -> bool
    ensures { result ≡ has_edge_between from to ring.now }
{
    for i in 0..ring.len() {
        if is_joining(ring, i, from, to) {
            return true;
        }
    }
    false
}

/// Whether the edge with this number goes between the two corners, in either direction.
fn is_joining(ring: &[Corner], i: usize, from: Corner, to: Corner) -> bool
    requires { i < length ring.now }
    ensures { result ≡ joins from to (record {
      from = corner_at ring.now i;
      to = corner_at ring.now (after (length ring.now) i);
    }) }
{
    let start = ring[i];
    let end = ring[following(ring.len(), i)];
    (start == from && end == to) || (start == to && end == from)
}

/// The number that follows `i` round a ring of `count` corners.
fn following(count: usize, i: usize) -> usize
    requires { i < count }
    ensures { result ≡ after count i }
{
    if i + 1 == count { 0 } else { i + 1 }
}
