//! Whether the interiors of two triangles have a common point.

ghost use Rattle.std.specs.Prelude.{◌↔◌, pos, ◌<ℤ◌, IsTrue};
ghost use Rattle.geo_exact.specs.Turn.{turn as turn_of};
ghost use Rattle.geo_exact.specs.Interiors.{InteriorsMeet};
ghost use Rattle.ring_core.specs.Sums.{triangle_ring};
ghost use Rattle.tri_overlap.specs.own.Pairs.{NoEdgeSeparates, SeesSome};
ghost use Rattle.tri_overlap.specs.own.Bounding.{HoldsMeeting};

use geo_exact::{Bounds, Corner, turn};
use ring_core::{Tri, bounds_of};

/// Whether a corner is left of the way from one corner to another.
fn is_left(from: Corner, to: Corner, corner: Corner) -> bool
    ensures { IsTrue result ↔ (pos 0 <ℤ turn_of from to corner) }
{
    turn(from, to, corner) > 0
}

/// Whether some corner of the triangle is left of the way from one corner to another.
fn sees(from: Corner, to: Corner, triangle: &Tri) -> bool
    ensures { IsTrue result ↔ SeesSome from to triangle.now.a triangle.now.b triangle.now.c }
{
    is_left(from, to, triangle.a) || is_left(from, to, triangle.b) || is_left(from, to, triangle.c)
}

/// Whether each edge of the first triangle sees a corner of the second.
fn each_edge_sees(first: &Tri, second: &Tri) -> bool
    ensures { IsTrue result ↔ NoEdgeSeparates first.now second.now }
{
    sees(first.a, first.b, second)
        && sees(first.b, first.c, second)
        && sees(first.c, first.a, second)
}

/// Whether the interiors of two triangles have a common point, where a box is known that has all such points.
pub fn meet_in_box(first: &Tri, bounds: Bounds, second: &Tri) -> bool
    requires { HoldsMeeting bounds first.now second.now }
    ensures { IsTrue result ↔ InteriorsMeet (triangle_ring first.now) (triangle_ring second.now) }
{
    if bounds.is_apart(bounds_of(second)) {
        return false;
    }
    each_edge_sees(first, second) && each_edge_sees(second, first)
}

/// Whether the interiors of two triangles have a common point, with fractions.
///
/// Two triangles of positive area have none exactly when some edge of one has all corners of the other
/// on its right or on its line (the separating edge). Touching is no overlap.
///
/// ```
/// // (0, 0) (60, 0) (0, 60) and (60, 0) (60, 60) (0, 60) have an edge in common, no more.
/// assert!(!triangles_overlap(&first, &second));
/// ```
pub fn triangles_overlap(first: &Tri, second: &Tri) -> bool
    ensures { IsTrue result ↔ InteriorsMeet (triangle_ring first.now) (triangle_ring second.now) }
{
    meet_in_box(first, bounds_of(first), second)
}
