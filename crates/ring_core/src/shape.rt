//! A simple ring with the triangles that make it up.

ghost use Rattle.std.specs.Prelude.{◌≡◌, IfOk};
ghost use Rattle.ring_core.specs.Clipping.{IsClippedTo};
ghost use Rattle.std.specs.List.{All};
ghost use Rattle.geo_exact.specs.declared.corner.Corner.{Corner};
ghost use Rattle.geo_exact.specs.Point.{Point, corner_point};
ghost use Rattle.geo_exact.specs.Winding.{IsInterior, winding};
ghost use Rattle.geo_exact.specs.Area.{area2};
ghost use Rattle.geo_exact.specs.Bounds.{HoldsCorner, IsLeastBox};
ghost use Rattle.ring_core.specs.Boxes.{HoldsTriangle};
ghost use Rattle.ring_core.specs.Sums.{IsRoundAtMostOnce, MakeUp, area2_of_triangles, winding_of_triangles};

use crate::boxes::bounds_of_ring;
use crate::ear::triangle_at;
use crate::inner::core_of;
use crate::rest::Rest;
use crate::ring::Ring;
use crate::triangle::Triangles;
use geo_exact::Bounds;
use std::alloc::{AllocError, Allocator};

/// A simple ring with triangles that make it up: at every point the ring's winding number is the sum
/// of theirs, each of which is 0 or 1, and the twice-areas add up.
#[derive(Debug, Drop)]
pub struct Shape<A: Allocator> {
    // Where a point lies is told by the core and the box alone, as a rule, so they stand first, side by side.
    /// A box in which every point is inside the ring; it holds none where none was found.
    pub core: Bounds,
    /// The least box of its corners, which holds its triangles too.
    pub bounds: Bounds,
    /// The ring.
    pub ring: Ring<A>,
    /// Its triangles, in the order in which they are clipped.
    pub triangles: Triangles<A>,
    pub ghost least_box: { IsLeastBox bounds ring.corners },
    pub ghost bounded: { All (HoldsTriangle bounds) triangles },
    pub ghost made_up: { MakeUp triangles ring.corners },
    pub ghost cored: { (corner : Corner) → HoldsCorner core corner → IsInterior (corner_point corner) ring.corners },
}

impl<A: Allocator + Copy> Clone for Shape<A> {
    ghost use Rattle.std.specs.Prelude.{◌≡◌};

    ghost is_clone = { λ shape copy. (copy.ring.corners ≡ shape.ring.corners) × (copy.triangles ≡ shape.triangles) };

    fn clone(&self) -> Result<Shape<A>, AllocError> {
        let ring = self.ring.clone()?;
        let triangles = self.triangles.clone()?;
        Ok(Shape {
            ring,
            triangles,
            bounds: self.bounds,
            core: self.core,
        })
    }
}

impl<A: Allocator + Copy> Shape<A> {
    /// Clips a ring to triangles: while more than two corners are left, the first flat corner is taken
    /// out or, where there is none, the first ear, which becomes a triangle. There always is one or the
    /// other ([`a_simple_ring_has_two_ears`](crate::a_simple_ring_has_two_ears)).
    ///
    /// The time grows with the square of the number of corners. The ring is dropped on a fault.
    ///
    /// # Errors
    ///
    /// [`AllocError`] where an allocation fails.
    ///
    /// ```
    /// let shape = Shape::clip(alloc, Ring::check(corners)?)?;
    /// let count = shape.triangles.len(); // 2 of a square
    /// ```
    pub fn clip(alloc: A, ring: Ring<A>) -> Result<Shape<A>, AllocError>
        ensures ring { IfOk result (λ shape. shape.ring.corners ≡ ring.corners) }
        ensures clipped { IfOk result (λ shape. IsClippedTo ring.corners shape.triangles) }
        ensures windings { IfOk result (λ shape. (p : Point)
            → winding p ring.corners ≡ winding_of_triangles p shape.triangles) }
        ensures each_once { IfOk result (λ shape. (p : Point) → All (IsRoundAtMostOnce p) shape.triangles) }
        ensures areas { IfOk result (λ shape. area2 ring.corners ≡ area2_of_triangles shape.triangles) }
        ensures bounds { IfOk result (λ shape. IsLeastBox shape.bounds ring.corners) }
    {
        let mut rest = Rest::from_corners(alloc, ring.corners.as_slice())?;
        let mut triangles = Triangles::with_capacity(alloc, ring.corners.len().saturating_sub(2))?;
        while rest.as_slice().len() > 2 {
            if let Some(k) = rest.first_flat() {
                rest.remove(k);
            } else if let Some(k) = rest.first_ear() {
                triangles.push(triangle_at(rest.as_slice(), k))?;
                rest.remove(k);
            } else {
                unreachable!()
            }
        }
        let bounds = bounds_of_ring(ring.corners.as_slice());
        let core = core_of(ring.corners.as_slice(), bounds);
        Ok(Shape {
            ring,
            triangles,
            bounds,
            core,
        })
    }
}
