//! Triangles of positive area, and lists of them.

ghost use Rattle.std.specs.Prelude.{◌≡◌, ◌↔◌, pos, ◌<ℤ◌, IsSome, IfSome, IfOk, OnOk, OnErr, ◌++◌, ◌∷◌};
ghost use Rattle.std.specs.Prelude.{[], length, IsTrue};
ghost use Rattle.geo_exact.specs.Turn.{turn as turn_of};

use geo_exact::{Corner, turn};
use std::alloc::{AllocError, Allocator};
use std::marker::Model;

/// A triangle of positive area: `c` is left of the way from `a` to `b` (OGC 06-103r4, 6.1.11,
/// Triangle). Corners are in whole millimetres.
#[derive(Clone, Copy, Debug, PartialEq, Eq)]
pub struct Tri {
    /// The first corner.
    pub a: Corner,
    /// The second.
    pub b: Corner,
    /// The third, left of the way from the first to the second.
    pub c: Corner,
    pub ghost turns_left: { pos 0 <ℤ turn_of a b c },
}

impl Tri {
    /// The triangle of three corners, or `None` where they don't turn left.
    ///
    /// ```
    /// let triangle = Tri::new(a, b, c); // None unless c is left of the way from a to b
    /// ```
    pub fn new(a: Corner, b: Corner, c: Corner) -> Option<Tri>
        ensures valid { IsSome result ↔ (pos 0 <ℤ turn_of a b c) }
        ensures made { IfSome result (λ tri. (tri.a ≡ a) × (tri.b ≡ b) × (tri.c ≡ c)) }
    {
        if turn(a, b, c) > 0 {
            Some(Tri { a, b, c })
        } else {
            None
        }
    }
}

/// A list of triangles, which contracts see as that list.
#[derive(Debug, Drop)]
pub struct Triangles<A: Allocator> {
    list: Vec<Tri, A>,
}

impl<A: Allocator> Model for Triangles<A> {
    ghost use Rattle.ring_core.specs.declared.triangle.Tri.{Tri};
    ghost use Rattle.std.specs.Prelude.{List};

    ghost Value = { List Tri };

    ghost view = { λ triangles. triangles.list.items };
}

impl<A: Allocator> Triangles<A> {
    /// No triangle yet; nothing is allocated.
    pub fn new(alloc: A) -> Triangles<A>
        ensures { result ≡ [] }
    {
        Triangles {
            list: Vec::new(alloc),
        }
    }

    /// No triangle yet, with room for so many.
    ///
    /// # Errors
    ///
    /// [`AllocError`] where an allocation fails.
    pub fn with_capacity(alloc: A, capacity: usize) -> Result<Triangles<A>, AllocError>
        ensures { IfOk result (λ triangles. triangles ≡ []) }
    {
        let list = Vec::with_capacity(alloc, capacity)?;
        Ok(Triangles { list })
    }

    /// Adds a triangle at the end; after a refusal the list is unchanged.
    ///
    /// # Errors
    ///
    /// [`AllocError`] where an allocation fails.
    pub fn push(&mut self, tri: Tri) -> Result<(), AllocError>
        ensures ok { OnOk result (self.new ≡ self.old ++ tri ∷ []) }
        ensures err { OnErr result (self.new ≡ self.old) }
    {
        self.list.push(tri)?;
        Ok(())
    }

    /// How many triangles there are.
    pub fn len(&self) -> usize
        ensures { result ≡ length self.now }
    {
        self.list.len()
    }

    /// Whether there is no triangle.
    pub fn is_empty(&self) -> bool
        ensures { IsTrue result ↔ (self.now ≡ []) }
    {
        self.list.is_empty()
    }

    /// The triangles in order.
    pub fn as_slice(&self) -> &[Tri]
        ensures { result.now ≡ self.now }
    {
        self.list.as_slice()
    }
}

impl<A: Allocator + Copy> Clone for Triangles<A> {
    ghost use Rattle.std.specs.Prelude.{◌≡◌};

    ghost is_clone = { λ triangles copy. copy ≡ triangles };

    fn clone(&self) -> Result<Triangles<A>, AllocError> {
        let list = Vec::from_slice(*self.list.allocator(), self.list.as_slice())?;
        Ok(Triangles { list })
    }
}
