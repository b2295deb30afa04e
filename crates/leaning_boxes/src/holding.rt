//! Whether a leaning box holds a corner.

ghost use Rattle.std.specs.Prelude.{◌<ℤ◌, IsTrue};
ghost use Rattle.geo_exact.specs.declared.corner.Corner.{Corner as CornerValue};
ghost use Rattle.geo_exact.specs.Bounds.{IsBeyondBox};
ghost use Rattle.geo_exact.specs.Point.{Point};
ghost use Rattle.geo_exact.specs.Turn.{IsOnEdge};
ghost use Rattle.leaning_boxes.specs.Leaning.{IsHeld};

use crate::leaning::LeaningBox;
use geo_exact::{Bounds, Corner, turn};

/// How far an edge goes, in x or in y.
pub fn reach(a: Corner, b: Corner) -> u64 {
    a.x.abs_diff(b.x).max(a.y.abs_diff(b.y))
}

/// Whether an edge lies wholly left of a box, right of it, below it or above it.
pub fn is_beside(from: Corner, to: Corner, bounds: Bounds) -> bool
    ensures { IsTrue result → (p : Point) → IsOnEdge p from to → IsBeyondBox p bounds }
{
    if from.x < bounds.low.x && to.x < bounds.low.x {
        return true;
    }
    if from.x > bounds.high.x && to.x > bounds.high.x {
        return true;
    }
    if from.y < bounds.low.y && to.y < bounds.low.y {
        return true;
    }
    from.y > bounds.high.y && to.y > bounds.high.y
}

/// Whether both numbers are below the first.
fn are_below(low: i128, s: i128, t: i128) -> bool
    ensures { IsTrue result → (s <ℤ low) × (t <ℤ low) }
{
    s < low && t < low
}

/// Whether both numbers are above the first.
fn are_above(high: i128, s: i128, t: i128) -> bool
    ensures { IsTrue result → (high <ℤ s) × (high <ℤ t) }
{
    s > high && t > high
}

impl Default for LeaningBox {
    /// The box of the origin alone.
    fn default() -> LeaningBox {
        let origin = Corner { x: 0, y: 0 };
        LeaningBox::of_corner(origin, origin, origin)
    }
}

impl LeaningBox {
    /// The leaning box of one corner, along the line through two.
    pub fn of_corner(from: Corner, to: Corner, corner: Corner) -> LeaningBox
        ensures { IsHeld result corner }
    {
        let level = turn(from, to, corner);
        LeaningBox {
            bounds: Bounds::of_corner(corner),
            from,
            to,
            low: level,
            high: level,
        }
    }

    /// The same, as wide as it must be to hold one more corner.
    pub fn around(self, corner: Corner) -> LeaningBox
        ensures holds { IsHeld result corner }
        ensures keeps { (other : CornerValue) → IsHeld self other → IsHeld result other }
    {
        let level = turn(self.from, self.to, corner);
        LeaningBox {
            bounds: self.bounds.around(Bounds::of_corner(corner)),
            from: self.from,
            to: self.to,
            low: self.low.min(level),
            high: self.high.max(level),
        }
    }

    /// Whether the edge from `c` to `d` lies beyond one side.
    pub fn misses(self, c: Corner, d: Corner) -> bool
        ensures { IsTrue result → (a b : CornerValue) (p : Point) → IsHeld self a → IsHeld self b → IsOnEdge p a b
            → ¬ IsOnEdge p c d }
    {
        if is_beside(c, d, self.bounds) {
            return true;
        }
        let s = turn(self.from, self.to, c);
        let t = turn(self.from, self.to, d);
        if are_below(self.low, s, t) {
            return true;
        }
        are_above(self.high, s, t)
    }
}
