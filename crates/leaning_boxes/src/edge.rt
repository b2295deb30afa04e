//! Whether an edge and a corner are apart along a leaning line.

ghost use Rattle.std.specs.Prelude.{◌≡◌, ◌≢◌, ◌↔◌, ◌-ℤ◌, ◌*ℤ◌, ◌≤ℤ◌, ◌*◌, ℤ, int_lt, false, IsTrue};
ghost use Rattle.std.specs.Int.{int_max, int_min};
ghost use Rattle.geo_exact.specs.Bounds.{RangesMeet};
ghost use Rattle.geo_exact.specs.declared.corner.Corner.{Corner as CornerValue};
ghost use Rattle.geo_exact.specs.Limit.{IsWithin, limit};
ghost use Rattle.geo_exact.specs.Point.{corner_point};
ghost use Rattle.geo_exact.specs.Turn.{IsOnEdge};
ghost use Rattle.leaning_boxes.specs.Leaning.{IsHeld};

use crate::leaning::LeaningBox;
use geo_exact::{Corner, edge_boxes_meet, turn};

/// A row of points: how far along an axis, and how far from a line, the first and the last are.
#[derive(Clone, Copy)]
struct Row {
    from: i64,
    to: i64,
    rise_from: i128,
    rise_to: i128,
    ghost from_in_range: { IsWithin limit from },
    ghost to_in_range: { IsWithin limit to },
    ghost rise_from_in_range: { IsWithin (8 * (limit * limit)) rise_from },
    ghost rise_to_in_range: { IsWithin (8 * (limit * limit)) rise_to },
}

/// u - v, for turns.
fn rise_between(u: i128, v: i128) -> i128
    requires first { IsWithin (8 * (limit * limit)) u }
    requires second { IsWithin (8 * (limit * limit)) v }
    ensures value { result ≡ u -ℤ v }
    ensures bound { IsWithin (16 * (limit * limit)) result }
{
    u - v
}

/// u - v, for coordinates.
fn way_between(u: i64, v: i64) -> i128
    requires first { IsWithin limit u }
    requires second { IsWithin limit v }
    ensures value { result ≡ u -ℤ v }
    ensures bound { IsWithin (2 * limit) result }
{
    i128::from(u - v)
}

/// The product of the way and the rise between two points.
fn rise_product(way: i128, rise: i128) -> i128
    requires first { IsWithin (2 * limit) way }
    requires second { IsWithin (16 * (limit * limit)) rise }
    ensures { result ≡ way *ℤ rise }
{
    way * rise
}

/// Whether no number is between u and v and also between w and z.
pub fn ranges_are_apart(u: i128, v: i128, w: i128, z: i128) -> bool
    ensures { result ≡ false ↔ RangesMeet u v w z }
{
    lie_below(u, v, w, z) || lie_below(w, z, u, v)
}

/// Whether u and v are below w and z.
fn lie_below(u: i128, v: i128, w: i128, z: i128) -> bool
    ensures { result ≡ int_lt (int_max u v) (int_min w z) }
{
    u.max(v) < w.min(z)
}

/// Whether a row of points in a line passes by all points of another range: from one coordinate to another, and
/// as far from the line.
fn passes_by(row: Row, range: Row) -> bool
    ensures { IsTrue result → (z w : ℤ) → range.from ≤ℤ z → z ≤ℤ range.to → range.rise_from ≤ℤ w → w ≤ℤ range.rise_to
        → (row.to -ℤ row.from) *ℤ (w -ℤ row.rise_from) ≢ (row.rise_to -ℤ row.rise_from) *ℤ (z -ℤ row.from) }
{
    let way = way_between(row.to, row.from);
    let rise = rise_between(row.rise_to, row.rise_from);
    let low = rise_product(way, rise_between(range.rise_from, row.rise_from));
    let high = rise_product(way, rise_between(range.rise_to, row.rise_from));
    let first = rise_product(way_between(range.from, row.from), rise);
    let last = rise_product(way_between(range.to, row.from), rise);
    ranges_are_apart(low, high, first, last)
}

impl LeaningBox {
    /// Whether it is seen that no corner in the box lies on the edge from `a` to `b`: the box along the axes lies
    /// off the edge's, or the leaning box lies on one side of the edge's line.
    pub fn is_off(self, a: Corner, b: Corner) -> bool
        ensures { IsTrue result → (c : CornerValue) → IsHeld self c → ¬ IsOnEdge (corner_point c) a b }
    {
        if !edge_boxes_meet(self.bounds.low, self.bounds.high, a, b) {
            return true;
        }
        if self.is_steep() {
            self.is_off_by_y(a, b)
        } else {
            self.is_off_by_x(a, b)
        }
    }

    /// Whether the box leans more up than across. Only the speed rests on it.
    fn is_steep(self) -> bool {
        self.from.x.abs_diff(self.to.x) < self.from.y.abs_diff(self.to.y)
    }

    /// Whether the box lies on one side of an edge's line, by x and by the turns from the box's line.
    fn is_off_by_x(self, a: Corner, b: Corner) -> bool
        ensures { IsTrue result → (c : CornerValue) → IsHeld self c → ¬ IsOnEdge (corner_point c) a b }
    {
        let edge = Row {
            from: a.x,
            to: b.x,
            rise_from: turn(self.from, self.to, a),
            rise_to: turn(self.from, self.to, b),
        };
        let held = Row {
            from: self.bounds.low.x,
            to: self.bounds.high.x,
            rise_from: self.low,
            rise_to: self.high,
        };
        passes_by(edge, held)
    }

    /// The same by y.
    fn is_off_by_y(self, a: Corner, b: Corner) -> bool
        ensures { IsTrue result → (c : CornerValue) → IsHeld self c → ¬ IsOnEdge (corner_point c) a b }
    {
        let edge = Row {
            from: a.y,
            to: b.y,
            rise_from: turn(self.from, self.to, a),
            rise_to: turn(self.from, self.to, b),
        };
        let held = Row {
            from: self.bounds.low.y,
            to: self.bounds.high.y,
            rise_from: self.low,
            rise_to: self.high,
        };
        passes_by(edge, held)
    }
}
