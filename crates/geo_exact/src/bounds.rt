//! Boxes with sides along the axes.

ghost use Rattle.std.specs.Prelude.{◌≡◌, ◌↔◌, ◌≤ℤ◌, IsTrue, false};
ghost use Rattle.std.specs.Int.{int_max, int_min};
ghost use Rattle.geo_exact.specs.declared.bounds.Bounds.{Bounds};
ghost use Rattle.geo_exact.specs.declared.corner.Corner.{Corner as CornerValue};
ghost use Rattle.geo_exact.specs.Point.{Point};
ghost use Rattle.geo_exact.specs.Bounds.{BoxesAreApart, EdgeBoxesMeet, EndsBefore, IsEmptyBox, IsInsideBox, IsWider};
ghost use Rattle.geo_exact.specs.Bounds.{LiesBetween, RangesMeet, holds_corner, is_from_to};

use crate::corner::Corner;
use crate::limits::LIMIT;

/// A box with sides along the axes, from its least coordinates to its greatest, in millimetres.
///
/// Where a greatest coordinate is below its least one, the box holds no point.
#[derive(Clone, Copy, Debug, PartialEq, Eq)]
pub struct Bounds {
    /// The least x and the least y.
    pub low: Corner,
    /// The greatest x and the greatest y.
    pub high: Corner,
}

/// The corner with the lesser of each coordinate.
fn lower(a: Corner, b: Corner) -> Corner
    ensures x { result.x ≡ int_min a.x b.x }
    ensures y { result.y ≡ int_min a.y b.y }
{
    Corner {
        x: a.x.min(b.x),
        y: a.y.min(b.y),
    }
}

/// The corner with the greater of each coordinate.
fn upper(a: Corner, b: Corner) -> Corner
    ensures x { result.x ≡ int_max a.x b.x }
    ensures y { result.y ≡ int_max a.y b.y }
{
    Corner {
        x: a.x.max(b.x),
        y: a.y.max(b.y),
    }
}

/// Whether of the ranges from `u` to `v` and from `s` to `t` one ends at the other's beginning or before it.
fn ends_before(u: i64, v: i64, s: i64, t: i64) -> bool
    ensures { IsTrue result ↔ EndsBefore u v s t }
{
    v <= s || t <= u
}

/// Whether the range from `s` to `t` lies in the one from `u` to `v`.
fn lies_between(u: i64, v: i64, s: i64, t: i64) -> bool
    ensures { IsTrue result ↔ LiesBetween u v s t }
{
    u <= s && t <= v
}

/// Whether `z` is at least `u` and at most `v`.
fn is_within(u: i64, v: i64, z: i64) -> bool
    ensures { result ≡ is_from_to u v z }
{
    u <= z && z <= v
}

/// Whether the range from `low` to `high` has a number between `s` and `t`, all ends included.
fn reaches(low: i64, high: i64, s: i64, t: i64) -> bool
    ensures { IsTrue result ↔ ((low ≤ℤ int_max s t) × (int_min s t ≤ℤ high)) }
{
    if s <= t {
        low <= t && s <= high
    } else {
        low <= s && t <= high
    }
}

/// Whether a number lies both between `u` and `v` and between `s` and `t`, all ends included.
fn ranges_meet(u: i64, v: i64, s: i64, t: i64) -> bool
    ensures { IsTrue result ↔ RangesMeet u v s t }
{
    if u <= v {
        reaches(u, v, s, t)
    } else {
        reaches(v, u, s, t)
    }
}

/// Whether the boxes of the edges `a`, `b` and `c`, `d` have a common point, their sides included.
pub fn edge_boxes_meet(a: Corner, b: Corner, c: Corner, d: Corner) -> bool
    ensures { IsTrue result ↔ EdgeBoxesMeet a b c d }
{
    if !ranges_meet(a.x, b.x, c.x, d.x) {
        return false;
    }
    ranges_meet(a.y, b.y, c.y, d.y)
}

impl Bounds {
    /// The box of one corner.
    pub fn of_corner(corner: Corner) -> Bounds
        ensures low { result.low ≡ corner }
        ensures high { result.high ≡ corner }
    {
        Bounds {
            low: corner,
            high: corner,
        }
    }

    /// A box that holds no corner, than which every box is wider.
    pub fn nowhere() -> Bounds
        ensures wider { (bounds : Bounds) → IsWider result bounds }
        ensures empty { (corner : CornerValue) → holds_corner result corner ≡ false }
    {
        Bounds {
            low: Corner { x: LIMIT, y: LIMIT },
            high: Corner {
                x: -LIMIT,
                y: -LIMIT,
            },
        }
    }

    /// The least box that reaches as far as both boxes.
    ///
    /// ```
    /// let bounds = Bounds::of_corner(a).around(Bounds::of_corner(b));
    /// ```
    pub fn around(self, other: Bounds) -> Bounds
        ensures left { result.low.x ≡ int_min self.low.x other.low.x }
        ensures bottom { result.low.y ≡ int_min self.low.y other.low.y }
        ensures right { result.high.x ≡ int_max self.high.x other.high.x }
        ensures top { result.high.y ≡ int_max self.high.y other.high.y }
        ensures first { IsWider self result }
        ensures second { IsWider other result }
    {
        Bounds {
            low: lower(self.low, other.low),
            high: upper(self.high, other.high),
        }
    }

    /// The box that both boxes have in common.
    pub fn common(self, other: Bounds) -> Bounds
        ensures { (p : Point) → IsInsideBox p result ↔ (IsInsideBox p self × IsInsideBox p other) }
    {
        Bounds {
            low: upper(self.low, other.low),
            high: lower(self.high, other.high),
        }
    }

    /// Whether the box holds a corner, its sides included.
    pub fn holds(self, corner: Corner) -> bool
        ensures { result ≡ holds_corner self corner }
    {
        is_within(self.low.x, self.high.x, corner.x) && is_within(self.low.y, self.high.y, corner.y)
    }

    /// Whether the boxes have no common inner point; boxes that only touch have none.
    pub fn is_apart(self, other: Bounds) -> bool
        ensures { IsTrue result ↔ BoxesAreApart self other }
    {
        ends_before(self.low.x, self.high.x, other.low.x, other.high.x)
            || ends_before(self.low.y, self.high.y, other.low.y, other.high.y)
    }

    /// Whether the box has no inner point.
    pub fn is_empty(self) -> bool
        ensures { IsTrue result ↔ IsEmptyBox self }
    {
        self.high.x <= self.low.x || self.high.y <= self.low.y
    }

    /// Whether this box reaches as far as the other on each side.
    pub fn is_wider(self, other: Bounds) -> bool
        ensures { IsTrue result ↔ IsWider other self }
    {
        lies_between(self.low.x, self.high.x, other.low.x, other.high.x)
            && lies_between(self.low.y, self.high.y, other.low.y, other.high.y)
    }
}
