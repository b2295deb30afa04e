//! A corner: a point in whole millimetres.

ghost use Rattle.std.specs.Prelude.{◌≡◌, ◌↔◌, IsSome, IfSome};
ghost use Rattle.geo_exact.specs.Limit.{IsWithin, limit};

use crate::limits::LIMIT;

/// A corner of a ring: a point in whole millimetres, each coordinate at most [`LIMIT`] away from 0.
///
/// Corners are ordered by `x`, then `y`.
#[derive(Clone, Copy, Debug, PartialEq, Eq, PartialOrd, Ord, Hash)]
pub struct Corner {
    /// Millimetres to the east of the origin.
    pub x: i64,
    /// Millimetres to the north of the origin.
    pub y: i64,
    pub ghost x_in_range: { IsWithin limit x },
    pub ghost y_in_range: { IsWithin limit y },
}

impl Corner {
    /// The corner at a point, or `None` where a coordinate is beyond the limit.
    ///
    /// ```
    /// let corner = Corner::new(60, 100); // Some; Corner::new(100_000_000_001, 0) is None
    /// ```
    pub fn new(x: i64, y: i64) -> Option<Corner>
        ensures valid { IsSome result ↔ (IsWithin limit x × IsWithin limit y) }
        ensures made { IfSome result (λ corner. (corner.x ≡ x) × (corner.y ≡ y)) }
    {
        if -LIMIT <= x && x <= LIMIT && -LIMIT <= y && y <= LIMIT {
            Some(Corner { x, y })
        } else {
            None
        }
    }
}
