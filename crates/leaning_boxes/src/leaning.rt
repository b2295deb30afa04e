//! Boxes with two leaning sides beside the four along the axes.

ghost use Rattle.std.specs.Prelude.{◌*◌};
ghost use Rattle.geo_exact.specs.Limit.{IsWithin, limit};

use geo_exact::{Bounds, Corner};

/// A box that may lean: of a box along the axes, the part between two parallels of a line. An edge
/// beyond one of its sides has no point in common with an edge whose ends it holds, and boxes along the
/// axes alone say nothing of edges that lean.
#[derive(Clone, Copy, Debug)]
pub struct LeaningBox {
    /// The box along the axes.
    pub bounds: Bounds,
    /// A corner of the line.
    pub from: Corner,
    /// Another; where both are at one point, each turn is 0, and the box along the axes is all.
    pub to: Corner,
    /// The least turn from the line.
    pub low: i128,
    /// The greatest turn from the line.
    pub high: i128,
    pub ghost low_in_range: { IsWithin (8 * (limit * limit)) low },
    pub ghost high_in_range: { IsWithin (8 * (limit * limit)) high },
}
