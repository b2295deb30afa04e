//! Edges that are not level, from their lower ends up.

ghost use Rattle.std.specs.Prelude.{◌<ℤ◌};

use geo_exact::Corner;

/// An edge that is not level, by its lower end and its higher one: that from (0, 5) to (3, 1) has the lower end (3, 1),
/// and goes down.
#[derive(Clone, Copy, Debug)]
pub struct Rising {
    /// Its lower end.
    pub low: Corner,
    /// Its higher end.
    pub high: Corner,
    /// Whether it goes up.
    pub is_up: bool,
    pub ghost rises: { low.y <ℤ high.y },
}
