//! The limit of what can be made ten times.

ghost use Rattle.std.specs.Prelude.{◌≡◌, pos};
ghost use Rattle.scaled_rings.specs.declared.limits.TheConstants.{NEAR_LIMIT};

use geo_exact::LIMIT;

/// The greatest distance from 0, in millimetres, of a coordinate that is within the limit ten times over.
pub const NEAR_LIMIT: i64 = LIMIT / 10;

/// The limit of what can be made ten times is this number: 10,000 kilometres.
pub fn the_near_limit_is_this_number()
    ensures { NEAR_LIMIT ≡ pos 10000000000 }
{}
