//! The zones of most rows, in the square city.

use test_builders::Place;

/// The zone from x = 0 to 50 of the city.
pub const LEFT: [Place; 4] = [(0, 0), (50, 0), (50, 100), (0, 100)];

/// The zone from x = 50 to 100 of the city.
pub const RIGHT: [Place; 4] = [(50, 0), (100, 0), (100, 100), (50, 100)];

/// Both zones.
pub const HALVES: [&[Place]; 2] = [&LEFT, &RIGHT];
