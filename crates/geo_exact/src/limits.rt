//! The product's limits, each in one place: code, contracts and definitions name these constants,
//! and what follows from one is written as an expression of it.

/// The greatest distance of a coordinate from 0, in millimetres: 100,000 kilometres, more than twice round the Earth. A
/// turn is then below 2 ^ 77, so 128 bits have room for what is computed of it.
pub const LIMIT: i64 = 100_000_000_000;

/// The most corners that a ring of a layer has: so few that lists of its edges fit on a thread's stack.
pub const RING_CORNERS: usize = 4_096;

/// The most corners that the rings of a layer have together.
pub const LAYER_CORNERS: usize = 1_000_000;

/// The most records of a layer file, and parcels of a layer.
pub const LAYER_RECORDS: u32 = 65_536;

/// The most bytes of a file that is read, 64 MiB: more than three times those of the longest layer.
pub const FILE_BYTES: usize = 67_108_864;

/// The most corners of a list that is handed to a call: the condition of `area2`, `Ring::check` and `EdgeSum`. A
/// refined ring of a city can have all corners of a layer, and sums of so many products fit 128 bits.
pub const LIST_CORNERS: usize = 10_000_000;

/// The most edges that are added to an `EdgeSum` and taken from it, in all: far more than a layer has, and no number of
/// an edge leaves 64 bits.
pub const COUNTED_EDGES: u64 = 1_000_000_000_000;
