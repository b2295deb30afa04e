//! The files that a run is given.

use city_layers::Source;
use geo_exact::Unit;
use std::alloc::Allocator;

/// What a run is given: the files of a city and of its parcels, the unit of their coordinates, and the files of
/// clerks' edits.
#[derive(Drop)]
pub struct RunFiles<A: Allocator> {
    /// The city's.
    pub city: Source<A>,
    /// The parcels'.
    pub parcels: Source<A>,
    /// The unit of the coordinates in both.
    pub unit: Unit,
    /// The clerks', in their order; clerk K is that of file K, from 1.
    pub clerks: Vec<Vec<u8, A>, A>,
}
