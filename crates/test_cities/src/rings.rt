//! Rings that are read from the bytes of a layer file, and the places of those that most rows have.

ghost use Rattle.std.specs.Prelude.{◌≤◌, IfOk};
ghost use Rattle.geo_exact.specs.Layers.{corner_count, NumbersRise, rings_of};
ghost use Rattle.geo_exact.specs.declared.limits.TheConstants.{LAYER_CORNERS, LAYER_RECORDS};

use geo_exact::{Corners, RawRing, Unit};
use shp_files::{a_layer_file_is_within_the_limits, read_layer};
use std::alloc::Allocator;
use std::test::Fail;
use test_builders::{Place, corners, layer_file};

/// The city of most rows: a square of a hundred millimetres.
pub const SQUARE: [Place; 4] = [(0, 0), (100, 0), (100, 100), (0, 100)];

/// The parcel from x = 0 to 60 of that city.
pub const WEST: [Place; 4] = [(0, 0), (60, 0), (60, 100), (0, 100)];

/// The parcel from x = 60 to 100 of that city.
pub const EAST: [Place; 4] = [(60, 0), (100, 0), (100, 100), (60, 100)];

/// The rings of both.
pub const RINGS: [&[Place]; 2] = [&WEST, &EAST];

/// The rings of a layer, by their places.
pub type Rings<'a> = &'a [&'a [Place]];

/// A list of rings under their numbers, as a layer file gives them.
pub type Records<'a, H> = Vec<RawRing<&'a H>, &'a H>;

/// The rings that are read from the main file of these lists, numbered from 1; a list of no corner is a null shape.
pub fn read<'a, H: Allocator>(heap: &'a H, lists: &[Corners<&'a H>]) -> Result<Records<'a, H>, Fail>
    ensures numbers { IfOk result (λ records. NumbersRise 0 LAYER_RECORDS (rings_of records.items)) }
    ensures corners { IfOk result (λ records. corner_count (rings_of records.items) ≤ LAYER_CORNERS) }
{
    let file = layer_file(heap, lists)?;
    a_layer_file_is_within_the_limits();
    match read_layer(heap, &file, None, Unit::Mm) {
        Ok(records) => Ok(records),
        Err(_) => Err(Fail::new("no layer file")),
    }
}

/// The lists of corners at these places.
pub(crate) fn lists<A: Allocator + Copy>(
    alloc: A,
    rings: Rings<'_>,
) -> Result<Vec<Corners<A>, A>, Fail> {
    let mut lists = Vec::new(alloc);
    for ring in rings {
        lists.push(corners(alloc, ring)?)?;
    }
    Ok(lists)
}

/// The same, of the rings at these places.
pub fn records<'a, H: Allocator>(heap: &'a H, rings: Rings<'_>) -> Result<Records<'a, H>, Fail>
    ensures numbers { IfOk result (λ records. NumbersRise 0 LAYER_RECORDS (rings_of records.items)) }
    ensures corners { IfOk result (λ records. corner_count (rings_of records.items) ≤ LAYER_CORNERS) }
{
    let lists = lists(heap, rings)?;
    read(heap, &lists)
}
