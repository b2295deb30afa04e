//! Cities and layers.

ghost use Rattle.std.specs.Prelude.{◌≡◌, IfOk};

use crate::rings::{Rings, lists, read, records};
use fabric_core::{City, CityFault, Layer, LoadFault};
use geo_exact::Corners;
use std::alloc::Allocator;
use std::test::Fail;
use test_builders::Place;

/// What the ring at these places is answered as a city.
pub fn answer_city<'a, H: Allocator>(
    heap: &'a H,
    ground: &[Place],
) -> Result<Result<City<'a, H>, CityFault>, Fail> {
    let Some(ring) = records(heap, &[ground])?.pop() else {
        return Err(Fail::new("no ring"));
    };
    Ok(City::new(heap, ring))
}

/// The city at these places.
pub fn city<'a, H: Allocator>(heap: &'a H, ground: &[Place]) -> Result<City<'a, H>, Fail> {
    match answer_city(heap, ground)? {
        Ok(city) => Ok(city),
        Err(_) => Err(Fail::new("no city")),
    }
}

/// What lists of corners are answered as a layer of the city at these places.
pub fn answer_layer_of<'a, H: Allocator>(
    heap: &'a H,
    ground: &[Place],
    lists: &[Corners<&'a H>],
) -> Result<Result<Layer<'a, H>, LoadFault>, Fail> {
    let city = city(heap, ground)?;
    let records = read(heap, lists)?;
    Ok(Layer::load(heap, &city, records))
}

/// What the rings at these places are answered as a layer of the city at those.
pub fn answer_layer<'a, H: Allocator>(
    heap: &'a H,
    ground: &[Place],
    rings: Rings<'_>,
) -> Result<Result<Layer<'a, H>, LoadFault>, Fail> {
    let lists = lists(heap, rings)?;
    answer_layer_of(heap, ground, &lists)
}

/// The layer of the rings at these places, in a city.
pub fn layer_in<'a, H: Allocator>(
    heap: &'a H,
    city: &City<'a, H>,
    rings: Rings<'_>,
) -> Result<Layer<'a, H>, Fail>
    ensures { IfOk result (λ layer. layer.city ≡ city.now.ring.corners) }
{
    match Layer::load(heap, city, records(heap, rings)?) {
        Ok(layer) => Ok(layer),
        Err(_) => Err(Fail::new("no tiling")),
    }
}

/// The layer of the rings at these places, in the city at those.
pub fn layer<'a, H: Allocator>(
    heap: &'a H,
    ground: &[Place],
    rings: Rings<'_>,
) -> Result<Layer<'a, H>, Fail> {
    let city = city(heap, ground)?;
    layer_in(heap, &city, rings)
}
