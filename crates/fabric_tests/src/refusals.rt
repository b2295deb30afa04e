//! Each growth of a call refused in turn: its answer is want of memory, and with memory the same
//! call gives the answer that it has to give.

use crate::candidates::between;
use crate::changes::are_at;
use fabric_core::{AllFaults, Asked, At, City, CityFault, Layer, LoadFault, LoadRefusal};
use geo_exact::Corner;
use refusing_alloc::Refusing;
use ring_core::RingFault;
use std::alloc::Allocator;
use std::test::Fail;
use std::thread::Threads;
use test_builders::{Place, Refuses, corner, was_refused};
use test_cities::{EAST, RINGS, SQUARE, WEST, city, records};

/// No call here has so many growths.
const MOST: u64 = 1000;

/// A ring and its fault.
type FaultyRing = (u32, RingFault);

/// An edge that the rings do not have as often as the city, and how much oftener.
type Edge = (Place, Place, i64);

/// What rings in the square are answered.
enum Answer {
    /// A layer of these parcels.
    Ids(&'static [u64]),
    /// The first edge that is not balanced.
    First(Edge),
    /// All rings with a fault.
    Rings(&'static [FaultyRing]),
    /// All edges that are not balanced.
    Gaps(&'static [Edge]),
}

/// Rings in the square, their answer, and a number of growths that it takes more than.
type Row = (&'static [&'static [Place]], Answer, u64);

const NARROW: [Place; 4] = [(61, 0), (100, 0), (100, 100), (61, 100)];

const TWISTED: [Place; 4] = [(60, 0), (100, 100), (100, 0), (60, 60)];

/// The answers of [`Layer::load`].
static LOADED: [Row; 2] = [
    (&[&WEST, &EAST], Answer::Ids(&[1, 2]), 10),
    (
        &[&WEST, &NARROW],
        Answer::First(((60, 0), (60, 100), 1)),
        10,
    ),
];

const GAPS: [Edge; 4] = [
    ((60, 0), (60, 100), 1),
    ((60, 0), (61, 0), -1),
    ((60, 100), (61, 100), 1),
    ((61, 0), (61, 100), -1),
];

const FAULTY: [FaultyRing; 2] = [
    (1, RingFault::EdgesMeet(1, 3)),
    (3, RingFault::EdgesMeet(1, 3)),
];

/// The answers of [`Layer::load_or_all`].
static ALL: [Row; 3] = [
    (&[&WEST, &EAST], Answer::Ids(&[1, 2]), 10),
    (&[&WEST, &NARROW], Answer::Gaps(&GAPS), 10),
    (&[&TWISTED, &WEST, &TWISTED], Answer::Rings(&FAULTY), 3),
];

/// What a call with a growth refused was answered.
#[derive(Clone, Copy)]
enum Verdict {
    NoMemory,
    Wanted,
    Another,
}

impl Verdict {
    /// An answer that is none of want of memory.
    fn new(is_wanted: bool) -> Verdict {
        if is_wanted {
            Verdict::Wanted
        } else {
            Verdict::Another
        }
    }
}

/// Whether a growth was refused. The answer has to be want of memory exactly then, and else the one that is wanted.
fn refused(is_refused: bool, told: Verdict) -> Result<bool, Fail> {
    match (is_refused, told) {
        (true, Verdict::NoMemory) => Ok(true),
        (false, Verdict::Wanted) => Ok(false),
        _ => Err(Fail::new("another answer")),
    }
}

/// What the square is answered as a city.
fn city_of<H: Refuses>(
    heap: &H,
    number: u64,
) -> Result<(Result<City<'_, H>, CityFault>, bool), Fail> {
    let Some(ring) = records(heap, &[&SQUARE])?.pop() else {
        return Err(Fail::new("no ring"));
    };
    heap.refuse(number);
    let city = City::new(heap, ring);
    let is_refused = was_refused(heap);
    Ok((city, is_refused))
}

/// Makes a city with growth `number` refused, and where it was, once more; whether it was.
fn is_city_refused<H: Refuses>(heap: &H, number: u64) -> Result<bool, Fail> {
    let (city, is_refused) = city_of(heap, number)?;
    let told = match &city {
        Ok(city) => Verdict::new(are_at(city.ring.corners.as_slice(), &SQUARE)),
        Err(CityFault::NoMemory) => Verdict::NoMemory,
        Err(_) => Verdict::Another,
    };
    if !refused(is_refused, told)? {
        return Ok(false);
    }
    match city_of(heap, 0)?.0 {
        Ok(city) if are_at(city.ring.corners.as_slice(), &SQUARE) => Ok(true),
        _ => Err(Fail::new("another answer with memory")),
    }
}

/// The first growth of a city that is not made any more.
fn growths_of_city<H: Refuses>(heap: &H) -> Result<u64, Fail> {
    for number in 1..MOST {
        if !is_city_refused(heap, number)? {
            return Ok(number);
        }
    }
    Err(Fail::new("each growth was refused"))
}

#[test]
fn a_city(rt: HostRuntime) -> Result<(), Fail> {
    let heap = Refusing::new(rt.alloc(), 0);
    assert!(rt; growths_of_city(&heap)? > 1);
    Ok(())
}

/// The city's ring with the corners of both parcels.
static REFINED: [Place; 6] = [(0, 0), (60, 0), (100, 0), (100, 100), (60, 100), (0, 100)];

/// Whether a place is inside this parcel.
fn is_inside<H: Allocator>(layer: &Layer<'_, H>, place: Place, parcel: u64) -> Result<bool, Fail> {
    match layer.locate(corner(place)?)? {
        At::Inside(id) => Ok(id == parcel),
        At::OnEdge(_) | At::Outside => Ok(false),
    }
}

/// Whether these are the rings of the layer's parcels, by ascending id.
fn are_rings<H: Allocator>(layer: &Layer<'_, H>, rings: &[&[Place]]) -> bool {
    layer.shapes().count() == rings.len()
        && layer.shapes().zip(rings).all(|((_, shape), ring)| are_at(
            shape.ring.corners.as_slice(),
            ring,
        ))
}

/// Boxes, and the candidates between their corners.
static BOXES: [(Place, Place, &[u64]); 3] = [
    ((60, 0), (60, 0), &[1, 2]),
    ((0, 0), (59, 100), &[1]),
    ((62, 0), (100, 100), &[2]),
];

/// Whether the candidates of each box are found.
fn are_found<H: Allocator>(layer: &Layer<'_, H>) -> Result<bool, Fail> {
    for (low, high, want) in &BOXES {
        if between(layer, *low, *high)??.as_slice() != *want {
            return Ok(false);
        }
    }
    Ok(true)
}

/// Whether a layer shows both parcels whole: their rings, the city's, and what its index finds.
fn is_whole<H: Allocator>(layer: &Layer<'_, H>) -> Result<bool, Fail> {
    Ok(
        are_rings(layer, &RINGS)
            && are_at(layer.city(), &SQUARE)
            && are_at(layer.refined(), &REFINED)
            && are_found(layer)?
            && is_inside(layer, (10, 10), 1)?
            && is_inside(layer, (61, 50), 2)?,
    )
}

/// Whether these are the layer's parcels, which are the two rectangles, and it shows them whole.
fn has_ids<H: Allocator>(layer: &Layer<'_, H>, want: &Answer) -> Result<bool, Fail> {
    let Answer::Ids(ids) = want else {
        return Ok(false);
    };
    let are_ids = layer.ids().count() == ids.len()
        && layer.ids().zip(*ids).all(|(id, want)| id == *want);
    Ok(are_ids && is_whole(layer)?)
}

/// Whether this is the edge that is wanted.
fn is_edge(edge: (Corner, Corner, i64), want: Edge) -> bool {
    (edge.0.x, edge.0.y) == want.0 && (edge.1.x, edge.1.y) == want.1 && edge.2 == want.2
}

/// Whether this is the first fault.
fn is_first(fault: LoadFault, want: &Answer) -> bool {
    match (fault, want) {
        (LoadFault::Gap(a, b, net), Answer::First(first)) => is_edge((a, b, net), *first),
        _ => false,
    }
}

/// Whether these are the edges that are wanted, in order.
fn are_edges(edges: &[(Corner, Corner, i64)], want: &[Edge]) -> bool {
    edges.len() == want.len()
        && edges
            .iter()
            .zip(want)
            .all(|(edge, want)| is_edge(*edge, *want))
}

/// What loading a layer with growth `number` refused is answered, and whether that was refused.
fn loading<'a, H: Refuses>(
    heap: &'a H,
    city: &City<'a, H>,
    row: &Row,
    number: u64,
) -> Result<(Verdict, bool), Fail> {
    let rings = records(heap, row.0)?;
    heap.refuse(number);
    let layer = Layer::load(heap, city, rings);
    let is_refused = was_refused(heap);
    let told = match layer {
        Ok(layer) => Verdict::new(has_ids(&layer, &row.1)?),
        Err(LoadFault::NoMemory) => Verdict::NoMemory,
        Err(fault) => Verdict::new(is_first(fault, &row.1)),
    };
    Ok((told, is_refused))
}

/// Whether a growth was refused, and the call was answered as is wanted once it was made again.
fn answered_again(first: (Verdict, bool), again: Verdict) -> Result<bool, Fail> {
    refused(false, again)?;
    refused(first.1, first.0)
}

/// Loads a layer with growth `number` refused, and once more with memory; whether it was refused.
fn is_loading_refused<'a, H: Refuses>(
    heap: &'a H,
    city: &City<'a, H>,
    row: &Row,
    number: u64,
) -> Result<bool, Fail> {
    let first = loading(heap, city, row, number)?;
    answered_again(first, loading(heap, city, row, 0)?.0)
}

/// Whether these are all faults.
fn are_all<H: Allocator>(refusal: &LoadRefusal<&H>, want: &Answer) -> bool {
    match (&refusal.all, want) {
        (Some(AllFaults::Rings(rings)), Answer::Rings(want)) => rings.as_slice() == *want,
        (Some(AllFaults::Gaps(gaps)), Answer::Gaps(want)) => are_edges(gaps.as_slice(), want),
        _ => false,
    }
}

/// What an answer is, where all faults are asked for.
fn verdict_of_all<'a, H: Allocator>(
    answer: Result<Layer<'a, H>, LoadRefusal<&'a H>>,
    want: &Answer,
) -> Result<Verdict, Fail> {
    match answer {
        Ok(layer) => Ok(Verdict::new(has_ids(&layer, want)?)),
        Err(refusal) if refusal.first == LoadFault::NoMemory => Ok(Verdict::NoMemory),
        Err(refusal) => Ok(Verdict::new(are_all(&refusal, want))),
    }
}

/// What loading a layer, or telling all faults, with growth `number` refused is answered, and whether that was refused.
fn telling<'a, H: Refuses>(
    heap: &'a H,
    city: &City<'a, H>,
    row: &Row,
    number: u64,
) -> Result<(Verdict, bool), Fail> {
    let rings = records(heap, row.0)?;
    heap.refuse(number);
    let layer = Layer::load_or_all(heap, city, rings, Asked::All);
    let is_refused = was_refused(heap);
    Ok((verdict_of_all(layer, &row.1)?, is_refused))
}

/// Loads a layer, or tells all faults, with growth `number` refused, and once more with memory; whether it was refused.
fn is_telling_refused<'a, H: Refuses>(
    heap: &'a H,
    city: &City<'a, H>,
    row: &Row,
    number: u64,
) -> Result<bool, Fail> {
    let first = telling(heap, city, row, number)?;
    answered_again(first, telling(heap, city, row, 0)?.0)
}

/// What telling all faults by three threads with growth `number` refused is answered, and whether that was refused.
fn telling_by<'a, H: Refuses + Send + Sync, R: Threads + Sync>(
    rt: &R,
    heap: &'a H,
    city: &City<'a, H>,
    row: &Row,
    number: u64,
) -> Result<(Verdict, bool), Fail> {
    let rings = records(heap, row.0)?;
    heap.refuse(number);
    let layer = Layer::load_or_all_by(rt, 3, heap, city, rings, Asked::All);
    let is_refused = was_refused(heap);
    Ok((verdict_of_all(layer, &row.1)?, is_refused))
}

/// The first growth that is not made any more.
fn growths_of_loading<H: Refuses>(heap: &H, row: &Row) -> Result<u64, Fail> {
    let city = city(heap, &SQUARE)?;
    for number in 1..MOST {
        if !is_loading_refused(heap, &city, row, number)? {
            return Ok(number);
        }
    }
    Err(Fail::new("each growth was refused"))
}

/// The same, where all faults are told.
fn growths_of_telling<H: Refuses>(heap: &H, row: &Row) -> Result<u64, Fail> {
    let city = city(heap, &SQUARE)?;
    for number in 1..MOST {
        if !is_telling_refused(heap, &city, row, number)? {
            return Ok(number);
        }
    }
    Err(Fail::new("each growth was refused"))
}

/// The same, by three threads.
fn growths_of_telling_by<H: Refuses + Send + Sync, R: Threads + Sync>(
    rt: &R,
    heap: &H,
    row: &Row,
) -> Result<u64, Fail> {
    let city = city(heap, &SQUARE)?;
    for number in 1..MOST {
        let first = telling_by(rt, heap, &city, row, number)?;
        if !answered_again(first, telling_by(rt, heap, &city, row, 0)?.0)? {
            return Ok(number);
        }
    }
    Err(Fail::new("each growth was refused"))
}

#[test]
fn a_layer_by_threads(rt: HostRuntime) -> Result<(), Fail> {
    let heap = Refusing::new(rt.alloc(), 0);
    for (place, row) in ALL.iter().enumerate() {
        let growths = growths_of_telling_by(&rt, &heap, row)?;
        assert!(rt; growths > row.2, "row {place}");
    }
    Ok(())
}

#[test]
fn a_layer(rt: HostRuntime) -> Result<(), Fail> {
    let heap = Refusing::new(rt.alloc(), 0);
    for (place, row) in LOADED.iter().enumerate() {
        let growths = growths_of_loading(&heap, row)?;
        assert!(rt; growths > row.2, "row {place}");
    }
    for (place, row) in ALL.iter().enumerate() {
        let growths = growths_of_telling(&heap, row)?;
        assert!(rt; growths > row.2, "all faults, row {place}");
    }
    Ok(())
}
