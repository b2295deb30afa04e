//! Simple rings, their faults, and the triangles that they are clipped to.

use geo_exact::turn;
use ring_core::{Ring, RingFault, Shape, Tri, Triangles};
use std::alloc::{AllocError, Global};
use std::test::Fail;
use test_builders::{
    Place, clipped_as_plainly, corner, corners, shape, shape_of, simple_ring, triangle,
};

/// The limit of the coordinates, in millimetres.
const FAR: i64 = 100_000_000_000;

const WITH_FLAT_CORNER: [Place; 5] = [(0, 0), (50, 0), (100, 0), (100, 100), (0, 100)];

/// Two bays, one from the right and one from the left.
const S_SHAPE: [Place; 12] = [
    (0, 0),
    (300, 0),
    (300, 30),
    (200, 30),
    (200, 60),
    (300, 60),
    (300, 90),
    (0, 90),
    (0, 60),
    (100, 60),
    (100, 30),
    (0, 30),
];

/// Three teeth of 10 by 20 on a base of 50 by 10.
const COMB: [Place; 12] = [
    (0, 0),
    (50, 0),
    (50, 30),
    (40, 30),
    (40, 10),
    (30, 10),
    (30, 30),
    (20, 30),
    (20, 10),
    (10, 10),
    (10, 30),
    (0, 30),
];

const SPIRAL: [Place; 14] = [
    (0, 0),
    (60, 0),
    (60, 60),
    (0, 60),
    (0, 20),
    (40, 20),
    (40, 40),
    (30, 40),
    (30, 30),
    (10, 30),
    (10, 50),
    (50, 50),
    (50, 10),
    (0, 10),
];

const STAR: [Place; 8] = [
    (50, 0),
    (60, 40),
    (100, 50),
    (60, 60),
    (50, 100),
    (40, 60),
    (0, 50),
    (40, 40),
];

const FLAT_SIDE: [Place; 7] = [
    (0, 0),
    (10, 0),
    (20, 0),
    (30, 0),
    (40, 0),
    (40, 10),
    (0, 10),
];

/// A bay that ends half a square millimetre left of the first edge, whose way is (F(54), F(53)) in
/// Fibonacci numbers: it ends at (F(52), F(51)) from the start, and F(54) F(51) is F(53) F(52) + 1. In
/// doubles these products, above 2^70, are equal.
const SHORT_BAY: [Place; 5] = [
    (-FAR, -FAR),
    (-13_732_428_728, -46_683_708_827),
    (FAR, FAR),
    (-67_048_719_901, -79_634_988_926),
    (-FAR, FAR),
];

/// A bay that ends half a square millimetre right of the first edge, at (F(53), F(52)) from the start:
/// F(54) F(52) is F(53) F(53) - 1.
const LONG_BAY: [Place; 5] = [
    (-FAR, -FAR),
    (-13_732_428_728, -46_683_708_827),
    (FAR, FAR),
    (-46_683_708_827, -67_048_719_901),
    (-FAR, FAR),
];

const WIDEST: [Place; 4] = [(-FAR, -FAR), (FAR, -FAR), (FAR, FAR), (-FAR, FAR)];

fn fault(alloc: Global, places: &[Place]) -> Result<Option<RingFault>, Fail> {
    let list = corners(alloc, places)?;
    if list.as_slice().len() > 100 {
        return Err(Fail::new("more than 100 corners"));
    }
    match Ring::check(list) {
        Ok(_) => Ok(None),
        Err(fault) => Ok(Some(fault)),
    }
}

/// A row's name, a ring's places, and its fault where it is no simple ring.
type FaultRow = (&'static str, &'static [Place], Option<RingFault>);

/// Whether the fault of a row's ring is found.
fn is_fault_found(alloc: Global, row: &FaultRow) -> Result<bool, Fail> {
    Ok(fault(alloc, row.1)? == row.2)
}

static FIRST_FAULTS: [FaultRow; 6] = [
    (
        "touched",
        &[(0, 0), (100, 0), (100, 100), (50, 0), (0, 100)],
        Some(RingFault::EdgesMeet(0, 2)),
    ),
    (
        "turned back",
        &[(0, 0), (100, 0), (60, 0), (60, 100)],
        Some(RingFault::EdgesMeet(0, 1)),
    ),
    (
        "spike",
        &[(0, 0), (100, 0), (150, 0), (100, 0), (100, 100)],
        Some(RingFault::EdgesMeet(0, 2)),
    ),
    (
        "bow tie",
        &[(0, 0), (100, 100), (100, 0), (0, 100)],
        Some(RingFault::ZeroArea),
    ),
    (
        "uneven bow tie",
        &[(0, 0), (100, 100), (100, 0), (0, 60)],
        Some(RingFault::Clockwise),
    ),
    ("with a flat corner", &WITH_FLAT_CORNER, None),
];

#[test]
fn finds_the_first_fault(rt: HostRuntime) -> Result<(), Fail> {
    for row in &FIRST_FAULTS {
        assert!(rt; is_fault_found(rt.alloc(), row)?, "{}", row.0);
    }
    Ok(())
}

/// In the third ring edges 0 and 4 cross, and 0 and 5, 1 and 3, 1 and 4.
static FIRST_EDGES: [FaultRow; 5] = [
    (
        "first corner twice",
        &[(0, 0), (0, 0), (100, 0), (0, 100)],
        Some(RingFault::EdgesMeet(1, 3)),
    ),
    (
        "spike at the first",
        &[(150, 0), (100, 0), (100, 100), (0, 100), (0, 0)],
        Some(RingFault::EdgesMeet(0, 4)),
    ),
    (
        "four crossings",
        &[
            (0, 0),
            (60, 0),
            (60, 40),
            (40, 40),
            (80, 20),
            (40, -10),
            (0, 80),
        ],
        Some(RingFault::EdgesMeet(0, 4)),
    ),
    ("short bay", &SHORT_BAY, None),
    ("long bay", &LONG_BAY, Some(RingFault::EdgesMeet(0, 2))),
];

#[test]
fn finds_the_first_two_edges(rt: HostRuntime) -> Result<(), Fail> {
    for row in &FIRST_EDGES {
        assert!(rt; is_fault_found(rt.alloc(), row)?, "{}", row.0);
    }
    Ok(())
}

static FEW_CORNERS: [&[Place]; 4] = [
    &[],
    &[(0, 0)],
    &[(0, 0), (50, 50)],
    &[(0, 0), (50, 50), (100, 100)],
];

#[test]
fn few_corners_have_no_area(rt: HostRuntime) -> Result<(), Fail> {
    for places in &FEW_CORNERS {
        assert!(rt;
            fault(rt.alloc(), places)? == Some(RingFault::ZeroArea),
            "of {}",
            places.len()
        );
    }
    Ok(())
}

#[test]
fn a_ring_keeps_its_corners(rt: HostRuntime) -> Result<(), Fail> {
    let alloc = rt.alloc();
    let ring = simple_ring(alloc, &COMB)?;
    let given = corners(alloc, &COMB)?;
    assert!(rt; ring.corners == given);
    assert!(rt; shape_of(alloc, ring)?.ring.corners == given);
    Ok(())
}

/// A ring, and the triangles that it is clipped to, in order.
type TriangleRow = (&'static [Place], &'static [(Place, Place, Place)]);

const BAY: Place = (-67_048_719_901, -79_634_988_926);

const BEND: Place = (-13_732_428_728, -46_683_708_827);

static TRIANGLES: [TriangleRow; 4] = [
    (
        &WITH_FLAT_CORNER,
        &[
            ((0, 100), (0, 0), (100, 0)),
            ((0, 100), (100, 0), (100, 100)),
        ],
    ),
    (
        &SHORT_BAY,
        &[
            (BEND, (FAR, FAR), BAY),
            ((-FAR, -FAR), BEND, BAY),
            ((-FAR, FAR), (-FAR, -FAR), BAY),
        ],
    ),
    // a flat corner in one side and a dent in another, which keeps the first corner from being an ear
    (
        &[(0, 0), (50, 0), (100, 0), (40, 40), (0, 100)],
        &[((0, 0), (100, 0), (40, 40)), ((0, 100), (0, 0), (40, 40))],
    ),
    // (50, 50) lies on the way from (100, 0) to (0, 100), an edge of the first corner's triangle
    (
        &[(0, 0), (100, 0), (50, 50), (40, 90), (0, 100)],
        &[
            ((0, 0), (100, 0), (50, 50)),
            ((0, 100), (0, 0), (50, 50)),
            ((0, 100), (50, 50), (40, 90)),
        ],
    ),
];

/// The triangles of these places, in order.
fn triangles_of(
    alloc: Global,
    places: &[(Place, Place, Place)],
) -> Result<Triangles<Global>, Fail> {
    let mut triangles = Triangles::new(alloc);
    for (a, b, c) in places {
        triangles.push(triangle(*a, *b, *c)?)?;
    }
    Ok(triangles)
}

/// Whether the ring of a row is clipped to its triangles.
fn is_clipped_to(alloc: Global, row: &TriangleRow) -> Result<bool, Fail> {
    let want = triangles_of(alloc, row.1)?;
    Ok(shape(alloc, row.0)?.triangles.as_slice() == want.as_slice())
}

#[test]
fn the_first_ear_is_clipped_first(rt: HostRuntime) -> Result<(), Fail> {
    for (number, row) in TRIANGLES.iter().enumerate() {
        assert!(rt; is_clipped_to(rt.alloc(), row)?, "row {number}");
    }
    Ok(())
}

/// Twice the area of all the triangles.
pub fn area_of(triangles: &[Tri]) -> i128 {
    let mut sum = 0i128;
    for tri in triangles {
        sum = sum.wrapping_add(turn(tri.a, tri.b, tri.c));
    }
    sum
}

/// A ring, twice the area of all the triangles that it is clipped to, and their number.
type ClipRow = (&'static [Place], i128, usize);

static CLIPPED: [ClipRow; 8] = [
    (&WITH_FLAT_CORNER, 20000, 2),
    (&S_SHAPE, 42000, 9),
    (&COMB, 2200, 9),
    (&SPIRAL, 4600, 12),
    (&STAR, 4000, 6),
    (&FLAT_SIDE, 800, 2),
    (&WIDEST, 80_000_000_000_000_000_000_000, 2),
    (&SHORT_BAY, 10_663_258_234_600_000_000_000, 3),
];

/// Whether the ring of a row is clipped as it says, and to the triangles of the plain clipping.
fn is_clipped(alloc: Global, row: &ClipRow) -> Result<bool, Fail> {
    let shape = shape(alloc, row.0)?;
    let is_row = area_of(shape.triangles.as_slice()) == row.1 && shape.triangles.len() == row.2;
    Ok(clipped_as_plainly(alloc, corners(alloc, row.0)?)? && is_row)
}

#[test]
fn clips_rings(rt: HostRuntime) -> Result<(), Fail> {
    for (number, row) in CLIPPED.iter().enumerate() {
        assert!(rt; is_clipped(rt.alloc(), row)?, "row {number}");
    }
    Ok(())
}

#[test]
fn a_triangle_turns_left(rt: HostRuntime) -> Result<(), Fail> {
    let (a, b, c) = (corner((0, 0))?, corner((60, 0))?, corner((0, 60))?);
    let Some(tri) = Tri::new(a, b, c) else {
        return Err(Fail::new("no left turn"));
    };
    assert!(rt; tri.a == a && tri.b == b && tri.c == c);
    assert!(rt; Tri::new(a, c, b).is_none());
    assert!(rt; Tri::new(a, b, b).is_none());
    Ok(())
}

#[test]
fn triangles_are_kept_in_order(rt: HostRuntime) -> Result<(), Fail> {
    let first = triangle((0, 0), (60, 0), (0, 60))?;
    let second = triangle((60, 0), (60, 60), (0, 60))?;
    let mut triangles = Triangles::new(rt.alloc());
    assert!(rt; triangles.is_empty());
    triangles.push(first)?;
    triangles.push(second)?;
    assert!(rt; triangles.as_slice() == [first, second].as_slice());
    Ok(())
}

/// Whether a ring is copied whole.
fn is_ring_copied(ring: &Ring<Global>) -> Result<bool, AllocError> {
    Ok(ring.clone()? == *ring)
}

/// Whether a shape of nine triangles is copied whole.
fn is_copied(shape: &Shape<Global>) -> Result<bool, AllocError> {
    let copy = shape.clone()?;
    let is_same = copy.ring == shape.ring
        && copy.triangles.as_slice() == shape.triangles.as_slice();
    Ok(is_same && copy.triangles.len() == 9 && !copy.triangles.is_empty())
}

#[test]
fn a_shape_is_copied(rt: HostRuntime) -> Result<(), Fail> {
    let shape = shape(rt.alloc(), &COMB)?;
    assert!(rt; is_ring_copied(&shape.ring)?);
    assert!(rt; is_copied(&shape)?);
    Ok(())
}
