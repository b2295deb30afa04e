//! Triangles and shapes that overlap, or only touch.

use geo_exact::Corners;
use ring_core::{Shape, Triangles};
use std::alloc::Global;
use std::test::Fail;
use test_builders::{Place, corners, ring_of, shape, shape_of, triangle};
use tri_overlap::{first_overlap, folded, shapes_overlap, triangles_overlap};

/// A border that goes east.
const JAGGED: [Place; 24] = [
    (0, 331),
    (100, 970),
    (200, 154),
    (300, 404),
    (400, 666),
    (500, 49),
    (600, 74),
    (700, 840),
    (800, 548),
    (900, 96),
    (1000, 374),
    (1100, 596),
    (1200, 59),
    (1300, 931),
    (1400, 519),
    (1500, 219),
    (1600, 38),
    (1700, 88),
    (1800, 444),
    (1900, 428),
    (2000, 71),
    (2100, 246),
    (2200, 92),
    (2300, 564),
];

/// A border that goes north, over the same places again and again.
const TO_AND_FRO: [Place; 24] = [
    (3369, 0),
    (121, 100),
    (3658, 200),
    (253, 300),
    (2957, 400),
    (1291, 500),
    (3784, 600),
    (1193, 700),
    (2626, 800),
    (1181, 900),
    (3699, 1000),
    (812, 1100),
    (2601, 1200),
    (452, 1300),
    (2595, 1400),
    (1140, 1500),
    (2772, 1600),
    (593, 1700),
    (3358, 1800),
    (295, 1900),
    (3607, 2000),
    (241, 2100),
    (3669, 2200),
    (631, 2300),
];

/// The corners of a border, with two more.
fn corners_along(
    alloc: Global,
    border: &[Place],
    far: &[Place; 2],
) -> Result<Corners<Global>, Fail> {
    let mut list = corners(alloc, border)?.into_vec();
    list.extend_from_slice(corners(alloc, far)?.as_slice())?;
    Ok(Corners::from_vec(list))
}

/// The shape on the left of a border, with two more corners.
fn left_of(alloc: Global, border: &[Place], far: &[Place; 2]) -> Result<Shape<Global>, Fail> {
    shape_of(alloc, ring_of(corners_along(alloc, border, far)?)?)
}

/// The shape on the right of a border, with two more corners.
fn right_of(alloc: Global, border: [Place; 24], far: &[Place; 2]) -> Result<Shape<Global>, Fail> {
    let mut back = border;
    back.reverse();
    left_of(alloc, &back, far)
}

/// Whether some triangle of one shape overlaps some triangle of the other, each with each.
fn some_triangles_overlap(first: &Shape<Global>, second: &Shape<Global>) -> bool {
    for one in first.triangles.as_slice() {
        for other in second.triangles.as_slice() {
            if triangles_overlap(one, other) {
                return true;
            }
        }
    }
    false
}

/// The places of a triangle.
type Triple = (Place, Place, Place);

/// Two triangles, and whether they overlap.
type TriangleRow = (Triple, Triple, bool);

/// Whether two triangles overlap exactly where their row says so.
fn is_row(row: &TriangleRow) -> Result<bool, Fail> {
    let ((a, b, c), (d, e, f), want) = *row;
    Ok(triangles_overlap(&triangle(a, b, c)?, &triangle(d, e, f)?) == want)
}

const UPRIGHT: Triple = ((0, 0), (60, 0), (30, 60));

const UPSIDE_DOWN: Triple = ((0, 40), (30, -20), (60, 40));

const HALF: Triple = ((0, 0), (60, 0), (0, 60));

const OTHER_HALF: Triple = ((60, 0), (60, 60), (0, 60));

const BESIDE: Triple = ((60, 0), (120, 0), (60, 60));

const WITHIN: Triple = ((10, 10), (20, 10), (10, 20));

static CROSSING: [TriangleRow; 6] = [
    (UPRIGHT, UPSIDE_DOWN, true),
    (HALF, OTHER_HALF, false),
    (HALF, BESIDE, false),
    (HALF, HALF, true),
    (HALF, WITHIN, true),
    (WITHIN, HALF, true),
];

#[test]
fn triangles_that_cross_or_touch(rt: HostRuntime) -> Result<(), Fail> {
    for (number, row) in CROSSING.iter().enumerate() {
        assert!(rt; is_row(row)?, "row {number}");
    }
    Ok(())
}

const FAR: i64 = 100_000_000_000;

/// The south-western end of the coordinates.
const START: Place = (-FAR, -FAR);

const END: Place = (-13_732_428_728, -46_683_708_827);

const ON_THE_RIGHT: Place = (-46_683_708_827, -67_048_719_901);

const ON_THE_LEFT: Place = (-67_048_719_901, -79_634_988_926);

const SLIVER: Triple = (START, ON_THE_RIGHT, END);

const LEFT_SIDE: Triple = (START, END, (-FAR, FAR));

const RIGHT_SIDE: Triple = (START, (FAR, -FAR), END);

const REACHING_OVER: Triple = (ON_THE_LEFT, (0, -FAR), (FAR, -FAR));

const FALLING_SHORT: Triple = (ON_THE_RIGHT, (0, -FAR), (FAR, -FAR));

/// Slivers along the way of (86267571272, 53316291173), two Fibonacci numbers F(54) and F(53), from the
/// south-western end of the coordinates. Of three in a row the square of the middle one and the product
/// of the others differ by 1, and so do F(54) F(51) and F(53) F(52): so the place (F(53), F(52)) from
/// there lies right of the way by half a square millimetre, and (F(52), F(51)) left of it by as much.
/// In doubles these products, above 2^70, are multiples of 262144: each difference is 0.
static SLIVERS: [TriangleRow; 6] = [
    (SLIVER, RIGHT_SIDE, true),
    (SLIVER, LEFT_SIDE, false),
    (LEFT_SIDE, REACHING_OVER, true),
    (SLIVER, REACHING_OVER, true),
    (LEFT_SIDE, FALLING_SHORT, false),
    (SLIVER, FALLING_SHORT, false),
];

#[test]
fn slivers_at_the_limits(rt: HostRuntime) -> Result<(), Fail> {
    for (number, row) in SLIVERS.iter().enumerate() {
        assert!(rt; is_row(row)?, "row {number}");
    }
    Ok(())
}

/// Whether the shapes of two rings overlap, which has to be answered alike from either side.
fn overlap(alloc: Global, first: &[Place], second: &[Place]) -> Result<bool, Fail> {
    let one = shape(alloc, first)?;
    let other = shape(alloc, second)?;
    let answer = shapes_overlap(&one, &other);
    if shapes_overlap(&other, &one) != answer {
        return Err(Fail::new("not the same from the other side"));
    }
    Ok(answer)
}

/// Whether no two triangles of a ring's shape overlap.
fn is_unfolded(alloc: Global, places: &[Place]) -> Result<bool, Fail> {
    Ok(folded(&shape(alloc, places)?) == None)
}

/// Two rings, and whether their shapes overlap.
type ShapeRow = (&'static [Place], &'static [Place], bool);

const PARCEL: [Place; 3] = [(0, 0), (100, 100), (0, 100)];

const NEIGHBOUR: [Place; 3] = [(0, 0), (100, 0), (100, 100)];

const ZONE: [Place; 4] = [(0, 0), (100, 0), (100, 100), (50, 51)];

const OTHER_ZONE: [Place; 4] = [(0, 0), (50, 51), (100, 100), (0, 100)];

static BETWEEN_POINTS: [ShapeRow; 6] = [
    (&PARCEL, &ZONE, true),
    (&PARCEL, &NEIGHBOUR, false),
    (&ZONE, &NEIGHBOUR, true),
    (&PARCEL, &OTHER_ZONE, true),
    (&NEIGHBOUR, &OTHER_ZONE, false),
    (&ZONE, &OTHER_ZONE, false),
];

/// The common part of the parcel and the zone has no whole point inside.
#[test]
fn shapes_that_meet_between_whole_points(rt: HostRuntime) -> Result<(), Fail> {
    for (number, row) in BETWEEN_POINTS.iter().enumerate() {
        assert!(rt; overlap(rt.alloc(), row.0, row.1)? == row.2, "row {number}");
    }
    Ok(())
}

/// A ring round a bay.
const BAY: [Place; 8] = [
    (0, 0),
    (100, 0),
    (100, 20),
    (40, 20),
    (40, 80),
    (100, 80),
    (100, 100),
    (0, 100),
];

const IN_THE_BAY: [Place; 4] = [(40, 20), (100, 20), (100, 80), (40, 80)];

const WEST_PART: [Place; 4] = [(40, 20), (70, 20), (70, 80), (40, 80)];

const EAST_PART: [Place; 4] = [(70, 20), (100, 20), (100, 80), (70, 80)];

const OVER_THE_EDGE: [Place; 4] = [(39, 30), (100, 30), (100, 70), (39, 70)];

static AROUND_A_BAY: [ShapeRow; 5] = [
    (&BAY, &IN_THE_BAY, false),
    (&WEST_PART, &EAST_PART, false),
    (&BAY, &WEST_PART, false),
    (&IN_THE_BAY, &WEST_PART, true),
    (&BAY, &OVER_THE_EDGE, true),
];

/// What lies in the bay, whole and in two parts, and what lies a millimetre over its edge.
#[test]
fn shapes_with_a_bay(rt: HostRuntime) -> Result<(), Fail> {
    for (number, row) in AROUND_A_BAY.iter().enumerate() {
        assert!(rt; overlap(rt.alloc(), row.0, row.1)? == row.2, "row {number}");
    }
    Ok(())
}

static UNFOLDED: [&[Place]; 7] = [
    &PARCEL,
    &NEIGHBOUR,
    &ZONE,
    &OTHER_ZONE,
    &BAY,
    &WEST_PART,
    &EAST_PART,
];

#[test]
fn shapes_that_are_not_folded(rt: HostRuntime) -> Result<(), Fail> {
    for (number, places) in UNFOLDED.iter().enumerate() {
        assert!(rt; is_unfolded(rt.alloc(), places)?, "row {number}");
    }
    Ok(())
}

/// Whether two shapes overlap, from either side and by their triangles.
fn seen(one: &Shape<Global>, other: &Shape<Global>) -> (bool, bool, bool) {
    (
        shapes_overlap(one, other),
        shapes_overlap(other, one),
        some_triangles_overlap(one, other),
    )
}

const ALL: (bool, bool, bool) = (true, true, true);

const NONE: (bool, bool, bool) = (false, false, false);

/// A border of which one corner is moved.
fn moved(border: [Place; 24], k: usize, by: Place) -> [Place; 24] {
    let mut moved = border;
    if let Some(place) = moved.get_mut(k) {
        *place = (place.0.saturating_add(by.0), place.1.saturating_add(by.1));
    }
    moved
}

/// Whether the shapes north and south of the jagged border overlap, where one corner of the southern one's is moved.
fn seen_south(alloc: Global, k: usize, by: Place) -> Result<(bool, bool, bool), Fail> {
    let north = left_of(alloc, &JAGGED, &[(2300, 2000), (0, 2000)])?;
    let south = right_of(alloc, moved(JAGGED, k, by), &[(0, -1000), (2300, -1000)])?;
    Ok(seen(&north, &south))
}

/// Lists of 24 triangles are halved until one has 6; each corner of the border in turn is moved.
#[test]
fn shapes_with_a_long_border(rt: HostRuntime) -> Result<(), Fail> {
    let alloc = rt.alloc();
    assert!(rt; seen_south(alloc, 0, (0, 0))? == NONE);
    for k in 0..24usize {
        assert!(rt; seen_south(alloc, k, (0, 1))? == ALL, "northwards at {k}");
        assert!(rt; seen_south(alloc, k, (0, -1))? == NONE, "southwards at {k}");
    }
    Ok(())
}

/// Whether the shapes west and east of the border to and fro overlap, where one corner of the western one's is moved.
fn seen_west(alloc: Global, k: usize, by: Place) -> Result<(bool, bool, bool), Fail> {
    let west = left_of(
        alloc,
        &moved(TO_AND_FRO, k, by),
        &[(-1000, 2300), (-1000, 0)],
    )?;
    let east = right_of(alloc, TO_AND_FRO, &[(5000, 0), (5000, 2300)])?;
    Ok(seen(&west, &east))
}

#[test]
fn shapes_with_a_border_to_and_fro(rt: HostRuntime) -> Result<(), Fail> {
    let alloc = rt.alloc();
    assert!(rt; seen_west(alloc, 0, (0, 0))? == NONE);
    for k in 0..24usize {
        assert!(rt; seen_west(alloc, k, (1, 0))? == ALL, "at {k}");
    }
    Ok(())
}

const APART: Triple = ((200, 0), (260, 0), (200, 60));

const OVER_BOTH: Triple = ((10, 10), (50, 40), (10, 40));

/// Triangles in a row, and the first two of them that overlap.
type ListRow = (&'static [Triple], Option<(usize, usize)>);

/// Triangle 0 overlaps none; 1 overlaps 3, and 2 overlaps 3 too.
static LISTS: [ListRow; 4] = [
    (&[APART, HALF, OTHER_HALF, OVER_BOTH], Some((1, 3))),
    (&[APART, OVER_BOTH, OTHER_HALF, HALF], Some((1, 2))),
    (&[APART, HALF, OTHER_HALF], None),
    (&[], None),
];

/// The first two triangles of a list that overlap.
fn first_two(alloc: Global, list: &[Triple]) -> Result<Option<(usize, usize)>, Fail> {
    let mut triangles = Triangles::new(alloc);
    for (a, b, c) in list {
        triangles.push(triangle(*a, *b, *c)?)?;
    }
    Ok(first_overlap(triangles.as_slice()))
}

#[test]
fn the_first_overlap_of_a_list(rt: HostRuntime) -> Result<(), Fail> {
    for (number, row) in LISTS.iter().enumerate() {
        assert!(rt; first_two(rt.alloc(), row.0)? == row.1, "row {number}");
    }
    Ok(())
}
