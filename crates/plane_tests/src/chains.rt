//! Edges that are counted, and rings that are noded.

use crate::edge_sums::count;
use crate::rings::rings_of;
use edge_chains::{EdgeSum, node, node_by};
use geo_exact::{Corner, Corners};
use std::alloc::{AllocError, Global};
use std::test::Fail;
use std::thread::Threads;
use test_builders::{Place, corner, corners as ring};

type Rings = Vec<Corners<Global>, Global>;

/// The corners of all rings.
fn corners_of(alloc: Global, rings: &[Corners<Global>]) -> Result<Vec<Corner, Global>, AllocError> {
    let mut corners = Vec::new(alloc);
    for ring in rings {
        corners.extend_from_slice(ring.as_slice())?;
    }
    Ok(corners)
}

/// An edge and its count, as places.
type Edge = (Place, Place, i64);

/// An edge's ends as places.
fn as_places(edge: Option<(Corner, Corner, i64)>) -> Option<Edge> {
    let (a, b, net) = edge?;
    Some(((a.x, a.y), (b.x, b.y), net))
}

/// The first unbalanced edge of the rings but the last, added, and the last, taken.
fn compare(alloc: Global, rings: &[Corners<Global>]) -> Result<Option<Edge>, Fail> {
    let Some((city, parcels)) = rings.split_last() else {
        return Err(Fail::new("no city"));
    };
    let mut sum = EdgeSum::new(alloc);
    for ring in parcels {
        count(&mut sum, ring, true)?;
    }
    count(&mut sum, city, false)?;
    Ok(as_places(sum.first_unbalanced()))
}

/// The same of the rings noded for all corners.
fn compare_noded(alloc: Global, rings: &[Corners<Global>]) -> Result<Option<Edge>, Fail> {
    let corners = corners_of(alloc, rings)?;
    let noded = node(alloc, rings, &corners)?;
    compare(alloc, &noded)
}

const CITY: [Place; 4] = [(0, 0), (100, 0), (100, 100), (0, 100)];

const WEST: [Place; 4] = [(0, 0), (60, 0), (60, 100), (0, 100)];

/// Two parcels that meet the western one in a T junction.
const SOUTH_EAST: [Place; 4] = [(60, 0), (100, 0), (100, 50), (60, 50)];

const NORTH_EAST: [Place; 4] = [(60, 50), (100, 50), (100, 100), (60, 100)];

/// The western parcel and the city with the corners of the others in them.
const WEST_NODED: [Place; 5] = [(0, 0), (60, 0), (60, 50), (60, 100), (0, 100)];

const CITY_NODED: [Place; 7] = [
    (0, 0),
    (60, 0),
    (100, 0),
    (100, 50),
    (100, 100),
    (60, 100),
    (0, 100),
];

/// Rings, the corners that they are noded for (all their own, where there is none), and the rings then.
type NodeRow = (
    &'static [&'static [Place]],
    Option<&'static [Place]>,
    &'static [&'static [Place]],
);

const FAR: i64 = 100_000_000_000;

static NODED: [NodeRow; 3] = [
    (
        &[&WEST, &SOUTH_EAST, &NORTH_EAST, &CITY],
        None,
        &[&WEST_NODED, &SOUTH_EAST, &NORTH_EAST, &CITY_NODED],
    ),
    // only what lies inside
    (
        &[&CITY, &[(-FAR, -FAR), (FAR, -FAR), (FAR, FAR)]],
        Some(&[
            (50, 0),
            (0, 0),
            (50, 0),
            (50, 1),
            (50, -1),
            (0, -FAR),
            (FAR - 1, FAR - 1),
            (FAR - 1, FAR - 2),
            (FAR, 0),
            (0, FAR),
        ]),
        &[
            &[(0, 0), (50, 0), (100, 0), (100, 100), (0, 100)],
            &[
                (-FAR, -FAR),
                (0, -FAR),
                (FAR, -FAR),
                (FAR, 0),
                (FAR, FAR),
                (FAR - 1, FAR - 1),
                (0, 0),
            ],
        ],
    ),
    (&[], Some(&[]), &[]),
];

/// The rings of a row, and the corners that they are noded for.
fn given(alloc: Global, row: &NodeRow) -> Result<(Rings, Vec<Corner, Global>), Fail> {
    let rings = rings_of(alloc, row.0)?;
    let corners = match row.1 {
        Some(places) => ring(alloc, places)?.into_vec(),
        None => corners_of(alloc, &rings)?,
    };
    Ok((rings, corners))
}

/// Whether the rings of a row are noded as it says.
fn are_noded(alloc: Global, row: &NodeRow) -> Result<bool, Fail> {
    let (rings, corners) = given(alloc, row)?;
    let noded = node(alloc, &rings, &corners)?;
    Ok(noded.as_slice() == rings_of(alloc, row.2)?.as_slice())
}

/// Whether the rings of a row are noded as it says by so many threads.
fn are_noded_by<R: Threads + Sync>(
    rt: &R,
    alloc: Global,
    workers: usize,
    row: &NodeRow,
) -> Result<bool, Fail> {
    let (rings, corners) = given(alloc, row)?;
    let noded = node_by(rt, alloc, workers, &rings, &corners)?;
    Ok(noded.as_slice() == rings_of(alloc, row.2)?.as_slice())
}

#[test]
fn nodes_rings_by_threads(rt: HostRuntime) -> Result<(), Fail> {
    for workers in [0, 1, 3, 64] {
        for (number, row) in NODED.iter().enumerate() {
            assert!(rt;
                are_noded_by(&rt, rt.alloc(), workers, row)?,
                "row {number} by {workers}"
            );
        }
    }
    Ok(())
}

#[test]
fn nodes_rings(rt: HostRuntime) -> Result<(), Fail> {
    for (number, row) in NODED.iter().enumerate() {
        assert!(rt; are_noded(rt.alloc(), row)?, "row {number}");
    }
    Ok(())
}

/// Whether rings are noded first, the rings, the last being the city's, and their first unbalanced edge with its count.
type GapRow = (bool, &'static [&'static [Place]], Option<Edge>);

static GAPS: [GapRow; 6] = [
    (
        false,
        &[&WEST, &SOUTH_EAST, &NORTH_EAST, &CITY],
        Some(((0, 0), (60, 0), 1)),
    ),
    // the city, begun elsewhere
    (
        false,
        &[&CITY, &[(100, 100), (0, 100), (0, 0), (100, 0)]],
        None,
    ),
    (true, &[&WEST, &SOUTH_EAST, &NORTH_EAST, &CITY], None),
    (
        true,
        &[&WEST, &[(61, 0), (100, 0), (100, 100), (61, 100)], &CITY],
        Some(((60, 0), (60, 100), 1)),
    ),
    // an overlap that a gap makes up for
    (
        true,
        &[
            &WEST,
            &[(50, 0), (80, 0), (80, 100), (50, 100)],
            &[(90, 0), (100, 0), (100, 100), (90, 100)],
            &CITY,
        ],
        Some(((50, 0), (50, 100), -1)),
    ),
    (true, &[&CITY], Some(((0, 0), (0, 100), 1))),
];

/// Whether the first unbalanced edge of a row's rings is found.
fn is_gap_found(alloc: Global, row: &GapRow) -> Result<bool, Fail> {
    let rings = rings_of(alloc, row.1)?;
    let found = if row.0 {
        compare_noded(alloc, &rings)?
    } else {
        compare(alloc, &rings)?
    };
    Ok(found == row.2)
}

#[test]
fn finds_gaps(rt: HostRuntime) -> Result<(), Fail> {
    for (number, row) in GAPS.iter().enumerate() {
        assert!(rt; is_gap_found(rt.alloc(), row)?, "row {number}");
    }
    Ok(())
}

const A: Place = (0, 0);

const B: Place = (5, 0);

const C: Place = (5, 5);

/// Lists of corners, each added to an edge sum or taken from it.
static STEPS: [(bool, &[Place]); 5] = [
    (true, &[A, B]),
    (true, &[C, B, A]),
    (true, &[C, B, A]),
    (false, &[B, A, C, C]),
    (false, &[A, C, B]),
];

/// So many steps, the edges of the sum then, and the first that is unbalanced.
type SumRow = (usize, u64, Option<Edge>);

static SUMS: [SumRow; 5] = [
    (0, 0, None),
    (1, 2, None),
    (3, 8, Some((A, B, -2))),
    (4, 12, Some((A, B, -1))),
    (5, 15, None),
];

/// The edge sum after so many steps.
fn sum_after(alloc: Global, steps: usize) -> Result<EdgeSum<Global>, Fail> {
    let mut sum = EdgeSum::new(alloc);
    for (is_added, places) in STEPS.iter().take(steps) {
        count(&mut sum, &ring(alloc, places)?, *is_added)?;
    }
    Ok(sum)
}

/// Whether an edge sum tells what a row says.
fn is_told(alloc: Global, row: &SumRow) -> Result<bool, Fail> {
    let sum = sum_after(alloc, row.0)?;
    Ok(sum.edges() == row.1 && as_places(sum.first_unbalanced()) == row.2)
}

#[test]
fn counts_edges(rt: HostRuntime) -> Result<(), Fail> {
    for row in &SUMS {
        assert!(rt; is_told(rt.alloc(), row)?, "after {}", row.0);
    }
    Ok(())
}

/// The corners (k, y) with k from 1 up to 999.
fn row(alloc: Global, y: i64) -> Result<Vec<Corner, Global>, Fail> {
    let mut corners = Vec::new(alloc);
    for x in 1..1_000 {
        corners.push(corner((x, y))?)?;
    }
    Ok(corners)
}

/// The ring of two long edges with all corners of both in it.
fn long_ring(alloc: Global) -> Result<Corners<Global>, Fail> {
    let mut list = Corners::new(alloc);
    for x in 0..1_001i64 {
        list.push(corner((x, 0))?)?;
    }
    for back in 0..1_001i64 {
        list.push(corner((1_000i64.wrapping_sub(back), 9))?)?;
    }
    Ok(list)
}

/// Whether two long edges get all their corners, which are given in the other order.
fn are_long_edges_noded(alloc: Global) -> Result<bool, Fail> {
    let rings = rings_of(alloc, &[&[(0, 0), (1_000, 0), (1_000, 9), (0, 9)]])?;
    let mut corners = row(alloc, 9)?;
    corners.extend_from_slice(&row(alloc, 0)?)?;
    corners.reverse();
    let noded = node(alloc, &rings, &corners)?;
    let want = long_ring(alloc)?;
    match noded.as_slice() {
        [ring] => Ok(*ring == want),
        _ => Ok(false),
    }
}

#[test]
fn nodes_a_long_edge(rt: HostRuntime) -> Result<(), Fail> {
    assert!(rt; are_long_edges_noded(rt.alloc())?);
    Ok(())
}

/// Whether a ring of no corner and one of many stay as they are, where there is no corner to node them for.
fn do_rings_stay(alloc: Global) -> Result<bool, Fail> {
    let mut rings = Vec::new(alloc);
    rings.push(Corners::new(alloc))?;
    rings.push(Corners::from_vec(row(alloc, 0)?))?;
    let noded = node(alloc, &rings, &[])?;
    Ok(noded.as_slice() == rings.as_slice())
}

#[test]
fn nodes_nothing(rt: HostRuntime) -> Result<(), Fail> {
    assert!(rt; do_rings_stay(rt.alloc())?);
    Ok(())
}
