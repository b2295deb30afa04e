//! Rows by hand: two rings, and the whole numbers round the twice-area that they have in common.

use area_bounds::{AreaBounds, common_area2};
use geo_exact::{LIMIT, RING_CORNERS};
use std::alloc::Global;
use std::test::Fail;
use test_builders::{Place, corners};

/// Two rings, and the bounds of what they have in common.
type Row = (&'static [Place], &'static [Place], i128, i128);

const SQUARE: [Place; 4] = [(0, 0), (100, 0), (100, 100), (0, 100)];

const WHOLE: [Place; 4] = [
    (-LIMIT, -LIMIT),
    (LIMIT, -LIMIT),
    (LIMIT, LIMIT),
    (-LIMIT, LIMIT),
];

/// A back of height 10, and teeth of width 10 from 0, 20 and 40 on.
const COMB: [Place; 12] = [
    (0, 0),
    (50, 0),
    (50, 100),
    (40, 100),
    (40, 10),
    (30, 10),
    (30, 100),
    (20, 100),
    (20, 10),
    (10, 10),
    (10, 100),
    (0, 100),
];

/// A comb in that one: a back of 44 by 4, and three teeth of 4 by 81.
const INNER_COMB: [Place; 12] = [
    (3, 5),
    (47, 5),
    (47, 90),
    (43, 90),
    (43, 9),
    (27, 9),
    (27, 90),
    (23, 90),
    (23, 9),
    (7, 9),
    (7, 90),
    (3, 90),
];

const ROWS: [Row; 9] = [
    // A quarter is shared.
    (
        &SQUARE,
        &[(50, 50), (150, 50), (150, 150), (50, 150)],
        5_000,
        5_000,
    ),
    // A slanted border cuts a triangle, (0, 0) (10, 0) (68/11, 42/11) (0, 3/2): 522/11, between 47 and 48.
    (
        &[(0, 0), (10, 0), (0, 10)],
        &[(-20, -20), (20, -20), (20, 9), (-20, -6)],
        47,
        48,
    ),
    // A shared edge, up in one and down in the other; shared edges that go alike; all edges shared.
    (&SQUARE, &[(100, 0), (200, 0), (200, 100), (100, 100)], 0, 0),
    (
        &SQUARE,
        &[(0, 0), (50, 0), (50, 100), (0, 100)],
        10_000,
        10_000,
    ),
    (&SQUARE, &SQUARE, 20_000, 20_000),
    // One within the other, and one that meets a corner alone.
    (&SQUARE, &[(10, 10), (15, 10), (15, 15), (10, 15)], 50, 50),
    (
        &SQUARE,
        &[(100, 100), (110, 100), (110, 110), (100, 110)],
        0,
        0,
    ),
    (&COMB, &INNER_COMB, 2_296, 2_296),
    (
        &WHOLE,
        &WHOLE,
        80_000_000_000_000_000_000_000,
        80_000_000_000_000_000_000_000,
    ),
];

/// The bounds of what the rings of these places have in common; `None` where they depend on which is named first.
fn bounds(alloc: Global, one: &[Place], other: &[Place]) -> Result<Option<AreaBounds>, Fail> {
    let one = corners(alloc, one)?;
    let other = corners(alloc, other)?;
    if one.len() > RING_CORNERS || other.len() > RING_CORNERS {
        return Err(Fail::new("a ring of too many corners"));
    }
    let there = common_area2(one.as_slice(), other.as_slice());
    let back = common_area2(other.as_slice(), one.as_slice());
    Ok(if there == back { Some(there) } else { None })
}

#[test]
fn bounds_areas(rt: HostRuntime) -> Result<(), Fail> {
    for (number, (one, other, low, high)) in ROWS.iter().enumerate() {
        let want = AreaBounds {
            low: *low,
            high: *high,
        };
        assert_eq!(rt; bounds(rt.alloc(), one, other)?, Some(want), "row {number}");
    }
    Ok(())
}

#[test]
fn bounds_slopes_that_differ_in_the_last_unit(rt: HostRuntime) -> Result<(), Fail> {
    let lesser: [Place; 3] = [(-LIMIT, -LIMIT), (LIMIT, LIMIT - 1), (-LIMIT, LIMIT)];
    let greater: [Place; 3] = [(-LIMIT, -LIMIT), (LIMIT, LIMIT), (-LIMIT, LIMIT)];
    // 8 * 10^33 / 200,000,000,001, which is this number and almost 1.
    let whole = 39_999_999_999_800_000_000_000;
    let Some(found) = bounds(rt.alloc(), &lesser, &greater)? else {
        return Err(Fail::new("bounds that depend on the order"));
    };
    assert!(rt; found.low <= whole && whole < found.high);
    Ok(())
}

#[test]
fn bounds_a_sliver_between_slopes_that_cross(rt: HostRuntime) -> Result<(), Fail> {
    let above: [Place; 3] = [(-LIMIT, -LIMIT), (LIMIT, LIMIT), (-LIMIT, LIMIT)];
    let below: [Place; 4] = [
        (-LIMIT, -LIMIT),
        (LIMIT, -LIMIT),
        (LIMIT, LIMIT - 1),
        (-LIMIT, 1 - LIMIT),
    ];
    // The triangle from the limits to (0, 0), whose side on the west is 1 millimetre long.
    let whole = i128::from(LIMIT);
    let Some(found) = bounds(rt.alloc(), &above, &below)? else {
        return Err(Fail::new("bounds that depend on the order"));
    };
    assert!(rt; found.low <= whole && whole <= found.high);
    Ok(())
}
