//! Boxes that lean: what they hold, and which edges are seen to lie off them.

use geo_exact::{Bounds, LIMIT};
use leaning_boxes::{LeaningBox, is_beside, ranges_are_apart, reach};
use std::test::Fail;
use test_builders::{Place, corner};

/// The box along the line from the origin to a place, around the origin and two places.
fn box_along(to: Place, first: Place, second: Place) -> Result<LeaningBox, Fail> {
    let origin = corner((0, 0))?;
    let held = LeaningBox::of_corner(origin, corner(to)?, origin);
    Ok(held.around(corner(first)?).around(corner(second)?))
}

/// What the box that leans by 45 degrees holds: turns from 0 at its line up to 2,000 at (10, 30).
fn diagonal() -> Result<LeaningBox, Fail> {
    box_along((100, 100), (100, 100), (10, 30))
}

/// Whether a box misses the edge between two places, and whether it is seen to lie off it.
fn seen(held: LeaningBox, c: Place, d: Place) -> Result<(bool, bool), Fail> {
    let (c, d) = (corner(c)?, corner(d)?);
    Ok((held.misses(c, d), held.is_off(c, d)))
}

/// Whether a box leans along the line between two places, and holds turns from its line between these two.
fn leans(held: LeaningBox, line: (Place, Place), turns: (i128, i128)) -> Result<bool, Fail> {
    Ok(
        held.from == corner(line.0)?
            && held.to == corner(line.1)?
            && held.low == turns.0
            && held.high == turns.1,
    )
}

/// Whether bounds are those between two places.
fn are_between(bounds: Bounds, low: Place, high: Place) -> Result<bool, Fail> {
    Ok(bounds.low == corner(low)? && bounds.high == corner(high)?)
}

#[test]
fn grows_around_corners(rt: HostRuntime) -> Result<(), Fail> {
    let line = ((0, 0), (100, 100));
    let one = LeaningBox::of_corner(corner(line.0)?, corner(line.1)?, corner((60, 20))?);
    assert!(rt; leans(one, line, (-4000, -4000))?);
    assert!(rt; are_between(one.bounds, (60, 20), (60, 20))?);
    let held = diagonal()?;
    assert!(rt; leans(held, line, (0, 2000))?);
    assert!(rt; are_between(held.bounds, line.0, line.1)?);
    let none = LeaningBox::default();
    assert!(rt; leans(none, ((0, 0), (0, 0)), (0, 0))?);
    assert!(rt; are_between(none.bounds, (0, 0), (0, 0))?);
    Ok(())
}

/// An edge, whether a box misses it, and whether it is seen to lie off the box.
type OffRow = (Place, Place, (bool, bool));

/// Turns from the line are, of (x, y), 100 y - 100 x.
static OFF_A_DIAGONAL: [OffRow; 8] = [
    // turns -4,000 and -5,000: right of it
    ((60, 20), (90, 40), (true, true)),
    // turns 3,000 and 3,000: left of it
    ((10, 40), (60, 90), (true, true)),
    // turns -100 and 1,000, but beside the box along the axes
    ((101, 100), (110, 120), (true, true)),
    // turns -1,000 and -100: right of it, but the edge's line comes into it behind (62, 61)
    ((60, 50), (62, 61), (true, false)),
    // turns 1,000 and -7,000: leaves the box along the axes at (100, 70), right of the line
    ((120, 130), (80, 10), (false, true)),
    // turns 2,000 and -2,000: through it
    ((0, 20), (40, 20), (false, false)),
    // turns 2,000 and 2,000: along its side
    ((10, 30), (30, 50), (false, false)),
    // turns -4,000 and 10,000: across it
    ((60, 20), (0, 100), (false, false)),
];

#[test]
fn tells_edges_off_a_diagonal_box(rt: HostRuntime) -> Result<(), Fail> {
    let held = diagonal()?;
    for (number, row) in OFF_A_DIAGONAL.iter().enumerate() {
        assert!(rt; seen(held, row.0, row.1)? == row.2, "row {number}");
    }
    Ok(())
}

/// Turns from the line are, of (x, y), 10 y - 100 x.
static OFF_A_STEEP: [OffRow; 2] = [
    // turns -200 and -200
    ((4, 20), (8, 60), (true, true)),
    // turns 200 and -200
    ((4, 60), (8, 60), (false, false)),
];

#[test]
fn tells_edges_off_a_steep_box(rt: HostRuntime) -> Result<(), Fail> {
    let held = box_along((10, 100), (10, 100), (5, 50))?;
    for (number, row) in OFF_A_STEEP.iter().enumerate() {
        assert!(rt; seen(held, row.0, row.1)? == row.2, "row {number}");
    }
    Ok(())
}

/// Two ranges, each by its ends in either order, and whether they are apart.
type RangeRow = (i128, i128, i128, i128, bool);

static RANGES: [RangeRow; 5] = [
    (1, 3, 4, 6, true),
    (3, 1, 6, 4, true),
    (6, 4, 1, 3, true),
    (1, 4, 4, 6, false),
    (1, 9, 6, 4, false),
];

/// Whether the ranges of a row are apart exactly where it says so.
fn is_apart_told(row: &RangeRow) -> bool {
    ranges_are_apart(row.0, row.1, row.2, row.3) == row.4
}

#[test]
fn tells_ranges_apart(rt: HostRuntime) {
    for (number, row) in RANGES.iter().enumerate() {
        assert!(rt; is_apart_told(row), "row {number}");
    }
}

/// Whether an edge is beside the box from (0, 0) to (100, 50).
fn seen_beside(from: Place, to: Place) -> Result<bool, Fail> {
    let bounds = Bounds {
        low: corner((0, 0))?,
        high: corner((100, 50))?,
    };
    Ok(is_beside(corner(from)?, corner(to)?, bounds))
}

/// An edge, and whether it is beside the box.
type BesideRow = (Place, Place, bool);

static BESIDE: [BesideRow; 7] = [
    ((-2, 90), (-1, -90), true),
    ((101, -90), (102, 90), true),
    ((-90, -1), (190, -2), true),
    ((190, 51), (-90, 52), true),
    // off the box, but on no side of it
    ((-10, 5), (5, -10), false),
    // along a side
    ((0, -90), (0, 90), false),
    ((-90, 50), (190, 50), false),
];

#[test]
fn tells_edges_beside_a_box(rt: HostRuntime) -> Result<(), Fail> {
    for (number, row) in BESIDE.iter().enumerate() {
        assert!(rt; seen_beside(row.0, row.1)? == row.2, "row {number}");
    }
    Ok(())
}

/// Two places, and the reach between them.
type ReachRow = (Place, Place, u64);

static REACHES: [ReachRow; 4] = [
    ((0, 0), (3, -7), 7),
    ((10, 2), (-5, 3), 15),
    ((4, 4), (4, 4), 0),
    ((-LIMIT, -LIMIT), (LIMIT, 0), 200_000_000_000),
];

/// Whether the reach of a row is measured.
fn is_measured(row: &ReachRow) -> Result<bool, Fail> {
    Ok(reach(corner(row.0)?, corner(row.1)?) == row.2)
}

#[test]
fn measures_reaches(rt: HostRuntime) -> Result<(), Fail> {
    for (number, row) in REACHES.iter().enumerate() {
        assert!(rt; is_measured(row)?, "row {number}");
    }
    Ok(())
}
