//! Fabrics whose opening has a corner that neither a parcel, the city nor an entry has any more, moved to finer grids
//! again and again: it is the least that is too far in the end.

use crate::changes::{Change, Parcel, Step, take};
use fabric_core::{Fabric, ScaleFault};
use geo_exact::Corner;
use std::alloc::Allocator;
use std::test::Fail;
use test_builders::{Place, corner};
use test_cities::fabric;

/// A city under a slanting edge, and two parcels of it that become one: the bend in their border is gone then.
struct Slant {
    city: &'static [Place],
    two: &'static [&'static [Place]],
    one: &'static [Step],
    /// How often it is moved, and what is too far then: the bend of the border, or without it a corner of the city.
    moves: u64,
    gone: Place,
    left: Place,
}

const MERGED: Change = Change::Merge(1, 2);

const LOW: [Parcel; 1] = [(3, 10, &[(-1, 0), (0, 0), (1, 0), (1, 4), (-1, 1)])];

const HIGHER: [Parcel; 1] = [(
    3,
    2_200,
    &[(0, 0), (5, 0), (10, 0), (10, 120), (0, 100), (0, 90)],
)];

const HIGH: [Parcel; 1] = [(
    3,
    20_000_000_200,
    &[
        (0, 0),
        (5, 0),
        (10, 0),
        (10, 1_000_000_020),
        (0, 1_000_000_000),
        (0, 9),
    ],
)];

/// Cities that are 4 millimetres, 120 millimetres and 1,000 kilometres high.
static SLANTS: [Slant; 3] = [
    Slant {
        city: &[(-1, 0), (1, 0), (1, 4), (-1, 1)],
        two: &[
            &[(-1, 0), (0, 0), (0, 2), (-1, 1)],
            &[(-1, 1), (0, 2), (0, 0), (1, 0), (1, 4)],
        ],
        one: &[(MERGED, Ok(1), &LOW)],
        moves: 10,
        gone: (0, 20_000_000_000),
        left: (10_000_000_000, 40_000_000_000),
    },
    Slant {
        city: &[(0, 0), (10, 0), (10, 120), (0, 100)],
        two: &[
            &[(0, 0), (5, 0), (5, 101), (0, 90)],
            &[(0, 90), (5, 101), (5, 0), (10, 0), (10, 120), (0, 100)],
        ],
        one: &[(MERGED, Ok(1), &HIGHER)],
        moves: 8,
        gone: (500_000_000, 10_100_000_000),
        left: (1_000_000_000, 12_000_000_000),
    },
    Slant {
        city: &[(0, 0), (10, 0), (10, 1_000_000_020), (0, 1_000_000_000)],
        two: &[
            &[(0, 0), (5, 0), (5, 1_000_000_001), (0, 9)],
            &[
                (0, 9),
                (5, 1_000_000_001),
                (5, 0),
                (10, 0),
                (10, 1_000_000_020),
                (0, 1_000_000_000),
            ],
        ],
        one: &[(MERGED, Ok(1), &HIGH)],
        moves: 1,
        gone: (50, 10_000_000_010),
        left: (100, 10_000_000_200),
    },
];

/// No fabric is moved so often.
const MOST: u64 = 20;

/// How often a fabric is moved, what it becomes each time again, until a corner is too far; and the corner.
fn moves_of<H: Allocator>(fabric: &Fabric<'_, H>) -> Result<(u64, Corner), Fail> {
    let mut fine = fabric.copy()?;
    for moves in 0..MOST {
        match fine.tenfold() {
            Ok(finer) => fine = finer,
            Err(ScaleFault::TooFar(corner)) => return Ok((moves, corner)),
            Err(ScaleFault::NoMemory) => return Err(Fail::new("memory is wanting")),
        }
    }
    Err(Fail::new("no corner is too far"))
}

/// Whether the parcels of a slant, once they are one, are moved until the corner that is gone is too far; and those of
/// a fabric that was opened over one parcel, until another is.
fn is_named<H: Allocator>(heap: &H, slant: &Slant) -> Result<bool, Fail> {
    let mut edited = fabric(heap, slant.city, slant.two)?;
    take(heap, &mut edited, slant.one)?;
    let opened = fabric(heap, slant.city, &[slant.city])?;
    Ok(
        moves_of(&edited)? == (slant.moves, corner(slant.gone)?)
            && moves_of(&opened)? == (slant.moves, corner(slant.left)?),
    )
}

/// The one parcel of the highest city, which its two have become on the finer grid.
const HIGH_AND_FINE: [Parcel; 1] = [(
    3,
    2_000_000_020_000,
    &[
        (0, 0),
        (50, 0),
        (100, 0),
        (100, 10_000_000_200),
        (0, 10_000_000_000),
        (0, 90),
    ],
)];

static ON_THE_FINE_GRID: [Step; 1] = [(MERGED, Ok(1), &HIGH_AND_FINE)];

/// Whether the corner is named, too, where it goes once the fabric is moved.
fn is_named_behind_a_move<H: Allocator>(heap: &H, slant: &Slant) -> Result<bool, Fail> {
    let fabric = fabric(heap, slant.city, slant.two)?;
    let Ok(mut fine) = fabric.tenfold() else {
        return Err(Fail::new("it is not moved"));
    };
    take(heap, &mut fine, &ON_THE_FINE_GRID)?;
    Ok(moves_of(&fine)? == (0, corner(slant.gone)?))
}

#[test]
fn names_a_corner_that_is_gone(rt: HostRuntime) -> Result<(), Fail> {
    for slant in &SLANTS {
        assert!(rt; is_named(&rt.alloc(), slant)?);
    }
    assert!(rt; is_named_behind_a_move(&rt.alloc(), &SLANTS[2])?);
    Ok(())
}
