//! Corners taken out where the borders go straight on: worked examples, and that this puts back what an insert changed.

use crate::changes::{CLERK, Change, Parcel, Step, are_at, take};
use crate::plain_scans::drawn;
use crate::refused_edits::{are_alike, show_alike};
use crate::steps::{BACK_TO_ONE, INTO_HALVES};
use fabric_core::{Fabric, Refusal};
use geo_exact::Corner;
use rand_core::utils::NextWord;
use rand_pcg::Pcg32;
use ring_edits::Edit;
use std::alloc::{Allocator, Global};
use std::test::Fail;
use test_builders::Place;
use test_cities::{EAST, RINGS, SQUARE, WEST, fabric};

/// The parcel of both halves without its corner on the south edge.
const NORTH: [Place; 5] = [(0, 0), (60, 0), (60, 100), (30, 100), (0, 100)];

const ONE_OUT: [Parcel; 2] = [(2, 8_000, &EAST), (5, 12_000, &NORTH)];

const BOTH_OUT: [Parcel; 2] = [(2, 8_000, &EAST), (5, 12_000, &WEST)];

/// Behind the merge of the halves, both corners that were put in are taken out; others bend, or are none.
pub static BOTH_CORNERS_OUT: [Step; 6] = [
    (Change::Straighten((30, 0)), Ok(5), &ONE_OUT),
    (
        Change::Straighten((60, 0)),
        Err(Refusal::NotFlat(2)),
        &ONE_OUT,
    ),
    (
        Change::Straighten((0, 0)),
        Err(Refusal::NotFlat(5)),
        &ONE_OUT,
    ),
    (
        Change::Straighten((50, 50)),
        Err(Refusal::NoSuchCorner),
        &ONE_OUT,
    ),
    (
        Change::Straighten((30, 0)),
        Err(Refusal::NoSuchCorner),
        &ONE_OUT,
    ),
    (Change::Straighten((30, 100)), Ok(6), &BOTH_OUT),
];

/// The city's ring with the corners of two parcels side by side.
static REFINED_BY_TWO: [Place; 6] = [(0, 0), (60, 0), (100, 0), (100, 100), (60, 100), (0, 100)];

/// Whether the last entry takes out this parcel alone, and brings it back with this ring.
fn has_last_entry<H: Allocator>(fabric: &Fabric<'_, H>, id: u64, ring: &[Place]) -> bool {
    let Some(entry) = fabric.journal().last() else {
        return false;
    };
    let [row] = entry.rows() else {
        return false;
    };
    entry.out() == [id].as_slice() && row.id == id && are_at(row.corners.as_slice(), ring)
}

/// Whether both corners are taken out, first of the parcel and the city's refined ring.
fn are_both_taken_out<'a, H: Allocator>(
    heap: &'a H,
    fabric: &mut Fabric<'a, H>,
) -> Result<bool, Fail> {
    take(heap, fabric, &INTO_HALVES)?;
    take(heap, fabric, &BACK_TO_ONE)?;
    take(heap, fabric, &BOTH_CORNERS_OUT[..1])?;
    let is_first_out = has_last_entry(fabric, 5, &NORTH) && fabric.refined().len() == 7;
    take(heap, fabric, &BOTH_CORNERS_OUT[1..])?;
    Ok(
        is_first_out
            && has_last_entry(fabric, 5, &WEST)
            && are_at(fabric.refined(), &REFINED_BY_TWO)
            && are_at(fabric.city(), &SQUARE),
    )
}

/// Whether a fabric that follows the journal of another becomes like it.
fn follows<'a, H: Allocator>(
    copy: &mut Fabric<'a, H>,
    original: &Fabric<'a, H>,
) -> Result<bool, Fail> {
    for entry in original.journal() {
        if copy.follow(entry) != Ok(()) {
            return Ok(false);
        }
    }
    are_alike(copy, original)
}

#[test]
fn takes_out_both_corners(rt: HostRuntime) -> Result<(), Fail> {
    let heap = &rt.alloc();
    let mut fabric = fabric(heap, &SQUARE, &RINGS)?;
    let mut copy = fabric.copy()?;
    assert!(rt; are_both_taken_out(heap, &mut fabric)?);
    assert!(rt; follows(&mut copy, &fabric)?);
    Ok(())
}

const SOUTH_EAST: [Place; 4] = [(60, 0), (100, 0), (100, 50), (60, 50)];

const NORTH_EAST: [Place; 4] = [(60, 50), (100, 50), (100, 100), (60, 100)];

/// A parcel beside two, whose border meets its east edge at (60, 50); and the two before it.
pub const THREE_RINGS: [&[Place]; 3] = [&WEST, &SOUTH_EAST, &NORTH_EAST];

const WEST_LAST: [&[Place]; 3] = [&SOUTH_EAST, &NORTH_EAST, &WEST];

const NODED: [Place; 5] = [(0, 0), (60, 0), (60, 50), (60, 100), (0, 100)];

const THREE: [Parcel; 3] = [
    (1, 12_000, &NODED),
    (2, 4_000, &SOUTH_EAST),
    (3, 4_000, &NORTH_EAST),
];

const THREE_OTHERWISE: [Parcel; 3] = [
    (1, 4_000, &SOUTH_EAST),
    (2, 4_000, &NORTH_EAST),
    (3, 12_000, &NODED),
];

/// The two on the east merged: at first with both ends of their border, then without those.
const BOTH_ENDS: [Place; 6] = [
    (60, 0),
    (100, 0),
    (100, 50),
    (100, 100),
    (60, 100),
    (60, 50),
];

const EAST_END: [Place; 5] = [(60, 0), (100, 0), (100, 50), (100, 100), (60, 100)];

const WITH_BOTH_ENDS: [Parcel; 2] = [(1, 12_000, &NODED), (4, 8_000, &BOTH_ENDS)];

const WITH_EAST_END: [Parcel; 2] = [(1, 12_000, &WEST), (4, 8_000, &EAST_END)];

const WITHOUT_ENDS: [Parcel; 2] = [(1, 12_000, &WEST), (4, 8_000, &EAST)];

/// A corner where the first parcel is straight and the two beside it bend, and corners that the city's ring has, too;
/// once the two are merged, the ends of their border can be taken out: the one of both parcels, and the other of one
/// and of the city's refined ring.
pub static OF_THREE: [Step; 9] = [
    (
        Change::Straighten((60, 50)),
        Err(Refusal::NotFlat(2)),
        &THREE,
    ),
    (
        Change::Straighten((100, 50)),
        Err(Refusal::NotFlat(2)),
        &THREE,
    ),
    (
        Change::Straighten((60, 100)),
        Err(Refusal::NotFlat(1)),
        &THREE,
    ),
    (
        Change::Straighten((100, 100)),
        Err(Refusal::NotFlat(3)),
        &THREE,
    ),
    (Change::Merge(2, 3), Ok(1), &WITH_BOTH_ENDS),
    (Change::Straighten((60, 50)), Ok(2), &WITH_EAST_END),
    (
        Change::Straighten((60, 50)),
        Err(Refusal::NoSuchCorner),
        &WITH_EAST_END,
    ),
    (Change::Straighten((100, 50)), Ok(3), &WITHOUT_ENDS),
    (
        Change::Straighten((100, 0)),
        Err(Refusal::NotFlat(4)),
        &WITHOUT_ENDS,
    ),
];

/// The same corner where the parcel that is straight comes last.
static OF_LAST: [Step; 1] = [(
    Change::Straighten((60, 50)),
    Err(Refusal::NotFlat(1)),
    &THREE_OTHERWISE,
)];

/// Whether the steps with three parcels are answered as their table says, and the refined ring has none of the ends.
fn are_of_three<H: Allocator>(heap: &H) -> Result<bool, Fail> {
    let mut fabric = fabric(heap, &SQUARE, &THREE_RINGS)?;
    take(heap, &mut fabric, &OF_THREE)?;
    Ok(are_at(fabric.refined(), &REFINED_BY_TWO))
}

#[test]
fn looks_at_all_parcels_of_a_corner(rt: HostRuntime) -> Result<(), Fail> {
    let heap = &rt.alloc();
    assert!(rt; are_of_three(heap)?);
    let mut fabric = fabric(heap, &SQUARE, &WEST_LAST)?;
    take(heap, &mut fabric, &OF_LAST)
}

/// So many layers are drawn, so many edges of each, and at most so many times.
const LAYERS: u32 = 20;

const EDGES: u32 = 50;

const TRIES: u32 = 1_000;

/// The first part of a length that falls into halves, thirds or fifths, as this word draws; `None` where it does not.
fn part_of(length: i64, word: u32) -> Option<i64> {
    match word % 3 {
        0 if length % 2 == 0 => Some(length / 2),
        1 if length % 3 == 0 => Some(length / 3),
        2 if length % 5 == 0 => Some(length / 5),
        _ => None,
    }
}

/// The edge at a place of a ring, and a corner on it that is drawn; `None` where there is none of whole millimetres.
fn drawn_on_edge(
    ring: &[Corner],
    place: usize,
    words: &mut Pcg32,
) -> Option<(Corner, Corner, Corner)> {
    if ring.is_empty() {
        return None;
    }
    let from = ring.get(place % ring.len()).copied()?;
    let to = ring.get(place.wrapping_add(1) % ring.len()).copied()?;
    let word = words.next_word();
    let x = part_of(to.x - from.x, word)?;
    let y = part_of(to.y - from.y, word)?;
    let at = Corner::new(from.x.wrapping_add(x), from.y.wrapping_add(y))?;
    Some((from, to, at))
}

/// An edge of a parcel, both drawn, and a corner on it.
fn drawn_insert(
    fabric: &Fabric<'_, Global>,
    words: &mut Pcg32,
) -> Option<(Corner, Corner, Corner)> {
    let count = fabric.ids().count();
    if count == 0 {
        return None;
    }
    let id = fabric.ids().nth(words.next_word() as usize % count)?;
    let place = words.next_word() as usize;
    drawn_on_edge(fabric.ring(id)?.corners.as_slice(), place, words)
}

/// Puts a corner into an edge, which changes the fabric, and takes it out, after
/// which it has to show what it did before.
fn put_and_take_out<'a>(
    fabric: &mut Fabric<'a, Global>,
    before: &Fabric<'a, Global>,
    insert: (Corner, Corner, Corner),
) -> Result<(), Fail> {
    let (from, to, at) = insert;
    if fabric.edit(CLERK, &Edit::Insert { from, to, at }).is_err() || show_alike(fabric, before)? {
        return Err(Fail::new("no corner is put in"));
    }
    if fabric.edit(CLERK, &Edit::Straighten { at }).is_err() || !show_alike(fabric, before)? {
        return Err(Fail::new("another fabric"));
    }
    Ok(())
}

/// Puts corners into edges that are drawn, and takes each out: how many.
fn count_taken_out<'a>(
    fabric: &mut Fabric<'a, Global>,
    before: &Fabric<'a, Global>,
    words: &mut Pcg32,
) -> Result<u32, Fail> {
    let mut count = 0u32;
    for _ in 0..TRIES {
        if count == EDGES {
            break;
        }
        if let Some(insert) = drawn_insert(fabric, words) {
            put_and_take_out(fabric, before, insert)?;
            count = count.wrapping_add(1);
        }
    }
    Ok(count)
}

/// The same in the fabric of a layer that is drawn.
fn count_in_drawn(heap: &Global, words: &mut Pcg32) -> Result<u32, Fail> {
    let Ok(mut fabric) = Fabric::open(drawn(heap, words)?) else {
        return Err(Fail::new("memory is wanting"));
    };
    let before = fabric.copy()?;
    count_taken_out(&mut fabric, &before, words)
}

#[test]
fn puts_back_what_an_insert_changed(rt: HostRuntime) -> Result<(), Fail> {
    let heap = &rt.alloc();
    let mut words = Pcg32::new(42, 59);
    for number in 0..LAYERS {
        assert!(rt;
            count_in_drawn(heap, &mut words)? == EDGES,
            "layer {number}"
        );
    }
    Ok(())
}
