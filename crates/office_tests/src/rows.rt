//! Worked examples of what clerks do and windows answer.

use crate::changes::{Change, edit_of};
use crate::city_of_many::large_city;
use crate::opened::town;
use crate::plays::{NONE, Play, Told, at_office};
use crate::readers::EDITS;
use crate::replays::is_replayed;
use desk_lock::OpenFault;
use fabric_core::{Entry, Fabric};
use refusing_alloc::Refusing;
use ring_edits::Edit;
use std::alloc::Allocator;
use std::sync::Wait;
use std::test::Fail;
use std::thread::Threads;
use test_builders::{Place, Refuses};
use test_cities::fabric;

/// What a fabric has: so many entries and parcels, of which this is the last.
pub type Tally = (u64, usize, u64);

/// The town.
pub const WHOLE: Tally = (0, 2, 2);

/// The town with its first parcel cut in halves.
pub const HALVED: Tally = (3, 3, 4);

/// The town, into which a corner was put that is taken out.
const STRAIGHT: Tally = (2, 2, 2);

/// The town with its parcels merged.
const MERGED: Tally = (1, 1, 3);

/// Whether a fabric has this.
fn has_parcels<H: Allocator>(fabric: &Fabric<'_, H>, want: Tally) -> bool {
    fabric.entries() == want.0
        && fabric.ids().count() == want.1
        && fabric.ids().last() == Some(want.2)
}

/// A play at an office with the town, which ends with a fabric that has this, or with none where a
/// card was given up: what came of it.
pub fn told_of<H: Refuses + Send + Sync, R: Threads + Wait + Copy + Send + Sync>(
    rt: R,
    heap: &H,
    places: (usize, usize),
    refused: u64,
    play: Play,
    want: Tally,
) -> Result<Told, Fail> {
    let (fabric, told) = at_office(rt, heap, town(heap)?, places, refused, play)?;
    let is_so = match &fabric {
        Some(fabric) => has_parcels(fabric, want),
        None => told == Told::GivenUp,
    };
    if is_so {
        Ok(told)
    } else {
        Err(Fail::new("another fabric"))
    }
}

/// What comes of opening an office with the town where a growth is refused. Where it is not opened, the town comes back
/// as it was, and is opened again with memory, where its first parcel is cut in halves.
pub fn told_of_opening<H: Refuses + Send + Sync, R: Threads + Wait + Copy + Send + Sync>(
    rt: R,
    heap: &H,
    refused: u64,
) -> Result<Told, Fail> {
    match at_office(rt, heap, town(heap)?, (1, 1), refused, Play::Nothing)? {
        (Some(fabric), Told::Unopened(fault)) if has_parcels(&fabric, WHOLE) => {
            match at_office(rt, heap, fabric, (1, 1), NONE, Play::Halves)? {
                (Some(fabric), Told::Done) if has_parcels(&fabric, HALVED) => {
                    Ok(Told::Unopened(fault))
                }
                _ => Err(Fail::new("another office with memory")),
            }
        }
        (Some(fabric), told) if has_parcels(&fabric, WHOLE) => Ok(told),
        _ => Err(Fail::new("another fabric")),
    }
}

/// Places for clerks and windows, a play there, what comes of it, and what the fabric has then.
type Row = ((usize, usize), Play, Told, Tally);

static ROWS: [Row; 13] = [
    ((1, 1), Play::Halves, Told::Done, HALVED),
    ((1, 2), Play::Halves, Told::Done, HALVED),
    ((1, 1), Play::Parcels, Told::Done, HALVED),
    ((1, 1), Play::Straight, Told::Done, STRAIGHT),
    ((2, 2), Play::Straight, Told::Done, STRAIGHT),
    ((2, 1), Play::Merges, Told::Done, MERGED),
    ((1, 8), Play::Nothing, Told::Done, WHOLE),
    ((8, 1), Play::Nothing, Told::Done, WHOLE),
    ((1, 1), Play::GiveUp, Told::GivenUp, WHOLE),
    (
        (0, 9),
        Play::Nothing,
        Told::Unopened(OpenFault::Places(0)),
        WHOLE,
    ),
    (
        (9, 0),
        Play::Nothing,
        Told::Unopened(OpenFault::Places(9)),
        WHOLE,
    ),
    (
        (1, 9),
        Play::Nothing,
        Told::Unopened(OpenFault::Places(9)),
        WHOLE,
    ),
    (
        (1, 0),
        Play::Nothing,
        Told::Unopened(OpenFault::Places(0)),
        WHOLE,
    ),
];

#[test]
fn tells_what_was_published(rt: HostRuntime) -> Result<(), Fail> {
    let heap = Refusing::new(rt.alloc(), 0);
    for (places, play, told, want) in &ROWS {
        assert_eq!(rt; told_of(rt, &heap, *places, NONE, *play, *want)?, *told);
    }
    Ok(())
}

/// A window that learnt the last receipt is asked once the office is closed. It may answer K4 then,
/// since it is promised no version after the close; but where it answers, it has lost nothing of
/// what it learnt. Now it answers K4.
#[test]
fn loses_nothing_at_the_close(rt: HostRuntime) -> Result<(), Fail> {
    let heap = Refusing::new(rt.alloc(), 0);
    let told = told_of(rt, &heap, (1, 1), NONE, Play::Late, HALVED)?;
    assert!(rt; told == Told::NoVersion || told == Told::Done);
    Ok(())
}

/// A square of a thousand millimetres.
const LARGE: [Place; 4] = [(0, 0), (1000, 0), (1000, 1000), (0, 1000)];

/// Whether a fabric has 200 entries, and its parcel and its refined ring have 204 corners.
fn has_corners<H: Allocator>(fabric: &Fabric<'_, H>) -> bool {
    let Some(ring) = fabric.ring(1) else {
        return false;
    };
    has_parcels(fabric, (200, 1, 1))
        && ring.corners.as_slice().len() == 204
        && fabric.refined().len() == 204
}

/// A path from one side to the other.
const ACROSS: [Place; 2] = [(1, 0), (1, 1000)];

/// Whether a fabric has the corners, and the next parcels that come have the ids 2 and 3.
fn goes_on_at_two<'a, H: Allocator>(heap: &'a H, fabric: &mut Fabric<'a, H>) -> Result<bool, Fail> {
    let edit = edit_of(heap, Change::Split(1, &ACROSS))?;
    let is_edited = has_corners(fabric);
    let is_split = fabric.edit(1, &edit).is_ok();
    Ok(is_edited && is_split && has_parcels(fabric, (201, 2, 3)))
}

/// Whether two clerks put corners into both sides of the square.
fn are_sides_edited<H: Refuses + Send + Sync, R: Threads + Wait + Copy + Send + Sync>(
    rt: R,
    heap: &H,
) -> Result<bool, Fail> {
    let fabric = fabric(heap, &LARGE, &[&LARGE])?;
    match at_office(rt, heap, fabric, (2, 1), NONE, Play::Sides)? {
        (Some(mut fabric), Told::Done) => goes_on_at_two(heap, &mut fabric),
        _ => Ok(false),
    }
}

#[test]
fn edits_both_sides(rt: HostRuntime) -> Result<(), Fail> {
    let heap = Refusing::new(rt.alloc(), 0);
    assert!(rt; are_sides_edited(rt, &heap)?);
    Ok(())
}

/// How many edits of each kind there are.
#[derive(Clone, Copy, Debug, PartialEq, Eq)]
struct Kinds {
    splits: u64,
    merges: u64,
    moves: u64,
    inserts: u64,
    straightens: u64,
}

/// How many edits of each kind a journal has.
fn kinds_of<A: Allocator>(journal: &[Entry<A>]) -> Kinds {
    let mut kinds = Kinds {
        splits: 0,
        merges: 0,
        moves: 0,
        inserts: 0,
        straightens: 0,
    };
    for entry in journal {
        match entry.edit() {
            Edit::Split { .. } => kinds.splits = kinds.splits.wrapping_add(1),
            Edit::Merge { .. } => kinds.merges = kinds.merges.wrapping_add(1),
            Edit::Move { .. } => kinds.moves = kinds.moves.wrapping_add(1),
            Edit::Insert { .. } => kinds.inserts = kinds.inserts.wrapping_add(1),
            Edit::Straighten { .. } => kinds.straightens = kinds.straightens.wrapping_add(1),
        }
    }
    kinds
}

/// Whether a journal has edits of each kind.
fn has_each_kind<A: Allocator>(journal: &[Entry<A>]) -> bool {
    let kinds = kinds_of(journal);
    kinds.splits > 0
        && kinds.merges > 0
        && kinds.moves > 0
        && kinds.inserts > 0
        && kinds.straightens > 0
}

/// Whether a fabric has the edits of eight clerks, some of each kind, and is what the replay of its journal leads to.
fn has_all_edits<'a, H: Allocator>(heap: &'a H, fabric: &mut Fabric<'a, H>) -> Result<bool, Fail> {
    Ok(
        fabric.entries() == 8 * EDITS
            && has_each_kind(fabric.journal())
            && is_replayed(heap, fabric)?,
    )
}

/// Whether eight clerks edit while four readers ask, and the replay of the journal leads to the fabric.
fn is_read<H: Refuses + Send + Sync, R: Threads + Wait + Copy + Send + Sync>(
    rt: R,
    heap: &H,
) -> Result<bool, Fail> {
    match at_office(rt, heap, large_city(heap)?, (8, 4), NONE, Play::Drawn)? {
        (Some(mut fabric), Told::Done) => has_all_edits(heap, &mut fabric),
        _ => Ok(false),
    }
}

#[test]
fn reads_while_clerks_edit(rt: HostRuntime) -> Result<(), Fail> {
    let heap = Refusing::new(rt.alloc(), 0);
    assert!(rt; is_read(rt, &heap)?);
    Ok(())
}
