//! Each growth of an edit refused in turn: a refusal that needs no memory is told all the same; else the answer is that
//! memory ran out, nothing has changed, and the same edit with memory is answered as its row says and leads to the same
//! fabric.

use crate::changes::{CLERK, Change, Step, edit_of, take};
use crate::follows::have_same_journal;
use crate::steps::{BACK_TO_ONE, INTO_HALVES, OF_TWO, WESTWARD};
use crate::straightens::{BOTH_CORNERS_OUT, OF_THREE, THREE_RINGS};
use fabric_core::{Fabric, Refusal};
use geo_exact::Corner;
use refusing_alloc::Refusing;
use ring_edits::Edit;
use std::alloc::Allocator;
use std::test::Fail;
use test_builders::{Refuses, corner, was_refused};
use test_cities::{RINGS, SQUARE, fabric};

/// No edit here has so many growths.
const MOST: u64 = 1000;

/// Where the boxes begin between which candidates are compared, on both axes; each is 25 wide and high.
static BEGINNINGS: [i64; 5] = [-20, 0, 25, 50, 75];

/// Whether both have the same candidates between two corners.
fn are_alike_between<'a, H: Allocator>(
    fabric: &Fabric<'a, H>,
    other: &Fabric<'a, H>,
    low: Corner,
    high: Corner,
) -> Result<bool, Fail> {
    if low.x > high.x || low.y > high.y {
        return Err(Fail::new("no box"));
    }
    let found = fabric.candidates(low, high)?;
    Ok(found.as_slice() == other.candidates(low, high)?.as_slice())
}

/// Whether the indexes of both say the same of every box.
fn are_indexed_alike<'a, H: Allocator>(
    fabric: &Fabric<'a, H>,
    other: &Fabric<'a, H>,
) -> Result<bool, Fail> {
    for x in &BEGINNINGS {
        for y in &BEGINNINGS {
            let low = corner((*x, *y))?;
            let high = corner((x.saturating_add(25), y.saturating_add(25)))?;
            if !are_alike_between(fabric, other, low, high)? {
                return Ok(false);
            }
        }
    }
    Ok(true)
}

/// Whether both show the same rows, rings of the city and index.
pub fn show_alike<'a, H: Allocator>(
    fabric: &Fabric<'a, H>,
    other: &Fabric<'a, H>,
) -> Result<bool, Fail> {
    if fabric.ids().count() != other.ids().count() {
        return Ok(false);
    }
    for ((id, shape), (number, it)) in fabric.shapes().zip(other.shapes()) {
        if id != number || shape.ring.corners != it.ring.corners {
            return Ok(false);
        }
    }
    let are_same = fabric.city() == other.city() && fabric.refined() == other.refined();
    Ok(are_same && are_indexed_alike(fabric, other)?)
}

/// Whether both show the same rows, rings of the city, journal and index.
pub fn are_alike<'a, H: Allocator>(
    fabric: &Fabric<'a, H>,
    other: &Fabric<'a, H>,
) -> Result<bool, Fail> {
    let are_same = fabric.entries() == other.entries() && have_same_journal(fabric, other);
    Ok(are_same && show_alike(fabric, other)?)
}

/// The answer to an edit: the number of its entry, or why it is refused.
fn answer<'a, H: Allocator>(
    fabric: &mut Fabric<'a, H>,
    edit: &Edit<&'a H>,
) -> Result<u64, Refusal> {
    let entry = fabric.edit(CLERK, edit)?;
    Ok(entry.number())
}

/// An edit of a fabric, its answer, an edit behind it that is accepted, and the fabric after both.
#[derive(Drop)]
struct Trial<'f, 'a, H: Refuses> {
    heap: &'a H,
    before: &'f Fabric<'a, H>,
    edit: Edit<&'a H>,
    want: Result<u64, Refusal>,
    probe: Edit<&'a H>,
    behind: Fabric<'a, H>,
}

/// Whether the edit behind that of a trial leads to the same fabric, so that the next id is the same too.
fn ends_alike<'a, H: Refuses>(
    trial: &Trial<'_, 'a, H>,
    fabric: &mut Fabric<'a, H>,
) -> Result<bool, Fail> {
    Ok(answer(fabric, &trial.probe).is_ok() && are_alike(fabric, &trial.behind)?)
}

/// Whether an answer is a refusal that is told whatever memory there is: E9, E1 to E5, E7 or E11.
fn needs_no_memory(answer: &Result<u64, Refusal>) -> bool {
    matches!(
        answer,
        Err(
            Refusal::JournalFull
                | Refusal::Unknown(_)
                | Refusal::Retired { .. }
                | Refusal::BadPath
                | Refusal::NotNeighbours
                | Refusal::SharedTwice
                | Refusal::NoSuchEdge
                | Refusal::NoSuchCorner
        )
    )
}

/// Makes the edit of a copy with growth `number` refused, and where memory is then wanting, which changes nothing, once
/// more; whether it was refused. A growth that is only made ahead may be refused and not be wanting.
fn is_edit_refused<'a, H: Refuses>(trial: &Trial<'_, 'a, H>, number: u64) -> Result<bool, Fail> {
    let mut fabric = trial.before.copy()?;
    trial.heap.refuse(number);
    let mut told = answer(&mut fabric, &trial.edit);
    let is_refused = was_refused(trial.heap);
    if is_refused && told == Err(Refusal::NoMemory) {
        if needs_no_memory(&trial.want) {
            return Err(Fail::new("memory ran out for what needs none"));
        }
        if !are_alike(&fabric, trial.before)? {
            return Err(Fail::new("a refused edit changed something"));
        }
        told = answer(&mut fabric, &trial.edit);
    }
    if told != trial.want {
        return Err(Fail::new("another answer"));
    }
    if !ends_alike(trial, &mut fabric)? {
        return Err(Fail::new("another fabric"));
    }
    Ok(is_refused)
}

/// The trial of a step.
fn trial_of<'f, 'a, H: Refuses>(
    heap: &'a H,
    before: &'f Fabric<'a, H>,
    step: &Step,
    probe: Change,
) -> Result<Trial<'f, 'a, H>, Fail> {
    let edit = edit_of(heap, step.0)?;
    let probe = edit_of(heap, probe)?;
    let mut behind = before.copy()?;
    if answer(&mut behind, &edit) != step.1 || answer(&mut behind, &probe).is_err() {
        return Err(Fail::new("another answer"));
    }
    Ok(Trial {
        heap,
        before,
        edit,
        want: step.1,
        probe,
        behind,
    })
}

/// How many growths of a step's edit are refused in turn, before there is none of that number.
fn growths_of<'a, H: Refuses>(
    heap: &'a H,
    before: &Fabric<'a, H>,
    step: &Step,
    probe: Change,
) -> Result<u64, Fail> {
    let trial = trial_of(heap, before, step, probe)?;
    for number in 1..MOST {
        if !is_edit_refused(&trial, number)? {
            return Ok(number - 1);
        }
    }
    Err(Fail::new("each growth was refused"))
}

/// Refuses each growth of each step in turn, and then makes the step: how many growths each accepted edit has at least.
fn take_refused<'a, H: Refuses>(
    heap: &'a H,
    fabric: &mut Fabric<'a, H>,
    steps: &[Step],
    probes: &[Change],
) -> Result<u64, Fail> {
    let mut least = MOST;
    for (at, step) in steps.iter().enumerate() {
        let Some(probe) = probes.get(at) else {
            return Err(Fail::new("no edit behind"));
        };
        let growths = growths_of(heap, fabric, step, *probe)?;
        if step.1.is_ok() {
            least = least.min(growths);
        }
        take(heap, fabric, &steps[at..at + 1])?;
    }
    Ok(least)
}

/// What is done behind each step into halves: both parcels are merged, or the halves.
static BEHIND_HALVES: [Change; 4] = [
    Change::Merge(1, 2),
    Change::Merge(1, 2),
    Change::Merge(3, 4),
    Change::Merge(3, 4),
];

/// What is done behind each step back to one parcel.
static BEHIND_ONE: [Change; 2] = [Change::Merge(2, 5), Change::Merge(2, 5)];

/// What is done behind each step of taking corners out.
static BEHIND_STRAIGHT: [Change; 6] = [Change::Merge(2, 5); 6];

/// The least number of growths that an accepted edit of the two parcels has, until both corners of the halves are out.
fn least_of_two<H: Refuses>(heap: &H) -> Result<u64, Fail> {
    let mut fabric = fabric(heap, &SQUARE, &RINGS)?;
    let halves = take_refused(heap, &mut fabric, &INTO_HALVES, &BEHIND_HALVES)?;
    let one = take_refused(heap, &mut fabric, &BACK_TO_ONE, &BEHIND_ONE)?;
    let out = take_refused(heap, &mut fabric, &BOTH_CORNERS_OUT, &BEHIND_STRAIGHT)?;
    Ok(halves.min(one).min(out))
}

#[test]
fn cuts_and_merges(rt: HostRuntime) -> Result<(), Fail> {
    let heap = Refusing::new(rt.alloc(), 0);
    assert!(rt; least_of_two(&heap)? > 3);
    Ok(())
}

/// What is done behind each step in the fabric of three parcels.
static BEHIND_THREE: [Change; 9] = [
    Change::Merge(2, 3),
    Change::Merge(2, 3),
    Change::Merge(2, 3),
    Change::Merge(2, 3),
    Change::Merge(1, 4),
    Change::Merge(1, 4),
    Change::Merge(1, 4),
    Change::Merge(1, 4),
    Change::Merge(1, 4),
];

/// The least number of growths that an accepted edit of the three parcels has.
fn least_of_three<H: Refuses>(heap: &H) -> Result<u64, Fail> {
    let mut fabric = fabric(heap, &SQUARE, &THREE_RINGS)?;
    take_refused(heap, &mut fabric, &OF_THREE, &BEHIND_THREE)
}

#[test]
fn takes_out_of_three(rt: HostRuntime) -> Result<(), Fail> {
    let heap = Refusing::new(rt.alloc(), 0);
    assert!(rt; least_of_three(&heap)? > 3);
    Ok(())
}

/// What is done behind an edit of the two parcels.
fn behind(step: &Step) -> Change {
    if step.1 == Ok(1) {
        Change::Merge(3, 4)
    } else {
        Change::Move(1, 2, &WESTWARD)
    }
}

/// Tries the edits of the two parcels up to the one that moves their border.
fn try_edits_of_two<H: Refuses>(heap: &H) -> Result<(), Fail> {
    let fabric = fabric(heap, &SQUARE, &RINGS)?;
    for step in &OF_TWO {
        growths_of(heap, &fabric, step, behind(step))?;
        if step.1 == Ok(1) {
            return Ok(());
        }
    }
    Err(Fail::new("no border was moved"))
}

#[test]
fn edits_of_two(rt: HostRuntime) -> Result<(), Fail> {
    try_edits_of_two(&Refusing::new(rt.alloc(), 0))
}
