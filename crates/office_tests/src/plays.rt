//! Offices that are opened, played at, and closed.

ghost use Rattle.std.specs.Prelude.{◌≡◌};
ghost use Rattle.desk_lock.specs.Offices.{origin_of};

use crate::answers::{Cards, Windows};
use crate::asked::{ask_parcels, parcel_with_memory};
use crate::clerks::{Task, work_all};
use crate::growths::{cut_with_memory, locate_with_memory, sheet_with_memory};
use crate::halves::{ask_late, learn_halves, learn_unasked};
use crate::readers::read_meanwhile;
use crate::straightens::learn_straight;
use desk_lock::{Card, CloseFault, Name, Naming, Office, OpenFault, Window};
use fabric_core::{Fabric, Refusal};
use std::marker::Brand;
use std::sync::Wait;
use std::test::Fail;
use std::thread::Threads;
use test_builders::{Refuses, was_refused};

/// The number of no growth.
pub const NONE: u64 = u64::MAX;

/// What is done at an office while it is open.
#[derive(Clone, Copy, PartialEq, Eq)]
pub enum Play {
    /// Nothing.
    Nothing,
    /// Clerk 1 cuts the first parcel in halves, and the first window learns the last receipt.
    Halves,
    /// The same, but the window is asked only after the office is closed.
    Late,
    /// Clerk 1 puts a corner into an edge and takes it out, and the first window learns the last receipt.
    Straight,
    /// Clerk 1 cuts the first parcel in halves, and the first window shows parcels before and after.
    Parcels,
    /// Each clerk puts 100 corners into a side of the city.
    Sides,
    /// Two clerks merge the same two parcels.
    Merges,
    /// Clerks make edits that are drawn at random, and readers ask meanwhile where corners lie.
    Drawn,
    /// The last card is given up.
    GiveUp,
    /// The first parcel is cut in halves, the growth of the first number being refused in the last
    /// submit, and that of the second in the publishing, where it is not published at once.
    Cut(u64, u64),
    /// A growth is refused for a sheet.
    Sheet(u64),
    /// A growth is refused for an answer.
    Locate(u64),
    /// A growth is refused for the ring of a parcel.
    Parcel(u64),
}

/// What came of it.
#[derive(Clone, Copy, Debug, PartialEq, Eq)]
pub enum Told {
    /// The office was not opened, for this reason.
    Unopened(OpenFault),
    /// A growth was refused; where memory was wanting, the call was made again, and all was done.
    Refused,
    /// An edit was accepted, and published later; whether a growth was refused then, too.
    Unpublished(bool),
    /// A card was given up, so that the office could not be closed.
    GivenUp,
    /// All was done at once, and the window answered K4 after the close.
    NoVersion,
    /// All was done at once.
    Done,
}

/// An office's fabric, where it was closed or not opened, and what came of it.
pub type Ended<'a, H> = (Option<Fabric<'a, H>>, Told);

/// Opens an office for so many clerks with so many windows, with a growth refused, plays at it, and closes it.
pub fn at_office<'a, H: Refuses + Send + Sync, R: Threads + Wait + Copy + Send + Sync>(
    rt: R,
    heap: &'a H,
    fabric: Fabric<'a, H>,
    places: (usize, usize),
    refused: u64,
    play: Play,
) -> Result<Ended<'a, H>, Fail> {
    let name = Name::new(heap)?;
    heap.refuse(refused);
    opened_as::<H, Brand, R>(rt, heap, name, fabric, places.0, places.1, play)
}

/// The same under a name.
fn opened_as<
    'a,
    H: Refuses + Send + Sync,
    J: Naming<H> + Send + Sync,
    R: Threads + Wait + Copy + Send + Sync,
>(
    rt: R,
    heap: &'a H,
    name: Name<&'a H>,
    fabric: Fabric<'a, H>,
    clerks: usize,
    windows: usize,
    play: Play,
) -> Result<Ended<'a, H>, Fail>
    requires book { name.book ≡ J.book }
    requires office { J.office ≡ record { cards = name.cards; clerks = clerks; origin = origin_of fabric } }
{
    match Office::<H, J, R>::open(rt, heap, name, fabric, clerks, windows) {
        Ok((office, mut cards, mut windows)) => {
            let is_refused = was_refused(heap);
            let told = played(rt, heap, &office, &mut cards, &mut windows, play)?;
            let told = if is_refused { Told::Refused } else { told };
            let fabric = closed(&rt, heap, office, clerks, cards)?;
            if play == Play::Late {
                return Ok((fabric, ask_late(windows)?));
            }
            Ok((fabric, told))
        }
        Err((fabric, fault)) => {
            heap.refuse(0);
            Ok((Some(fabric), Told::Unopened(fault)))
        }
    }
}

/// Plays at an office, with its cards and windows: what came of it.
fn played<
    'a,
    H: Refuses + Send + Sync,
    J: Naming<H> + Send + Sync,
    R: Threads + Wait + Copy + Send + Sync,
>(
    rt: R,
    heap: &'a H,
    office: &Office<'a, H, J, R>,
    cards: &mut Cards<'a, H, J>,
    windows: &mut Windows<'a, H, J>,
    play: Play,
) -> Result<Told, Fail> {
    match play {
        Play::Sides => work_sides(rt, heap, office, cards),
        Play::Merges => work_merges(rt, heap, office, cards),
        Play::Drawn => read_meanwhile(rt, heap, office, cards, windows),
        Play::GiveUp => {
            if let Some(card) = cards.pop() {
                card.give_up();
            }
            Ok(Told::GivenUp)
        }
        _ => played_alone(
            &rt,
            heap,
            office,
            cards.as_mut_slice(),
            windows.as_mut_slice(),
            play,
        ),
    }
}

/// Plays at an office in this thread alone, with the first card and the first window: what came of it.
fn played_alone<'a, H: Refuses, J: Naming<H>, R: Wait + Drop, W: Wait>(
    rt: &W,
    heap: &'a H,
    office: &Office<'a, H, J, R>,
    cards: &mut [Card<'a, H, J>],
    windows: &mut [Window<'a, H, J>],
    play: Play,
) -> Result<Told, Fail> {
    if cards.is_empty() || windows.is_empty() {
        return Err(Fail::new("no card and no window"));
    }
    match play {
        Play::Halves => learn_halves(rt, heap, office, cards, windows),
        Play::Late => learn_unasked(rt, heap, office, &mut cards[0], &mut windows[0]),
        Play::Straight => learn_straight(rt, heap, office, &mut cards[0], windows),
        Play::Parcels => ask_parcels(rt, heap, office, &mut cards[0], &mut windows[0]),
        Play::Cut(number, later) => cut_with_memory(
            rt,
            heap,
            office,
            &mut cards[0],
            &mut windows[0],
            (number, later),
        ),
        Play::Sheet(number) => sheet_with_memory(rt, heap, office, cards, number),
        Play::Locate(number) => {
            locate_with_memory(rt, heap, office, &mut cards[0], &mut windows[0], number)
        }
        Play::Parcel(number) => {
            parcel_with_memory(rt, heap, office, &mut cards[0], &mut windows[0], number)
        }
        _ => Ok(Told::Done),
    }
}

/// Two clerks put 100 corners each into a side of the city, and all are accepted.
fn work_sides<
    'a,
    H: Refuses + Send + Sync,
    J: Naming<H> + Send + Sync,
    R: Threads + Wait + Copy + Send + Sync,
>(
    rt: R,
    heap: &'a H,
    office: &Office<'a, H, J, R>,
    cards: &mut Cards<'a, H, J>,
) -> Result<Told, Fail> {
    let outcomes = work_all(rt, heap, office, cards, Task::Side(100))?;
    for outcome in outcomes.as_slice() {
        if outcome.0 != 100 || outcome.2.is_some() {
            return Err(Fail::new("an edit of a side is refused"));
        }
    }
    Ok(Told::Done)
}

/// Two clerks merge the same two parcels: the edit of one is accepted, under number 1, and that of
/// the other refused, since the first parcel is gone.
fn work_merges<
    'a,
    H: Refuses + Send + Sync,
    J: Naming<H> + Send + Sync,
    R: Threads + Wait + Copy + Send + Sync,
>(
    rt: R,
    heap: &'a H,
    office: &Office<'a, H, J, R>,
    cards: &mut Cards<'a, H, J>,
) -> Result<Told, Fail> {
    let outcomes = work_all(rt, heap, office, cards, Task::Merge)?;
    let [one, other] = outcomes.as_slice() else {
        return Err(Fail::new("not two clerks"));
    };
    let (first, second) = if one.0 == 1 {
        (one, other)
    } else {
        (other, one)
    };
    if *first != (1, 1, None) || *second != (0, 0, Some(Refusal::Retired { id: 1, by: 1 })) {
        return Err(Fail::new("not one merge alone"));
    }
    Ok(Told::Done)
}

/// Closes an office of so many clerks, first with no card, which is refused, and then with these:
/// its fabric, where they are all.
fn closed<'a, H: Refuses, J: Naming<H>, R: Wait + Drop, W: Wait>(
    rt: &W,
    heap: &'a H,
    office: Office<'a, H, J, R>,
    clerks: usize,
    cards: Cards<'a, H, J>,
) -> Result<Option<Fabric<'a, H>>, Fail> {
    match office.close(rt, Vec::new(heap)) {
        Ok(_) => Err(Fail::new("closed with no card")),
        Err((office, none, fault)) => {
            if fault != CloseFault::CardsMissing(clerks, 0) || !none.is_empty() {
                return Err(Fail::new("another fault"));
            }
            closed_with(rt, office, clerks, cards)
        }
    }
}

/// Closes an office of so many clerks with these cards: its fabric, where they are all.
fn closed_with<'a, H: Refuses, J: Naming<H>, R: Wait + Drop, W: Wait>(
    rt: &W,
    office: Office<'a, H, J, R>,
    clerks: usize,
    cards: Cards<'a, H, J>,
) -> Result<Option<Fabric<'a, H>>, Fail> {
    let handed_in = cards.len();
    match office.close(rt, cards) {
        Ok(fabric) => Ok(Some(fabric)),
        Err((_, cards, fault)) => {
            if fault != CloseFault::CardsMissing(clerks, handed_in) || cards.len() != handed_in {
                return Err(Fail::new("another fault"));
            }
            Ok(None)
        }
    }
}
