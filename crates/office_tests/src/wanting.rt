//! Each growth refused in turn.

use crate::plays::{NONE, Play, Told};
use crate::rows::{HALVED, told_of, told_of_opening};
use desk_lock::{Name, OpenFault};
use refusing_alloc::Refusing;
use std::sync::Wait;
use std::test::Fail;
use std::thread::Threads;
use test_builders::Refuses;

/// No call here has so many growths.
const MOST: u64 = 1000;

/// Whether memory is wanting for the names of an office at this growth.
fn is_unnamed<H: Refuses>(heap: &H, number: u64) -> bool {
    heap.refuse(number);
    let is_unnamed = Name::new(heap).is_err();
    heap.refuse(0);
    is_unnamed
}

/// Opens an office with each growth refused in turn, until none is: how many were. Memory is wanting for each, a
/// reader's own among them: K3 is told of none.
fn count_unopened<H: Refuses + Send + Sync, R: Threads + Wait + Copy + Send + Sync>(
    rt: R,
    heap: &H,
) -> Result<u64, Fail> {
    for number in 1..MOST {
        match told_of_opening(rt, heap, number)? {
            Told::Unopened(OpenFault::NoMemory) | Told::Refused => {}
            Told::Done => return Ok(number - 1),
            _ => return Err(Fail::new("another answer")),
        }
    }
    Err(Fail::new("each growth was refused"))
}

#[test]
fn opens_with_memory(rt: HostRuntime) -> Result<(), Fail> {
    let heap = Refusing::new(rt.alloc(), 0);
    assert!(rt; is_unnamed(&heap, 1));
    assert!(rt; count_unopened(rt, &heap)? > 10);
    Ok(())
}

/// What is played with each growth refused in turn.
#[derive(Clone, Copy)]
enum Growing {
    /// A sheet.
    Sheet,
    /// An answer.
    Locate,
    /// The ring of a parcel.
    Parcel,
    /// The publishing of a cut in whose submit the growth of this number is refused.
    Publish(u64),
}

/// The play in which the growth of this number is refused.
fn play_of(growing: Growing, number: u64) -> Play {
    match growing {
        Growing::Sheet => Play::Sheet(number),
        Growing::Locate => Play::Locate(number),
        Growing::Parcel => Play::Parcel(number),
        Growing::Publish(before) => Play::Cut(before, number),
    }
}

/// Plays with each growth refused in turn, until none is: how many were.
fn count_refused<H: Refuses + Send + Sync, R: Threads + Wait + Copy + Send + Sync>(
    rt: R,
    heap: &H,
    growing: Growing,
) -> Result<u64, Fail> {
    for number in 1..MOST {
        match told_of(rt, heap, (1, 1), NONE, play_of(growing, number), HALVED)? {
            Told::Refused | Told::Unpublished(true) => {}
            Told::Done | Told::Unpublished(false) => return Ok(number - 1),
            _ => return Err(Fail::new("another answer")),
        }
    }
    Err(Fail::new("each growth was refused"))
}

#[test]
fn answers_with_memory(rt: HostRuntime) -> Result<(), Fail> {
    let heap = Refusing::new(rt.alloc(), 0);
    assert!(rt; count_refused(rt, &heap, Growing::Sheet)? > 20);
    assert!(rt; count_refused(rt, &heap, Growing::Locate)? > 0);
    assert!(rt; count_refused(rt, &heap, Growing::Parcel)? > 0);
    Ok(())
}

/// Plays a cut with each growth refused in turn, until none is, and for some of those that are
/// published later, with each growth refused in the publishing, too: how many were published later,
/// and how many of these growths were refused.
fn count_unpublished<H: Refuses + Send + Sync, R: Threads + Wait + Copy + Send + Sync>(
    rt: R,
    heap: &H,
) -> Result<(u64, u64), Fail> {
    let mut cuts = 0u64;
    let mut growths = 0u64;
    for number in 1..MOST {
        match told_of(rt, heap, (1, 1), NONE, Play::Cut(number, NONE), HALVED)? {
            Told::Refused => {}
            Told::Unpublished(false) => {
                cuts = cuts.wrapping_add(1);
                if cuts % 16 == 1 {
                    let later = count_refused(rt, heap, Growing::Publish(number))?;
                    growths = growths.wrapping_add(later);
                }
            }
            Told::Done => return Ok((cuts, growths)),
            _ => return Err(Fail::new("another answer")),
        }
    }
    Err(Fail::new("each growth was refused"))
}

#[test]
fn publishes_later(rt: HostRuntime) -> Result<(), Fail> {
    let heap = Refusing::new(rt.alloc(), 0);
    let (cuts, growths) = count_unpublished(rt, &heap)?;
    assert!(rt; cuts > 20 && growths > 20);
    Ok(())
}
