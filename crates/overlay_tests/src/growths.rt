//! Each growth of a round refused in turn: the answer is want of memory, what was handed in comes
//! back as it was, and with memory the round goes on to its table.

use crate::gates::Open;
use crate::refusals::closes_later;
use crate::rounds::{BOTH, FIRST_ALONE, TWO};
use crate::steps::{begun, do_all, is_closed, lists, step, tests_of};
use crate::zones::HALVES;
use fabric_core::{Layer, Sheet};
use overlay_work::{CloseFault, Round, RoundBack, RoundFault, Step, Table, run_round};
use refusing_alloc::Refusing;
use std::sync::Wait;
use std::test::Fail;
use std::thread::Threads;
use test_builders::{Refuses, was_refused};
use test_cities::{RINGS, SQUARE, layer, sheet};

/// No call here has so many growths.
const MOST: u64 = 100;

/// A round that came back, or its table.
type Closed<'t, 'h, H> = Result<Table<'t, 'h, H, &'h H>, RoundBack<'t, 'h, H>>;

/// That memory is wanting was told, and only where a growth was refused; else all is as it has to be.
fn told(is_refused: bool, is_wanting: bool, is_so: bool) -> Result<bool, Fail> {
    if is_refused == is_wanting && is_so {
        Ok(is_refused)
    } else {
        Err(Fail::new("another answer"))
    }
}

/// Whether a round of both parcels is begun with memory, and worked off to its table.
fn is_begun<'t, 'h, H: Refuses>(
    heap: &'h H,
    sheet: &'t Sheet<'h, H>,
    zones: &'t Layer<'h, H>,
) -> Result<bool, Fail> {
    match Round::new(heap, sheet, zones, lists(heap, (2, &TWO))?) {
        Ok((round, mut hands)) => {
            let is_so = do_all(&round, &mut hands, &FIRST_ALONE);
            Ok(is_closed(round, hands, &BOTH) && is_so)
        }
        Err(_) => Ok(false),
    }
}

/// Begins a round of both parcels with growth `number` refused, and where it was, once more with memory; whether it
/// was.
fn is_begin_refused<'t, 'h, H: Refuses>(
    heap: &'h H,
    sheet: &'t Sheet<'h, H>,
    zones: &'t Layer<'h, H>,
    number: u64,
) -> Result<bool, Fail> {
    let lists = lists(heap, (2, &TWO))?;
    heap.refuse(number);
    let made = Round::new(heap, sheet, zones, lists);
    let is_refused = was_refused(heap);
    match made {
        Ok((round, mut hands)) => {
            let is_so = do_all(&round, &mut hands, &FIRST_ALONE);
            told(is_refused, false, is_closed(round, hands, &BOTH) && is_so)
        }
        Err(fault) => {
            let is_again = is_begun(heap, sheet, zones)?;
            told(is_refused, fault == RoundFault::NoMemory, is_again)
        }
    }
}

/// Steps hand 1 with growth `number` refused; whether it was. Hand 0 has done its parcel.
fn is_step_refused<'t, 'h, H: Refuses>(
    heap: &'h H,
    sheet: &'t Sheet<'h, H>,
    zones: &'t Layer<'h, H>,
    number: u64,
) -> Result<bool, Fail> {
    let (round, mut hands) = begun(heap, sheet, zones, (2, &TWO))?;
    let is_so = do_all(&round, &mut hands, &[(0, Step::Did(1))]);
    heap.refuse(number);
    let did = step(&round, &mut hands, 1);
    let is_refused = was_refused(heap);
    if did == Some(Step::Did(2)) {
        return told(is_refused, false, is_so);
    }
    let is_so = is_so && tests_of(hands.as_slice(), 1) == 0;
    let later = [(1, Step::Did(2)), (1, Step::Done)];
    match round.close(hands) {
        Ok(_) => Err(Fail::new("a parcel is left")),
        Err(back) => {
            let is_kept = closes_later(back, CloseFault::Holding(1), &later);
            told(is_refused, did == Some(Step::NoMemory), is_kept && is_so)
        }
    }
}

/// Closes a round whose hands are done with growth `number` refused; whether it was.
fn is_close_refused<'t, 'h, H: Refuses>(
    heap: &'h H,
    sheet: &'t Sheet<'h, H>,
    zones: &'t Layer<'h, H>,
    number: u64,
) -> Result<bool, Fail> {
    let (round, mut hands) = begun(heap, sheet, zones, (2, &TWO))?;
    let is_so = do_all(&round, &mut hands, &FIRST_ALONE);
    heap.refuse(number);
    let closed = round.close(hands);
    let is_refused = was_refused(heap);
    match closed {
        Ok(table) => told(is_refused, false, table.pairs() == BOTH.as_slice() && is_so),
        Err(back) => told(
            is_refused,
            true,
            closes_later(back, CloseFault::NoMemory, &[]) && is_so,
        ),
    }
}

/// Whether the round has a table of the pairs of both parcels.
fn has_both<H: Refuses>(closed: &Closed<'_, '_, H>) -> bool {
    match closed {
        Ok(table) => table.pairs() == BOTH.as_slice(),
        Err(_) => false,
    }
}

/// Works a round off by threads with growth `number` refused; whether it was.
fn is_run_refused<'t, 'h, H: Refuses + Send + Sync, R: Threads + Wait + Sync>(
    rt: &R,
    heap: &'h H,
    sheet: &'t Sheet<'h, H>,
    zones: &'t Layer<'h, H>,
    number: u64,
) -> Result<bool, Fail> {
    let (round, hands) = begun(heap, sheet, zones, (2, &TWO))?;
    heap.refuse(number);
    let closed = run_round(rt, round, hands, &Open);
    let is_refused = was_refused(heap);
    match closed {
        Ok(table) => told(is_refused, false, table.pairs() == BOTH.as_slice()),
        Err(back) => {
            let is_wanting = back.fault == CloseFault::NoMemory;
            let again = run_round(rt, back.round, back.hands, &Open);
            told(is_refused, is_wanting, has_both(&again))
        }
    }
}

/// A call in which growths are refused.
#[derive(Clone, Copy)]
enum Call {
    /// A round is begun.
    Begin,
    /// A hand steps.
    Step,
    /// A round is closed.
    Close,
    /// A round is worked off by threads.
    Run,
}

/// Whether growth `number` of a call was refused.
fn is_refused<'t, 'h, H: Refuses + Send + Sync, R: Threads + Wait + Sync>(
    rt: &R,
    heap: &'h H,
    sheet: &'t Sheet<'h, H>,
    zones: &'t Layer<'h, H>,
    call: Call,
    number: u64,
) -> Result<bool, Fail> {
    match call {
        Call::Begin => is_begin_refused(heap, sheet, zones, number),
        Call::Step => is_step_refused(heap, sheet, zones, number),
        Call::Close => is_close_refused(heap, sheet, zones, number),
        Call::Run => is_run_refused(rt, heap, sheet, zones, number),
    }
}

/// The first growth of a call that is not refused, since it makes fewer.
fn first_unrefused<'t, 'h, H: Refuses + Send + Sync, R: Threads + Wait + Sync>(
    rt: &R,
    heap: &'h H,
    sheet: &'t Sheet<'h, H>,
    zones: &'t Layer<'h, H>,
    call: Call,
) -> Result<u64, Fail> {
    for number in 1..MOST {
        if !is_refused(rt, heap, sheet, zones, call, number)? {
            return Ok(number);
        }
    }
    Err(Fail::new("each growth was refused"))
}

/// The same of a call over both parcels and both zones.
fn first_unrefused_of_both<H: Refuses + Send + Sync, R: Threads + Wait + Sync>(
    rt: &R,
    heap: &H,
    call: Call,
) -> Result<u64, Fail> {
    let sheet = sheet(heap, &SQUARE, &RINGS)?;
    let zones = layer(heap, &SQUARE, &HALVES)?;
    first_unrefused(rt, heap, &sheet, &zones, call)
}

#[test]
fn begins_with_memory(rt: HostRuntime) -> Result<(), Fail> {
    let heap = Refusing::new(rt.alloc(), 0);
    assert!(rt; first_unrefused_of_both(&rt, &heap, Call::Begin)? > 5);
    Ok(())
}

#[test]
fn steps_with_memory(rt: HostRuntime) -> Result<(), Fail> {
    let heap = Refusing::new(rt.alloc(), 0);
    assert!(rt; first_unrefused_of_both(&rt, &heap, Call::Step)? > 2);
    Ok(())
}

#[test]
fn closes_with_memory(rt: HostRuntime) -> Result<(), Fail> {
    let heap = Refusing::new(rt.alloc(), 0);
    assert!(rt; first_unrefused_of_both(&rt, &heap, Call::Close)? > 1);
    Ok(())
}

#[test]
fn runs_with_memory(rt: HostRuntime) -> Result<(), Fail> {
    let heap = Refusing::new(rt.alloc(), 0);
    assert!(rt; first_unrefused_of_both(&rt, &heap, Call::Run)? > 3);
    Ok(())
}
