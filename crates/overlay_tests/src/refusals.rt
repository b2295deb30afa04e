//! Rounds that are not begun, and rounds that are not closed.

ghost use Rattle.overlay_work.specs.Rounds.{AreHandsOf};

use crate::rounds::{BOTH, TWO};
use crate::steps::{Sharing, begin, begun, do_all, is_closed};
use crate::zones::HALVES;
use fabric_core::{Layer, Sheet};
use overlay_work::{CloseFault, RoundBack, RoundFault, Step};
use std::alloc::Allocator;
use std::test::Fail;
use test_builders::Place;
use test_cities::{RINGS, Rings, SQUARE, WEST, layer, sheet};

/// The zones' city, the zones, a sharing, and why no round is begun.
type Unbegun = (
    &'static [Place],
    Rings<'static>,
    Sharing<'static>,
    RoundFault,
);

const ALONE: [&[Place]; 1] = [&WEST];

static UNBEGUN: [Unbegun; 6] = [
    (
        &SQUARE,
        &HALVES,
        (2, &[(0, 1), (1, 1), (1, 2)]),
        RoundFault::NotASharing(1),
    ),
    (&SQUARE, &HALVES, (1, &[(0, 1)]), RoundFault::NotASharing(2)),
    (
        &SQUARE,
        &HALVES,
        (1, &[(0, 3), (0, 2), (0, 1)]),
        RoundFault::NotASharing(3),
    ),
    (&SQUARE, &HALVES, (0, &[]), RoundFault::HandCount(0)),
    (&SQUARE, &HALVES, (65, &[]), RoundFault::HandCount(65)),
    (&WEST, &ALONE, (1, &[(0, 1)]), RoundFault::OtherCity),
];

/// Whether this is why no round is begun.
fn is_unbegun<H: Allocator>(heap: &H, row: &Unbegun) -> Result<bool, Fail> {
    let (ground, rings, sharing, want) = *row;
    let sheet = sheet(heap, &SQUARE, &RINGS)?;
    let zones = layer(heap, ground, rings)?;
    match begin(heap, &sheet, &zones, sharing) {
        Ok(_) => Ok(false),
        Err(fault) => Ok(fault == want),
    }
}

#[test]
fn begins_no_round(rt: HostRuntime) -> Result<(), Fail> {
    let heap = &rt.alloc();
    for row in &UNBEGUN {
        assert!(rt; is_unbegun(heap, row)?);
    }
    Ok(())
}

/// Whether a round that came back for this reason is closed after these steps.
pub fn closes_later<H: Allocator>(
    back: RoundBack<'_, '_, H>,
    want: CloseFault,
    turns: &[(usize, Step)],
) -> bool
    requires { AreHandsOf back.round back.hands.items }
{
    let RoundBack {
        round,
        mut hands,
        threads: _,
        fault,
    } = back;
    let is_so = do_all(&round, &mut hands, turns);
    is_closed(round, hands, &BOTH) && is_so && fault == want
}

/// Whether no hand has found all ends when both parcels are done, and the round is closed when one has.
fn closes_when_done<'t, 'h, H: Allocator>(
    heap: &'h H,
    sheet: &'t Sheet<'h, H>,
    zones: &'t Layer<'h, H>,
) -> Result<bool, Fail> {
    let (round, mut hands) = begun(heap, sheet, zones, (2, &TWO))?;
    let is_so = do_all(&round, &mut hands, &[(0, Step::Did(1)), (1, Step::Did(2))]);
    match round.close(hands) {
        Ok(_) => Ok(false),
        Err(back) => Ok(closes_later(back, CloseFault::NotDone, &[(0, Step::Done)]) && is_so),
    }
}

/// Whether a round of the two parcels is closed when a hand has found all ends, and not before.
fn is_closed_when_done<H: Allocator>(heap: &H) -> Result<bool, Fail> {
    let sheet = sheet(heap, &SQUARE, &RINGS)?;
    let zones = layer(heap, &SQUARE, &HALVES)?;
    closes_when_done(heap, &sheet, &zones)
}

#[test]
fn closes_when_a_hand_is_done(rt: HostRuntime) -> Result<(), Fail> {
    assert!(rt; is_closed_when_done(&rt.alloc())?);
    Ok(())
}

/// Why a round is not closed when one of two hands was given up; `None` where it is closed.
fn fault_of_one_hand<'t, 'h, H: Allocator>(
    heap: &'h H,
    sheet: &'t Sheet<'h, H>,
    zones: &'t Layer<'h, H>,
) -> Result<Option<CloseFault>, Fail> {
    let (round, mut hands) = begun(heap, sheet, zones, (2, &TWO))?;
    if let Some(last) = hands.pop() {
        last.give_up();
    }
    match round.close(hands) {
        Ok(_) => Ok(None),
        Err(back) => Ok(Some(back.fault)),
    }
}

/// Why a round of the two parcels is not closed then.
fn fault_of_two<H: Allocator>(heap: &H) -> Result<Option<CloseFault>, Fail> {
    let sheet = sheet(heap, &SQUARE, &RINGS)?;
    let zones = layer(heap, &SQUARE, &HALVES)?;
    fault_of_one_hand(heap, &sheet, &zones)
}

#[test]
fn misses_a_hand(rt: HostRuntime) -> Result<(), Fail> {
    let fault = fault_of_two(&rt.alloc())?;
    assert!(rt; fault == Some(CloseFault::HandsMissing(2, 1)));
    Ok(())
}
