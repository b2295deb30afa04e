//! Hands that work at the same time, each in a thread of its own.

use crate::rounds::{BOTH, STRIPS, TWO};
use crate::steps::{Sharing, begun};
use crate::zones::HALVES;
use fabric_core::{Layer, Sheet};
use overlay_work::{CloseFault, Gate, run_round};
use std::alloc::Allocator;
use std::sync::Wait;
use std::sync::atomic::{AtomicU64, Ordering};
use std::test::Fail;
use std::thread;
use std::thread::Threads;
use test_cities::{RINGS, Rings, SQUARE, layer, sheet};

/// So many turns a hand waits for another.
const TURNS: u64 = 1_000_000;

/// Waits until the sign is given; whether it was.
fn waits_for(sign: &AtomicU64) -> bool {
    for _ in 0..TURNS {
        if sign.load(Ordering::SeqCst) == 1 {
            return true;
        }
        thread::yield_now();
    }
    false
}

/// A gate at which each of two hands waits for the other one's first pass.
#[derive(Drop)]
struct Meeting {
    first: AtomicU64,
    second: AtomicU64,
    missed: AtomicU64,
}

impl Gate for Meeting {
    fn pass(&self, hand: usize) {
        let (own, other) = if hand == 0 {
            (&self.first, &self.second)
        } else {
            (&self.second, &self.first)
        };
        own.store(1, Ordering::SeqCst);
        if !waits_for(other) {
            self.missed.store(1, Ordering::SeqCst);
        }
    }
}

/// A gate at which hand 0 waits for a pass of another hand.
#[derive(Drop)]
struct Late {
    others: AtomicU64,
    missed: AtomicU64,
}

impl Gate for Late {
    fn pass(&self, hand: usize) {
        if hand > 0 {
            self.others.store(1, Ordering::SeqCst);
        } else if !waits_for(&self.others) {
            self.missed.store(1, Ordering::SeqCst);
        }
    }
}

/// Counts the passes, and holds nobody.
#[derive(Drop)]
struct Counting {
    passes: AtomicU64,
}

impl Gate for Counting {
    fn pass(&self, _hand: usize) {
        self.passes.fetch_add(1, Ordering::SeqCst);
    }
}

/// Holds nobody.
pub struct Open;

impl Gate for Open {
    fn pass(&self, _hand: usize) {}
}

/// Whether threads that pass this gate work off a round with a table of these pairs.
fn is_worked_off<'t, 'h, H: Allocator + Send + Sync, G: Gate + Sync, R: Threads + Wait + Sync>(
    rt: &R,
    heap: &'h H,
    sheet: &'t Sheet<'h, H>,
    zones: &'t Layer<'h, H>,
    sharing: Sharing<'_>,
    gate: &G,
    want: &[(u64, u64)],
) -> Result<bool, Fail> {
    let (round, hands) = begun(heap, sheet, zones, sharing)?;
    match run_round(rt, round, hands, gate) {
        Ok(table) => Ok(table.pairs() == want),
        Err(_) => Ok(false),
    }
}

/// Whether threads that pass this gate work off a round of these parcels and zones of the square with a table of
/// these pairs.
fn is_run<H: Allocator + Send + Sync, G: Gate + Sync, R: Threads + Wait + Sync>(
    rt: &R,
    heap: &H,
    rings: (Rings<'_>, Rings<'_>),
    sharing: Sharing<'_>,
    gate: &G,
    want: &[(u64, u64)],
) -> Result<bool, Fail> {
    let sheet = sheet(heap, &SQUARE, rings.0)?;
    let zones = layer(heap, &SQUARE, rings.1)?;
    is_worked_off(rt, heap, &sheet, &zones, sharing, gate, want)
}

/// A hand passes before each step: before both parcels, and before it finds the end.
#[test]
fn passes_before_each_step(rt: HostRuntime) -> Result<(), Fail> {
    let gate = Counting {
        passes: AtomicU64::new(0),
    };
    assert!(rt;
        is_run(
            &rt,
            &rt.alloc(),
            (&RINGS, &HALVES),
            (1, &[(0, 1), (0, 2)]),
            &gate,
            &BOTH
        )?
    );
    assert!(rt; gate.passes.load(Ordering::SeqCst) == 3);
    Ok(())
}

/// With a hand missing, the other works in a thread of its own until it is done, and O6 names both numbers.
#[test]
fn one_of_two_hands_runs(rt: HostRuntime) -> Result<(), Fail> {
    let heap = rt.alloc();
    let sheet = sheet(&heap, &SQUARE, &RINGS)?;
    let zones = layer(&heap, &SQUARE, &HALVES)?;
    let (round, mut hands) = begun(&heap, &sheet, &zones, (2, &TWO))?;
    if let Some(last) = hands.pop() {
        assert!(rt; last.give_up().number() == 1);
    }
    match run_round(&rt, round, hands, &Open) {
        Ok(_) => Err(Fail::new("a table without a hand")),
        Err(back) => {
            assert!(rt; back.fault == CloseFault::HandsMissing(2, 1));
            assert!(rt; back.threads.as_slice() == [true].as_slice());
            Ok(())
        }
    }
}

#[test]
fn two_hands_meet(rt: HostRuntime) -> Result<(), Fail> {
    let gate = Meeting {
        first: AtomicU64::new(0),
        second: AtomicU64::new(0),
        missed: AtomicU64::new(0),
    };
    assert!(rt; is_run(&rt, &rt.alloc(), (&RINGS, &HALVES), (2, &TWO), &gate, &BOTH)?);
    assert!(rt; gate.missed.load(Ordering::SeqCst) == 0);
    Ok(())
}

#[test]
fn others_do_the_work_of_one(rt: HostRuntime) -> Result<(), Fail> {
    const IDS: [(usize, u64); 4] = [(0, 1), (0, 2), (0, 3), (0, 4)];
    const PAIRS: [(u64, u64); 4] = [(1, 1), (2, 2), (3, 3), (4, 4)];
    let gate = Late {
        others: AtomicU64::new(0),
        missed: AtomicU64::new(0),
    };
    assert!(rt;
        is_run(
            &rt,
            &rt.alloc(),
            (&STRIPS, &STRIPS),
            (64, &IDS),
            &gate,
            &PAIRS
        )?
    );
    assert!(rt; gate.missed.load(Ordering::SeqCst) == 0);
    Ok(())
}
