//! Hands that work at the same time, each in a thread of its own.

ghost use Rattle.std.specs.Prelude.{ℕ};
ghost use Rattle.overlay_work.specs.Rounds.{WorksOff};

use crate::hand::{Hand, Step};
use std::alloc::Allocator;

/// Where hands that work at the same time may be held: before each step. Tests hold them there, to try an order of
/// steps; the program lets all pass.
pub trait Gate {
    /// What is so once the hand with a number has passed. Where a gate says nothing of it, nothing is.
    ghost passed_by: { ℕ → Type 0 } = { λ hand. Unit {0} };

    /// A hand is about to step. The hand goes on when this returns.
    fn pass(&self, hand: usize)
        ensures { passed_by hand };
}

/// Steps a hand until it is done, or wants memory. It comes to that, since each other step does a parcel.
pub(crate) fn step_until_done<'t, 'h, H: Allocator, G: Gate>(hand: &mut Hand<'t, 'h, H>, gate: &G)
    ensures works { WorksOff hand.old hand.new }
    // It passed the gate under its number: of a gate of which nothing is known, a pass alone tells this.
    ensures passed { G.passed_by hand.old.number }
{
    loop {
        gate.pass(hand.number());
        match hand.step() {
            Step::Did(_) => hand.use_invariant(),
            Step::Done | Step::NoMemory => return,
        }
    }
}
