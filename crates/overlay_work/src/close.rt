//! Why a round is not closed, and what comes back then.

use crate::hand::Hand;
use crate::round::Round;
use job_threads::OwnThreads;
use std::alloc::Allocator;

/// Why a round is not closed: the first that applies, in this order.
#[derive(Clone, Copy, Debug, PartialEq, Eq)]
pub enum CloseFault {
    /// O7: this hand had no thread of its own, since the system refused it one, and none with a lesser number.
    NoThread(usize),
    /// O6: so many hands were made, and so many handed in.
    HandsMissing(usize, usize),
    /// O5: the hand with the least number of those that hold a parcel which is not yet done.
    Holding(usize),
    /// O4: no hand has found each list at its end.
    NotDone,
    /// An allocation failed.
    NoMemory,
}

/// A round that was not closed, with what was handed in, and why.
#[derive(Drop)]
pub struct RoundBack<'t, 'h, H: Allocator> {
    /// The round.
    pub round: Round<'t, 'h, H>,
    /// The hands, as they were handed in.
    pub hands: Vec<Hand<'t, 'h, H>, &'h H>,
    /// Which of the hands had a thread of their own; none where no threads were started.
    pub threads: OwnThreads<&'h H>,
    /// Why it was not closed.
    pub fault: CloseFault,
}
