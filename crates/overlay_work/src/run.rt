//! A round that is worked off by threads.

ghost use Rattle.std.specs.Prelude.{◌≡◌, ◌⊎◌, List, [], length, IfOk, IfErr, IsErr, IsErrAnd};
ghost use Rattle.std.specs.List.{AllByRecursion, AllZip};
ghost use Rattle.zone_tables.specs.Overlap.{IsOverlapTable};
ghost use Rattle.job_threads.specs.Jobs.{HadThreads};
ghost use Rattle.overlay_work.specs.declared.close.CloseFault.TheVariants.{NoMemory};
ghost use Rattle.overlay_work.specs.Rounds.{Progress, AreHandsOf, HasGoneOn, WorksOff};
ghost use Rattle.overlay_work.specs.Faults.{AreAllIn, IsRunFault};
ghost use Rattle.overlay_work.specs.own.Gathered.{HaveStopped};

use crate::close::{CloseFault, RoundBack};
use crate::gate::{Gate, step_until_done};
use crate::hand::Hand;
use crate::hands_in::least_holding;
use crate::round::Round;
use job_threads::{AllDone, Job, OwnThreads, do_all};
use std::alloc::Allocator;
use std::sync::Wait;
use std::thread::Threads;
use zone_tables::Table;

impl<'t, 'h, H: Allocator + Send + Sync, G: Gate + Sync> Job<G> for Hand<'t, 'h, H> {
    ghost stays = { λ old new. WorksOff old new × G.passed_by old.number };

    ghost rank_of = { λ hand. hand.number };

    fn rank(&self) -> usize {
        self.number()
    }

    fn work(mut self, with: &G) -> Hand<'t, 'h, H> {
        step_until_done(&mut self, with);
        self
    }
}

/// Works off a round: each hand in a thread of its own, which passes the gate before each step and
/// stops where the hand is done or wants memory. Then the round is closed.
///
/// # Errors
///
/// [`CloseFault::NoMemory`] where memory for the threads is refused. Else the first of these that
/// applies: [`CloseFault::NoThread`] (O7), where the system refused a thread, for the least such
/// hand, which is then worked with in this thread; [`CloseFault::NoMemory`] where a hand stopped for
/// want of memory; and what [`Round::close`] answers, which is [`CloseFault::HandsMissing`] (O6) or
/// [`CloseFault::NoMemory`]: hands that worked hold nothing and are done. The round and the hands
/// come back, the hands as far as they came, with which of them had a thread of their own.
///
/// ```
/// let (round, hands) = Round::new(heap, &sheet, &zones, sharing)?;
/// let table = run_round(rt, round, hands, &gate)?;
/// ```
pub fn run_round<'t, 'h, H: Allocator + Send + Sync, G: Gate + Sync, R: Threads + Wait + Sync>(
    rt: &R,
    round: Round<'t, 'h, H>,
    hands: Vec<Hand<'t, 'h, H>, &'h H>,
    gate: &G,
) -> Result<Table<'t, 'h, H, &'h H>, RoundBack<'t, 'h, H>>
    requires { AreHandsOf round hands.items }
    ensures table { IfOk result (λ table. IsOverlapTable round.entry.rows round.entry.zones table.pairs) }
    ensures rows { IfOk result (λ table. (table.rows ≡ round.entry.rows) × (table.zones ≡ round.entry.zones)) }
    ensures city { IfOk result (λ table. table.city ≡ round.entry.city) }
    ensures entries { IfOk result (λ table. table.entries ≡ round.entry.entries) }
    ensures back { IfErr result (λ back. (back.round ≡ round.entry) × AreHandsOf round.entry back.hands.items) }
    ensures as_many { IfErr result (λ back. length back.hands.items ≡ length hands.entry.items) }
    ensures worked { IfErr result (λ back. AllZip HasGoneOn hands.entry.items back.hands.items) }
    ensures fault { IfErr result (λ back. IsRunFault round.entry hands.entry.items back.hands.items
        back.threads back.fault) }
    // A round with hands missing is not closed.
    ensures refuses { (AreAllIn round.entry hands.entry.items → ⊥) → IsErr result }
    // Each hand passed the gate under its number, unless memory for the threads was refused.
    ensures passed { AllByRecursion (λ hand. G.passed_by hand.number) hands.entry.items
        ⊎ IsErrAnd result (λ back. (back.fault ≡ NoMemory) × (back.hands.items ≡ hands.entry.items)
        × (back.threads ≡ [])) }
{
    let AllDone {
        jobs: hands,
        threads,
        refused,
    } = match do_all(rt, gate, hands) {
        Ok(done) => done,
        Err(hands) => {
            let threads = OwnThreads::none(round.work().heap());
            return Err(RoundBack {
                round,
                hands,
                threads,
                fault: CloseFault::NoMemory,
            });
        }
    };
    if let Some(number) = refused {
        return Err(RoundBack {
            round,
            hands,
            threads,
            fault: CloseFault::NoThread(number),
        });
    }
    close_worked(round, hands, threads)
}

/// Closes a round whose hands were worked with, each in a thread of its own. One that holds
/// a parcel stopped for want of memory.
fn close_worked<'t, 'h, H: Allocator>(
    round: Round<'t, 'h, H>,
    hands: Vec<Hand<'t, 'h, H>, &'h H>,
    threads: OwnThreads<&'h H>,
) -> Result<Table<'t, 'h, H, &'h H>, RoundBack<'t, 'h, H>>
    requires at_work { AreHandsOf round hands.items }
    requires stopped { HaveStopped hands.items }
    requires had_threads { HadThreads hands.items threads }
    ensures table { IfOk result (λ table. IsOverlapTable round.entry.rows round.entry.zones table.pairs) }
    ensures rows { IfOk result (λ table. (table.rows ≡ round.entry.rows) × (table.zones ≡ round.entry.zones)) }
    ensures city { IfOk result (λ table. table.city ≡ round.entry.city) }
    ensures entries { IfOk result (λ table. table.entries ≡ round.entry.entries) }
    ensures back { IfErr result (λ back. (back.round ≡ round.entry) × (back.hands.items ≡ hands.entry.items)) }
    ensures threads { IfErr result (λ back. back.threads ≡ threads.entry) }
    ensures fault { (old : List Progress)
        → IfErr result (λ back. IsRunFault round.entry old hands.entry.items threads.entry back.fault) }
    ensures refuses { (AreAllIn round.entry hands.entry.items → ⊥) → IsErr result }
{
    round.work().use_invariant();
    if least_holding(hands.as_slice()).is_some() {
        return Err(RoundBack {
            round,
            hands,
            threads,
            fault: CloseFault::NoMemory,
        });
    }
    match round.close(hands) {
        Ok(table) => Ok(table),
        Err(back) => {
            let RoundBack {
                round,
                hands,
                threads: _,
                fault,
            } = back;
            Err(RoundBack {
                round,
                hands,
                threads,
                fault,
            })
        }
    }
}
