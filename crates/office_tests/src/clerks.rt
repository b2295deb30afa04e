//! Clerks who make their edits at the same time, each in a thread of their own.

use crate::answers::Cards;
use desk_lock::{Card, Naming, Office};
use fabric_core::Refusal;
use geo_exact::Corner;
use job_threads::{AllDone, Job, do_all};
use ring_edits::Edit;
use std::alloc::{AllocError, Allocator};
use std::sync::Wait;
use std::test::Fail;
use std::thread::Threads;

/// What each clerk does.
#[derive(Clone, Copy)]
pub enum Task {
    /// Clerk 1 puts so many corners into the city's south edge, from the west on, and another clerk
    /// into its north edge.
    Side(i64),
    /// Merges the first two parcels.
    Merge,
}

/// How many edits a task has.
fn edits_of(task: Task) -> i64 {
    match task {
        Task::Side(count) => count,
        Task::Merge => 1,
    }
}

/// The edit of this number, from 1, of a clerk.
fn edit_for<A: Allocator>(task: Task, clerk: u32, number: i64) -> Option<Edit<A>> {
    match task {
        Task::Side(_) => {
            let y = if clerk == 1 { 0 } else { 1000 };
            Some(Edit::Insert {
                from: Corner::new(number.wrapping_sub(1), y)?,
                to: Corner::new(1000, y)?,
                at: Corner::new(number, y)?,
            })
        }
        Task::Merge => Some(Edit::Merge { a: 1, b: 2 }),
    }
}

/// A clerk, and what became of their edits: the number of the last one that was accepted, and why one was refused.
#[derive(Drop)]
struct Clerk<'a, H: Allocator, J: Naming<H>, W: Wait + Drop> {
    rt: W,
    heap: &'a H,
    card: Card<'a, H, J>,
    task: Task,
    last: u64,
    refusal: Option<Refusal>,
}

impl<'a, H: Allocator, J: Naming<H>, W: Wait + Drop> Clerk<'a, H, J, W> {
    /// The card.
    fn into_card(self) -> Card<'a, H, J> {
        self.card
    }

    /// Submits the edit of this number.
    fn submit<R: Wait + Drop>(&mut self, office: &Office<'a, H, J, R>, number: i64) {
        let Some(edit) = edit_for(self.task, self.card.clerk(), number) else {
            return;
        };
        match office.submit(&self.rt, &mut self.card, &edit) {
            Ok(receipt) => self.last = receipt.number(),
            Err(refusal) => self.refusal = Some(refusal),
        }
    }
}

impl<
    'a,
    H: Allocator + Send + Sync,
    J: Naming<H> + Send + Sync,
    R: Wait + Drop + Send + Sync,
    W: Wait + Drop + Send + Sync,
> Job<Office<'a, H, J, R>> for Clerk<'a, H, J, W> {
    ghost stays = { λ before after. Unit {0} };

    ghost rank_of = { λ clerk. clerk.card.clerk };

    fn rank(&self) -> usize {
        self.card.clerk() as usize
    }

    fn work(mut self, with: &Office<'a, H, J, R>) -> Clerk<'a, H, J, W> {
        for number in 0..edits_of(self.task) {
            self.submit(with, number.wrapping_add(1));
        }
        self
    }
}

/// What became of the edits of a clerk: how many were accepted, under which number the last, and why one was refused.
pub type Outcome = (u64, u64, Option<Refusal>);

/// A clerk for each card.
fn clerks_of<'a, H: Allocator, J: Naming<H>, R: Wait + Copy>(
    rt: R,
    heap: &'a H,
    cards: &mut Cards<'a, H, J>,
    task: Task,
) -> Result<Vec<Clerk<'a, H, J, R>, &'a H>, AllocError> {
    let mut clerks = Vec::new(heap);
    for _ in 0..cards.len() {
        if let Some(card) = cards.pop() {
            clerks.push(Clerk {
                rt,
                heap,
                card,
                task,
                last: 0,
                refusal: None,
            })?;
        }
    }
    Ok(clerks)
}

/// Puts the cards of clerks back.
fn put_back<'a, H: Allocator, J: Naming<H>, W: Wait + Drop>(
    cards: &mut Cards<'a, H, J>,
    mut clerks: Vec<Clerk<'a, H, J, W>, &'a H>,
) -> Result<(), AllocError> {
    for _ in 0..clerks.len() {
        if let Some(clerk) = clerks.pop() {
            cards.push(clerk.into_card())?;
        }
    }
    Ok(())
}

/// What became of the edits of clerks.
fn outcomes_of<'a, H: Allocator, J: Naming<H>, W: Wait + Drop>(
    heap: &'a H,
    clerks: &[Clerk<'a, H, J, W>],
) -> Result<Vec<Outcome, &'a H>, AllocError> {
    let mut outcomes = Vec::new(heap);
    for clerk in clerks {
        outcomes.push((clerk.card.count(), clerk.last, clerk.refusal))?;
    }
    Ok(outcomes)
}

/// Lets each clerk do the task in a thread of their own: what became of the edits.
pub fn work_all<
    'a,
    H: Allocator + Send + Sync,
    J: Naming<H> + Send + Sync,
    R: Threads + Wait + Copy + Send + Sync,
>(
    rt: R,
    heap: &'a H,
    office: &Office<'a, H, J, R>,
    cards: &mut Cards<'a, H, J>,
    task: Task,
) -> Result<Vec<Outcome, &'a H>, Fail> {
    let clerks = clerks_of(rt, heap, cards, task)?;
    let Ok(
        AllDone {
            jobs: clerks,
            refused: None,
            ..
        },
    ) = do_all(&rt, office, clerks)
    else {
        return Err(Fail::new("a thread is refused"));
    };
    let outcomes = outcomes_of(heap, clerks.as_slice());
    put_back(cards, clerks)?;
    Ok(outcomes?)
}
