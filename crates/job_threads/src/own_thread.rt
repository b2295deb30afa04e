//! Which jobs had a thread of their own: what is noted only where one is joined.
ghost use Rattle.std.specs.Prelude.{◌≡◌, ◌≤◌, [], true, false, map, vec_len, vec_capacity};
ghost use Rattle.std.specs.List.{AllZip};
ghost use Rattle.job_threads.specs.own.Attempts.{IsFinished};

use crate::Job;
use std::alloc::Allocator;
use std::marker::Model;
use std::thread::{Promise, PromisedHandle, SpawnError, Threads};

/// A job that was done, or stands as it was, and whether it had a thread of its own. One that had is
/// made by joining its thread, and in no other way. Contracts see an `Attempt`.
#[derive(Drop)]
pub(crate) struct Tried<J> {
    job: Result<J, J>,
    had_thread: bool,
}

impl<J> Model for Tried<J> {
    ghost use Rattle.job_threads.specs.own.Attempts.{Attempt};

    ghost Value = { Attempt J };

    ghost view = { λ tried. record { job = tried.job; had_thread = tried.had_thread } };
}

impl<J> Tried<J> {
    /// What a thread hands back that is joined.
    pub(crate) fn joined<P: Promise<Result<J, J>>, R: Threads>(
        rt: &R,
        handle: PromisedHandle<Result<J, J>, P>,
    ) -> Tried<J>
        ensures kept { P.kept_by handle.promise result.job }
        ensures had_thread { result.had_thread ≡ true }
    {
        Tried {
            job: handle.join(rt),
            had_thread: true,
        }
    }

    /// What a closure hands back for which no thread was made.
    pub(crate) fn called_back<F: FnOnce() -> Result<J, J>>(refused: SpawnError<F>) -> Tried<J>
        requires { F.pre refused.value }
        ensures handed { F.post refused.value result.job }
        ensures had_none { result.had_thread ≡ false }
    {
        Tried {
            job: (refused.value)(),
            had_thread: false,
        }
    }
}

/// Which of several jobs had a thread of their own, in the jobs' order. Only a thread that was
/// joined puts one among these. Contracts see a list of truth values.
#[derive(Drop)]
pub struct OwnThreads<A: Allocator> {
    had: Vec<bool, A>,
}

impl<A: Allocator> Model for OwnThreads<A> {
    ghost use Rattle.std.specs.Prelude.{Bool, List};

    ghost Value = { List Bool };

    ghost view = { λ threads. threads.had.items };
}

impl<A: Allocator> OwnThreads<A> {
    /// No job's.
    pub fn none(alloc: A) -> OwnThreads<A>
        ensures { result ≡ [] }
    {
        OwnThreads {
            had: Vec::new(alloc),
        }
    }

    /// Whether each job had one, in the jobs' order.
    pub fn as_slice(&self) -> &[bool]
        ensures { result.now ≡ self.now }
    {
        self.had.as_slice()
    }
}

/// Does those jobs that were handed back as they were, and tells which had a thread of their own.
pub(crate) fn finish<C, J: Job<C>, A: Allocator>(
    with: &C,
    tried: Vec<Tried<J>, A>,
    mut back: Vec<J, A>,
    mut had: Vec<bool, A>,
) -> (Vec<J, A>, OwnThreads<A>)
    requires none { (back.items ≡ []) × (had.items ≡ []) }
    requires room { (vec_len tried ≤ vec_capacity back) × (vec_len tried ≤ vec_capacity had) }
    ensures done { AllZip (λ tried job. IsFinished J.stays tried.job job) tried.items result.0.items }
    ensures threads { result.1 ≡ map (λ tried. tried.had_thread) tried.items }
{
    for attempt in tried {
        let Tried { job, had_thread } = attempt;
        back.push_reserved(finished(with, job));
        had.push_reserved(had_thread);
    }
    (back, OwnThreads { had })
}

/// A job that was done, or does it.
fn finished<C, J: Job<C>>(with: &C, tried: Result<J, J>) -> J
    ensures { IsFinished J.stays tried result }
{
    match tried {
        Ok(done) => done,
        Err(refused) => refused.work(with),
    }
}
