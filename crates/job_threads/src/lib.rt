//! Jobs that are done at the same time, each in a thread of its own, and handed back.
#![tactic(auto)]

ghost use Rattle.std.specs.Prelude.{◌≡◌, ◌⊎◌, ℕ, ◌+◌, ◌≤◌, [], Some, length, vec_len, vec_capacity};
ghost use Rattle.std.specs.Prelude.{IfOk, IfErr, IfSome};
ghost use Rattle.std.specs.List.{AllZip};
ghost use Rattle.job_threads.specs.Jobs.{IsLeastRefused};
ghost use Rattle.job_threads.specs.own.Attempts.{WasTried, IsTriedBehind, threads_of};

mod own_thread;

pub use own_thread::OwnThreads;
use own_thread::{Tried, finish};
use std::alloc::Allocator;
use std::marker::PhantomData;
use std::snapshot::Snapshot;
use std::sync::Wait;
use std::sync::atomic::{AtomicUsize, Ordering};
use std::thread;
use std::thread::{Promise, Scope, Threads};

/// A job that one thread does.
pub trait Job<C>: Send + Drop {
    /// What a job may have become when it is handed back.
    ghost stays: { Self → Self → Type 0 };

    /// By what number a job is told.
    ghost rank_of: { Self → ℕ };

    /// The number by which the job is told, where the system refuses it a thread.
    fn rank(&self) -> usize
        ensures { result ≡ rank_of self.now };

    /// Does the job.
    fn work(self, with: &C) -> Self
        ensures { stays self result };
}

/// That a job is handed back done, or as it was.
#[derive(Drop)]
struct Tries<C, J: Job<C>> {
    was: Snapshot<J>,
    with: PhantomData<C>,
}

impl<C, J: Job<C>> Promise<Result<J, J>> for Tries<C, J> {
    ghost kept_by = { λ promise tried. WasTried J.stays promise.was.value tried };
}

/// Jobs that are done, each where it was handed in.
#[derive(Drop)]
pub struct AllDone<J, A: Allocator> {
    /// The jobs.
    pub jobs: Vec<J, A>,
    /// Which of them had a thread of their own.
    pub threads: OwnThreads<A>,
    /// The least rank of those that had none, where there is one.
    pub refused: Option<usize>,
}

/// Does each job in a thread of its own, and hands all back in their order. Jobs for which the
/// system refused a thread are done in this thread, one after the other, once all others are
/// joined; the least rank of these is told.
///
/// # Errors
///
/// The jobs come back as they were where the room for them is refused.
pub fn do_all<C: Sync, J: Job<C>, A: Allocator + Copy, R: Threads + Wait + Sync>(
    rt: &R,
    with: &C,
    jobs: Vec<J, A>,
) -> Result<AllDone<J, A>, Vec<J, A>>
    ensures done { IfOk result (λ done. AllZip J.stays jobs.items done.jobs.items) }
    ensures refused { IfOk result (λ done. IsLeastRefused J.rank_of jobs.items done.threads done.refused) }
    ensures back { IfErr result (λ back. back.items ≡ jobs.items) }
{
    let alloc = *jobs.allocator();
    let Ok(room) = Vec::with_capacity(alloc, jobs.len()) else {
        return Err(jobs);
    };
    let Ok(back) = Vec::with_capacity(alloc, jobs.len()) else {
        return Err(jobs);
    };
    let Ok(had) = Vec::with_capacity(alloc, jobs.len()) else {
        return Err(jobs);
    };
    let called_back = AtomicUsize::new(0);
    let (tried, refused) = in_scope(rt, with, &called_back, jobs, room);
    let (jobs, threads) = finish(with, tried, back, had);
    Ok(AllDone {
        jobs,
        threads,
        refused,
    })
}

/// Tries jobs in threads of a scope, which joins all that started.
fn in_scope<C: Sync, J: Job<C>, A: Allocator + Copy, R: Threads + Wait + Sync>(
    rt: &R,
    with: &C,
    called_back: &AtomicUsize,
    jobs: Vec<J, A>,
    tried: Vec<Tried<J>, A>,
) -> (Vec<Tried<J>, A>, Option<usize>)
    requires none { tried.items ≡ [] }
    requires room { vec_len tried + vec_len jobs ≤ vec_capacity tried }
    ensures tried { AllZip (λ job attempt. WasTried J.stays job attempt.job) jobs.items result.0.items }
    ensures refused { IsLeastRefused J.rank_of jobs.items (threads_of result.0.items) result.1 }
    ensures count { vec_len result.0 ≡ vec_len jobs }
{
    thread::scope(
        thread::scope_env(),
        rt,
        move |scope| -> (Vec<Tried<J>, A>, Option<usize>)
            requires { vec_len tried + vec_len jobs ≤ vec_capacity tried }
            ensures tried { IsTriedBehind J.stays J.rank_of jobs.items tried.items result.0.items result.1 }
            ensures count { vec_len result.0 ≡ vec_len tried + vec_len jobs }
        { spread(scope, rt, with, called_back, jobs, tried) },
    )
}

/// Tries the last job in a thread of its own, and then the others. Where the system refuses it one,
/// it lies in the closure that comes back: called with the job's number told, from 1, this hands the
/// job back as it was.
fn spread<'s, E, C: Sync + 's, J: Job<C> + 's, A: Allocator + Copy, R: Threads + Wait + Sync>(
    scope: &'s Scope<'s, E>,
    rt: &R,
    with: &'s C,
    called_back: &'s AtomicUsize,
    mut jobs: Vec<J, A>,
    tried: Vec<Tried<J>, A>,
) -> (Vec<Tried<J>, A>, Option<usize>)
    requires room { vec_len tried + vec_len jobs ≤ vec_capacity tried }
    ensures tried { IsTriedBehind J.stays J.rank_of jobs.items tried.items result.0.items result.1 }
    ensures count { vec_len result.0 ≡ vec_len tried + vec_len jobs }
    ensures capacity { vec_capacity result.0 ≡ vec_capacity tried }
{
    let number = jobs.len();
    let Some(job) = jobs.pop() else {
        return (tried, None);
    };
    let promise = Tries::<C, J> {
        was: Snapshot::of(&job),
        with: PhantomData,
    };
    let rank = job.rank();
    match scope.spawn_with(
        promise,
        move || -> Result<J, J>
            ensures { WasTried J.stays job result }
        { attempt(job, number, with, called_back) },
    ) {
        Ok(handle) => {
            let (mut tried, refused) = spread(scope, rt, with, called_back, jobs, tried);
            tried.push_reserved(Tried::joined(rt, handle));
            (tried, refused)
        }
        Err(closure) => {
            let (mut tried, refused) = spread(scope, rt, with, called_back, jobs, tried);
            called_back.store(number, Ordering::Relaxed);
            tried.push_reserved(Tried::called_back(closure));
            (tried, Some(least(refused, rank)))
        }
    }
}

/// Does a job, or hands it back as it is where its number is called back.
fn attempt<C, J: Job<C>>(job: J, number: usize, with: &C, called_back: &AtomicUsize) -> Result<J, J>
    ensures { WasTried J.stays job result }
{
    if called_back.load(Ordering::Relaxed) == number {
        Err(job)
    } else {
        Ok(job.work(with))
    }
}

/// The lesser of a rank and one that there may be.
fn least(other: Option<usize>, rank: usize) -> usize
    ensures one { (result ≡ rank) ⊎ (other ≡ Some result) }
    ensures bound { result ≤ rank }
    ensures other { IfSome other (λ told. result ≤ told) }
{
    match other {
        Some(told) => told.min(rank),
        None => rank,
    }
}
