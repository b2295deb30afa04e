//! Tasks in threads of their own, beside what their starter does meanwhile.

use std::alloc::Allocator;
use std::sync::Wait;
use std::thread;
use std::thread::{JoinHandle, Scope, Threads};

/// What a thread of its own does.
pub(crate) trait Task<C>: Send + Drop {
    /// Does it, and gives back what is left.
    fn run(self, with: &C) -> Self;
}

/// What the starter does meanwhile.
pub(crate) trait Host<C>: Drop {
    /// Does it, and gives back what is left; it is told whether each task has its thread. Once this returns, all tasks
    /// that have been started end.
    fn receive(self, with: &C, is_whole: bool) -> Self;
}

/// What is left once all tasks have ended.
#[derive(Drop)]
pub(crate) struct Done<T, A: Allocator, M> {
    pub(crate) tasks: Vec<T, A>,
    /// The first task that was refused a thread, from 0: it and those behind it were not started.
    pub(crate) refused: Option<usize>,
    pub(crate) host: M,
}

/// Starts a thread for each task, until the system refuses one, and waits for all once the host has run, which is told
/// whether each task has its thread, and has all tasks end. A task for which there is no memory to wait for it runs,
/// too, and is not given back.
pub(crate) fn run_beside<
    C: Sync,
    T: Task<C>,
    A: Allocator + Copy,
    M: Host<C>,
    R: Threads + Wait + Sync,
>(rt: &R, alloc: A, with: &C, tasks: Vec<T, A>, host: M) -> Done<T, A, M> {
    thread::scope(thread::scope_env(), rt, move |scope| {
        run_in(scope, rt, alloc, with, tasks, host)
    })
}

/// The same in a scope.
fn run_in<
    's,
    E,
    C: Sync + 's,
    T: Task<C> + 's,
    A: Allocator + Copy,
    M: Host<C>,
    R: Threads + Wait + Sync,
>(
    scope: &'s Scope<'s, E>,
    rt: &R,
    alloc: A,
    with: &'s C,
    tasks: Vec<T, A>,
    host: M,
) -> Done<T, A, M> {
    let (handles, refused) = start_all(scope, alloc, with, tasks);
    let host = host.receive(with, refused.is_none());
    Done {
        tasks: join_all(rt, alloc, handles),
        refused,
        host,
    }
}

/// Starts a thread for each task, until the system refuses one: its number, from 0.
fn start_all<'s, E, C: Sync + 's, T: Task<C> + 's, A: Allocator + Copy>(
    scope: &'s Scope<'s, E>,
    alloc: A,
    with: &'s C,
    tasks: Vec<T, A>,
) -> (Vec<JoinHandle<T>, A>, Option<usize>) {
    let mut handles = Vec::new(alloc);
    for (place, task) in tasks.into_iter().enumerate() {
        match scope.spawn(move || task.run(with)) {
            Ok(handle) => {
                let _ = handles.push(handle);
            }
            Err(_) => return (handles, Some(place)),
        }
    }
    (handles, None)
}

/// Waits for threads, and collects what is left of their tasks.
fn join_all<T: Drop, A: Allocator + Copy, R: Threads>(
    rt: &R,
    alloc: A,
    handles: Vec<JoinHandle<T>, A>,
) -> Vec<T, A> {
    let mut tasks = Vec::new(alloc);
    for handle in handles {
        let _ = tasks.push(handle.join(rt));
    }
    tasks
}
