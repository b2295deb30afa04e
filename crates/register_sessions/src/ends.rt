//! How the desks of a session end.

use crate::pipes::{Paths, Pipes};
use session_rooms::Door;
use std::alloc::Allocator;
use std::fs::File;
use std::io;
use std::io::{Read, Write};
use std::sync::Wait;
use std::sync::atomic::Ordering;

/// How long the first wait for desks that answer is, in milliseconds. Each further one
/// is twice as long, up to the longest.
const FIRST_WAIT: u64 = 1;

/// How long a wait is at most, in milliseconds.
const LONGEST_WAIT: u64 = 32;

/// How many waits there are: a second together, with five of 1 to 16 milliseconds and 31 of the longest. A client that
/// reads takes its last answers in that time; one that does not is cut off.
const WAITS: usize = 36;

/// How many desks there are at most.
const MOST_DESKS: usize = 8;

/// A desk's pipes as the other end has them.
#[derive(Drop)]
struct Ends<'p, A: Allocator> {
    paths: &'p Paths<A>,
    lines: File,
    answers: File,
}

/// Has all desks take no further line, and wakes those that wait for a client or for a line. The answers of a client
/// that does not read are taken in its place, so that its desk ends. It asks for no memory.
pub(crate) fn close_desks<P: Pipes, R: Wait, A: Allocator>(
    rt: &R,
    door: &Door,
    pipes: &P,
    paths: &[Paths<A>],
) {
    door.close(rt);
    let mut held = [None, None, None, None, None, None, None, None];
    let mut ends = [None, None, None, None, None, None, None, None];
    for place in 0..MOST_DESKS {
        // A pipe that is gone by now wakes nobody.
        if let Some(Ok((both, end))) = paths.get(place).map(|desk| open_ends(pipes, desk)) {
            held[place] = Some(both);
            ends[place] = Some(end);
        }
    }
    door.wait_for_all(rt);
    // From here on a desk that ends is seen at the other end.
    drop(held);
    for end in ends.iter().flatten() {
        if end.paths.asks.load(Ordering::SeqCst) {
            let _ = wake(&end.lines);
        }
    }
    wait_for_desks(pipes, paths);
    for end in ends.iter().flatten() {
        if end.paths.serves.load(Ordering::SeqCst) {
            take_all(&end.answers);
        }
    }
}

/// Opens a desk's pipes for both reading and writing, which wakes who waits to open them and waits for nobody; and then
/// the other end of each.
fn open_ends<'p, P: Pipes, A: Allocator>(
    pipes: &P,
    paths: &'p Paths<A>,
) -> io::Result<((File, File), Ends<'p, A>)> {
    let answered = pipes.open_for_both(paths.answers.as_str())?;
    let asked = pipes.open_for_both(paths.lines.as_str())?;
    let lines = pipes.open_to_write(paths.lines.as_str())?;
    let answers = pipes.open_to_read(paths.answers.as_str())?;
    let end = Ends {
        paths,
        lines,
        answers,
    };
    Ok(((answered, asked), end))
}

/// Wakes who waits to read a pipe, by an empty line.
fn wake(pipe: &File) -> io::Result<()> {
    let mut pipe = pipe;
    pipe.write_all(b"\n")
}

/// Waits until no desk serves a client, but no longer than a second.
fn wait_for_desks<P: Pipes, A: Allocator>(pipes: &P, paths: &[Paths<A>]) {
    let mut next = FIRST_WAIT;
    for _ in 0..WAITS {
        if !paths.iter().any(|desk| desk.serves.load(Ordering::SeqCst)) {
            return;
        }
        pipes.pause(next);
        next = next.saturating_mul(2).min(LONGEST_WAIT);
    }
}

/// Takes all that is written to a pipe until nobody has it open to write.
fn take_all(pipe: &File) {
    let mut pipe = pipe;
    let mut taken = [0; 4096];
    // Nobody writes so often: the loop ends with the pipe.
    for _ in 0..u64::MAX {
        match pipe.read(&mut taken) {
            Ok(0) | Err(_) => return,
            Ok(_) => {}
        }
    }
}
