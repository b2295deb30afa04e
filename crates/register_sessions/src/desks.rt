//! Desks, each served by a thread of its own.

ghost use Rattle.std.specs.Prelude.{◌≡◌, OnOk, IfOk};
ghost use Rattle.session_rooms.specs.DeskAnswers.{GoesOnBy};
ghost use Rattle.register_sessions.specs.own.Operators.{IsDeskAnswer};
ghost use Rattle.register_sessions.specs.own.Posts.{next_after};

use crate::journal_file::DiskFile;
use crate::lines_pipe::LinesPipe;
use crate::pipes::{Paths, Pipes};
use crate::post::{Attendant, Next, Served, Trouble, serve_lines};
use desk_lock::Naming;
use geo_exact::{ByteOut, Counted};
use session_rooms::{Came, Chair, Clocked, Room, answer};
use std::alloc::Allocator;
use std::fs::File;
use std::io;
use std::io::{BufReader, ErrorKind};
use std::sync::Wait;
use std::sync::atomic::Ordering;

/// A desk: its pipes, and who sits there.
#[derive(Drop)]
pub(crate) struct Desk<'p, 'h, H: Allocator, J: Naming<H>> {
    pub(crate) paths: &'p Paths<&'h H>,
    pub(crate) chair: Chair<'h, H, J>,
}

/// What follows once a desk has served a client.
#[derive(Drop)]
enum After {
    /// The next client. The pipe of the lines stays open until that one has opened it: else a client that comes early
    /// would have a pipe that nobody reads.
    Client(Option<File>),
    /// No other client.
    End,
}

/// Serves a desk's clients, one after the other, until the session closes, or the desk's pipes can't be opened.
pub(crate) fn serve_desk<'p, 'h, P: Pipes, H: Allocator, J: Naming<H>, R: Wait, K: Clocked>(
    room: &Room<'_, 'h, H, J, R, DiskFile, K>,
    pipes: &P,
    desk: Desk<'p, 'h, H, J>,
) -> Desk<'p, 'h, H, J> {
    let mut desk = desk;
    let mut kept = None;
    for _ in room.rt.forever() {
        match serve_next(room, pipes, &mut desk, kept) {
            After::Client(pipe) => kept = pipe,
            After::End => break,
        }
    }
    desk
}

/// Serves the next client of a desk; the pipe that was kept is closed once it is there.
fn serve_next<'p, 'h, P: Pipes, H: Allocator, J: Naming<H>, R: Wait, K: Clocked>(
    room: &Room<'_, 'h, H, J, R, DiskFile, K>,
    pipes: &P,
    desk: &mut Desk<'p, 'h, H, J>,
    kept: Option<File>,
) -> After {
    if !room.door.step_in(room.rt) {
        return After::End;
    }
    let paths = desk.paths;
    // Said in the door: whoever closes the session looks at it once nobody stands there any more.
    paths.serves.store(true, Ordering::SeqCst);
    let opened = open_both(pipes, paths);
    room.door.pass(room.rt);
    let after = match opened {
        Ok((pipe, answers)) => {
            drop(kept);
            serve_client(room, desk, pipe, answers)
        }
        Err(error) if error.kind() == ErrorKind::OutOfMemory => After::Client(kept),
        Err(_) => After::End,
    };
    paths.serves.store(false, Ordering::SeqCst);
    after
}

/// Answers a client's lines until it has closed their pipe, or no further one is taken. It sees the end of its answers
/// then, and not before: so whoever waits for that finds no line in the pipe but its own.
fn serve_client<'p, 'h, H: Allocator, J: Naming<H>, R: Wait, K: Clocked>(
    room: &Room<'_, 'h, H, J, R, DiskFile, K>,
    desk: &mut Desk<'p, 'h, H, J>,
    pipe: File,
    answers: File,
) -> After {
    let lines = LinesPipe {
        pipe: &pipe,
        door: &room.door,
        asks: &desk.paths.asks,
    };
    let served = match BufReader::new(room.heap, lines) {
        Ok(reader) => serve_all(room, &mut desk.chair, reader, answers),
        // Without memory for its lines the client is as one that asks nothing: it sees the end, and can come again.
        Err(_) => Served::Gone,
    };
    match served {
        Served::Gone | Served::Deaf => After::Client(Some(pipe)),
        Served::Ended | Served::Broken => After::End,
    }
}

/// Answers the lines that come from a pipe until nobody has it open to write, or no further one is taken.
fn serve_all<'s, 'h, H: Allocator, J: Naming<H>, R: Wait, K: Clocked>(
    room: &Room<'_, 'h, H, J, R, DiskFile, K>,
    chair: &mut Chair<'h, H, J>,
    reader: BufReader<LinesPipe<'s>, &'h H>,
    answers: File,
) -> Served {
    let mut reader = reader;
    let mut out = Counted::new(answers);
    for _ in room.rt.forever() {
        let mut attendant = DeskAttendant { room, chair };
        match serve_lines(room.heap, &room.door, &mut reader, &mut out, &mut attendant) {
            // Nobody reads the answers that were collected: they are forgotten. Whose the lines are that follow can't
            // be told: the next client may be there already, and may write once it has opened both pipes. So they are
            // carried out like all others, and nothing is lost. If the pipe was closed now, that client would write to
            // one that nobody reads.
            Served::Deaf => {}
            served => return served,
        }
    }
    Served::Gone
}

/// Who answers at a desk: whoever sits there asks the room.
#[derive(Drop)]
struct DeskAttendant<'s, 'r, 'h, H: Allocator, J: Naming<H>, R: Wait, K: Clocked> {
    room: &'s Room<'r, 'h, H, J, R, DiskFile, K>,
    chair: &'s mut Chair<'h, H, J>,
}

impl<'s, 'r, 'h, H: Allocator, J: Naming<H>, R: Wait, K: Clocked, W: ByteOut> Attendant<&'h H, W>
    for DeskAttendant<'s, 'r, 'h, H, J, R, K> {
    ghost use Rattle.std.specs.Prelude.{◌≡◌};
    ghost use Rattle.register_sessions.specs.own.Posts.{next_after};
    ghost use Rattle.register_sessions.specs.own.Operators.{Collects, IsDeskAnswer};

    ghost answers = { λ old came line before next new after.
        Collects (IsDeskAnswer J.office old.room.now.journal old.chair.now new.chair.now came line) before after
        × (next ≡ next_after came) };

    fn answer(
        &mut self,
        came: Came,
        line: &[u8],
        text: &mut Vec<u8, &'h H>,
        _: &mut W,
    ) -> Result<Next, Trouble> {
        answer_desk(self.room, self.chair, came, line, text)
    }
}

/// Adds the answer to what came at a desk, which ends where the session closes.
fn answer_desk<'h, H: Allocator, J: Naming<H>, R: Wait, K: Clocked>(
    room: &Room<'_, 'h, H, J, R, DiskFile, K>,
    chair: &mut Chair<'h, H, J>,
    came: Came,
    line: &[u8],
    text: &mut Vec<u8, &'h H>,
) -> Result<Next, Trouble>
    ensures answered { OnOk result (GoesOnBy (IsDeskAnswer J.office room.now.journal chair.old chair.new came line.now)
        text.old.items text.new.items) }
    ensures next { IfOk result (λ next. next ≡ next_after came) }
{
    answer(room, chair, came, line, text)?;
    match came {
        Came::Closed => Ok(Next::End),
        _ => Ok(Next::Line),
    }
}

/// Opens a desk's pipes, that of the lines and that of the answers: waits for a client.
fn open_both<P: Pipes, H: Allocator>(pipes: &P, paths: &Paths<&H>) -> io::Result<(File, File)> {
    let pipe = pipes.open_to_read(paths.lines.as_str())?;
    let answers = pipes.open_to_write(paths.answers.as_str())?;
    Ok((pipe, answers))
}
