//! The lines that a desk is asked.

ghost use Rattle.std.specs.Prelude.{◌≡◌, ◌≢◌, ◌+◌, ◌-◌, ◌<◌, ◌≤◌, ◌++◌, ◌==◌, vec_len, IfOk, MatchOption};
ghost use Rattle.std.specs.List.{All, list_any};
ghost use Rattle.std.specs.Io.Buffered.{reader_remaining};
ghost use Rattle.std.specs.Io.BufRead.{strip_last};
ghost use Rattle.session_rooms.specs.Lines.{AreRound, IsTooLong, IsWhatCame, IsWhatPart};

use crate::door::Door;
use std::alloc::Allocator;
use std::io;
use std::io::{BufRead, BufReader, Read};

/// How many bytes a line has at most, with its line feed: several times those of an edit with the longest path.
pub const LINE_BYTES: usize = 1_048_576;

/// What came next at a desk.
#[derive(Clone, Copy, Debug, PartialEq, Eq)]
pub enum Came {
    /// A line, which is kept without its end.
    Line,
    /// A line that is too long, which is forgotten.
    TooLong,
    /// A line for which memory was refused, which is forgotten.
    NoMemory,
    /// The end: whoever asks has closed the pipe. What stood behind the last line feed is forgotten.
    End,
    /// Nothing: the session closes, and no further line is taken.
    Closed,
}

/// What became of the next part of a line.
enum Part {
    /// The line ends there; whether memory was there for the part.
    Ends(bool),
    /// The line goes on; whether memory was there for the part.
    GoesOn(bool),
    /// The line is longer than a line may be.
    TooLong,
    /// The reader ends.
    End,
}

/// Reads the next line, without its line feed and without a carriage return before that. Of a line
/// that is too long no more than its start is ever kept.
///
/// # Errors
///
/// Where the reader fails.
pub fn next_line<F: Read, B: Allocator, A: Allocator>(
    door: &Door,
    reader: &mut BufReader<F, B>,
    line: &mut Vec<u8, A>,
) -> io::Result<Came>
    ensures bound { vec_len line.new < 1048576 }
    ensures came { IfOk result (IsWhatCame (reader_remaining F.remaining reader.old)
        (reader_remaining F.remaining reader.new) (λ bytes. line.new.items ≡ strip_last 13 bytes)) }
{
    let came = take_line(door, reader, line)?;
    if door.is_closing() {
        return Ok(Came::Closed);
    }
    drop_return(line);
    Ok(came)
}

/// Takes the next line out of a reader, and its line feed, which is not kept.
fn take_line<R: BufRead, A: Allocator>(
    door: &Door,
    reader: &mut R,
    line: &mut Vec<u8, A>,
) -> io::Result<Came>
    ensures bound { vec_len line.new < 1048576 }
    ensures came { IfOk result (IsWhatCame (R.remaining reader.old) (R.remaining reader.new)
        (λ bytes. line.new.items ≡ bytes)) }
{
    line.clear();
    let mut came = Came::Line;
    // No line comes in so many parts: the loop ends with the line, the pipe or the session.
    for _ in 0..u64::MAX {
        if door.is_closing() {
            return Ok(Came::Closed);
        }
        match take_part(reader, line)? {
            Part::Ends(true) => return Ok(came),
            Part::Ends(false) => return Ok(Came::NoMemory),
            Part::GoesOn(true) => {}
            Part::GoesOn(false) => {
                came = Came::NoMemory;
                line.clear();
            }
            Part::TooLong => {
                came = Came::TooLong;
                line.clear();
            }
            Part::End => return Ok(Came::End),
        }
    }
    Ok(Came::Closed)
}

/// Moves bytes that are there into a line, no more than it may have, and leaves out its line feed.
fn take_part<R: BufRead, A: Allocator>(reader: &mut R, line: &mut Vec<u8, A>) -> io::Result<Part>
    requires { vec_len line.old < 1048576 }
    ensures bound { vec_len line.new < 1048576 }
    ensures part { IfOk result (IsWhatPart (R.remaining reader.old) (R.remaining reader.new)
        (λ bytes. line.new.items ≡ line.old.items ++ bytes) (λ bytes. IsTooLong (line.old.items ++ bytes))) }
{
    let there = reader.fill_buf()?;
    if there.is_empty() {
        return Ok(Part::End);
    }
    let left = LINE_BYTES - line.len();
    let room = there.len().min(left);
    let part = &there[..room];
    match split_at_line_feed(part) {
        Some((before, _)) => {
            let kept = line.extend_from_slice(before).is_ok();
            let count = before.len() + 1;
            reader.consume(count);
            Ok(Part::Ends(kept))
        }
        None if room == left => {
            reader.consume(room);
            Ok(Part::TooLong)
        }
        None => {
            let kept = line.extend_from_slice(part).is_ok();
            reader.consume(room);
            Ok(Part::GoesOn(kept))
        }
    }
}

/// What stands before the first line feed of a text, and what behind it; `None` where there is none.
fn split_at_line_feed(text: &[u8]) -> Option<(&[u8], &[u8])>
    ensures { MatchOption result (All (λ byte. byte ≢ 10) text.now)
        (λ parts. AreRound text.now parts.0.now parts.1.now) }
{
    let place = text.iter().position(|byte| *byte == b'\n')?;
    Some((&text[..place], &text[place + 1..]))
}

/// Takes one carriage return off a line's end.
fn drop_return<A: Allocator>(line: &mut Vec<u8, A>)
    ensures { line.new.items ≡ strip_last 13 line.old.items }
{
    let count = line.len();
    if count == 0 {
        return;
    }
    if line[count - 1] != b'\r' {
        return;
    }
    line.truncate(count - 1);
}

/// Whether a whole line is among bytes.
pub fn has_line(bytes: &[u8]) -> bool
    ensures { result ≡ list_any (λ byte. byte == 10) bytes.now }
{
    bytes.contains(&b'\n')
}
