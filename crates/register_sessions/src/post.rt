//! How lines are taken and answered, one after the other.

ghost use Rattle.std.specs.Prelude.{◌≡◌, ◌<◌, Bool, ℕ, List, [], vec_len, IfOk, IfErr, IfNone, OnErr, OnOk};
ghost use Rattle.std.specs.Io.KnownBytes.{Appends};
ghost use Rattle.std.specs.Io.Buffered.{reader_remaining};
ghost use Rattle.std.specs.Io.BufRead.{strip_last};
ghost use Rattle.geo_exact.specs.Bytes.{raised};
ghost use Rattle.text_pieces.specs.Beginnings.{AppendsBeginning};
ghost use Rattle.session_rooms.specs.Lines.{IsWhatCame};
ghost use Rattle.register_sessions.specs.own.Posts.{IsKept, IsFollowed, IsServed, IsExcused};

use geo_exact::{ByteOut, Failed};
use session_rooms::{Came, Door, has_line, next_line};
use std::alloc::{AllocError, Allocator};
use std::io::{BufReader, Read};
use text_pieces::put_all;

/// How many bytes of answers are collected at most before they are written: as many as a pipe of Linux holds.
const MOST_TEXT: usize = 65_536;

/// What follows a line that was answered.
#[derive(Clone, Copy, Debug, PartialEq, Eq)]
pub(crate) enum Next {
    /// The next line.
    Line,
    /// No other line.
    End,
}

/// Why a line is not answered as it should be.
#[derive(Clone, Copy, Debug, PartialEq, Eq)]
pub(crate) enum Trouble {
    /// Memory was refused for the answer.
    NoMemory,
    /// The answer could not be written.
    Failed,
}

impl From<AllocError> for Trouble {
    ghost use Rattle.std.specs.Prelude.{◌≡◌};
    ghost use Rattle.register_sessions.specs.declared.post.Trouble.TheVariants.{NoMemory};

    ghost from_gives = { λ _ trouble. trouble ≡ NoMemory };

    fn from(_: AllocError) -> Trouble {
        Trouble::NoMemory
    }
}

impl From<Failed> for Trouble {
    ghost use Rattle.std.specs.Prelude.{◌≡◌};
    ghost use Rattle.register_sessions.specs.declared.post.Trouble.TheVariants.{Failed as NotWritten};

    ghost from_gives = { λ _ trouble. trouble ≡ NotWritten };

    fn from(_: Failed) -> Trouble {
        Trouble::Failed
    }
}

/// Why no further line is taken.
#[derive(Clone, Copy, Debug, PartialEq, Eq)]
pub(crate) enum Served {
    /// Whoever asked has closed the pipe, and all that it asked was taken.
    Gone,
    /// Whoever asked takes no answers.
    Deaf,
    /// The post ended it.
    Ended,
    /// Lines can't be read there.
    Broken,
}

/// Who answers the lines that come at a desk.
pub(crate) trait Attendant<A: Allocator, W: ByteOut> {
    ghost use Rattle.session_rooms.specs.declared.lines.Came.{Came};
    ghost use Rattle.register_sessions.specs.declared.post.Next.{Next};
    ghost use Rattle.register_sessions.specs.own.Posts.{Outbox};

    // What an answer may be: who answers, what came and its line, what was collected before and the writer, what
    // follows, and who answers, what is collected, and the writer then.
    ghost answers: { Self → Came → List ℕ → Outbox W → Next → Self → Outbox W → Type 0 };

    /// Adds the answer to what came to a text, or writes the text and then the answer.
    fn answer(
        &mut self,
        came: Came,
        line: &[u8],
        text: &mut Vec<u8, A>,
        out: &mut W,
    ) -> Result<Next, Trouble>
        ensures answered { IfOk result (λ next. answers self.old came line.now
            (record { text = text.old.items; out = out.old })
            next self.new (record { text = text.new.items; out = out.new })) }
        // Where memory is refused for the answer, nothing is written.
        ensures unwritten { IfErr result (λ trouble. trouble ≡ Trouble.NoMemory → out.new ≡ out.old) };
}

/// Has lines answered, one after the other, until no further one is taken.
pub(crate) fn serve_lines<
    F: Read,
    B: Allocator,
    A: Allocator + Copy,
    W: ByteOut,
    T: Attendant<A, W>,
>(alloc: A, door: &Door, reader: &mut BufReader<F, B>, out: &mut W, attendant: &mut T) -> Served {
    let mut line = Vec::new(alloc);
    let mut text = Vec::new(alloc);
    // Nobody asks so often: the loop ends with who asks, or with the session.
    for _ in 0..u64::MAX {
        if let Some(served) = serve_line(door, reader, &mut line, &mut text, out, attendant) {
            return served;
        }
    }
    Served::Gone
}

/// Takes the next line, and has it answered; `None` where the next one follows.
fn serve_line<F: Read, B: Allocator, A: Allocator, W: ByteOut, T: Attendant<A, W>>(
    door: &Door,
    reader: &mut BufReader<F, B>,
    line: &mut Vec<u8, A>,
    text: &mut Vec<u8, A>,
    out: &mut W,
    attendant: &mut T,
) -> Option<Served>
    ensures { IfNone result (IsServed
        (IsWhatCame (reader_remaining F.remaining reader.old) (reader_remaining F.remaining reader.new))
        (λ came said asked after. T.answers attendant.old came said asked Next.Line attendant.new after)
        W.written (record { text = text.old.items; out = out.old }) (record { text = text.new.items; out = out.new })) }
{
    let came = match take_line(door, reader, line, text, out) {
        Ok(came) => came,
        Err(served) => return Some(served),
    };
    let before = text.len();
    let answered = attendant.answer(came, line.as_slice(), text, out);
    go_on(answered, before, text, out)
}

/// Takes the next line. The answers that were collected are written before the reader waits for more, or once they are
/// many.
fn take_line<F: Read, B: Allocator, A: Allocator, W: ByteOut>(
    door: &Door,
    reader: &mut BufReader<F, B>,
    line: &mut Vec<u8, A>,
    text: &mut Vec<u8, A>,
    out: &mut W,
) -> Result<Came, Served>
    ensures bound { IfOk result (λ _. vec_len line.new < 1048576) }
    ensures came { IfOk result (IsWhatCame (reader_remaining F.remaining reader.old)
        (reader_remaining F.remaining reader.new) (λ bytes. line.new.items ≡ strip_last 13 bytes)) }
    // What was collected is collected still, or was written whole.
    ensures kept { OnOk result ((is_due : Bool) × IsKept W.written is_due
        (record { text = text.old.items; out = out.old }) (record { text = text.new.items; out = out.new })) }
{
    let is_due = !has_line(reader.buffer()) || text.len() >= MOST_TEXT;
    let Ok(()) = write_where_due(is_due, text, out) else {
        return Err(Served::Deaf);
    };
    match next_line(door, reader, line) {
        Ok(Came::End) => Err(Served::Gone),
        Ok(came) => Ok(came),
        Err(_) => Err(Served::Broken),
    }
}

/// What follows once a line was answered, or was not: `None` where the next line does. So many bytes of text stood
/// before the answer.
fn go_on<A: Allocator, W: ByteOut>(
    answered: Result<Next, Trouble>,
    before: usize,
    text: &mut Vec<u8, A>,
    out: &mut W,
) -> Option<Served>
    ensures { IsFollowed W.written W.failure_count before answered (record { text = text.old.items; out = out.old })
        (record { text = text.new.items; out = out.new }) result }
{
    match answered {
        Ok(Next::Line) => None,
        Ok(Next::End) => {
            let _ = write_out(text, out);
            Some(Served::Ended)
        }
        Err(Trouble::Failed) => Some(Served::Deaf),
        Err(Trouble::NoMemory) => match excuse(before, text, out) {
            Ok(()) => None,
            Err(_) => Some(Served::Deaf),
        },
    }
}

/// Writes the answers that were collected before, and that there was no memory for this one, of which a beginning may
/// stand at the end of the text.
fn excuse<A: Allocator, W: ByteOut>(
    before: usize,
    text: &mut Vec<u8, A>,
    out: &mut W,
) -> Result<(), Failed>
    ensures { OnOk result (IsExcused W.written before (record { text = text.old.items; out = out.old })
        (record { text = text.new.items; out = out.new })) }
{
    text.truncate(before);
    write_out(text, out)?;
    // As it stands, since to make the line would take memory.
    put_all(b"error: no memory\n", out)
}

/// Writes the answers that were collected, where that is due.
fn write_where_due<A: Allocator, W: ByteOut>(
    is_due: bool,
    text: &mut Vec<u8, A>,
    out: &mut W,
) -> Result<(), Failed>
    ensures { OnOk result (IsKept W.written is_due (record { text = text.old.items; out = out.old })
        (record { text = text.new.items; out = out.new })) }
{
    if is_due { write_out(text, out) } else { Ok(()) }
}

/// Writes the answers that were collected.
pub(crate) fn write_out<A: Allocator, W: ByteOut>(
    text: &mut Vec<u8, A>,
    out: &mut W,
) -> Result<(), Failed>
    ensures ok { OnOk result (Appends (W.written out.old) (W.written out.new) text.old.items) }
    ensures none_left { OnOk result (text.new.items ≡ []) }
    ensures err { OnErr result (AppendsBeginning (W.written out.old) (W.written out.new) text.old.items) }
    ensures failed { OnErr result (W.failure_count out.new ≡ raised (W.failure_count out.old)) }
{
    put_all(text.as_slice(), out)?;
    text.clear();
    Ok(())
}
