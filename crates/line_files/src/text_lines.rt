//! Texts that fall into lines.

ghost use Rattle.std.specs.Prelude.{◌≡◌, ◌≢◌, ◌<◌, ◌∷◌, ◌↔◌, IsTrue, length, MatchOption};
ghost use Rattle.std.specs.List.{All};
ghost use Rattle.line_files.specs.TextLines.{lines_of, IsSkipped};
ghost use Rattle.line_files.specs.own.Splitting.{IsSplitAt, without_return as without_return_of};

/// The first line of a text, without its end, and what stands behind it.
pub fn split_line(text: &[u8]) -> (&[u8], &[u8])
    requires { 0 < length text.now }
    ensures lines { lines_of text.now ≡ result.0.now ∷ lines_of result.1.now }
    ensures shorter { length result.1.now < length text.now }
{
    match split_at_byte(text, b'\n') {
        Some((line, behind)) => (without_return(line), behind),
        None => (text, &[]),
    }
}

/// Whether a line is skipped: it is empty, or begins with `#`.
pub fn is_skipped(line: &[u8]) -> bool
    ensures { IsTrue result ↔ IsSkipped line.now }
{
    match line.first() {
        Some(byte) => *byte == b'#',
        None => true,
    }
}

/// What stands before the first such byte of a text, and what behind it; `None` where the text has no such byte.
pub fn split_at_byte(text: &[u8], byte: u8) -> Option<(&[u8], &[u8])>
    ensures { MatchOption result (All (λ b. b ≢ byte) text.now)
        (λ parts. IsSplitAt byte text.now parts.0.now parts.1.now) }
{
    let place = text.iter().position(|b| *b == byte)?;
    Some((&text[..place], &text[place + 1..]))
}

/// A line without one carriage return at its end.
fn without_return(line: &[u8]) -> &[u8]
    ensures { result.now ≡ without_return_of line.now }
{
    match line.split_last() {
        Some((last, front)) => { if *last == b'\r' { front } else { line } }
        None => line,
    }
}
