//! What is wrong in a line of numbers and words.

ghost use Rattle.std.specs.Prelude.{◌≡◌};
ghost use Rattle.parcel_tool.specs.Flaws.{flaw, later_flaw as later_flaw_of, capitals, two_spaces};

use line_files::split_line;

/// What a line has that no edit, question or point has.
#[derive(Clone, Copy, Debug, PartialEq, Eq)]
pub(crate) enum Flaw {
    /// A byte order mark at its beginning.
    Mark,
    /// A tab.
    Tab,
    /// A carriage return that is none of its end.
    Return,
    /// A comma.
    Comma,
    /// A decimal point.
    Point,
    /// A capital letter.
    Capital,
    /// Two spaces side by side.
    Spaces,
    /// A space at its beginning or at its end.
    Edge,
}

/// The byte order mark of UTF-8.
const MARK: [u8; 3] = [0xEF, 0xBB, 0xBF];

/// What is wrong in a line, where it is one of these; the first of them.
pub(crate) fn flaw_of(line: &[u8]) -> Option<Flaw>
    ensures { result ≡ flaw line.now }
{
    if line.starts_with(&MARK) {
        Some(Flaw::Mark)
    } else if line.contains(&b'\t') {
        Some(Flaw::Tab)
    } else if line.contains(&b'\r') {
        Some(Flaw::Return)
    } else if line.contains(&b',') {
        Some(Flaw::Comma)
    } else if line.contains(&b'.') {
        Some(Flaw::Point)
    } else {
        later_flaw(line)
    }
}

/// The same of the rest of them.
fn later_flaw(line: &[u8]) -> Option<Flaw>
    ensures { result ≡ later_flaw_of line.now }
{
    if has_capital(line) {
        Some(Flaw::Capital)
    } else if has_two_spaces(line) {
        Some(Flaw::Spaces)
    } else if line.starts_with(b" ") || line.ends_with(b" ") {
        Some(Flaw::Edge)
    } else {
        None
    }
}

/// Whether a line has a capital letter.
fn has_capital(line: &[u8]) -> bool
    ensures { result ≡ capitals line.now }
{
    for byte in line {
        if *byte >= b'A' && *byte <= b'Z' {
            return true;
        }
    }
    false
}

/// Whether two spaces stand side by side.
fn has_two_spaces(line: &[u8]) -> bool
    ensures { result ≡ two_spaces line.now }
{
    let mut before = b'0';
    for byte in line {
        if before == b' ' && *byte == b' ' {
            return true;
        }
        before = *byte;
    }
    false
}

/// What a flaw is, in words that stand behind the line's number.
pub(crate) fn words_of_flaw(flaw: Flaw) -> &'static str {
    match flaw {
        Flaw::Mark => "begins with a byte order mark",
        Flaw::Tab => "has a tab",
        Flaw::Return => "has a carriage return inside",
        Flaw::Comma => "has a comma",
        Flaw::Point => "has a decimal point",
        Flaw::Capital => "has a capital letter",
        Flaw::Spaces => "has two spaces side by side",
        Flaw::Edge => "begins or ends with a space",
    }
}

/// The line of a number, from 1, of a text.
pub(crate) fn line_of(text: &[u8], number: u64) -> Option<&[u8]> {
    let mut rest = text;
    for _ in 1..number {
        if rest.is_empty() {
            return None;
        }
        rest = split_line(rest).1;
    }
    if rest.is_empty() {
        return None;
    }
    Some(split_line(rest).0)
}
