//! The parts of a journal's text.

ghost use Rattle.std.specs.Prelude.{◌≡◌, ◌≢◌, ◌++◌, ◌∷◌, ℕ, List, IfSome, IfNone, MatchOption};
ghost use Rattle.std.specs.List.{All};

use crate::record::Stamp;
use crate::seal::SEAL_BYTES;
use line_files::read_number;

/// What stands behind a text's beginning; `None` where it begins otherwise.
pub(crate) fn behind<'t>(text: &'t [u8], beginning: &[u8]) -> Option<&'t [u8]>
    ensures rest { IfSome result (λ rest. text.now ≡ beginning.now ++ rest.now) }
    ensures none { IfNone result ((rest : List ℕ) → text.now ≢ beginning.now ++ rest) }
{
    if text.len() < beginning.len() {
        return None;
    }
    let (front, rest) = text.split_at(beginning.len());
    if front == beginning { Some(rest) } else { None }
}

/// What stands before the first line feed of a text, and what behind it; `None` where there is none.
pub(crate) fn before_line_feed(text: &[u8]) -> Option<(&[u8], &[u8])>
    ensures { MatchOption result (All (λ byte. byte ≢ 10) text.now)
        (λ parts. (text.now ≡ parts.0.now ++ 10 ∷ parts.1.now) × All (λ byte. byte ≢ 10) parts.0.now) }
{
    let place = text.iter().position(|byte| *byte == b'\n')?;
    Some((&text[..place], &text[place + 1..]))
}

/// What stands before the first such byte of a text, and what behind it.
fn cut_at(text: &[u8], byte: u8) -> Option<(&[u8], &[u8])> {
    let place = text.iter().position(|b| *b == byte)?;
    Some((text.get(..place)?, text.get(place + 1..)?))
}

/// What the first line of a record says, where it is one of this number. Whether it says it in the one form, and
/// whether the digest is right, is not looked at.
pub(crate) fn stamp_of(number: u64, line: &[u8]) -> Option<Stamp<'_>>
    ensures { IfSome result (λ stamp. stamp.number ≡ number) }
{
    let (_, said) = cut_at(line.strip_prefix(b"# ")?, b' ')?;
    let (clerk, said) = cut_at(said, b' ')?;
    let clerk = u32::try_from(read_number(clerk)?).ok()?;
    let (time, said) = cut_at(said, b' ')?;
    let said = said.get(..said.len().checked_sub(SEAL_BYTES)?)?;
    let who = if said.is_empty() {
        said
    } else {
        said.strip_suffix(b" ")?
    };
    Some(Stamp {
        number,
        clerk,
        time,
        who,
    })
}
