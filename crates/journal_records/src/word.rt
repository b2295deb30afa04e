//! The client's own word for who edits and why.

ghost use Rattle.std.specs.Prelude.{◌≡◌, ◌++◌, ◌∷◌, ◌↔◌, ℕ, List, IsTrue, IfSome, IfNone, MatchOption};
ghost use Rattle.journal_records.specs.Words.{HasNoColon, IsPlain, SaysWho};

use crate::parts::behind;

/// The most bytes of a client's word: room for a name and a file's number, and the journal's line stays one to read.
pub const WORD_BYTES: usize = 200;

/// What a line says of who asks and why, and what it asks for: `by WHO: ASKED`, cut at the last colon. `None` where the
/// line has another form, or WHO is empty, longer than [`WORD_BYTES`], no UTF-8, or has a control character.
///
/// ```
/// // Some((b"anna, deed 17", b"merge 4 5"))
/// let said = split_word(b"by anna, deed 17: merge 4 5");
/// ```
pub fn split_word(line: &[u8]) -> Option<(&[u8], &[u8])>
    ensures said { IfSome result (λ said. SaysWho line.now said.0.now said.1.now) }
    ensures none { IfNone result ((who asked : List ℕ) → ¬ SaysWho line.now who asked) }
    // It says no other parts.
    ensures only { (who asked : List ℕ) → SaysWho line.now who asked →
        IfSome result (λ said. (said.0.now ≡ who) × (said.1.now ≡ asked)) }
{
    let said = behind(line, b"by ")?;
    let (who, rest) = around_last_colon(said)?;
    let asked = behind(rest, b" ")?;
    if who.is_empty() || who.len() > WORD_BYTES || !is_plain(who) {
        return None;
    }
    Some((who, asked))
}

/// What stands before the last colon of a text, and what behind it; `None` where there is none.
fn around_last_colon(text: &[u8]) -> Option<(&[u8], &[u8])>
    ensures { MatchOption result (HasNoColon text.now)
        (λ parts. (text.now ≡ parts.0.now ++ 58 ∷ parts.1.now) × HasNoColon parts.1.now) }
{
    let place = text.iter().rposition(|byte| *byte == b':')?;
    Some((&text[..place], &text[place + 1..]))
}

/// Whether a text is UTF-8 without control characters.
fn is_plain(text: &[u8]) -> bool
    ensures { IsTrue result ↔ IsPlain text.now }
{
    match str::from_utf8(text) {
        Ok(text) => !text.chars().any(|c| c.is_control()),
        Err(_) => false,
    }
}
