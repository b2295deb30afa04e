//! What is reported of the session itself.

ghost use Rattle.std.specs.Prelude.{◌++◌, OnOk, OnErr, codes, decimal};
ghost use Rattle.session_lines.specs.Answers.{ready_line, published_line, closed_line};

use text_pieces::{Piece, Sink, push_pieces};

/// Adds that all is loaded, and how many entries the journal has: `ready ENTRIES`.
///
/// # Errors
///
/// The sink's fault; a beginning of the line may have been taken then.
pub fn push_ready<S: Sink>(text: &mut S, entries: u64) -> Result<(), S::Fault>
    ensures ok { OnOk result (S.takes text.old (ready_line entries) text.new) }
    ensures err { OnErr result (S.breaks_off text.old (ready_line entries) text.new) }
{
    push_counted(text, "ready ", entries)
}

/// Adds the answer to `publish`: `published ENTRIES`.
///
/// # Errors
///
/// The sink's fault; a beginning of the line may have been taken then.
pub fn push_published<S: Sink>(text: &mut S, entries: u64) -> Result<(), S::Fault>
    ensures ok { OnOk result (S.takes text.old (published_line entries) text.new) }
    ensures err { OnErr result (S.breaks_off text.old (published_line entries) text.new) }
{
    push_counted(text, "published ", entries)
}

/// Adds the answer to `close`: `closed ENTRIES`.
///
/// # Errors
///
/// The sink's fault; a beginning of the line may have been taken then.
pub fn push_closed<S: Sink>(text: &mut S, entries: u64) -> Result<(), S::Fault>
    ensures ok { OnOk result (S.takes text.old (closed_line entries) text.new) }
    ensures err { OnErr result (S.breaks_off text.old (closed_line entries) text.new) }
{
    push_counted(text, "closed ", entries)
}

/// Adds the answer to a line that is skipped: `skipped`.
///
/// # Errors
///
/// The sink's fault; a beginning of the line may have been taken then.
pub fn push_skipped<S: Sink>(text: &mut S) -> Result<(), S::Fault>
    ensures ok { OnOk result (S.takes text.old (codes "skipped\n") text.new) }
    ensures err { OnErr result (S.breaks_off text.old (codes "skipped\n") text.new) }
{
    text.push_piece("skipped\n")
}

/// Adds the line that ends a report: `.`.
///
/// # Errors
///
/// The sink's fault; a beginning of the line may have been taken then.
pub fn push_end<S: Sink>(text: &mut S) -> Result<(), S::Fault>
    ensures ok { OnOk result (S.takes text.old (codes ".\n") text.new) }
    ensures err { OnErr result (S.breaks_off text.old (codes ".\n") text.new) }
{
    text.push_piece(".\n")
}

/// Adds a line: a word with the space behind it, and a number of entries.
pub(crate) fn push_counted<S: Sink>(text: &mut S, word: &str, entries: u64) -> Result<(), S::Fault>
    ensures ok { OnOk result (S.takes text.old (word.now ++ decimal entries ++ codes "\n") text.new) }
    ensures err { OnErr result (S.breaks_off text.old (word.now ++ decimal entries ++ codes "\n") text.new) }
{
    push_pieces(
        text,
        &[Piece::Text(word), Piece::Number(entries), Piece::EndOfLine],
    )
}
