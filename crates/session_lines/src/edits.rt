//! What is answered to an edit.

ghost use Rattle.std.specs.Prelude.{◌++◌, map, codes, OnOk, OnErr};
ghost use Rattle.std.specs.List.{flat_map};
ghost use Rattle.fabric_core.specs.JournalRows.{row_of};
ghost use Rattle.fabric_core.specs.Rows.{numbers};
ghost use Rattle.clerk_runs.specs.PlaceTexts.{id_text};
ghost use Rattle.session_lines.specs.Answers.{out_text, accepted_line, refused_line};

use clerk_runs::refusal_pieces;
use fabric_core::{Entry, Refusal, Row};
use std::alloc::Allocator;
use text_pieces::{Piece, Sink, push_parts, push_pieces};

/// Adds the answer to an edit that was accepted as this entry: `ok NUMBER out ID.. new ID..`, with the ids of the
/// parcels that it took out and of those that it brought. Either list may be empty.
///
/// # Errors
///
/// The sink's fault; a beginning of the line may have been taken then.
pub fn push_accepted<S: Sink, B: Allocator>(text: &mut S, entry: &Entry<B>) -> Result<(), S::Fault>
    ensures ok { OnOk result (S.takes text.old (accepted_line entry.now) text.new) }
    ensures err { OnErr result (S.breaks_off text.old (accepted_line entry.now) text.new) }
{
    push_out(text, entry)?;
    push_row_ids(text, entry.rows())?;
    text.push_piece("\n")
}

/// Adds an entry's number, the ids that it took out, and the word that stands before those that it brought.
fn push_out<S: Sink, B: Allocator>(text: &mut S, entry: &Entry<B>) -> Result<(), S::Fault>
    ensures ok { OnOk result (S.takes text.old (out_text entry.now ++ codes " new") text.new) }
    ensures err { OnErr result (S.breaks_off text.old (out_text entry.now ++ codes " new") text.new) }
{
    push_pieces(
        text,
        &[
            Piece::Text("ok "),
            Piece::Number(entry.number()),
            Piece::Text(" out"),
            Piece::Numbers(entry.out()),
            Piece::Text(" new"),
        ],
    )
}

/// Adds the ids of rows, each behind a space.
fn push_row_ids<S: Sink, B: Allocator>(text: &mut S, rows: &[Row<B>]) -> Result<(), S::Fault>
    ensures ok { OnOk result (S.takes text.old (flat_map id_text (numbers (map row_of rows.now))) text.new) }
    ensures err { OnErr result (S.breaks_off text.old (flat_map id_text (numbers (map row_of rows.now))) text.new) }
{
    for row in rows {
        push_id(text, row.id)?;
    }
    Ok(())
}

/// Adds an id behind a space.
fn push_id<S: Sink>(text: &mut S, id: u64) -> Result<(), S::Fault>
    ensures ok { OnOk result (S.takes text.old (id_text id) text.new) }
    ensures err { OnErr result (S.breaks_off text.old (id_text id) text.new) }
{
    push_pieces(text, &[Piece::Numbers(&[id])])
}

/// Adds the answer to an edit that was refused: `refused TEXT`.
///
/// # Errors
///
/// The sink's fault; a beginning of the line may have been taken then.
pub fn push_refused<S: Sink>(text: &mut S, refusal: Refusal) -> Result<(), S::Fault>
    ensures ok { OnOk result (S.takes text.old (refused_line refusal) text.new) }
    ensures err { OnErr result (S.breaks_off text.old (refused_line refusal) text.new) }
{
    push_parts(
        text,
        &[
            &[Piece::Text("refused ")],
            &refusal_pieces(refusal),
            &[Piece::EndOfLine],
        ],
    )
}
