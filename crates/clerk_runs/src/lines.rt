//! The lines that report clerks' edits.

ghost use Rattle.std.specs.Prelude.{◌≡◌, ◌++◌, OnOk, OnErr, decimal};
ghost use Rattle.std.specs.List.{flat_map};
ghost use Rattle.text_pieces.specs.PieceText.{piece_text};
ghost use Rattle.clerk_runs.specs.ClerkLines.{ok_line, refusal_text, refused_line};

use fabric_core::Refusal;
use std::alloc::{AllocError, Allocator};
use text_pieces::{Piece, Sink, push_parts, push_pieces};

/// Adds the line of an edit that is accepted, under the number of its entry.
pub(crate) fn push_ok_line<A: Allocator>(
    lines: &mut Vec<u8, A>,
    clerk: u32,
    line: u64,
    number: u64,
) -> Result<(), AllocError>
    ensures { OnOk result (lines.new.items ≡ lines.old.items ++ ok_line clerk line number) }
{
    push_pieces(
        lines,
        &[
            Piece::Text("clerk "),
            Piece::Number(u64::from(clerk)),
            Piece::Text(" line "),
            Piece::Number(line),
            Piece::Text(" ok "),
            Piece::Number(number),
            Piece::EndOfLine,
        ],
    )
}

/// Adds the line of an edit that is refused.
pub(crate) fn push_refused_line<A: Allocator>(
    lines: &mut Vec<u8, A>,
    clerk: u32,
    line: u64,
    refusal: Refusal,
) -> Result<(), AllocError>
    ensures { OnOk result (lines.new.items ≡ lines.old.items ++ refused_line clerk line refusal) }
{
    let whose = [
        Piece::Text("clerk "),
        Piece::Number(u64::from(clerk)),
        Piece::Text(" line "),
        Piece::Number(line),
        Piece::Text(" refused "),
    ];
    push_parts(
        lines,
        &[&whose, &refusal_pieces(refusal), &[Piece::EndOfLine]],
    )
}

/// Adds why an edit is refused: its code with what that names, as `E2 7 3`, or `no memory`.
///
/// # Errors
///
/// The sink's fault; a beginning of the piece may have been taken then.
pub fn push_refusal<S: Sink>(text: &mut S, refusal: Refusal) -> Result<(), S::Fault>
    ensures ok { OnOk result (S.takes text.old (refusal_text refusal) text.new) }
    ensures err { OnErr result (S.breaks_off text.old (refusal_text refusal) text.new) }
{
    push_pieces(text, &refusal_pieces(refusal))
}

/// Why an edit is refused, as the pieces of its text: its code with what that names, as `E2 7 3`, or `no memory`. The
/// last ones are empty where that is shorter.
pub fn refusal_pieces(refusal: Refusal) -> [Piece<'static>; 4]
    ensures { flat_map piece_text result ≡ refusal_text refusal }
{
    match refusal {
        Refusal::Unknown(id) => named("E1 ", id),
        Refusal::Retired { id, by } => [
            Piece::Text("E2 "),
            Piece::Number(id),
            Piece::Text(" "),
            Piece::Number(by),
        ],
        Refusal::Ring { which, fault } => [
            Piece::Text("E6 "),
            Piece::Number(u64::from(which)),
            Piece::Text(" "),
            Piece::Refused(fault),
        ],
        Refusal::BadPath => bare("E3"),
        Refusal::NotNeighbours => bare("E4"),
        Refusal::SharedTwice => bare("E5"),
        Refusal::NoSuchEdge => bare("E7"),
        Refusal::NotOnEdge => bare("E8"),
        Refusal::JournalFull => bare("E9"),
        Refusal::TooMany => bare("E10"),
        Refusal::NoSuchCorner => bare("E11"),
        Refusal::NotFlat(id) => named("E12 ", id),
        Refusal::NoMemory => bare("no memory"),
    }
}

/// A code alone.
fn bare(code: &'static str) -> [Piece<'static>; 4]
    ensures { flat_map piece_text result ≡ code.now }
{
    [
        Piece::Text(code),
        Piece::Text(""),
        Piece::Text(""),
        Piece::Text(""),
    ]
}

/// A code, and the number behind it.
fn named(code: &'static str, number: u64) -> [Piece<'static>; 4]
    ensures { flat_map piece_text result ≡ code.now ++ decimal number }
{
    [
        Piece::Text(code),
        Piece::Number(number),
        Piece::Text(""),
        Piece::Text(""),
    ]
}
