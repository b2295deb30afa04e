//! What is answered to a question. Each answer says after how many entries of the journal it holds.

ghost use Rattle.std.specs.Prelude.{◌≤◌, length, OnOk, OnErr};
ghost use Rattle.geo_exact.specs.declared.limits.TheConstants.{LIST_CORNERS};
ghost use Rattle.session_lines.specs.Answers.{located_line, parcel_line, no_parcel_line, entries_line};

use crate::states::push_counted;
use clerk_runs::place_pieces;
use fabric_core::At;
use geo_exact::{Corner, area2};
use std::alloc::Allocator;
use text_pieces::{Piece, Sink, push_parts, push_pieces};

/// Adds the answer to `locate X Y`: `at ENTRIES X Y inside ID`, `at ENTRIES X Y edge ID ID ..` or
/// `at ENTRIES X Y outside`.
///
/// # Errors
///
/// The sink's fault; a beginning of the line may have been taken then.
pub fn push_located<S: Sink, B: Allocator>(
    text: &mut S,
    entries: u64,
    corner: Corner,
    at: &At<B>,
) -> Result<(), S::Fault>
    ensures ok { OnOk result (S.takes text.old (located_line entries corner at.now) text.new) }
    ensures err { OnErr result (S.breaks_off text.old (located_line entries corner at.now) text.new) }
{
    let asked = [
        Piece::Text("at "),
        Piece::Number(entries),
        Piece::Text(" "),
        Piece::Corner(corner),
        Piece::Text(" "),
    ];
    push_parts(text, &[&asked, &place_pieces(at), &[Piece::EndOfLine]])
}

/// Adds the answer to `parcel ID` where the parcel has this ring: `parcel ENTRIES ID AREA2 X Y X Y ..`, with twice the
/// ring's area in square millimetres, and its corners in their order.
///
/// # Errors
///
/// The sink's fault; a beginning of the line may have been taken then.
pub fn push_parcel<S: Sink>(
    text: &mut S,
    entries: u64,
    id: u64,
    ring: &[Corner],
) -> Result<(), S::Fault>
    requires { length ring.now ≤ LIST_CORNERS }
    ensures ok { OnOk result (S.takes text.old (parcel_line entries id ring.now) text.new) }
    ensures err { OnErr result (S.breaks_off text.old (parcel_line entries id ring.now) text.new) }
{
    push_pieces(
        text,
        &[
            Piece::Text("parcel "),
            Piece::Number(entries),
            Piece::Text(" "),
            Piece::Number(id),
            Piece::Text(" "),
            Piece::SignedArea(area2(ring)),
            Piece::Corners(ring),
            Piece::EndOfLine,
        ],
    )
}

/// Adds the answer to `parcel ID` where there is no such parcel: `parcel ENTRIES ID none`.
///
/// # Errors
///
/// The sink's fault; a beginning of the line may have been taken then.
pub fn push_no_parcel<S: Sink>(text: &mut S, entries: u64, id: u64) -> Result<(), S::Fault>
    ensures ok { OnOk result (S.takes text.old (no_parcel_line entries id) text.new) }
    ensures err { OnErr result (S.breaks_off text.old (no_parcel_line entries id) text.new) }
{
    push_pieces(
        text,
        &[
            Piece::Text("parcel "),
            Piece::Number(entries),
            Piece::Text(" "),
            Piece::Number(id),
            Piece::Text(" none\n"),
        ],
    )
}

/// Adds the answer to `entries`: `entries ENTRIES`.
///
/// # Errors
///
/// The sink's fault; a beginning of the line may have been taken then.
pub fn push_entries<S: Sink>(text: &mut S, entries: u64) -> Result<(), S::Fault>
    ensures ok { OnOk result (S.takes text.old (entries_line entries) text.new) }
    ensures err { OnErr result (S.breaks_off text.old (entries_line entries) text.new) }
{
    push_counted(text, "entries ", entries)
}
