//! A text, piece by piece.

ghost use Rattle.std.specs.Prelude.{OnOk, OnErr};
ghost use Rattle.std.specs.List.{flat_map};
ghost use Rattle.text_pieces.specs.PieceText.{piece_text};

use crate::lists::{push_corners, push_numbers};
use crate::numbers::{push_corner, push_number};
use crate::ring_faults::push_ring_fault;
use crate::sink::Sink;
use geo_exact::Corner;
use ring_core::RingFault;

/// A piece of a text. A line as `merge 3 4` is the pieces `Text("merge ")`, `Number(3)`, `Text(" ")`, `Number(4)`,
/// `EndOfLine`, or with fewer of them `Text("merge")`, `Numbers(&[3, 4])`, `EndOfLine`.
#[derive(Clone, Copy)]
pub enum Piece<'t> {
    /// A text as it stands.
    Text(&'t str),
    /// A count or a parcel's number, in decimal.
    Number(u64),
    /// Twice an area, in decimal.
    Area(u128),
    /// Twice the area of a ring, which is below 0 where the ring turns clockwise: in decimal, with a minus sign then.
    SignedArea(i128),
    /// How many times more often an edge is walked one way than the other: in decimal, with its sign where below 0.
    Net(i64),
    /// A corner's two coordinates: `X Y`.
    Corner(Corner),
    /// Numbers, each behind a space.
    Numbers(&'t [u64]),
    /// Corners, each behind a space.
    Corners(&'t [Corner]),
    /// Why a ring is refused: `G1`, `G3`, or `G2 I J`.
    Refused(RingFault),
    /// A line feed.
    EndOfLine,
}

/// Adds a text that is given as its pieces.
///
/// # Errors
///
/// The sink's fault; a beginning of the text may have been taken then.
///
/// ```
/// // "merge 3 4\n" behind what the sink has
/// push_pieces(text, &[Piece::Text("merge"), Piece::Numbers(&[3, 4]), Piece::EndOfLine])?;
/// ```
pub fn push_pieces<S: Sink>(text: &mut S, pieces: &[Piece<'_>]) -> Result<(), S::Fault>
    ensures ok { OnOk result (S.takes text.old (flat_map piece_text pieces.now) text.new) }
    ensures err { OnErr result (S.breaks_off text.old (flat_map piece_text pieces.now) text.new) }
{
    for piece in pieces {
        push_one(text, *piece)?;
    }
    Ok(())
}

/// Adds a text that is given in parts, each as its pieces.
///
/// # Errors
///
/// The sink's fault; a beginning of the text may have been taken then.
///
/// ```
/// // "error: K2 3 1\n" behind what the sink has
/// let fault = [Piece::Text("K2"), Piece::Numbers(&[3, 1])];
/// push_parts(text, &[&[Piece::Text("error: ")], &fault, &[Piece::EndOfLine]])?;
/// ```
pub fn push_parts<S: Sink>(text: &mut S, parts: &[&[Piece<'_>]]) -> Result<(), S::Fault>
    ensures ok { OnOk result (S.takes text.old (flat_map (λ part. flat_map piece_text part.now) parts.now) text.new) }
    ensures err { OnErr result
        (S.breaks_off text.old (flat_map (λ part. flat_map piece_text part.now) parts.now) text.new) }
{
    for part in parts {
        push_pieces(text, part)?;
    }
    Ok(())
}

/// Adds a piece.
fn push_one<S: Sink>(text: &mut S, piece: Piece<'_>) -> Result<(), S::Fault>
    ensures ok { OnOk result (S.takes text.old (piece_text piece.entry) text.new) }
    ensures err { OnErr result (S.breaks_off text.old (piece_text piece.entry) text.new) }
{
    match piece {
        Piece::Text(words) => text.push_piece(words),
        Piece::Number(number) => push_number(text, number),
        Piece::Area(area2) => push_number(text, area2),
        Piece::SignedArea(area2) => push_number(text, area2),
        Piece::Net(net) => push_number(text, net),
        Piece::Corner(corner) => push_corner(text, corner),
        Piece::Numbers(numbers) => push_numbers(text, numbers),
        Piece::Corners(corners) => push_corners(text, corners),
        Piece::Refused(fault) => push_ring_fault(text, fault),
        Piece::EndOfLine => text.push_piece("\n"),
    }
}
