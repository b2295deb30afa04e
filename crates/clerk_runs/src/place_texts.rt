//! Where points lie, in texts.

ghost use Rattle.std.specs.Prelude.{◌≡◌, OnOk, OnErr};
ghost use Rattle.std.specs.List.{flat_map};
ghost use Rattle.text_pieces.specs.PieceText.{piece_text};
ghost use Rattle.clerk_runs.specs.PlaceTexts.{place_text};

use fabric_core::At;
use std::alloc::Allocator;
use text_pieces::{Piece, Sink, push_pieces};

/// Adds where a point lies: `inside ID`, `edge ID ID ..`, or `outside`.
///
/// # Errors
///
/// The sink's fault; a beginning of the piece may have been taken then.
pub fn push_place<S: Sink, B: Allocator>(text: &mut S, at: &At<B>) -> Result<(), S::Fault>
    ensures ok { OnOk result (S.takes text.old (place_text at.now) text.new) }
    ensures err { OnErr result (S.breaks_off text.old (place_text at.now) text.new) }
{
    push_pieces(text, &place_pieces(at))
}

/// Where a point lies, as the pieces of its text: `inside ID`, `edge ID ID ..`, or `outside`. The last one is empty
/// where that is shorter.
pub fn place_pieces<B: Allocator>(at: &At<B>) -> [Piece<'_>; 2]
    ensures { flat_map piece_text result ≡ place_text at.now }
{
    match at {
        At::Inside(id) => [Piece::Text("inside "), Piece::Number(*id)],
        At::OnEdge(ids) => [Piece::Text("edge"), Piece::Numbers(ids.as_slice())],
        At::Outside => [Piece::Text("outside"), Piece::Text("")],
    }
}
