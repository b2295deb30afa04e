//! Lists of numbers and of corners in texts.

ghost use Rattle.std.specs.Prelude.{OnOk, OnErr};
ghost use Rattle.std.specs.List.{flat_map};
ghost use Rattle.text_pieces.specs.CornerText.{next_corner_text};
ghost use Rattle.text_pieces.specs.PieceText.{number_text};

use crate::numbers::{push_corner, push_number};
use crate::sink::Sink;
use geo_exact::Corner;

/// Adds numbers, each behind a space.
pub(crate) fn push_numbers<S: Sink>(text: &mut S, numbers: &[u64]) -> Result<(), S::Fault>
    ensures ok { OnOk result (S.takes text.old (flat_map number_text numbers.now) text.new) }
    ensures err { OnErr result (S.breaks_off text.old (flat_map number_text numbers.now) text.new) }
{
    for number in numbers {
        text.push_piece(" ")?;
        push_number(text, *number)?;
    }
    Ok(())
}

/// Adds corners, each behind a space.
pub(crate) fn push_corners<S: Sink>(text: &mut S, corners: &[Corner]) -> Result<(), S::Fault>
    ensures ok { OnOk result (S.takes text.old (flat_map next_corner_text corners.now) text.new) }
    ensures err { OnErr result (S.breaks_off text.old (flat_map next_corner_text corners.now) text.new) }
{
    for corner in corners {
        text.push_piece(" ")?;
        push_corner(text, *corner)?;
    }
    Ok(())
}
