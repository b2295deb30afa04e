//! Numbers and corners in texts.

ghost use Rattle.std.specs.Prelude.{OnOk, OnErr};
ghost use Rattle.text_pieces.specs.CornerText.{corner_text};

use crate::sink::Sink;
use geo_exact::Corner;
use itoa::{Buffer, Integer};

/// Adds a corner's two coordinates, in millimetres: `X Y`.
///
/// # Errors
///
/// The sink's fault; a beginning of the piece may have been taken then.
pub fn push_corner<S: Sink>(text: &mut S, corner: Corner) -> Result<(), S::Fault>
    ensures ok { OnOk result (S.takes text.old (corner_text corner) text.new) }
    ensures err { OnErr result (S.breaks_off text.old (corner_text corner) text.new) }
{
    push_number(text, corner.x)?;
    text.push_piece(" ")?;
    push_number(text, corner.y)
}

/// Adds a number in decimal, with a minus sign where it is below 0.
///
/// # Errors
///
/// The sink's fault; a beginning of the piece may have been taken then.
pub fn push_number<S: Sink, N: Integer>(text: &mut S, number: N) -> Result<(), S::Fault>
    ensures ok { OnOk result (S.takes text.old (N.text number) text.new) }
    ensures err { OnErr result (S.breaks_off text.old (N.text number) text.new) }
{
    let mut digits = Buffer::new();
    text.push_piece(digits.format(number))
}
