//! The lines as text.

ghost use Rattle.std.specs.Prelude.{◌≡◌, OnOk, OnErr};
ghost use Rattle.std.specs.List.{flat_map};
ghost use Rattle.std.specs.Io.KnownBytes.{Appends};
ghost use Rattle.geo_exact.specs.Bytes.{raised};
ghost use Rattle.text_pieces.specs.Beginnings.{AppendsBeginning};
ghost use Rattle.area_shares.specs.AreaText.{area_text};

use crate::shared::AreaLine;
use geo_exact::{ByteOut, Failed};
use text_pieces::{Gathered, Piece, Sink, push_pieces};

/// Adds the text of a line.
fn push_line<S: Sink>(text: &mut S, line: AreaLine) -> Result<(), S::Fault>
    ensures ok { OnOk result (S.takes text.old (area_text line) text.new) }
    ensures err { OnErr result (S.breaks_off text.old (area_text line) text.new) }
{
    push_pieces(
        text,
        &[
            Piece::Text("area"),
            Piece::Numbers(&[line.id, line.zone]),
            Piece::Text(" "),
            Piece::SignedArea(line.area2),
            Piece::EndOfLine,
        ],
    )
}

/// Adds the text of each line.
fn push_lines<S: Sink>(text: &mut S, lines: &[AreaLine]) -> Result<(), S::Fault>
    ensures ok { OnOk result (S.takes text.old (flat_map area_text lines.now) text.new) }
    ensures err { OnErr result (S.breaks_off text.old (flat_map area_text lines.now) text.new) }
{
    for line in lines {
        push_line(text, *line)?;
    }
    Ok(())
}

/// Writes a line `area ID ZONE AREA2` for each of these lines, in order. It takes no memory.
///
/// # Errors
///
/// [`Failed`] where the writer failed; a beginning of the text was written then.
///
/// ```
/// write_areas(lines.as_slice(), &mut Counted::new(stdout))?; // "area 2 1 1500000000\n" and so on
/// ```
pub fn write_areas<W: ByteOut>(lines: &[AreaLine], out: &mut W) -> Result<(), Failed>
    ensures ok { OnOk result (Appends (W.written out.old) (W.written out.new) (flat_map area_text lines.now)) }
    ensures begun { OnErr result
        (AppendsBeginning (W.written out.old) (W.written out.new) (flat_map area_text lines.now)) }
    ensures failed { OnErr result (W.failure_count out.new ≡ raised (W.failure_count out.old)) }
    ensures no_failure { OnOk result (W.failure_count out.new ≡ W.failure_count out.old) }
{
    let mut text = Gathered::new(out);
    push_lines(&mut text, lines)?;
    text.finish()
}
