//! The lines of a report.

ghost use Rattle.std.specs.Prelude.{OnOk, OnErr};
ghost use Rattle.std.specs.List.{flat_map};
ghost use Rattle.zone_tables.specs.Report.{line, pair_line, split_line, within_line};
ghost use Rattle.zone_tables.specs.own.Zonings.{zonings, split_ids, single_zones};
ghost use Rattle.zone_tables.specs.own.Texts.{report_text};

use crate::zoning::Zonings;
use text_pieces::{Piece, Sink, push_pieces};

/// Adds the lines of a table: how many entries there were, its pairs, the parcels that have more
/// than one, and the others.
pub(crate) fn push_report<S: Sink>(
    text: &mut S,
    entries: u64,
    pairs: &[(u64, u64)],
) -> Result<(), S::Fault>
    ensures ok { OnOk result (S.takes text.old (report_text entries pairs.now) text.new) }
    ensures err { OnErr result (S.breaks_off text.old (report_text entries pairs.now) text.new) }
{
    push_line(text, "entries", &[entries])?;
    push_pairs(text, pairs)?;
    push_splits(text, pairs)?;
    push_singles(text, pairs)
}

/// Adds a line: a word, and numbers behind it.
fn push_line<'t, S: Sink>(text: &mut S, word: &'t str, numbers: &'t [u64]) -> Result<(), S::Fault>
    ensures ok { OnOk result (S.takes text.old (line word.now numbers.now) text.new) }
    ensures err { OnErr result (S.breaks_off text.old (line word.now numbers.now) text.new) }
{
    push_pieces(
        text,
        &[Piece::Text(word), Piece::Numbers(numbers), Piece::EndOfLine],
    )
}

/// Adds a line for each pair.
fn push_pairs<S: Sink>(text: &mut S, pairs: &[(u64, u64)]) -> Result<(), S::Fault>
    ensures ok { OnOk result (S.takes text.old (flat_map pair_line pairs.now) text.new) }
    ensures err { OnErr result (S.breaks_off text.old (flat_map pair_line pairs.now) text.new) }
{
    for pair in pairs {
        push_line(text, "pair", &[pair.0, pair.1])?;
    }
    Ok(())
}

/// Adds a line for each parcel that has more than one pair.
fn push_splits<S: Sink>(text: &mut S, pairs: &[(u64, u64)]) -> Result<(), S::Fault>
    ensures ok { OnOk result (S.takes text.old (flat_map split_line (split_ids (zonings pairs.now))) text.new) }
    ensures err { OnErr result (S.breaks_off text.old (flat_map split_line (split_ids (zonings pairs.now))) text.new) }
{
    for parcel in Zonings::new(pairs) {
        if parcel.is_split {
            push_line(text, "split", &[parcel.id])?;
        }
    }
    Ok(())
}

/// Adds a line for each parcel that has one pair, with its zone.
fn push_singles<S: Sink>(text: &mut S, pairs: &[(u64, u64)]) -> Result<(), S::Fault>
    ensures ok { OnOk result (S.takes text.old (flat_map within_line (single_zones (zonings pairs.now))) text.new) }
    ensures err { OnErr result
        (S.breaks_off text.old (flat_map within_line (single_zones (zonings pairs.now))) text.new) }
{
    for parcel in Zonings::new(pairs) {
        if !parcel.is_split {
            push_line(text, "within", &[parcel.id, parcel.zone])?;
        }
    }
    Ok(())
}
