//! What may stand behind the last whole record of a journal.

ghost use Rattle.std.specs.Prelude.{◌≡◌, ◌⊎◌, ◌++◌, ◌∷◌, ◌≤◌, IsTrue, IfOk, IfSome, OnOk, length};
ghost use Rattle.std.specs.List.{All};
ghost use mathlib.Core.List.{IsPrefix};
ghost use Rattle.journal_records.specs.Tails.{IsInLine, IsTwoLines, IsTail, IsBegun, IsLost, IsUnderTwoLines};
ghost use Rattle.journal_records.specs.Tails.{IsFirstLineBegun, IsSecondLineBegun, record_start, EndsInDigest};
ghost use Rattle.journal_records.specs.Tails.{is_digit, is_of_edit};
ghost use Rattle.journal_records.specs.Tails.{are_torn_blocks, may_stand, next_place, group_bytes};

use crate::parts::{before_line_feed, behind};
use crate::seal::SEAL_BYTES;
use std::alloc::{AllocError, Allocator};
use text_pieces::push_number;

/// The most bytes of a record's first line: its number and its clerk, the time, a word, and a digest.
const MOST_OF_FIRST: usize = 320;

/// How many of the longest record so far are at most written behind what is synchronised: each of eight desks may have
/// one, an eighth longer than that.
const MOST_OF_GROUP: usize = 9;

/// How long a record is where none was read.
const SOME_RECORD: usize = 128;

/// The last place in a block of a disk.
const LAST_PLACE: usize = 511;

/// Whether a text is two lines, each with its end, and has no zero byte.
pub fn is_two_lines(text: &[u8]) -> bool
    ensures { IsTrue result → IsTwoLines text.now }
{
    let Some((first, rest)) = before_line_feed(text) else {
        return false;
    };
    let Some((second, end)) = before_line_feed(rest) else {
        return false;
    };
    if !end.is_empty() || !is_in_line(first) || !is_in_line(second) {
        return false;
    }
    true
}

/// Whether bytes are those of one line: none is a line feed or zero.
fn is_in_line(text: &[u8]) -> bool
    ensures { IsTrue result → All IsInLine text.now }
{
    text.iter().all(|byte| *byte != b'\n' && *byte != 0)
}

/// Whether a cut may leave a text behind whole records, the longest of which had so many bytes: where the next would
/// have this number, and the first byte of the text has this place in a block.
///
/// # Errors
///
/// [`AllocError`] where an allocation fails.
pub(crate) fn is_tail<A: Allocator>(
    alloc: A,
    number: u64,
    place: usize,
    longest: usize,
    text: &[u8],
) -> Result<bool, AllocError>
    ensures { IfOk result (λ is. IsTrue is → IsTail number place longest text.now) }
{
    if text.is_empty() || is_lost(place, longest, text) {
        return Ok(true);
    }
    is_begun(alloc, number, text)
}

/// Whether a text is a record of this number that was not written to its end.
fn is_begun<A: Allocator>(alloc: A, number: u64, text: &[u8]) -> Result<bool, AllocError>
    ensures { IfOk result (λ is. IsTrue is → IsBegun number text.now) }
{
    let mut start = Vec::new(alloc);
    push_start(&mut start, number)?;
    match before_line_feed(text) {
        None => Ok(is_first_line_begun(start.as_slice(), text)),
        Some((first, second)) => Ok(
            is_first_line(start.as_slice(), first) && is_edit_begun(second),
        ),
    }
}

/// Whether a text is a beginning of a record's first line, which begins so.
fn is_first_line_begun(start: &[u8], text: &[u8]) -> bool
    ensures short { IsTrue result → length text.now ≤ 320 }
    ensures in_line { IsTrue result → All IsInLine text.now }
    ensures begins { IsTrue result → IsPrefix text.now start.now ⊎ IsPrefix start.now text.now }
{
    if text.len() > MOST_OF_FIRST || !is_in_line(text) {
        return false;
    }
    behind(start, text).is_some() || behind(text, start).is_some()
}

/// Whether a text may be a record's first line, which begins so.
fn is_first_line(start: &[u8], text: &[u8]) -> bool
    ensures short { IsTrue result → length text.now ≤ 320 }
    ensures in_line { IsTrue result → All IsInLine text.now }
    ensures begins { IsTrue result → IsPrefix start.now text.now }
    ensures digest { IsTrue result → EndsInDigest text.now }
{
    if text.len() > MOST_OF_FIRST || text.len() < SEAL_BYTES || !is_in_line(text) {
        return false;
    }
    let (_, digest) = text.split_at(text.len() - SEAL_BYTES);
    behind(text, start).is_some() && digest.iter().all(|byte| is_digest_digit(*byte))
}

/// Whether a byte is a digit of a digest.
fn is_digest_digit(byte: u8) -> bool
    ensures { result ≡ is_digit byte }
{
    byte.is_ascii_digit() || (b'a' <= byte && byte <= b'f')
}

/// Whether a text may be a beginning of an edit.
fn is_edit_begun(text: &[u8]) -> bool
    ensures { IsTrue result → All (λ byte. IsTrue (is_of_edit byte)) text.now }
{
    text.iter().all(|byte| is_edit_byte(*byte))
}

/// Whether a byte may stand in the line of an edit.
fn is_edit_byte(byte: u8) -> bool
    ensures { result ≡ is_of_edit byte }
{
    byte.is_ascii_digit() || byte.is_ascii_lowercase() || byte == b' ' || byte == b'-'
}

/// Whether a text is a group of records of which blocks were not written.
fn is_lost(place: usize, longest: usize, text: &[u8]) -> bool
    ensures { IsTrue result → IsLost place longest text.now }
{
    let Some((before, _)) = around_zero(text) else {
        return false;
    };
    if !is_under_two_lines(before) || text.len() > most_of_group(longest) {
        return false;
    }
    is_torn_in_blocks(place, text)
}

/// What stands before the first zero byte of a text, and what behind it; `None` where there is none.
fn around_zero(text: &[u8]) -> Option<(&[u8], &[u8])>
    ensures { IfSome result (λ parts. text.now ≡ parts.0.now ++ 0 ∷ parts.1.now) }
{
    let place = text.iter().position(|byte| *byte == 0)?;
    Some((&text[..place], &text[place + 1..]))
}

/// How many bytes a group of records has at most, where the longest one had so many.
fn most_of_group(longest: usize) -> usize
    ensures { result ≤ group_bytes longest }
{
    if longest == 0 {
        SOME_RECORD * MOST_OF_GROUP
    } else {
        longest.saturating_mul(MOST_OF_GROUP)
    }
}

/// Whether a text has fewer than two line feeds.
fn is_under_two_lines(text: &[u8]) -> bool
    ensures { IsTrue result → IsUnderTwoLines text.now }
{
    match before_line_feed(text) {
        None => true,
        Some((_, rest)) => before_line_feed(rest).is_none(),
    }
}

/// Whether behind a zero byte are zeros up to the end of its block.
fn is_torn_in_blocks(place: usize, text: &[u8]) -> bool
    ensures { result ≡ are_torn_blocks 1 place text.now }
{
    let (mut at, mut was) = (place, 1u8);
    for byte in text {
        if !may_follow(was, at, *byte) {
            return false;
        }
        at = next_at(at);
        was = *byte;
    }
    true
}

/// Whether behind this byte of a block there may be that one, at this place.
fn may_follow(was: u8, at: usize, byte: u8) -> bool
    ensures { result ≡ may_stand was at byte }
{
    at == 0 || was != 0 || byte == 0
}

/// The place behind a place in a block.
fn next_at(at: usize) -> usize
    ensures { result ≡ next_place at }
{
    if at >= LAST_PLACE { 0 } else { at + 1 }
}

/// Adds how the record of this number begins.
fn push_start<A: Allocator>(text: &mut Vec<u8, A>, number: u64) -> Result<(), AllocError>
    ensures { OnOk result (text.new.items ≡ text.old.items ++ record_start number) }
{
    text.extend_from_slice(b"# ")?;
    push_number(text, number)?;
    text.push(b' ')?;
    Ok(())
}
