//! What a journal says.

ghost use Rattle.std.specs.Prelude.{◌≡◌, ◌++◌, [], true, length, max, IfOk, IfErr, IfSome};
ghost use Rattle.journal_records.specs.Journals.{IsJournal, IsRecord, IsHeaderFault, header_line, record_text, ended};
ghost use Rattle.journal_records.specs.Tails.{IsTwoLines};
ghost use Rattle.journal_records.specs.declared.read.JournalFault.TheVariants.{NoMemory};

use crate::header::{is_header, push_header};
use crate::parts::{before_line_feed, behind, stamp_of};
use crate::record::{Record, push_record};
use crate::seal::Seal;
use crate::tails::{is_tail, is_two_lines};
use line_files::{Grid, read_edit};
use std::alloc::{AllocError, AllocFailed, Allocator};

/// How many bytes a block of a disk has.
const BLOCK_BYTES: usize = 512;

/// Why a text is no journal of a layer.
#[derive(Clone, Copy, Debug, PartialEq, Eq)]
pub enum JournalFault {
    /// Its first line is no journal's.
    NoJournal,
    /// It was begun with another layer.
    OtherLayer,
    /// The line of this number, from 1, or the one behind it, is not as it was written.
    Changed(u64),
    /// An allocation failed.
    NoMemory,
}

impl From<AllocError> for JournalFault {
    ghost from_gives = { λ _ fault. fault ≡ NoMemory };

    fn from(_: AllocError) -> JournalFault {
        JournalFault::NoMemory
    }
}

impl<T: Drop> From<AllocFailed<T>> for JournalFault {
    ghost from_gives = { λ _ fault. fault ≡ NoMemory };

    fn from(_: AllocFailed<T>) -> JournalFault {
        JournalFault::NoMemory
    }
}

/// What was read of a journal.
#[derive(Debug, Drop)]
pub struct Journaled<'t, A: Allocator> {
    /// Its records, in order.
    pub records: Vec<Record<'t, A>, A>,
    /// The digest of the last record, or that of the layer where there is none.
    pub seal: Seal,
    /// What stands behind the last record: what a cut may leave, or nothing.
    pub torn: &'t [u8],
    /// Whether the last record lacks its line feed alone. Its digest proves it; so it is read, as if it had it.
    pub lacks_end: bool,
}

/// Reads the text of a journal that was begun with the layer of this digest: exactly the header, the lines of all its
/// whole records, in order and numbered from 1, and behind them at most what a cut may leave, which is no whole record.
///
/// # Errors
///
/// [`JournalFault::NoJournal`], [`JournalFault::OtherLayer`], and [`JournalFault::Changed`] with the first line of the
/// first record that is not as it was written; [`JournalFault::NoMemory`].
///
/// ```
/// let read = read_journal(alloc, &layer, text)?;
/// ```
pub fn read_journal<'t, A: Allocator + Copy>(
    alloc: A,
    layer: &Seal,
    text: &'t [u8],
) -> Result<Journaled<'t, A>, JournalFault>
    ensures read { IfOk result (λ read.
        IsJournal layer.now.digits text.now read.records.items read.seal.digits read.torn.now read.lacks_end) }
    ensures fault { IfErr result (IsHeaderFault layer.now.digits text.now) }
{
    let mut rest = behind_header(alloc, layer, text)?;
    let mut records = Vec::new(alloc);
    let (mut seal, mut longest) = (*layer, 0);
    // No text has so many records: the loop ends with the text.
    for number in 1..u64::MAX {
        let Some(read) = read_record(alloc, &seal, number, rest)? else {
            let place = text.len().saturating_sub(rest.len()) % BLOCK_BYTES;
            if !is_tail(alloc, number, place, longest, rest)? {
                return Err(JournalFault::Changed(number.saturating_mul(2)));
            }
            return Ok(Journaled {
                records,
                seal,
                torn: rest,
                lacks_end: false,
            });
        };
        let ReadRecord {
            record,
            seal: next,
            length,
            rest: behind,
            lacks_end,
        } = read;
        records.push(record)?;
        if lacks_end {
            return Ok(Journaled {
                records,
                seal: next,
                torn: behind,
                lacks_end,
            });
        }
        seal = next;
        rest = behind;
        longest = longer(longest, length);
    }
    Err(JournalFault::Changed(u64::MAX))
}

/// The larger of two numbers.
fn longer(one: usize, other: usize) -> usize
    ensures { result ≡ max one other }
{
    if one < other { other } else { one }
}

/// What stands behind the header of a journal of this layer.
fn behind_header<'t, A: Allocator + Copy>(
    alloc: A,
    layer: &Seal,
    text: &'t [u8],
) -> Result<&'t [u8], JournalFault>
    ensures rest { IfOk result (λ rest. text.now ≡ header_line layer.now.digits ++ rest.now) }
    ensures fault { IfErr result (IsHeaderFault layer.now.digits text.now) }
{
    let mut header = Vec::new(alloc);
    push_header(&mut header, layer)?;
    match behind(text, header.as_slice()) {
        Some(rest) => Ok(rest),
        None if is_header(text) => Err(JournalFault::OtherLayer),
        None => Err(JournalFault::NoJournal),
    }
}

/// A record that was read.
#[derive(Drop)]
struct ReadRecord<'t, A: Allocator> {
    record: Record<'t, A>,
    /// Its digest.
    seal: Seal,
    /// How many bytes its lines have.
    length: usize,
    /// What stands behind it.
    rest: &'t [u8],
    /// Whether its last line feed is missing, and nothing else.
    lacks_end: bool,
}

/// Reads the record of this number behind the one with this digest; `None` where there is none that is whole.
/// What the lines say is written anew, and has to be what stands there, byte for byte.
fn read_record<'t, A: Allocator + Copy>(
    alloc: A,
    before: &Seal,
    number: u64,
    text: &'t [u8],
) -> Result<Option<ReadRecord<'t, A>>, AllocError>
    ensures found { IfOk result (λ found. IfSome found (λ read.
        IsRecord before.now.digits number (ended read.lacks_end text.now) read.record read.seal.digits read.rest.now)) }
    ensures length { IfOk result (λ found. IfSome found (λ read.
        read.length ≡ length (record_text before.now.digits read.record.stamp read.record.edit))) }
    ensures last { IfOk result (λ found. IfSome found (λ read. read.lacks_end ≡ true → read.rest.now ≡ [])) }
{
    let Some((comment, behind)) = before_line_feed(text) else {
        return Ok(None);
    };
    let Some(stamp) = stamp_of(number, comment) else {
        return Ok(None);
    };
    let Some(edit) = read_edit(alloc, Grid::Millimetres, first_line(behind))? else {
        return Ok(None);
    };
    let mut again = Vec::new(alloc);
    let seal = push_record(alloc, &mut again, before, &stamp, &edit)?;
    let length = again.len();
    match behind_record(text, again.as_slice()) {
        Some((rest, lacks_end)) => Ok(Some(ReadRecord {
            record: Record { stamp, edit },
            seal,
            length,
            rest,
            lacks_end,
        })),
        None => Ok(None),
    }
}

/// The first line of a text, without its end.
fn first_line(text: &[u8]) -> &[u8] {
    match before_line_feed(text) {
        Some((line, _)) => line,
        None => text,
    }
}

/// What stands behind a record's lines, and whether their last line feed is missing; `None` where the text does not
/// begin with them, or they are not two lines.
fn behind_record<'t>(text: &'t [u8], lines: &[u8]) -> Option<(&'t [u8], bool)>
    ensures lines { IfSome result (λ found. IsTwoLines lines.now) }
    ensures rest { IfSome result (λ found. ended found.1 text.now ≡ lines.now ++ found.0.now) }
    ensures last { IfSome result (λ found. found.1 ≡ true → found.0.now ≡ []) }
{
    if !is_two_lines(lines) {
        return None;
    }
    match behind(text, lines) {
        Some(rest) => Some((rest, false)),
        None => {
            let end = behind(lines, text)?;
            if end == b"\n".as_slice() {
                Some((&[], true))
            } else {
                None
            }
        }
    }
}
