//! The index of a main file, checked against its records.

ghost use Rattle.std.specs.Prelude.{◌≡◌, ◌≤◌, ◌<◌, ◌^◌, ◌+◌, ℕ, List, length, IsOk, IfErr};
ghost use Rattle.geo_exact.specs.declared.coord.Unit.{Unit as LengthUnit};
ghost use Rattle.geo_exact.specs.declared.limits.TheConstants.{LAYER_RECORDS};
ghost use Rattle.std.specs.Result.{result_err};
ghost use Rattle.shp_files.specs.Checks.{first_failure, declared_end, record_end};
ghost use Rattle.shp_files.specs.IndexChecks.{index_record_checks, index_end_checks, disagreement as disagreement_at};
ghost use Rattle.shp_files.specs.IndexChecks.{entry_place as place_of_entry};
ghost use Rattle.shp_files.specs.FirstFault.{IsAccepted, IsIndexFault};
ghost use Rattle.shp_files.specs.own.Reading.{Agrees};

use crate::fault::{FaultKind, FileFault, FileName};
use crate::fields::{big_at, natural, refuse_if};
use crate::header::{HEADER, read_header};
use crate::record::RecordHead;

/// Checks the index of a main file whose checks all pass: an index record for each of its records, and then the end.
pub fn check_index(main: &[u8], end: usize, index: &[u8]) -> Result<(), FileFault>
    requires end { end ≡ declared_end main.now }
    requires bound { end < 2 ^ 32 }
    requires room { 100 ≤ end }
    requires within { end ≤ length main.now }
    requires accepted { (unit : LengthUnit) × IsAccepted main.now unit }
    ensures agrees { (unit : LengthUnit) → IsAccepted main.now unit → IsOk result → Agrees main.now index.now unit }
    ensures fault { (unit : LengthUnit) → IsAccepted main.now unit
        → IfErr result (IsIndexFault main.now index.now unit) }
{
    let index_end = read_header(FileName::Index, index)?;
    let mut head = RecordHead {
        position: 1,
        start: HEADER,
    };
    while head.start != end {
        check_index_record(main, index, index_end, head)?;
        head = next_head(main, head);
    }
    check_index_end(index_end, head)
}

/// The record behind one that passes its checks.
fn next_head(main: &[u8], head: RecordHead) -> RecordHead
    requires few { head.position ≤ LAYER_RECORDS }
    requires room { head.start + 8 ≤ length main.now }
    requires bound { head.start < 2 ^ 32 }
    ensures position { result.position ≡ head.position + 1 }
    ensures start { result.start ≡ record_end main.now head.start }
{
    let words = big_at(main, head.start + 4);
    RecordHead {
        position: head.position + 1,
        start: head.start + 8 + 2 * natural(words),
    }
}

/// The index record of a record.
#[tactic(auto, unfolding(crate::specs::IndexChecks::index_record_checks, crate::specs::Checks::first_failure))]
fn check_index_record(
    main: &[u8],
    index: &[u8],
    index_end: usize,
    head: RecordHead,
) -> Result<(), FileFault>
    requires end { index_end ≡ declared_end index.now }
    requires within { index_end ≤ length index.now }
    requires from_1 { 1 ≤ head.position }
    requires room { head.start + 8 ≤ length main.now }
    requires bound { head.start < 2 ^ 32 }
    ensures { result_err result ≡ first_failure (index_record_checks main.now index.now head.position head.start) }
{
    let place = entry_place(head);
    refuse_if(index_end < place + 8, disagreement(head, place))?;
    let offset = big_at(index, place);
    let start_words = (head.start / 2) as i32;
    refuse_if(offset != start_words, disagreement(head, place))?;
    let words = big_at(index, place + 4);
    let main_words = big_at(main, head.start + 4);
    refuse_if(words != main_words, disagreement(head, place + 4))
}

/// The end of an index, where the main file's records end before a head.
#[tactic(auto, unfolding(crate::specs::IndexChecks::index_end_checks, crate::specs::Checks::first_failure))]
fn check_index_end(index_end: usize, head: RecordHead) -> Result<(), FileFault>
    requires { 1 ≤ head.position }
    ensures { (index : List ℕ) → index_end ≡ declared_end index
        → result_err result ≡ first_failure (index_end_checks index head.position) }
{
    let place = entry_place(head);
    refuse_if(index_end != place, disagreement(head, place))
}

/// The byte of the index at which the index record of a record begins.
fn entry_place(head: RecordHead) -> usize
    requires { 1 ≤ head.position }
    ensures value { result ≡ place_of_entry head.position }
    ensures bound { result < 2 ^ 36 }
{
    HEADER + 8 * (head.position - 1) as usize
}

fn disagreement(head: RecordHead, place: usize) -> FileFault
    ensures { result ≡ disagreement_at head.position place }
{
    FileFault {
        file: FileName::Index,
        position: head.position,
        place: place as u64,
        kind: FaultKind::IndexDisagrees,
    }
}
