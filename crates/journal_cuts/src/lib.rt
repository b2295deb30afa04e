//! What a cut of power leaves of a journal, and that a start loses nothing of it.
#![tactic(auto)]

ghost use Rattle.std.specs.Prelude.{◌≡◌, ℕ, List, ◌++◌, false};
ghost use Rattle.journal_records.specs.declared.record.Record.{Record as RecordValue};
ghost use Rattle.journal_records.specs.Journals.{header_line, records_text, last_seal, IsJournal};
ghost use Rattle.journal_cuts.specs.Disk.{IsCutOf, AreWritten, IsKeptOf};

use std::alloc::Allocator;

/// Where a journal's file has records that were synchronised, and others behind them, a start that reads the file after
/// any cut has each of the first, and no line but those that were written.
pub fn a_cut_loses_no_record<A: Allocator>()
    ensures { (layer left : List ℕ) (synced others read : List (RecordValue A)) (seal torn : List ℕ)
        → AreWritten layer synced others
        → IsCutOf (header_line layer ++ records_text layer synced) (records_text (last_seal layer synced) others) left
        → IsJournal layer left read seal torn false
        → IsKeptOf layer synced others read }
{}
