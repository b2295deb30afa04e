//! Laws of clerks' edits.

ghost use Rattle.std.specs.Prelude.{◌≡◌, ℕ, List, []};
ghost use Rattle.ring_edits.specs.declared.edit.Edit.{Edit as EditValue};
ghost use Rattle.fabric_core.specs.declared.refusal.Refusal.{Refusal as RefusalValue};
ghost use Rattle.fabric_core.specs.Rows.{Tiles};
ghost use Rattle.fabric_core.specs.Journal.{JournalEntry, replay};
ghost use Rattle.fabric_core.specs.Refusals.{IsRefusal};
ghost use Rattle.clerk_runs.specs.ClerkRuns.{Register, Run, opened, IsRefusalDue, IsEdited};

use std::alloc::Allocator;

/// Without clerks' files the parcels stay as they were opened, and there are no lines.
pub fn without_clerks_nothing_changes<A: Allocator>()
    ensures { (tiles : Tiles) (after : Register A) (lines : List ℕ) → IsEdited tiles [] after lines
        → (after ≡ opened tiles) × (lines ≡ []) }
{}

/// Where one clerk edits, what they are refused is due after the entries that were accepted of them
/// before, and nothing else.
pub fn with_one_clerk_a_refusal_is_due_after_his_entries<A: Allocator>()
    ensures { (run : Run) (journal made : List (JournalEntry A)) (edit : EditValue A) (refusal : RefusalValue)
        → run.clerks ≡ 1
        → IsRefusalDue run journal 1 made edit refusal → IsRefusal (replay run.opening made) made edit refusal }
{}
