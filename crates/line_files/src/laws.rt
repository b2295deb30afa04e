//! Laws of the lines of edits: what is written is read back.

ghost use Rattle.std.specs.Prelude.{◌≡◌, ℕ, List, [], ◌∷◌, ◌++◌, map};
ghost use Rattle.std.specs.List.{All};
ghost use Rattle.ring_edits.specs.declared.edit.Edit.{Edit as EditValue};
ghost use Rattle.line_files.specs.ClerkFile.{IsClerkFile};
ghost use Rattle.line_files.specs.EditLine.{IsWritable, edit_line, edit_lines, numbered};

use std::alloc::Allocator;

/// The lines of edits, one behind the other, are a clerk's file of these edits and of no others, in order, where each
/// can be written: so `read_clerk` of that text gives them, each behind its line's number, unless memory runs out. With
/// one more edit's line behind it, the text is that of one more edit.
pub fn a_journal_reads_back<A: Allocator>()
    ensures reads { (edits : List (EditValue A)) → All IsWritable edits
        → IsClerkFile (edit_lines edits) (numbered edits) }
    ensures nothing_else { (edits : List (EditValue A)) → All IsWritable edits → (list : List (ℕ × EditValue A))
        → IsClerkFile (edit_lines edits) list → list ≡ numbered edits }
    ensures grows { (edits : List (EditValue A)) (edit : EditValue A)
        → edit_lines (edits ++ edit ∷ []) ≡ edit_lines edits ++ edit_line edit }
{}

/// The same of a list of entries that have an edit each, as a journal's do: what is read of their edits' lines are the
/// edits of the entries, in order. (A replay of what is read makes the edits that the entries have.)
pub fn the_edits_of_entries_read_back<A: Allocator, E>()
    ensures { (entries : List E) (edit_of : E → EditValue A) → All (λ entry. IsWritable (edit_of entry)) entries
        → (list : List (ℕ × EditValue A)) → IsClerkFile (edit_lines (map edit_of entries)) list
        → map (λ said. said.1) list ≡ map edit_of entries }
{}

/// Each edit that a clerk's file has can be written.
pub fn what_is_read_can_be_written<A: Allocator>()
    ensures { (text : List ℕ) (list : List (ℕ × EditValue A)) → IsClerkFile text list
        → All (λ said. IsWritable said.1) list }
{}
