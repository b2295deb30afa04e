//! The line of an edit.

ghost use Rattle.std.specs.Prelude.{◌≡◌, ◌++◌, OnOk};
ghost use Rattle.line_files.specs.EditLine.{edit_text, edit_line};

use ring_edits::Edit;
use std::alloc::{AllocError, Allocator};
use text_pieces::{Piece, push_pieces};

/// Adds the line of an edit, as a clerk's file in whole millimetres has it, with its line feed:
///
/// - `split ID X Y X Y ..`,
/// - `merge ID ID`,
/// - `move ID ID X Y X Y ..`,
/// - `insert X Y X Y X Y`, the two ends of the edge and the new corner on it,
/// - `straighten X Y`.
///
/// The line is read back where its numbers of parcels have at most 19 digits and its path has a
/// corner ([`a_journal_reads_back`](crate::a_journal_reads_back)); so is that of each edit that came from a line.
///
/// # Errors
///
/// [`AllocError`] where an allocation fails; a beginning of the line may stand at the end of the text then.
///
/// ```
/// // "merge 3 4\n" behind what the text had
/// push_edit_line(&mut text, &Edit::Merge { a: 3, b: 4 })?;
/// ```
pub fn push_edit_line<A: Allocator, B: Allocator>(
    text: &mut Vec<u8, A>,
    edit: &Edit<B>,
) -> Result<(), AllocError>
    ensures { OnOk result (text.new.items ≡ text.old.items ++ edit_line edit.now) }
{
    push_edit(text, edit)?;
    text.push(b'\n')?;
    Ok(())
}

/// Adds the line of an edit, without its end.
fn push_edit<A: Allocator, B: Allocator>(
    text: &mut Vec<u8, A>,
    edit: &Edit<B>,
) -> Result<(), AllocError>
    ensures { OnOk result (text.new.items ≡ text.old.items ++ edit_text edit.now) }
{
    match edit {
        Edit::Split { id, path } => push_pieces(
            text,
            &[
                Piece::Text("split "),
                Piece::Number(*id),
                Piece::Corners(path.as_slice()),
            ],
        ),
        Edit::Merge { a, b } => push_pieces(
            text,
            &[
                Piece::Text("merge "),
                Piece::Number(*a),
                Piece::Text(" "),
                Piece::Number(*b),
            ],
        ),
        Edit::Move { a, b, path } => push_pieces(
            text,
            &[
                Piece::Text("move "),
                Piece::Number(*a),
                Piece::Text(" "),
                Piece::Number(*b),
                Piece::Corners(path.as_slice()),
            ],
        ),
        Edit::Insert { from, to, at } => push_pieces(
            text,
            &[Piece::Text("insert"), Piece::Corners(&[*from, *to, *at])],
        ),
        Edit::Straighten { at } => push_pieces(
            text,
            &[Piece::Text("straighten"), Piece::Corners(&[*at])],
        ),
    }
}
