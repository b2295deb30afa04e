//! The two lines of an edit in a journal.

ghost use Rattle.std.specs.Prelude.{◌≡◌, ◌++◌, OnOk, IfOk};
ghost use Rattle.line_files.specs.EditLine.{edit_line};
ghost use Rattle.journal_records.specs.Journals.{who_text, stamp_text, record_seal, record_text};

use crate::seal::Seal;
use line_files::push_edit_line;
use ring_edits::Edit;
use std::alloc::{AllocError, Allocator};
use text_pieces::push_number;

/// What a journal says of an edit beside the edit: in `# 3 1 2026-11-28T11:34:48Z
/// anna, deed 17 DIGEST` all but the digest.
#[derive(Clone, Copy, Debug, PartialEq, Eq)]
pub struct Stamp<'t> {
    /// The entry's number, from 1.
    pub number: u64,
    /// The clerk.
    pub clerk: u32,
    /// When it was made, as in `2026-11-28T11:34:48Z`.
    pub time: &'t [u8],
    /// The client's own word for who and why; it may be empty.
    pub who: &'t [u8],
}

/// An edit of a journal, and what is said of it.
#[derive(Debug, Drop)]
pub struct Record<'t, A: Allocator> {
    /// What is said of it.
    pub stamp: Stamp<'t>,
    /// The edit.
    pub edit: Edit<A>,
}

/// Adds the two lines of an edit behind those of the record with this digest (for the first record, that of the
/// layer), and answers its own digest:
///
/// ```text
/// # NUMBER CLERK TIME WHO DIGEST
/// EDIT
/// ```
///
/// WHO and its space are left out where it is empty.
///
/// # Errors
///
/// [`AllocError`] where an allocation fails; a beginning of the lines may stand at the end of the text then.
pub fn push_record<A: Allocator + Copy, B: Allocator>(
    alloc: A,
    text: &mut Vec<u8, A>,
    before: &Seal,
    stamp: &Stamp<'_>,
    edit: &Edit<B>,
) -> Result<Seal, AllocError>
    ensures text { OnOk result (text.new.items ≡ text.old.items ++ record_text before.now.digits stamp.now edit.now) }
    ensures seal { IfOk result (λ seal. seal.digits ≡ record_seal before.now.digits stamp.now edit.now) }
{
    let mut line = Vec::new(alloc);
    push_edit_line(&mut line, edit)?;
    let mut comment = Vec::new(alloc);
    push_stamp(&mut comment, stamp)?;
    let seal = Seal::of(before.as_bytes(), comment.as_slice(), line.as_slice());
    text.extend_from_slice(comment.as_slice())?;
    text.extend_from_slice(seal.as_bytes())?;
    text.push(b'\n')?;
    text.extend_from_slice(line.as_slice())?;
    Ok(seal)
}

/// Adds what is said of an edit: the first line of a record, up to its digest.
fn push_stamp<A: Allocator>(text: &mut Vec<u8, A>, stamp: &Stamp<'_>) -> Result<(), AllocError>
    ensures { OnOk result (text.new.items ≡ text.old.items ++ stamp_text stamp.now) }
{
    text.extend_from_slice(b"# ")?;
    push_number(text, stamp.number)?;
    text.push(b' ')?;
    push_number(text, stamp.clerk)?;
    text.push(b' ')?;
    text.extend_from_slice(stamp.time)?;
    text.push(b' ')?;
    push_who(text, stamp.who)
}

/// Adds who edits and why, and a space; nothing where nobody said it.
fn push_who<A: Allocator>(text: &mut Vec<u8, A>, who: &[u8]) -> Result<(), AllocError>
    ensures { OnOk result (text.new.items ≡ text.old.items ++ who_text who.now) }
{
    if who.is_empty() {
        return Ok(());
    }
    text.extend_from_slice(who)?;
    text.push(b' ')?;
    Ok(())
}
