//! The layer that a journal was begun with, as the text of which its header has the digest.

ghost use Rattle.std.specs.Prelude.{◌≡◌, ◌++◌, OnOk};
ghost use Rattle.line_files.specs.EditLine.{places_text};
ghost use Rattle.journal_records.specs.Journals.{outline_line};

use geo_exact::Corner;
use std::alloc::{AllocError, Allocator};
use text_pieces::{push_corner, push_number};

/// Adds the line of an outline of a layer: a number, and the corners of its ring, `NUMBER X Y X Y ..`. The city's
/// number is 0; a parcel's is its id.
///
/// # Errors
///
/// [`AllocError`] where an allocation fails; a beginning of the line may stand at the end of the text then.
pub fn push_outline<A: Allocator>(
    text: &mut Vec<u8, A>,
    number: u64,
    corners: &[Corner],
) -> Result<(), AllocError>
    ensures { OnOk result (text.new.items ≡ text.old.items ++ outline_line number corners.now) }
{
    push_number(text, number)?;
    push_corners(text, corners)?;
    text.push(b'\n')?;
    Ok(())
}

/// Adds corners, each behind a space.
fn push_corners<A: Allocator>(text: &mut Vec<u8, A>, corners: &[Corner]) -> Result<(), AllocError>
    ensures { OnOk result (text.new.items ≡ text.old.items ++ places_text corners.now) }
{
    for corner in corners {
        text.push(b' ')?;
        push_corner(text, *corner)?;
    }
    Ok(())
}
