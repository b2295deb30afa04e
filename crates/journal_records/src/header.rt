//! The first line of a journal.

ghost use Rattle.std.specs.Prelude.{◌≡◌, ◌++◌, ◌↔◌, IsTrue, OnOk};
ghost use Rattle.journal_records.specs.Journals.{header_line, IsHeader};

use crate::parts::behind;
use crate::seal::{SEAL_BYTES, Seal};
use std::alloc::{AllocError, Allocator};

/// Adds the first line of a journal whose layer has this digest: `# gandovel journal 1 mm LAYER`.
///
/// # Errors
///
/// [`AllocError`] where an allocation fails; a beginning of the line may stand at the end of the text then.
pub fn push_header<A: Allocator>(text: &mut Vec<u8, A>, layer: &Seal) -> Result<(), AllocError>
    ensures { OnOk result (text.new.items ≡ text.old.items ++ header_line layer.now.digits) }
{
    text.extend_from_slice(b"# gandovel journal 1 mm ")?;
    text.extend_from_slice(layer.as_bytes())?;
    text.push(b'\n')?;
    Ok(())
}

/// Whether the first line of a text is that of a journal, of whatever layer.
pub(crate) fn is_header(text: &[u8]) -> bool
    ensures { IsTrue result ↔ IsHeader text.now }
{
    let Some(layer) = behind(text, b"# gandovel journal 1 mm ") else {
        return false;
    };
    if layer.len() < SEAL_BYTES {
        return false;
    }
    let (_, rest) = layer.split_at(SEAL_BYTES);
    match behind(rest, b"\n") {
        Some(_) => true,
        None => false,
    }
}
