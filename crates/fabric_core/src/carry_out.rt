//! An accepted edit, carried out.

ghost use Rattle.std.specs.Prelude.{◌≡◌, ◌∷◌, ◌++◌, [], IfOk, OnOk, OnErr};
ghost use Rattle.fabric_core.specs.EditResults.{IsEntryOf};
ghost use Rattle.fabric_core.specs.Tiling.{corner_lists};
ghost use Rattle.fabric_core.specs.own.Changes.{IsMade, rings_of_shapes, state_of};

use crate::draft::Draft;
use crate::journal::Entry;
use crate::make::make;
use crate::tiled::Tiled;
use std::alloc::{AllocError, Allocator};

/// Makes a drafted edit, whose entry then stands last in the journal; how many corners all rings
/// have together afterwards. Where an allocation fails, nothing has changed.
pub(crate) fn carry_out<'a, H: Allocator>(
    tiled: &mut Tiled<'a, H>,
    journal: &mut Vec<Entry<&'a H>, &'a H>,
    draft: Draft<&'a H>,
) -> Result<usize, AllocError>
    requires is_entry { IsEntryOf (state_of tiled.old) draft.entry }
    requires shapes { rings_of_shapes draft.shapes.items ≡ corner_lists draft.entry.rows }
    ensures made { OnOk result (IsMade tiled.old tiled.new draft.entry.entry) }
    ensures journal { OnOk result (journal.new.items ≡ journal.old.items ++ draft.entry.entry ∷ []) }
    ensures corners { IfOk result (λ corners. corners ≡ draft.entry.corners) }
    ensures unchanged { OnErr result (tiled.new ≡ tiled.old) }
    ensures same_journal { OnErr result (journal.new.items ≡ journal.old.items) }
{
    let Draft {
        entry,
        shapes,
        corners,
    } = draft;
    journal.reserve(1)?;
    make(tiled, &entry, shapes)?;
    journal.push_reserved(entry);
    Ok(corners)
}
