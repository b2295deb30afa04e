//! Edits made: parcels exchanged for others, or their rings changed.

ghost use Rattle.std.specs.Prelude.{◌≡◌, ◌∷◌, [], length, OnOk, OnErr};
ghost use Rattle.ring_edits.specs.declared.edit.Edit.TheVariants.{Merge};
ghost use Rattle.fabric_core.specs.EditResults.{IsEntryOf};
ghost use Rattle.fabric_core.specs.Tiling.{corner_lists};
ghost use Rattle.fabric_core.specs.own.Changes.{IsMade, IsMoveEdit, IsSplitEdit, rings_of_shapes, state_of};
ghost use Rattle.fabric_core.specs.own.RingChanges.{edit_of};

use crate::journal::Entry;
use crate::ring_change::RingChange;
use crate::tiled::Tiled;
use ring_core::Shape;
use ring_edits::Edit;
use std::alloc::{AllocError, Allocator};

/// The only shape of a list.
fn only<A: Allocator>(shapes: Vec<Shape<A>, A>) -> Shape<A>
    requires { length shapes.items ≡ 1 }
    ensures { shapes.items ≡ result ∷ [] }
{
    let mut shapes = shapes;
    let Some(shape) = shapes.pop() else {
        unreachable!();
    };
    shape
}

/// The two shapes of a list.
fn both<A: Allocator>(shapes: Vec<Shape<A>, A>) -> (Shape<A>, Shape<A>)
    requires { length shapes.items ≡ 2 }
    ensures { shapes.items ≡ result.0 ∷ result.1 ∷ [] }
{
    let mut shapes = shapes;
    let Some(second) = shapes.pop() else {
        unreachable!();
    };
    (only(shapes), second)
}

/// Makes a split.
fn make_split<'a, H: Allocator>(
    tiled: &mut Tiled<'a, H>,
    entry: &Entry<&'a H>,
    id: u64,
    shapes: Vec<Shape<&'a H>, &'a H>,
) -> Result<(), AllocError>
    requires is_split { IsSplitEdit entry.now.edit id }
    requires is_entry { IsEntryOf (state_of tiled.old) entry.now }
    requires shapes { rings_of_shapes shapes.items ≡ corner_lists entry.now.rows }
    ensures made { OnOk result (IsMade tiled.old tiled.new entry.now) }
    ensures unchanged { OnErr result (tiled.new ≡ tiled.old) }
{
    tiled.use_invariant();
    let (left, right) = both(shapes);
    tiled.divide(id, entry.number(), left, right)
}

/// Makes a merge.
fn make_merge<'a, H: Allocator>(
    tiled: &mut Tiled<'a, H>,
    entry: &Entry<&'a H>,
    a: u64,
    b: u64,
    shapes: Vec<Shape<&'a H>, &'a H>,
) -> Result<(), AllocError>
    requires is_merge { entry.now.edit ≡ Merge a b }
    requires is_entry { IsEntryOf (state_of tiled.old) entry.now }
    requires shapes { rings_of_shapes shapes.items ≡ corner_lists entry.now.rows }
    ensures made { OnOk result (IsMade tiled.old tiled.new entry.now) }
    ensures unchanged { OnErr result (tiled.new ≡ tiled.old) }
{
    tiled.use_invariant();
    let shape = only(shapes);
    tiled.unite(a, b, entry.number(), shape)
}

/// Makes a move.
fn make_move<'a, H: Allocator>(
    tiled: &mut Tiled<'a, H>,
    entry: &Entry<&'a H>,
    a: u64,
    b: u64,
    shapes: Vec<Shape<&'a H>, &'a H>,
) -> Result<(), AllocError>
    requires is_move { IsMoveEdit entry.now.edit a b }
    requires is_entry { IsEntryOf (state_of tiled.old) entry.now }
    requires shapes { rings_of_shapes shapes.items ≡ corner_lists entry.now.rows }
    ensures made { OnOk result (IsMade tiled.old tiled.new entry.now) }
    ensures unchanged { OnErr result (tiled.new ≡ tiled.old) }
{
    tiled.use_invariant();
    let (of_a, of_b) = both(shapes);
    tiled.renew(a, b, entry.number(), of_a, of_b)
}

/// Makes an insert or a straightening: a corner is put into rings, or taken out of them.
fn make_change<'a, H: Allocator>(
    tiled: &mut Tiled<'a, H>,
    entry: &Entry<&'a H>,
    change: RingChange,
    shapes: Vec<Shape<&'a H>, &'a H>,
) -> Result<(), AllocError>
    requires is_change { entry.now.edit ≡ edit_of change }
    requires is_entry { IsEntryOf (state_of tiled.old) entry.now }
    requires shapes { rings_of_shapes shapes.items ≡ corner_lists entry.now.rows }
    ensures made { OnOk result (IsMade tiled.old tiled.new entry.now) }
    ensures unchanged { OnErr result (tiled.new ≡ tiled.old) }
{
    tiled.use_invariant();
    tiled.change_rings(change, entry.out(), shapes)
}

/// Makes an edit whose entry is drafted, of which these are the shapes. Where an allocation is
/// refused, nothing has changed.
pub(crate) fn make<'a, H: Allocator>(
    tiled: &mut Tiled<'a, H>,
    entry: &Entry<&'a H>,
    shapes: Vec<Shape<&'a H>, &'a H>,
) -> Result<(), AllocError>
    requires is_entry { IsEntryOf (state_of tiled.old) entry.now }
    requires shapes { rings_of_shapes shapes.items ≡ corner_lists entry.now.rows }
    ensures made { OnOk result (IsMade tiled.old tiled.new entry.now) }
    ensures unchanged { OnErr result (tiled.new ≡ tiled.old) }
{
    match entry.edit() {
        Edit::Split { id, .. } => make_split(tiled, entry, *id, shapes),
        Edit::Merge { a, b } => make_merge(tiled, entry, *a, *b, shapes),
        Edit::Move { a, b, .. } => make_move(tiled, entry, *a, *b, shapes),
        Edit::Insert { from, to, at } => {
            let (from, to, at) = (*from, *to, *at);
            make_change(tiled, entry, RingChange::PutIn { from, to, at }, shapes)
        }
        Edit::Straighten { at } => {
            make_change(tiled, entry, RingChange::TakeOut { at: *at }, shapes)
        }
    }
}
