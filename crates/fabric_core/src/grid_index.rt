//! The parcels of shapes, with the index of their boxes.

ghost use Rattle.std.specs.Prelude.{◌≡◌, ◌≤◌, ◌^◌, ℕ, None, length, IfOk};
ghost use Rattle.std.specs.List.Sorted.{IsStrictlyIncreasing};
ghost use Rattle.cell_index.specs.Cells.{Indexes};
ghost use Rattle.fabric_core.specs.own.Lists.{numbered_rows, corners_of_shapes};
ghost use Rattle.parcel_table.specs.Table.{rows_of_keyed, entries_of, retired_by};
ghost use Rattle.fabric_core.specs.Journal.{next_after};

use cell_index::{CellIndex, IndexEntry};
use geo_exact::Bounds;
use parcel_table::Parcels;
use ring_core::Shape;
use std::alloc::{AllocError, Allocator};

/// The parcels of shapes under their numbers, and the index of their boxes over an area.
pub(crate) fn enter_all<'a, H: Allocator>(
    heap: &'a H,
    area: Bounds,
    numbers: &[u32],
    shapes: Vec<Shape<&'a H>, &'a H>,
) -> Result<(Parcels<&'a H>, CellIndex<'a, H>), AllocError>
    requires numbered { length numbers.now ≡ length shapes.items }
    requires rising { IsStrictlyIncreasing numbers.now }
    ensures rows { IfOk result (λ kept. rows_of_keyed kept.0.parcels
        ≡ numbered_rows numbers.now (corners_of_shapes shapes.entry.items)) }
    ensures area { IfOk result (λ kept. kept.1.area ≡ area) }
    ensures indexed { IfOk result (λ kept. Indexes kept.1 (entries_of kept.0.parcels)) }
    ensures next { IfOk result (λ kept. kept.0.next ≡ next_after (rows_of_keyed kept.0.parcels) 0) }
    ensures small { IfOk result (λ kept. kept.0.next ≤ 2 ^ 32) }
    ensures none_gone { IfOk result (λ kept. (id : ℕ) → retired_by kept.0 id ≡ None) }
{
    let mut parcels = Parcels::with_capacity(heap, shapes.len())?;
    let mut index = CellIndex::new(heap, area)?;
    for shape in shapes {
        let number = numbers[parcels.len()];
        let bounds = shape.bounds;
        let key = parcels.push(u64::from(number), shape)?;
        index.add(IndexEntry { key, bounds })?;
    }
    Ok((parcels, index))
}
