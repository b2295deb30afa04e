//! Three boxes in an area of 100 by 100 millimetres, whose cells are 2 wide and high: two that lie
//! along its south side, and one that stands in too many cells to be kept in them.

use cell_index::{CellIndex, IndexEntry};
use geo_exact::{Bounds, Corner};
use refusing_alloc::Refusing;
use std::alloc::{AllocError, Allocator};
use std::test::Fail;
use test_builders::{Place, corner};

/// No call here makes so many allocations.
const MOST: u64 = 100;

/// The area.
const AREA: Bounds = Bounds {
    low: Corner { x: 0, y: 0 },
    high: Corner { x: 100, y: 100 },
};

/// What three parcels have: south, from x 0 to 60 and from x 60 to 100, and all of the rest.
const PARCELS: [IndexEntry; 3] = [
    IndexEntry {
        key: 1,
        bounds: Bounds {
            low: Corner { x: 0, y: 0 },
            high: Corner { x: 60, y: 4 },
        },
    },
    IndexEntry {
        key: 2,
        bounds: Bounds {
            low: Corner { x: 60, y: 0 },
            high: Corner { x: 100, y: 4 },
        },
    },
    IndexEntry {
        key: 3,
        bounds: Bounds {
            low: Corner { x: 0, y: 10 },
            high: Corner { x: 100, y: 100 },
        },
    },
];

/// What comes in place of the first and the third: four in the cell of one corner, and four that are
/// wide.
const COMING: [IndexEntry; 8] = [
    IndexEntry {
        key: 4,
        bounds: Bounds {
            low: Corner { x: 61, y: 5 },
            high: Corner { x: 61, y: 5 },
        },
    },
    IndexEntry {
        key: 5,
        bounds: Bounds {
            low: Corner { x: 0, y: 10 },
            high: Corner { x: 100, y: 100 },
        },
    },
    IndexEntry {
        key: 6,
        bounds: Bounds {
            low: Corner { x: 61, y: 5 },
            high: Corner { x: 61, y: 5 },
        },
    },
    IndexEntry {
        key: 7,
        bounds: Bounds {
            low: Corner { x: 0, y: 0 },
            high: Corner { x: 100, y: 100 },
        },
    },
    IndexEntry {
        key: 8,
        bounds: Bounds {
            low: Corner { x: 61, y: 5 },
            high: Corner { x: 61, y: 5 },
        },
    },
    IndexEntry {
        key: 9,
        bounds: Bounds {
            low: Corner { x: 0, y: 0 },
            high: Corner { x: 60, y: 100 },
        },
    },
    IndexEntry {
        key: 10,
        bounds: Bounds {
            low: Corner { x: 61, y: 5 },
            high: Corner { x: 61, y: 5 },
        },
    },
    IndexEntry {
        key: 11,
        bounds: Bounds {
            low: Corner { x: 0, y: 0 },
            high: Corner { x: 100, y: 60 },
        },
    },
];

fn filled<'a, H: Allocator>(heap: &'a H) -> Result<CellIndex<'a, H>, Fail> {
    let mut index = CellIndex::new(heap, AREA)?;
    for parcel in &PARCELS {
        index.add(*parcel)?;
    }
    Ok(index)
}

/// Whether the keys that are kept in the cell of a place are those that are wanted; a place that is
/// not in the area has none.
fn kept_at<'a, H: Allocator>(
    index: &CellIndex<'a, H>,
    place: Place,
    want: &[usize],
) -> Result<bool, Fail> {
    let corner = corner(place)?;
    if !index.area().holds(corner) {
        return Ok(want.is_empty());
    }
    Ok(are_keys(index.at(corner), want))
}

/// Whether the entries have these keys, in this order.
fn are_keys(entries: &[IndexEntry], want: &[usize]) -> bool {
    if entries.len() != want.len() {
        return false;
    }
    for (entry, key) in entries.iter().zip(want) {
        if entry.key != *key {
            return false;
        }
    }
    true
}

/// A place, and the keys that are kept in its cell.
type KeptRow = (Place, &'static [usize]);

/// Whether each place's keys are kept there.
fn are_kept<'a, H: Allocator>(index: &CellIndex<'a, H>, rows: &[KeptRow]) -> Result<bool, Fail> {
    for (place, want) in rows {
        if !kept_at(index, *place, want)? {
            return Ok(false);
        }
    }
    Ok(true)
}

/// Whether each place's keys are kept there, and these beside the cells.
fn are_all_kept<'a, H: Allocator>(
    index: &CellIndex<'a, H>,
    rows: &[KeptRow],
    beside: &[usize],
) -> Result<bool, Fail> {
    Ok(are_kept(index, rows)? && are_keys(index.beside(), beside))
}

/// Of the three parcels.
static KEPT: [KeptRow; 8] = [
    ((0, 0), &[1]),
    ((59, 5), &[1]),
    ((60, 0), &[1, 2]),
    ((61, 5), &[1, 2]),
    ((62, 5), &[2]),
    ((100, 4), &[2]),
    ((0, 6), &[]),
    ((50, 50), &[]),
];

/// Without the first of them.
static KEPT_LATER: [KeptRow; 2] = [((0, 0), &[]), ((61, 5), &[2])];

/// Whether the first and the third of the parcels are kept where they are, and are not when they are taken out.
fn are_taken_out<'a, H: Allocator>(index: &mut CellIndex<'a, H>) -> Result<bool, Fail> {
    let [first, _, third] = PARCELS;
    let are_there = are_all_kept(index, &KEPT, &[3])?;
    index.remove(first);
    let are_left = are_kept(index, &KEPT_LATER)?;
    index.remove(third);
    Ok(are_there && are_left && are_keys(index.beside(), &[]))
}

#[test]
fn what_is_kept_in_a_cell(rt: HostRuntime) -> Result<(), Fail> {
    let heap = rt.alloc();
    let mut index = filled(&heap)?;
    assert!(rt; are_taken_out(&mut index)?);
    Ok(())
}

/// Two corners, and the keys of what stands between their cells.
type BetweenRow = (Place, Place, &'static [usize]);

static BETWEEN: [BetweenRow; 9] = [
    ((0, 0), (10, 3), &[1]),
    ((50, 0), (59, 9), &[1]),
    ((60, 0), (60, 0), &[1, 2]),
    ((61, 5), (61, 5), &[1, 2]),
    ((0, 0), (100, 9), &[1, 2]),
    ((0, 0), (100, 10), &[1, 2, 3]),
    ((62, 0), (100, 100), &[2, 3]),
    ((0, 12), (5, 14), &[3]),
    ((200, 200), (300, 300), &[3]),
];

/// Whether the keys of a row are found.
fn are_between<'a, H: Allocator>(index: &CellIndex<'a, H>, row: &BetweenRow) -> Result<bool, Fail> {
    let (low, high) = (corner(row.0)?, corner(row.1)?);
    let keys = index.between(low, high)?;
    Ok(keys.as_slice() == row.2)
}

/// Whether the keys of each row are.
fn are_all_between<'a, H: Allocator>(index: &CellIndex<'a, H>) -> Result<bool, Fail> {
    for row in &BETWEEN {
        if !are_between(index, row)? {
            return Ok(false);
        }
    }
    Ok(true)
}

#[test]
fn what_stands_between_two_corners(rt: HostRuntime) -> Result<(), Fail> {
    let heap = rt.alloc();
    let index = filled(&heap)?;
    assert!(rt; are_all_between(&index)?);
    Ok(())
}

/// After the change.
static CHANGED: [KeptRow; 2] = [((0, 0), &[]), ((61, 5), &[2, 4, 6, 8, 10])];

/// Whether a copy stays as it was when the first and the third parcel are exchanged in the index.
fn is_changed<'a, H: Allocator>(
    index: &mut CellIndex<'a, H>,
    copy: &CellIndex<'a, H>,
) -> Result<bool, Fail> {
    let [first, _, third] = PARCELS;
    index.change(&[first, third], &COMING)?;
    Ok(
        are_all_kept(index, &CHANGED, &[5, 7, 9, 11])?
            && are_all_kept(copy, &[((61, 5), &[1, 2])], &[3])?,
    )
}

#[test]
fn what_is_changed_and_copied(rt: HostRuntime) -> Result<(), Fail> {
    let heap = rt.alloc();
    let mut index = filled(&heap)?;
    let copy = index.clone()?;
    assert!(rt; is_changed(&mut index, &copy)?);
    Ok(())
}

#[test]
fn each_allocation_of_a_change_refused(rt: HostRuntime) -> Result<(), Fail> {
    let heap = Refusing::new(rt.alloc(), 0);
    let [first, _, third] = PARCELS;
    let mut refused = 0;
    for number in 1..MOST {
        let mut index = filled(&heap)?;
        heap.refuse(number);
        let changed = index.change(&[first, third], &COMING);
        let spent = heap.is_spent();
        heap.refuse(0);
        assert_eq!(rt; changed.is_err(), spent);
        if !spent {
            assert!(rt; kept_at(&index, (61, 5), &[2, 4, 6, 8, 10])?);
            break;
        }
        refused = number;
        assert!(rt; kept_at(&index, (61, 5), &[1, 2])?);
        assert!(rt; are_keys(index.beside(), &[3]));
    }
    assert!(rt; refused > 0);
    Ok(())
}

#[test]
fn each_allocation_of_a_copy_refused(rt: HostRuntime) -> Result<(), Fail> {
    let heap = Refusing::new(rt.alloc(), 0);
    let mut index = filled(&heap)?;
    index.change(&[], &COMING)?;
    let mut refused = 0;
    for number in 1..MOST {
        heap.refuse(number);
        let copied: Result<_, AllocError> = index.clone();
        let spent = heap.is_spent();
        heap.refuse(0);
        assert_eq!(rt; copied.is_err(), spent);
        if !spent {
            break;
        }
        refused = number;
    }
    assert!(rt; refused > 1);
    Ok(())
}

#[test]
fn each_allocation_refused(rt: HostRuntime) -> Result<(), Fail> {
    let heap = Refusing::new(rt.alloc(), 0);
    let mut refused = 0;
    for number in 1..MOST {
        let mut index = filled(&heap)?;
        heap.refuse(number);
        let grown = grow(&mut index);
        let spent = heap.is_spent();
        heap.refuse(0);
        assert_eq!(rt; grown.is_err(), spent);
        if !spent {
            assert!(rt; kept_at(&index, (61, 5), &[1, 2, 3, 4, 5, 6])?);
            break;
        }
        refused = number;
        let keys = index.between(corner((0, 0))?, corner((9, 9))?)?;
        assert_eq!(rt; keys.len(), 1);
    }
    assert!(rt; refused > 0);
    Ok(())
}

/// Adds four entries with the box of one cell, which holds no more than four without an allocation.
fn grow<'a, H: Allocator>(index: &mut CellIndex<'a, H>) -> Result<(), AllocError> {
    let place = Corner { x: 61, y: 5 };
    for key in 3..7 {
        index.add(IndexEntry {
            key,
            bounds: Bounds::of_corner(place),
        })?;
    }
    Ok(())
}
