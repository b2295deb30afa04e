//! Three strips under the ids 0, 2 and 5, and what becomes of them.

use parcel_table::{Fate, Parcels};
use refusing_alloc::Refusing;
use ring_core::Shape;
use std::alloc::{AllocError, Allocator, Global};
use std::test::Fail;
use test_builders::{rectangle, ring_of, shape_of};

/// No call here makes so many allocations.
const MOST: u64 = 100;

/// A parcel's id, and the x at which its strip begins.
type Row = (u64, i64);

const STRIPS: [Row; 3] = [(0, 0), (2, 20), (5, 50)];

/// What is done, the parcels after it, and the next key.
static CHANGES: [(Change, &[Row], usize); 4] = [
    (Change::Retire(2, 7), &[(0, 0), (5, 50)], 1),
    (Change::Push(20), &[(0, 0), (5, 50), (6, 20)], 3),
    (Change::Succeed(0, 8, 5), &[(5, 50), (6, 20), (7, 5)], 3),
    (Change::Replace(5, 40), &[(5, 40), (6, 20), (7, 5)], 3),
];

/// What became of the ids from 0 on, after all that.
const FATES: [Fate; 9] = [
    Fate::Retired(8),
    Fate::Unknown,
    Fate::Retired(7),
    Fate::Unknown,
    Fate::Unknown,
    Fate::Here(2),
    Fate::Here(1),
    Fate::Here(0),
    Fate::Unknown,
];

/// A change of a table. Strips are given by the x at which they begin.
#[derive(Clone, Copy)]
enum Change {
    /// The parcel with this id is retired by this number.
    Retire(u64, u64),
    /// A strip is put in.
    Push(i64),
    /// The parcel with this id is retired by this number, and a strip succeeds it.
    Succeed(u64, u64, i64),
    /// The parcel with this id gets another strip.
    Replace(u64, i64),
}

/// The strip from an x to 99.
fn strip<A: Allocator + Copy>(alloc: A, x: i64) -> Result<Shape<A>, Fail> {
    shape_of(alloc, ring_of(rectangle(alloc, (x, 99), (0, 10))?)?)
}

fn filled<A: Allocator + Copy>(alloc: A) -> Result<Parcels<A>, Fail> {
    let mut parcels = Parcels::with_capacity(alloc, 3)?;
    for (id, x) in STRIPS {
        let shape = strip(alloc, x)?;
        if id < parcels.next_id() {
            return Err(Fail::new("an id that was given out"));
        }
        parcels.push(id, shape)?;
    }
    Ok(parcels)
}

fn retire<A: Allocator>(parcels: &mut Parcels<A>, id: u64, by: u64) -> Result<(), Fail> {
    if let Fate::Here(_) = parcels.fate(id) {
        parcels.retire(id, by);
        return Ok(());
    }
    Err(Fail::new("no parcel to retire"))
}

fn push<A: Allocator + Copy>(parcels: &mut Parcels<A>, x: i64) -> Result<(), Fail> {
    let shape = strip(parcels.allocator(), x)?;
    parcels.reserve(1)?;
    parcels.push_reserved(shape);
    Ok(())
}

fn succeed<A: Allocator + Copy>(
    parcels: &mut Parcels<A>,
    id: u64,
    by: u64,
    x: i64,
) -> Result<(), Fail> {
    let shape = strip(parcels.allocator(), x)?;
    parcels.reserve(1)?;
    if let Fate::Here(_) = parcels.fate(id) {
        parcels.succeed(id, by, shape);
        return Ok(());
    }
    Err(Fail::new("no parcel to succeed"))
}

fn replace<A: Allocator + Copy>(parcels: &mut Parcels<A>, id: u64, x: i64) -> Result<(), Fail> {
    let shape = strip(parcels.allocator(), x)?;
    if let Fate::Here(_) = parcels.fate(id) {
        parcels.replace(id, shape);
        return Ok(());
    }
    Err(Fail::new("no parcel to replace"))
}

fn apply<A: Allocator + Copy>(parcels: &mut Parcels<A>, change: Change) -> Result<(), Fail> {
    match change {
        Change::Retire(id, by) => retire(parcels, id, by),
        Change::Push(x) => push(parcels, x),
        Change::Succeed(id, by, x) => succeed(parcels, id, by, x),
        Change::Replace(id, x) => replace(parcels, id, x),
    }
}

/// Whether these are the parcels, in order, and this is the next key.
fn are<A: Allocator>(parcels: &Parcels<A>, want: &[Row], key: usize) -> bool {
    if parcels.len() != want.len() || parcels.vacant_key() != key {
        return false;
    }
    for ((id, shape), row) in parcels.shapes().zip(want) {
        if id != row.0 || shape.bounds.low.x != row.1 {
            return false;
        }
    }
    true
}

/// Whether these are the fates of the ids from 0 on.
fn have_fates<A: Allocator>(parcels: &Parcels<A>, want: &[Fate]) -> bool {
    for (id, fate) in (0..100u64).zip(want) {
        if parcels.fate(id) != *fate {
            return false;
        }
    }
    true
}

/// Whether the parcels of these ids, from 0 on, stand under the keys that are told, and none under the key 3.
fn are_under_keys<A: Allocator>(parcels: &Parcels<A>, want: &[Fate]) -> bool {
    for (id, fate) in (0..100u64).zip(want) {
        if let Fate::Here(key) = fate {
            match parcels.get(*key) {
                Some(parcel) if parcel.id == id => {}
                _ => return false,
            }
        }
    }
    parcels.get(3).is_none()
}

/// Whether the parcels are, after each change in turn, those that stand behind it.
fn are_changed<A: Allocator + Copy>(parcels: &mut Parcels<A>) -> Result<bool, Fail> {
    for (change, rows, key) in &CHANGES {
        apply(parcels, *change)?;
        if !are(parcels, rows, *key) {
            return Ok(false);
        }
    }
    Ok(true)
}

/// Whether the three strips are changed in turn, with these fates and keys at last, and 8 as the next id.
fn is_each_change_made<A: Allocator + Copy>(alloc: A) -> Result<bool, Fail> {
    let mut parcels = filled(alloc)?;
    Ok(
        are(&parcels, &STRIPS, 3)
            && are_changed(&mut parcels)?
            && have_fates(&parcels, &FATES)
            && are_under_keys(&parcels, &FATES)
            && parcels.next_id() == 8,
    )
}

#[test]
fn each_change(rt: HostRuntime) -> Result<(), Fail> {
    assert!(rt; is_each_change_made(rt.alloc())?);
    Ok(())
}

/// A copy of the parcels, one of which is changed behind it.
fn copied<A: Allocator + Copy>(parcels: &mut Parcels<A>) -> Result<Parcels<A>, Fail> {
    retire(parcels, 2, 7)?;
    let copy = parcels.clone()?;
    succeed(parcels, 0, 8, 5)?;
    Ok(copy)
}

/// Whether a copy has what there was when it was made.
fn does_a_copy_stay<A: Allocator + Copy>(alloc: A) -> Result<bool, Fail> {
    let mut parcels = filled(alloc)?;
    let copy = copied(&mut parcels)?;
    let fates = [Fate::Here(0), Fate::Unknown, Fate::Retired(7)];
    Ok(are(&copy, &[(0, 0), (5, 50)], 1) && have_fates(&copy, &fates))
}

#[test]
fn a_copy_stays(rt: HostRuntime) -> Result<(), Fail> {
    assert!(rt; does_a_copy_stay(rt.alloc())?);
    Ok(())
}

/// Makes room, for the parcels and for their ids; then copies all; then puts a parcel in, for whose
/// id there is no room.
fn grow<A: Allocator + Copy>(parcels: &mut Parcels<A>, shape: Shape<A>) -> Result<(), AllocError> {
    parcels.reserve(40)?;
    let _copy = parcels.clone()?;
    if parcels.next_id() <= 200 {
        parcels.push(200, shape)?;
    }
    Ok(())
}

/// Whether the allocation of this number was refused; the parcels are then as before.
fn refuses(heap: &Refusing<Global>, number: u64) -> Result<bool, Fail> {
    let mut parcels = filled(heap)?;
    let shape = strip(heap, 90)?;
    heap.refuse(number);
    let grown = grow(&mut parcels, shape);
    let spent = heap.is_spent();
    heap.refuse(0);
    if grown.is_err() != spent || are(&parcels, &STRIPS, 3) != spent {
        return Err(Fail::new("another answer than that of the heap"));
    }
    Ok(spent)
}

#[test]
fn each_allocation_refused(rt: HostRuntime) -> Result<(), Fail> {
    let heap = Refusing::new(rt.alloc(), 0);
    let mut refused = 0;
    for number in 1..MOST {
        if !refuses(&heap, number)? {
            break;
        }
        refused = number;
    }
    // two for the room, three or more for the copy, one for the push
    assert!(rt; refused > 5);
    Ok(())
}
