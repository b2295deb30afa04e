//! Each allocation of an edit refused in turn: its answer is want of memory, and with
//! memory the same call gives its rings.

use refusing_alloc::Refusing;
use ring_edits::{Edit, EditFault, insert, merge, put_into, shift, split, straighten, take_out};
use std::alloc::{Allocator, Global};
use std::test::Fail;
use test_builders::{Place, corner, corners, simple_ring};

/// No call here makes so many allocations.
const MOST: u64 = 100;

const WEST: [Place; 4] = [(0, 0), (60, 0), (60, 100), (0, 100)];

const SOUTH: [Place; 5] = [(0, 0), (30, 0), (60, 0), (60, 100), (0, 100)];

const EAST: [Place; 4] = [(60, 0), (100, 0), (100, 100), (60, 100)];

const PATH: [Place; 3] = [(60, 0), (40, 50), (60, 100)];

/// The heap of the tests here.
type Heap = Refusing<Global>;

/// Whether an allocation was refused. The answer has to be want of memory exactly then, and else no fault.
fn told(is_refused: bool, fault: Option<EditFault>) -> Result<bool, Fail> {
    match (is_refused, fault) {
        (true, Some(EditFault::NoMemory)) => Ok(true),
        (false, None) => Ok(false),
        _ => Err(Fail::new("another answer")),
    }
}

/// What a call with allocation `number` refused is answered: whether that allocation was made.
#[derive(Clone, Copy)]
enum Call {
    Split,
    Merge,
    Shift,
    Insert,
    PutInto,
    Straighten,
    TakeOut,
}

fn splits(heap: &Heap, number: u64) -> Result<bool, Fail> {
    let ring = corners(heap, &WEST)?;
    let path = corners(heap, &PATH)?;
    heap.refuse(number);
    let answer = split(heap, ring.as_slice(), path.as_slice());
    let is_refused = heap.is_spent();
    heap.refuse(0);
    match answer {
        Ok(_) => told(is_refused, None),
        Err(fault) => told(is_refused, Some(fault)),
    }
}

fn merges(heap: &Heap, number: u64) -> Result<bool, Fail> {
    let west = simple_ring(heap, &WEST)?;
    let east = simple_ring(heap, &EAST)?;
    heap.refuse(number);
    let answer = merge(heap, west.corners.as_slice(), east.corners.as_slice());
    let is_refused = heap.is_spent();
    heap.refuse(0);
    match answer {
        Ok(_) => told(is_refused, None),
        Err(fault) => told(is_refused, Some(fault)),
    }
}

fn shifts(heap: &Heap, number: u64) -> Result<bool, Fail> {
    let west = simple_ring(heap, &WEST)?;
    let east = simple_ring(heap, &EAST)?;
    let path = corners(heap, &PATH)?;
    heap.refuse(number);
    let answer = shift(
        heap,
        west.corners.as_slice(),
        east.corners.as_slice(),
        path.as_slice(),
    );
    let is_refused = heap.is_spent();
    heap.refuse(0);
    match answer {
        Ok(_) => told(is_refused, None),
        Err(fault) => told(is_refused, Some(fault)),
    }
}

fn inserts(heap: &Heap, number: u64, is_put: bool) -> Result<bool, Fail> {
    let ring = corners(heap, &WEST)?;
    let (from, to, at) = (corner((0, 0))?, corner((60, 0))?, corner((30, 0))?);
    heap.refuse(number);
    let answer = if is_put {
        put_into(heap, ring.as_slice(), from, to, at)
    } else {
        insert(heap, ring.as_slice(), from, to, at)
    };
    let is_refused = heap.is_spent();
    heap.refuse(0);
    match answer {
        Ok(_) => told(is_refused, None),
        Err(_) => told(is_refused, Some(EditFault::NoMemory)),
    }
}

fn straightens(heap: &Heap, number: u64, is_taken: bool) -> Result<bool, Fail> {
    let ring = corners(heap, &SOUTH)?;
    let at = corner((30, 0))?;
    heap.refuse(number);
    let answer = if is_taken {
        take_out(heap, ring.as_slice(), at)
    } else {
        straighten(heap, ring.as_slice(), at)
    };
    let is_refused = heap.is_spent();
    heap.refuse(0);
    match answer {
        Ok(_) => told(is_refused, None),
        Err(_) => told(is_refused, Some(EditFault::NoMemory)),
    }
}

fn is_refused(heap: &Heap, call: Call, number: u64) -> Result<bool, Fail> {
    match call {
        Call::Split => splits(heap, number),
        Call::Merge => merges(heap, number),
        Call::Shift => shifts(heap, number),
        Call::Insert => inserts(heap, number, false),
        Call::PutInto => inserts(heap, number, true),
        Call::Straighten => straightens(heap, number, false),
        Call::TakeOut => straightens(heap, number, true),
    }
}

/// How many allocations a call makes.
fn allocations(heap: &Heap, call: Call) -> Result<u64, Fail> {
    for number in 1..MOST {
        if !is_refused(heap, call, number)? {
            return Ok(number - 1);
        }
    }
    Err(Fail::new("each allocation was refused"))
}

#[test]
fn each_allocation(rt: HostRuntime) -> Result<(), Fail> {
    let heap = Refusing::new(rt.alloc(), 0);
    assert!(rt; allocations(&heap, Call::Split)? >= 3);
    assert!(rt; allocations(&heap, Call::Merge)? >= 1);
    assert!(rt; allocations(&heap, Call::Shift)? >= 3);
    assert!(rt; allocations(&heap, Call::Insert)? >= 1);
    // room for the whole ring is made at once
    assert_eq!(rt; allocations(&heap, Call::PutInto)?, 1);
    assert!(rt; allocations(&heap, Call::Straighten)? >= 1);
    assert_eq!(rt; allocations(&heap, Call::TakeOut)?, 1);
    Ok(())
}

/// A ring without the edge, or without the corner, wants no memory.
#[test]
fn no_allocation(rt: HostRuntime) -> Result<(), Fail> {
    let heap = Refusing::new(rt.alloc(), 0);
    let ring = corners(&heap, &WEST)?;
    let (from, off, at) = (corner((0, 0))?, corner((60, 100))?, corner((30, 0))?);
    heap.refuse(1);
    assert!(rt; put_into(&heap, ring.as_slice(), from, off, at)?.is_none());
    assert!(rt; take_out(&heap, ring.as_slice(), at)?.is_none());
    assert!(rt; !heap.is_spent());
    Ok(())
}

/// A moved border between two parcels.
fn move_of<A: Allocator>(alloc: A, a: u64, b: u64) -> Result<Edit<A>, Fail> {
    let path = corners(alloc, &PATH)?;
    Ok(Edit::Move { a, b, path })
}

#[test]
fn copies_of_edits(rt: HostRuntime) -> Result<(), Fail> {
    let heap = Refusing::new(rt.alloc(), 0);
    let edit = move_of(&heap, 1, 2)?;
    heap.refuse(1);
    assert!(rt; edit.clone().is_err());
    heap.refuse(0);
    assert!(rt; edit.clone()? == edit);
    assert!(rt; edit != move_of(&heap, 2, 1)?);
    assert!(rt; edit != Edit::Merge { a: 1, b: 2 });
    Ok(())
}
