//! Each allocation of a call refused in turn: its answer is want of memory, and with memory the same
//! call gives the answer that it has to give.

use crate::write_rows::{INDEX, MAIN};
use geo_exact::{ByteIn, Counted, Unit};
use refusing_alloc::Refusing;
use shp_files::{LayerFault, ReadFault, read_all, read_layer, write_layer};
use std::alloc::Global;
use std::io;
use std::io::Read;
use std::test::Fail;
use test_builders::SQUARE;

/// No call here makes so many allocations.
const MOST: u64 = 1000;

/// The heap of the tests here.
type Heap = Refusing<Global>;

/// The square is read, or allocation `number` is refused, and then it is read with memory; whether it was refused.
fn is_reading_refused(heap: &Heap, number: u64, index: Option<&[u8]>) -> Result<bool, Fail> {
    heap.refuse(number);
    let read = read_layer(heap, &MAIN, index, Unit::Mm);
    let is_refused = heap.is_spent();
    heap.refuse(0);
    if is_refused != matches!(read, Err(LayerFault::NoMemory)) {
        return Err(Fail::new("a refusal is told as want of memory, and nothing else is"));
    }
    let rings = match read {
        Ok(rings) => rings,
        Err(_) => read_layer(heap, &MAIN, index, Unit::Mm)?,
    };
    if rings.len() != 1 || rings[0].number != 1 || rings[0].corners.as_slice() != &SQUARE[..] {
        return Err(Fail::new("not the square"));
    }
    Ok(is_refused)
}

#[test]
fn reading_a_layer(rt: HostRuntime) -> Result<(), Fail> {
    let heap = Refusing::new(rt.alloc(), 0);
    for index in [None, Some(&INDEX[..])] {
        let mut refused = 0;
        for number in 1..MOST {
            if !is_reading_refused(&heap, number, index)? {
                break;
            }
            refused = number;
        }
        assert!(rt; 0 < refused && refused < MOST - 1);
    }
    Ok(())
}

/// The square is written, or allocation `number` is refused, and then it is written
/// with memory; whether it was refused.
fn is_writing_refused(heap: &Heap, number: u64) -> Result<bool, Fail> {
    let Some(ring) = read_layer(heap, &MAIN, None, Unit::Mm)?.pop() else {
        return Err(Fail::new("no ring"));
    };
    let rings = [ring];
    heap.refuse(number);
    let written = write_layer(heap, &rings);
    let is_refused = heap.is_spent();
    heap.refuse(0);
    if written.is_err() != is_refused {
        return Err(Fail::new("a refusal is told, and nothing else is"));
    }
    let (main, index) = match written {
        Ok(files) => files,
        Err(_) => write_layer(heap, &rings)?,
    };
    if main.as_slice() != MAIN.as_slice() || index.as_slice() != INDEX.as_slice() {
        return Err(Fail::new("other bytes"));
    }
    Ok(is_refused)
}

#[test]
fn writing_a_layer(rt: HostRuntime) -> Result<(), Fail> {
    let heap = Refusing::new(rt.alloc(), 0);
    for number in 1..MOST {
        if !is_writing_refused(&heap, number)? {
            assert!(rt; number > 2);
            return Ok(());
        }
    }
    Err(Fail::new("each allocation was refused"))
}

/// A reader of 100,000 bytes is read, in seven pulls, or allocation `number` is refused, and then it is
/// read with memory; whether it was refused.
fn are_all_bytes_refused(heap: &Heap, number: u64) -> Result<bool, Fail> {
    let mut reader = Counted::new(io::repeat(7).take(100_000));
    heap.refuse(number);
    let read = read_all(heap, &mut reader);
    let is_refused = heap.is_spent();
    heap.refuse(0);
    if ByteIn::failures(&reader) != 0 || is_refused != matches!(read, Err(ReadFault::NoMemory)) {
        return Err(Fail::new("a refusal is told as want of memory, and nothing else is"));
    }
    let bytes = match read {
        Ok(bytes) => bytes,
        Err(_) => read_all(heap, &mut Counted::new(io::repeat(7).take(100_000)))?,
    };
    if bytes.len() != 100_000 || !bytes.iter().all(|byte| *byte == 7) {
        return Err(Fail::new("other bytes"));
    }
    Ok(is_refused)
}

#[test]
fn reading_all_bytes(rt: HostRuntime) -> Result<(), Fail> {
    let heap = Refusing::new(rt.alloc(), 0);
    for number in 1..MOST {
        if !are_all_bytes_refused(&heap, number)? {
            assert!(rt; number > 2);
            return Ok(());
        }
    }
    Err(Fail::new("each allocation was refused"))
}
