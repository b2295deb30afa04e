//! The worked examples of index files.

use crate::reading::{Bytes, main_fault, patch};
use crate::write_rows::{INDEX, MAIN};
use geo_exact::Unit;
use shp_files::{FaultKind, FileFault, FileName, LayerFault, read_layer};
use std::alloc::Global;
use test_builders::{
    HUNDRED, SQUARE, ZERO, behind_a_null_shape, empty_file, index_of, put, square_file,
};

/// The index of the square, with eight bytes behind its declared length.
fn index_of_square() -> [u8; 116] {
    index_of(54, (50, 64), (0, 0))
}

fn index_fault(position: u32, place: u64, kind: FaultKind) -> Option<LayerFault> {
    Some(LayerFault::File(FileFault {
        file: FileName::Index,
        position,
        place,
        kind,
    }))
}

fn fault_with(alloc: Global, main: &[u8], index: &[u8]) -> Option<LayerFault> {
    read_layer(alloc, main, Some(index), Unit::Mm).err()
}

/// The files are those of the square alone, in a record of this number.
fn reads_square(alloc: Global, main: &[u8], index: &[u8], number: u32) -> bool {
    match read_layer(alloc, main, Some(index), Unit::Mm) {
        Ok(rings) => match rings.as_slice() {
            [ring] => ring.number == number && ring.corners.as_slice() == SQUARE.as_slice(),
            _ => false,
        },
        Err(_) => false,
    }
}

#[test]
fn reads_a_square_with_its_index(rt: HostRuntime) {
    assert!(rt; reads_square(rt.alloc(), &MAIN, &INDEX, 1));
    assert!(rt; reads_square(rt.alloc(), &MAIN, &index_of_square(), 1));
}

#[test]
fn reads_past_what_is_ignored(rt: HostRuntime) {
    let index = index_of_square();
    let mut longer = [0xff; 243];
    put(&mut longer, 0, &square_file(&ZERO, &HUNDRED));
    assert!(rt; reads_square(rt.alloc(), &longer, &index, 1));
    let mut other = square_file(&ZERO, &HUNDRED);
    put(&mut other, 36, &[0; 32]);
    put(&mut other, 100, &[0, 0, 0, 9]);
    assert!(rt; reads_square(rt.alloc(), &other, &index, 1));
}

/// Which file a fault is in.
#[derive(Clone, Copy)]
enum In {
    Main,
    Index,
}

/// Bytes that are others in the square's main file, and in its index, and the fault then.
type PatchRow = (Bytes, Bytes, In, u32, u64, FaultKind);

/// The last point, no longer the first.
const OPEN: [(usize, u8); 2] = [(234, 0x59), (235, 0x40)];

/// The same, in a file that ends a byte pair too early.
const OPEN_AND_SHORT: [(usize, u8); 3] = [(234, 0x59), (235, 0x40), (27, 119)];

static PATCHES: [PatchRow; 16] = [
    // offsets and lengths
    (
        &[],
        &[(103, 0x33)],
        In::Index,
        1,
        100,
        FaultKind::IndexDisagrees,
    ),
    (
        &[],
        &[(103, 0x64)],
        In::Index,
        1,
        100,
        FaultKind::IndexDisagrees,
    ),
    (
        &[],
        &[(100, 0x80)],
        In::Index,
        1,
        100,
        FaultKind::IndexDisagrees,
    ),
    (
        &[],
        &[(107, 0x41)],
        In::Index,
        1,
        104,
        FaultKind::IndexDisagrees,
    ),
    (
        &[],
        &[(107, 0x44)],
        In::Index,
        1,
        104,
        FaultKind::IndexDisagrees,
    ),
    (
        &[],
        &[(104, 0x80)],
        In::Index,
        1,
        104,
        FaultKind::IndexDisagrees,
    ),
    // the header
    (&[], &[(3, 0x0b)], In::Index, 0, 0, FaultKind::FileCode),
    (&[], &[(27, 49)], In::Index, 0, 24, FaultKind::Short),
    (&[], &[(24, 0x80)], In::Index, 0, 24, FaultKind::Short),
    (&[], &[(28, 0xe9)], In::Index, 0, 28, FaultKind::Version),
    (&[], &[(32, 0)], In::Index, 0, 32, FaultKind::ShapeType),
    (&[], &[(32, 3)], In::Index, 0, 32, FaultKind::ShapeType),
    // the main file is checked first
    (&[], &[(0, 9)], In::Index, 0, 0, FaultKind::FileCode),
    (&OPEN, &[(0, 9)], In::Main, 1, 220, FaultKind::NotClosed),
    (
        &OPEN_AND_SHORT,
        &[(0, 9)],
        In::Main,
        0,
        236,
        FaultKind::Short,
    ),
    (
        &OPEN_AND_SHORT,
        &[(0, 9), (27, 119)],
        In::Main,
        0,
        236,
        FaultKind::Short,
    ),
];

/// Whether the square and its index have the fault of a row.
fn is_fault(alloc: Global, row: &PatchRow) -> bool {
    let mut main = square_file(&ZERO, &HUNDRED);
    let mut index = index_of_square();
    patch(&mut main, row.0);
    patch(&mut index, row.1);
    let want = match row.2 {
        In::Main => main_fault(row.3, row.4, row.5),
        In::Index => index_fault(row.3, row.4, row.5),
    };
    fault_with(alloc, &main, &index) == want
}

#[test]
fn compares_the_index(rt: HostRuntime) {
    for (number, row) in PATCHES.iter().enumerate() {
        assert!(rt; is_fault(rt.alloc(), row), "row {number}");
    }
}

/// A main file.
#[derive(Clone, Copy)]
enum Main {
    Header,
    Square,
    BehindANullShape,
}

/// A main file, an index of so many words with two index records, and the record and the place where they disagree.
type IndexRow = (Main, u8, (u8, u8), (u8, u8), u32, u64);

static INDICES: [IndexRow; 8] = [
    (Main::Header, 54, (50, 64), (0, 0), 1, 100),
    (Main::Square, 58, (50, 64), (118, 64), 2, 108),
    (Main::Square, 50, (50, 64), (118, 64), 1, 100),
    (Main::Square, 52, (50, 64), (118, 64), 1, 100),
    (Main::BehindANullShape, 54, (50, 2), (56, 64), 2, 108),
    (Main::BehindANullShape, 56, (50, 2), (56, 64), 2, 108),
    (Main::BehindANullShape, 58, (50, 2), (52, 64), 2, 108),
    (Main::BehindANullShape, 58, (50, 2), (56, 68), 2, 112),
];

/// What a row's files are answered.
fn fault_of_row(alloc: Global, row: &IndexRow) -> Option<LayerFault> {
    let index = index_of(row.1, row.2, row.3);
    match row.0 {
        Main::Header => fault_with(alloc, &empty_file(), &index),
        Main::Square => fault_with(alloc, &MAIN, &index),
        Main::BehindANullShape => fault_with(alloc, &behind_a_null_shape(), &index),
    }
}

#[test]
fn counts_the_index_records(rt: HostRuntime) {
    for (number, row) in INDICES.iter().enumerate() {
        let want = index_fault(row.4, row.5, FaultKind::IndexDisagrees);
        assert_eq!(rt; fault_of_row(rt.alloc(), row), want, "row {number}");
    }
}

#[test]
fn indexes_null_shapes(rt: HostRuntime) {
    let main = behind_a_null_shape();
    let index = index_of(58, (50, 2), (56, 64));
    assert!(rt; reads_square(rt.alloc(), &main, &index, 2));
}

#[test]
fn refuses_each_cut_of_the_index(rt: HostRuntime) {
    let index = index_of_square();
    for size in 0..108usize {
        assert_eq!(rt;
            fault_with(rt.alloc(), &MAIN, &index[..size]),
            index_fault(0, size as u64, FaultKind::Short),
            "at {size}"
        );
    }
}
