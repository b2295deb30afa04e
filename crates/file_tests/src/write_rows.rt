//! The worked examples of writing.

use geo_exact::Unit;
use shp_files::{read_layer, write_layer};
use test_builders::SQUARE;

/// The main file of a square with sides of 100 millimetres.
pub const MAIN: [u8; 236] = [
    0, 0, 0x27, 0x0a, 0, 0, 0, 0, 0, 0, 0, 0, 0, 0, 0, 0, 0, 0, 0, 0, 0, 0, 0, 0, 0, 0, 0, 0x76,
    0xe8, 0x03, 0, 0, 0x05, 0, 0, 0, 0, 0, 0, 0, 0, 0, 0, 0, 0, 0, 0, 0, 0, 0, 0, 0, 0, 0, 0, 0, 0,
    0, 0x59, 0x40, 0, 0, 0, 0, 0, 0, 0x59, 0x40, 0, 0, 0, 0, 0, 0, 0, 0, 0, 0, 0, 0, 0, 0, 0, 0, 0,
    0, 0, 0, 0, 0, 0, 0, 0, 0, 0, 0, 0, 0, 0, 0, 0, 0, 0, 0x01, 0, 0, 0, 0x40, 0x05, 0, 0, 0, 0, 0,
    0, 0, 0, 0, 0, 0, 0, 0, 0, 0, 0, 0, 0, 0, 0, 0, 0, 0, 0, 0, 0x59, 0x40, 0, 0, 0, 0, 0, 0, 0x59,
    0x40, 0x01, 0, 0, 0, 0x05, 0, 0, 0, 0, 0, 0, 0, 0, 0, 0, 0, 0, 0, 0, 0, 0, 0, 0, 0, 0, 0, 0, 0,
    0, 0, 0, 0, 0, 0, 0, 0, 0, 0, 0, 0, 0, 0, 0x59, 0x40, 0, 0, 0, 0, 0, 0, 0x59, 0x40, 0, 0, 0, 0,
    0, 0, 0x59, 0x40, 0, 0, 0, 0, 0, 0, 0x59, 0x40, 0, 0, 0, 0, 0, 0, 0, 0, 0, 0, 0, 0, 0, 0, 0, 0,
    0, 0, 0, 0, 0, 0, 0, 0,
];

/// Its index file.
pub const INDEX: [u8; 108] = [
    0, 0, 0x27, 0x0a, 0, 0, 0, 0, 0, 0, 0, 0, 0, 0, 0, 0, 0, 0, 0, 0, 0, 0, 0, 0, 0, 0, 0, 0x36,
    0xe8, 0x03, 0, 0, 0x05, 0, 0, 0, 0, 0, 0, 0, 0, 0, 0, 0, 0, 0, 0, 0, 0, 0, 0, 0, 0, 0, 0, 0, 0,
    0, 0x59, 0x40, 0, 0, 0, 0, 0, 0, 0x59, 0x40, 0, 0, 0, 0, 0, 0, 0, 0, 0, 0, 0, 0, 0, 0, 0, 0, 0,
    0, 0, 0, 0, 0, 0, 0, 0, 0, 0, 0, 0, 0, 0, 0, 0, 0, 0, 0x32, 0, 0, 0, 0x40,
];

/// Either file of a layer with no ring.
const EMPTY: [u8; 100] = [
    0, 0, 0x27, 0x0a, 0, 0, 0, 0, 0, 0, 0, 0, 0, 0, 0, 0, 0, 0, 0, 0, 0, 0, 0, 0, 0, 0, 0, 0x32,
    0xe8, 0x03, 0, 0, 0x05, 0, 0, 0, 0, 0, 0, 0, 0, 0, 0, 0, 0, 0, 0, 0, 0, 0, 0, 0, 0, 0, 0, 0, 0,
    0, 0, 0, 0, 0, 0, 0, 0, 0, 0, 0, 0, 0, 0, 0, 0, 0, 0, 0, 0, 0, 0, 0, 0, 0, 0, 0, 0, 0, 0, 0, 0,
    0, 0, 0, 0, 0, 0, 0, 0, 0, 0, 0,
];

#[test]
fn writes_a_square_clockwise(rt: HostRuntime) {
    let mut rings = read_layer(rt.alloc(), &MAIN, None, Unit::Mm).expect(&rt, "the rings");
    let square = rings.pop().expect(&rt, "the ring");
    let (main, index) = write_layer(rt.alloc(), &[square]).expect(&rt, "the files");
    assert_eq!(rt; main.as_slice(), MAIN.as_slice());
    assert_eq!(rt; index.as_slice(), INDEX.as_slice());
}

#[test]
fn reads_what_is_written(rt: HostRuntime) {
    let mut rings = read_layer(rt.alloc(), &MAIN, Some(&INDEX), Unit::Mm).expect(&rt, "the rings");
    let square = rings.pop().expect(&rt, "the ring");
    let (main, index) = write_layer(rt.alloc(), &[square]).expect(&rt, "the files");
    let mut again = read_layer(
        rt.alloc(),
        main.as_slice(),
        Some(index.as_slice()),
        Unit::Mm,
    )
    .expect(&rt, "the rings again");
    let ring = again.pop().expect(&rt, "the ring again");
    assert_eq!(rt; ring.number, 1);
    assert_eq!(rt; ring.corners.as_slice(), SQUARE.as_slice());
    assert_eq!(rt; again.len(), 0);
}

#[test]
fn writes_no_ring(rt: HostRuntime) {
    let (main, index) = write_layer(rt.alloc(), &[]).expect(&rt, "the files");
    assert_eq!(rt; main.as_slice(), EMPTY.as_slice());
    assert_eq!(rt; index.as_slice(), EMPTY.as_slice());
    let rings = read_layer(rt.alloc(), &EMPTY, Some(&EMPTY), Unit::Mm).expect(&rt, "the rings");
    assert_eq!(rt; rings.len(), 0);
}
