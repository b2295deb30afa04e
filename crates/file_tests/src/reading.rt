//! Main files alone: what is read, each fault, and the bytes of a reader.

use geo_exact::{
    ByteIn, CoordFault, Corner, Counted, FILE_BYTES, FailAt, LIMIT, RawRing, Unit, area2,
};
use shp_files::{FaultKind, FileFault, FileName, LayerFault, ReadFault, read_all, read_layer};
use std::alloc::{Allocator, Global};
use std::io;
use std::io::Read;
use std::test::Fail;
use test_builders::{
    HUNDRED, ONE, SQUARE, ZERO, behind_a_null_shape, empty_file, put, put_point, square_file,
};

const FAR: [u8; 8] = [0, 0, 0, 0xe8, 0x76, 0x48, 0x37, 0x42];

const MINUS_FAR: [u8; 8] = [0, 0, 0, 0xe8, 0x76, 0x48, 0x37, 0xc2];

/// The square of a thousand millimetres, which a metre and a hundred centimetres are.
const THOUSAND_WIDE: [Corner; 4] = [
    Corner { x: 0, y: 0 },
    Corner { x: 1000, y: 0 },
    Corner { x: 1000, y: 1000 },
    Corner { x: 0, y: 1000 },
];

/// A fault of the main file.
pub fn main_fault(position: u32, place: u64, kind: FaultKind) -> Option<LayerFault> {
    Some(LayerFault::File(FileFault {
        file: FileName::Main,
        position,
        place,
        kind,
    }))
}

fn fault_of(alloc: Global, file: &[u8]) -> Option<LayerFault> {
    read_layer(alloc, file, None, Unit::Mm).err()
}

/// There is one ring, of this number and these corners.
fn is_ring<A: Allocator>(rings: &[RawRing<A>], number: u32, want: &[Corner]) -> bool {
    match rings {
        [ring] => ring.number == number && ring.corners.as_slice() == want,
        _ => false,
    }
}

/// The numbers and corners of a file's rings are these.
fn reads_as(alloc: Global, file: &[u8], unit: Unit, number: u32, want: &[Corner]) -> bool {
    match read_layer(alloc, file, None, unit) {
        Ok(rings) => is_ring(&rings, number, want),
        Err(_) => false,
    }
}

#[test]
fn reads_a_square(rt: HostRuntime) {
    let file = square_file(&ZERO, &HUNDRED);
    assert!(rt; reads_as(rt.alloc(), &file, Unit::Mm, 1, &SQUARE));
    assert_eq!(rt; area2(&SQUARE), 20000);
    assert!(rt; reads_as(rt.alloc(), &file, Unit::Cm, 1, &THOUSAND_WIDE));
    let metre = square_file(&ZERO, &ONE);
    assert!(rt; reads_as(rt.alloc(), &metre, Unit::M, 1, &THOUSAND_WIDE));
    assert_eq!(rt; area2(&THOUSAND_WIDE), 2_000_000);
}

#[test]
fn reads_the_greatest_square(rt: HostRuntime) {
    let want = [
        Corner {
            x: -LIMIT,
            y: -LIMIT,
        },
        Corner {
            x: LIMIT,
            y: -LIMIT,
        },
        Corner { x: LIMIT, y: LIMIT },
        Corner {
            x: -LIMIT,
            y: LIMIT,
        },
    ];
    assert!(rt;
        reads_as(
            rt.alloc(),
            &square_file(&MINUS_FAR, &FAR),
            Unit::Mm,
            1,
            &want
        )
    );
    assert_eq!(rt; area2(&want), 80_000_000_000_000_000_000_000);
}

#[test]
fn reads_past_what_is_not_compared(rt: HostRuntime) {
    let mut longer = [0xff; 243];
    put(&mut longer, 0, &square_file(&ZERO, &HUNDRED));
    assert!(rt; reads_as(rt.alloc(), &longer, Unit::Mm, 1, &SQUARE));
    let mut other = square_file(&ZERO, &HUNDRED);
    put(&mut other, 36, &[0; 32]);
    put(&mut other, 100, &[0, 0, 0, 9]);
    assert!(rt; reads_as(rt.alloc(), &other, Unit::Mm, 1, &SQUARE));
}

/// A counterclockwise square with its second corner written twice in a row.
fn twice() -> [u8; 252] {
    let mut file = [0; 252];
    put(&mut file, 0, &square_file(&ZERO, &HUNDRED));
    put(&mut file, 24, &[0, 0, 0, 126]);
    put(&mut file, 104, &[0, 0, 0, 72]);
    put(&mut file, 148, &[6, 0, 0, 0]);
    put_point(&mut file, 172, &HUNDRED, &ZERO);
    put_point(&mut file, 188, &HUNDRED, &ZERO);
    put_point(&mut file, 204, &HUNDRED, &HUNDRED);
    put_point(&mut file, 220, &ZERO, &HUNDRED);
    put_point(&mut file, 236, &ZERO, &ZERO);
    file
}

#[test]
fn keeps_equal_neighbours_once(rt: HostRuntime) {
    assert!(rt; reads_as(rt.alloc(), &twice(), Unit::Mm, 1, &SQUARE));
    let mut few = square_file(&ZERO, &HUNDRED);
    put_point(&mut few, 188, &ZERO, &ZERO);
    put_point(&mut few, 204, &ZERO, &ZERO);
    assert_eq!(rt;
        fault_of(rt.alloc(), &few),
        main_fault(1, 148, FaultKind::FewPoints)
    );
}

#[test]
fn counts_null_shapes(rt: HostRuntime) {
    let mut file = behind_a_null_shape();
    assert!(rt; reads_as(rt.alloc(), &file, Unit::Mm, 2, &SQUARE));
    put(&mut file, 104, &[0, 0, 0, 3]);
    assert_eq!(rt;
        fault_of(rt.alloc(), &file),
        main_fault(1, 104, FaultKind::Content)
    );
}

#[test]
fn refuses_each_cut(rt: HostRuntime) {
    let file = square_file(&ZERO, &HUNDRED);
    for size in 0..236usize {
        assert_eq!(rt;
            fault_of(rt.alloc(), &file[..size]),
            main_fault(0, size as u64, FaultKind::Short),
            "at {size}"
        );
    }
}

/// Bytes of a file that are others, each under its place.
pub type Bytes = &'static [(usize, u8)];

/// Exchanges bytes of a file.
pub fn patch(file: &mut [u8], bytes: Bytes) {
    for (at, byte) in bytes {
        if let Some(place) = file.get_mut(*at) {
            *place = *byte;
        }
    }
}

/// Bytes that are others in the square's file, and the record's fault then, with its place.
type PatchRow = (Bytes, u64, FaultKind);

static PATCHES: [PatchRow; 3] = [
    (&[(144, 2)], 144, FaultKind::Parts),
    (&[(234, 0xf0), (235, 0x3f)], 220, FaultKind::NotClosed),
    (
        &[(162, 0xf0), (163, 0x7f)],
        156,
        FaultKind::Coord(CoordFault::NotNumber),
    ),
];

/// What the square's file is answered with a row's bytes in it.
fn fault_of_row(alloc: Global, row: &PatchRow) -> Option<LayerFault> {
    let mut file = square_file(&ZERO, &HUNDRED);
    patch(&mut file, row.0);
    fault_of(alloc, &file)
}

#[test]
fn refuses_patches(rt: HostRuntime) {
    for row in &PATCHES {
        let want = main_fault(1, row.1, row.2);
        assert_eq!(rt; fault_of_row(rt.alloc(), row), want, "at {}", row.1);
    }
}

#[test]
fn reads_a_header_alone(rt: HostRuntime) -> Result<(), Fail> {
    let rings = read_layer(rt.alloc(), &empty_file(), None, Unit::Mm)
        .ok()
        .ok_or("the file is a layer")?;
    assert_eq!(rt; rings.len(), 0);
    Ok(())
}

#[test]
fn reads_all_bytes(rt: HostRuntime) -> Result<(), Fail> {
    let mut reader = Counted::new(&b"a ring"[..]);
    let bytes = read_all(rt.alloc(), &mut reader)
        .ok()
        .ok_or("the bytes are read")?;
    assert_eq!(rt; bytes.as_slice(), &b"a ring"[..]);
    for (call, want) in [(1u64, true), (2, true), (3, false)] {
        let mut reader = FailAt::new(Counted::new(&b"a ring"[..]), call);
        let fault = read_all(rt.alloc(), &mut reader).err();
        assert_eq!(rt; fault == Some(ReadFault::Device), want, "at {call}");
        assert_eq!(rt; reader.failures() == 1, want, "at {call}");
    }
    Ok(())
}

#[test]
fn reads_no_more_than_the_limit(rt: HostRuntime) {
    let mut most = Counted::new(io::repeat(7).take(67_108_864));
    assert_eq!(rt;
        read_all(rt.alloc(), &mut most).map_or(0, |bytes| bytes.len()),
        FILE_BYTES
    );
    let mut more = Counted::new(io::repeat(7).take(67_108_865));
    assert_eq!(rt;
        read_all(rt.alloc(), &mut more).err(),
        Some(ReadFault::TooLong)
    );
}
