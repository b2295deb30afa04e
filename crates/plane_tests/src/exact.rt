//! Coordinates, corners, turns, areas, places on an edge, and bytes in and out.

use geo_exact::{
    ByteIn, ByteOut, CoordFault, Corner, Corners, Counted, FailAt, Failed, LIMIT, Unit, area2,
    on_segment, read_coord, turn, write_coord,
};
use std::alloc::{AllocError, Global};
use std::io;
use std::io::{ErrorKind, Read, Write};
use std::test::Fail;
use test_builders::{Place, corner, corners};

/// A double's bits, its unit, and the coordinate that is read, or why there is none.
type ReadRow = (u64, Unit, Result<i64, CoordFault>);

static READ: [ReadRow; 11] = [
    (0x4028_AE14_7AE1_47AE, Unit::M, Ok(12340)),
    (0x8000_0000_0000_0000, Unit::M, Ok(0)),
    (0x4028_B0A3_D70A_3D71, Unit::M, Ok(12345)),
    (0x3F40_0000_0000_0000, Unit::M, Err(CoordFault::OffGrid)),
    (0x4014_0100_0000_0000, Unit::Cm, Err(CoordFault::OffGrid)),
    (0x4014_0100_0000_0000, Unit::Mm, Ok(5)),
    (0x4014_0100_0000_0001, Unit::Mm, Err(CoordFault::OffGrid)),
    (0x7FF0_0000_0000_0000, Unit::Cm, Err(CoordFault::NotNumber)),
    (0x4202_A05F_2000_0000, Unit::Cm, Ok(100_000_000_000)),
    (0x4202_A05F_2008_0000, Unit::Cm, Err(CoordFault::TooFar)),
    (0x4237_4876_E800_0000, Unit::Mm, Ok(100_000_000_000)),
];

/// Whether a double is read as its row says.
fn is_read(row: &ReadRow) -> bool {
    read_coord(row.0, row.1) == row.2
}

#[test]
fn reads_doubles(rt: HostRuntime) {
    for row in &READ {
        assert!(rt; is_read(row), "at {:x}", row.0);
    }
}

/// A coordinate, and the bits that it is written as and read from.
type WrittenRow = (i64, u64);

static WRITTEN: [WrittenRow; 6] = [
    (0, 0),
    (1, 0x3FF0_0000_0000_0000),
    (-1, 0xBFF0_0000_0000_0000),
    (100, 0x4059_0000_0000_0000),
    (100_000_000_000, 0x4237_4876_E800_0000),
    (-100_000_000_000, 0xC237_4876_E800_0000),
];

/// Whether a coordinate is written and read as its row says.
fn is_written(row: &WrittenRow) -> bool {
    let (k, bits) = *row;
    -LIMIT <= k && k <= LIMIT && write_coord(k) == bits && read_coord(bits, Unit::Mm) == Ok(k)
}

#[test]
fn writes_doubles(rt: HostRuntime) {
    for row in &WRITTEN {
        assert!(rt; is_written(row), "at {}", row.0);
    }
}

const WIDEST: [Corner; 4] = [
    Corner {
        x: -LIMIT,
        y: -LIMIT,
    },
    Corner {
        x: LIMIT,
        y: -LIMIT,
    },
    Corner { x: LIMIT, y: LIMIT },
    Corner {
        x: -LIMIT,
        y: LIMIT,
    },
];

#[test]
fn measures_rings(rt: HostRuntime) {
    let [a, b, c, _] = WIDEST;
    assert!(rt; area2(&WIDEST) == 80_000_000_000_000_000_000_000);
    assert!(rt; turn(a, b, c) == 40_000_000_000_000_000_000_000);
    assert!(rt; turn(a, c, b) == -40_000_000_000_000_000_000_000);
    assert!(rt; area2(&[]) == 0);
}

/// Three places, and whether the third is on the edge from the first to the second.
type EdgeRow = (Place, Place, Place, bool);

const WEST: Place = (-LIMIT, -LIMIT);

const EAST: Place = (LIMIT, LIMIT);

static ON_EDGES: [EdgeRow; 17] = [
    ((0, 0), (6, 4), (0, 0), true),
    ((0, 0), (6, 4), (6, 4), true),
    ((0, 0), (6, 4), (3, 2), true),
    ((6, 4), (0, 0), (3, 2), true),
    ((0, 0), (6, 4), (9, 6), false),
    ((0, 0), (6, 4), (-3, -2), false),
    ((0, 0), (6, 4), (3, 3), false),
    ((0, 0), (6, 0), (7, 0), false),
    ((0, 0), (0, 4), (0, -1), false),
    (WEST, EAST, (0, 0), true),
    (WEST, EAST, EAST, true),
    (WEST, EAST, (0, 1), false),
    (WEST, EAST, (LIMIT, LIMIT - 1), false),
    (WEST, (LIMIT, LIMIT - 1), (0, 0), false),
    ((5, 5), (5, 5), (5, 5), true),
    ((5, 5), (5, 5), (5, 6), false),
    ((5, 5), (5, 5), (4, 5), false),
];

/// Whether the third place of a row is on the edge exactly where the row says so.
fn is_seen_on(row: &EdgeRow) -> Result<bool, Fail> {
    let (a, b, p, want) = *row;
    Ok(on_segment(corner(a)?, corner(b)?, corner(p)?) == want)
}

#[test]
fn tells_places_on_an_edge(rt: HostRuntime) -> Result<(), Fail> {
    for (number, row) in ON_EDGES.iter().enumerate() {
        assert!(rt; is_seen_on(row)?, "row {number}");
    }
    Ok(())
}

/// A stream of which each call fails.
#[derive(Drop)]
struct Broken;

impl Read for Broken {
    fn read(&mut self, _buf: &mut [u8]) -> io::Result<usize> {
        Err(io::Error::from(ErrorKind::Other))
    }
}

impl Write for Broken {
    fn write(&mut self, _buf: &[u8]) -> io::Result<usize> {
        Err(io::Error::from(ErrorKind::Other))
    }

    fn flush(&mut self) -> io::Result<()> {
        Ok(())
    }
}

#[test]
fn pulls_count_failures(rt: HostRuntime) {
    let mut reader = Counted::new(&b"ring"[..]);
    let mut buffer = [0u8; 3];
    assert!(rt; reader.pull(&mut buffer) == Ok(3) && buffer == *b"rin");
    assert!(rt; reader.pull(&mut buffer) == Ok(1) && buffer[0] == b'g');
    assert!(rt; reader.pull(&mut buffer) == Ok(0));
    assert!(rt; reader.failures() == 0);
    assert!(rt; reader.into_inner().is_empty());
    let mut broken = Counted::new(Broken);
    assert!(rt; broken.pull(&mut buffer) == Err(Failed));
    assert!(rt; broken.pull(&mut buffer) == Err(Failed));
    assert!(rt; ByteIn::failures(&broken) == 2);
}

/// Whether a writer takes all bytes, and counts no failure.
fn is_put_whole(alloc: Global) -> bool {
    let mut writer = Counted::new(Vec::new(alloc));
    let is_put = writer.put(b"ring") == Ok(4) && writer.put(b"") == Ok(0);
    is_put
        && ByteOut::failures(&writer) == 0
        && writer.into_inner().as_slice() == b"ring".as_slice()
}

/// Whether a writer that is full counts a failure.
fn is_full_counted() -> bool {
    let mut room = [0u8; 2];
    let mut full = Counted::new(&mut room[..]);
    full.put(b"ring") == Ok(2) && full.put(b"ng") == Err(Failed) && full.failures() == 1
}

#[test]
fn puts_count_failures(rt: HostRuntime) {
    assert!(rt; is_put_whole(rt.alloc()));
    let mut broken = Counted::new(Broken);
    assert!(rt; broken.put(b"ring") == Err(Failed));
    assert!(rt; ByteOut::failures(&broken) == 1);
    assert!(rt; is_full_counted());
}

/// Whether the three pulls of a reader bring the bytes, but for the call of this number, which alone fails and is
/// counted; 0 is none.
fn is_one_pull_failed(call: u64) -> bool {
    let mut reader = FailAt::new(Counted::new(&b"abc"[..]), call);
    let mut next = b'a';
    for number in 1..4u64 {
        let mut buffer = [0u8];
        let pulled = reader.pull(&mut buffer);
        if number == call {
            if pulled != Err(Failed) {
                return false;
            }
        } else {
            if pulled != Ok(1) || buffer[0] != next {
                return false;
            }
            next = next.wrapping_add(1);
        }
    }
    reader.failures() == if call == 0 { 0 } else { 1 }
}

#[test]
fn fails_at_one_pull(rt: HostRuntime) {
    for call in 0..4u64 {
        assert!(rt; is_one_pull_failed(call), "of {call}");
    }
}

/// The call that fails, and what the others put.
type PutRow = (u64, &'static [u8]);

static PUT: [PutRow; 4] = [(0, b"abc"), (1, b"bc"), (2, b"ac"), (3, b"ab")];

/// Whether three bytes are put one by one, but for that of the failing call, which is counted; 0 is none.
fn is_one_put_failed(alloc: Global, row: &PutRow) -> bool {
    let (call, want) = *row;
    let mut writer = FailAt::new(Counted::new(Vec::new(alloc)), call);
    let mut number = 0u64;
    for byte in b"abc" {
        number = number.wrapping_add(1);
        if writer.put(&[*byte]).is_err() != (number == call) {
            return false;
        }
    }
    writer.failures() == if call == 0 { 0 } else { 1 }
        && writer.into_inner().into_inner().as_slice() == want
}

#[test]
fn fails_at_one_put(rt: HostRuntime) {
    for row in &PUT {
        assert!(rt; is_one_put_failed(rt.alloc(), row), "of {}", row.0);
    }
}

#[test]
fn collects_corners(rt: HostRuntime) -> Result<(), Fail> {
    assert!(rt; Corner::new(0, LIMIT + 1).is_none());
    let corners = corners(rt.alloc(), &[(3, -1), (LIMIT, 0)])?;
    assert!(rt;
        corners.as_slice() == [Corner { x: 3, y: -1 }, Corner { x: LIMIT, y: 0 }].as_slice()
    );
    Ok(())
}

/// Pushes corners, in order.
fn push_all(list: &mut Corners<Global>, corners: &[Corner]) -> Result<(), AllocError> {
    for corner in corners {
        list.push(*corner)?;
    }
    Ok(())
}

/// One corner more than there is room for at first.
const OVER_THE_ROOM: [Corner; 3] = [
    Corner { x: 3, y: -1 },
    Corner { x: LIMIT, y: 0 },
    Corner { x: 0, y: -LIMIT },
];

#[test]
fn makes_room_for_corners(rt: HostRuntime) -> Result<(), Fail> {
    let mut corners = Corners::with_capacity(rt.alloc(), 2)?;
    assert!(rt; corners.as_slice().is_empty());
    push_all(&mut corners, &OVER_THE_ROOM)?;
    assert!(rt; corners.as_slice() == OVER_THE_ROOM.as_slice());
    Ok(())
}

const ROUND: [Corner; 4] = [
    Corner { x: 0, y: 0 },
    Corner { x: 4, y: 0 },
    Corner { x: 4, y: 3 },
    Corner { x: 0, y: 3 },
];

#[test]
fn turns_rings_round(rt: HostRuntime) -> Result<(), Fail> {
    let mut corners = Corners::new(rt.alloc());
    corners.turn_round();
    assert!(rt; corners.as_slice().is_empty());
    push_all(&mut corners, &ROUND)?;
    corners.turn_round();
    let [first, second, third, fourth] = ROUND;
    assert!(rt; corners.as_slice() == [first, fourth, third, second].as_slice());
    Ok(())
}

/// Four places, and the same from the least on.
type BegunRow = (&'static [Place], &'static [Place]);

static BEGUN: [BegunRow; 4] = [
    (
        &[(3, 0), (1, 9), (1, 2), (5, 5)],
        &[(1, 2), (5, 5), (3, 0), (1, 9)],
    ),
    (
        &[(2, 2), (0, 1), (7, 0), (0, 1)],
        &[(0, 1), (7, 0), (0, 1), (2, 2)],
    ),
    (
        &[(0, 0), (4, 0), (4, 4), (0, 4)],
        &[(0, 0), (4, 0), (4, 4), (0, 4)],
    ),
    (
        &[(4, 0), (4, 4), (0, 4), (-1, 9)],
        &[(-1, 9), (4, 0), (4, 4), (0, 4)],
    ),
];

/// Whether the corners of a row begin at the least one then.
fn is_begun(alloc: Global, row: &BegunRow) -> Result<bool, Fail> {
    let mut ring = corners(alloc, row.0)?;
    ring.begin_at_least();
    Ok(ring == corners(alloc, row.1)?)
}

#[test]
fn begins_rings_at_the_least_corner(rt: HostRuntime) -> Result<(), Fail> {
    let mut none = Corners::new(rt.alloc());
    none.begin_at_least();
    assert!(rt; none.is_empty());
    for (number, row) in BEGUN.iter().enumerate() {
        assert!(rt; is_begun(rt.alloc(), row)?, "row {number}");
    }
    Ok(())
}

/// Whether a list of corners is copied, and the copy alone changes.
fn is_copied(ring: &Corners<Global>) -> Result<bool, AllocError> {
    let mut copy = ring.clone()?;
    let is_same = copy == *ring;
    copy.push(Corner { x: 0, y: 0 })?;
    let is_other = copy != *ring && copy.len() == 4 && !copy.is_empty();
    let list = copy.into_vec();
    Ok(
        is_same
            && is_other
            && list.len() == 4
            && Corners::from_vec(list).as_slice().get(1) == Some(&Corner { x: 1, y: 9 }),
    )
}

#[test]
fn copies_corners(rt: HostRuntime) -> Result<(), Fail> {
    let ring = corners(rt.alloc(), &[(3, 0), (1, 9), (1, 2)])?;
    assert!(rt; is_copied(&ring)?);
    assert!(rt; Corners::new(rt.alloc()).is_empty());
    Ok(())
}
