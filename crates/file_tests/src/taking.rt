//! Rings that are handed on one by one while a layer is read.

ghost use Rattle.std.specs.Prelude.{⊤};

use geo_exact::{RawRing, Unit, area2};
use shp_files::{FaultKind, FileFault, FileName, LayerFault, TakeEach, read_each};
use std::alloc::{AllocError, Global};
use test_builders::{behind_a_null_shape, index_of};

/// How many rings there were, and the number and twice the area of the last.
#[derive(Drop)]
struct Seen {
    count: u32,
    last: (u32, i128),
}

impl TakeEach<RawRing<Global>> for Seen {
    ghost holds = { λ _ _. ⊤ };

    fn take(&mut self, ring: RawRing<Global>) -> Result<(), AllocError> {
        self.count = self.count.wrapping_add(1);
        self.last = (ring.number, area2(ring.corners.as_slice()));
        Ok(())
    }
}

/// What reading the square behind a null shape with an index answers, and what was handed on.
fn seen_with(alloc: Global, index: &[u8]) -> (Result<(), LayerFault>, Seen) {
    let mut seen = Seen {
        count: 0,
        last: (0, 0),
    };
    let answer = read_each(
        alloc,
        &behind_a_null_shape(),
        Some(index),
        Unit::Mm,
        &mut seen,
    );
    (answer, seen)
}

#[test]
fn hands_on_the_ring_behind_a_null_shape(rt: HostRuntime) {
    let (answer, seen) = seen_with(rt.alloc(), &index_of(58, (50, 2), (56, 64)));
    assert!(rt; answer.is_ok());
    assert_eq!(rt; seen.count, 1);
    assert_eq!(rt; seen.last, (2, 20_000));
}

#[test]
fn tells_of_an_index_behind_rings_that_were_handed_on(rt: HostRuntime) {
    let (answer, seen) = seen_with(rt.alloc(), &index_of(54, (50, 2), (56, 64)));
    let fault = FileFault {
        file: FileName::Index,
        position: 2,
        place: 108,
        kind: FaultKind::IndexDisagrees,
    };
    assert!(rt; answer.err() == Some(LayerFault::File(fault)));
    assert_eq!(rt; seen.count, 1);
}
