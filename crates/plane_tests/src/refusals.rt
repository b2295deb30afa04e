//! Each growth of a call refused in turn: its answer is want of memory, nothing has changed, and
//! with memory the same call gives the answer that it has to give.

use crate::refuses::{MOST, told};
use crate::rings::rings_of;
use edge_chains::node;
use geo_exact::{Corner, Corners};
use refusing_alloc::Refusing;
use ring_core::{Shape, Tri};
use std::test::Fail;
use test_builders::{Place, Refuses, corners, shape, simple_ring, triangle, was_refused};

const BENT: [Place; 5] = [(0, 0), (100, 0), (50, 50), (40, 90), (0, 100)];

const NEXT: Corner = Corner { x: -7, y: 7 };

/// Whether a list is another one and the corner that is pushed.
fn is_pushed(list: &[Corner], before: &[Corner]) -> bool {
    match list.split_last() {
        Some((last, rest)) => *last == NEXT && rest == before,
        None => false,
    }
}

/// A list in which a push is refused is as it was, and grows with memory; whether the push was refused.
fn is_push_refused<H: Refuses>(heap: &H, list: &mut Corners<&H>) -> Result<bool, Fail> {
    let before = list.clone()?;
    heap.refuse(1);
    let is_wanting = list.push(NEXT).is_err();
    let is_refused = told(was_refused(heap), is_wanting)?;
    if is_refused {
        if *list != before {
            return Err(Fail::new("a refused push changes nothing"));
        }
        list.push(NEXT)?;
    }
    if is_pushed(list.as_slice(), before.as_slice()) {
        Ok(is_refused)
    } else {
        Err(Fail::new("not pushed"))
    }
}

/// How long a list is behind the last of 200 pushes that was refused.
fn last_refused<H: Refuses>(heap: &H, list: &mut Corners<&H>) -> Result<usize, Fail> {
    let mut refused = 0;
    for _ in 0..200 {
        if is_push_refused(heap, list)? {
            refused = list.len();
        }
    }
    Ok(refused)
}

/// Whether a copy of a list is refused.
fn is_copy_refused<H: Refuses>(heap: &H, list: &Corners<&H>) -> bool {
    heap.refuse(1);
    list.clone().is_err()
}

#[test]
fn a_list_of_corners(rt: HostRuntime) -> Result<(), Fail> {
    let heap = Refusing::new(rt.alloc(), 0);
    let mut list = corners(&heap, &BENT)?;
    assert!(rt; last_refused(&heap, &mut list)? > 100);
    assert!(rt; is_copy_refused(&heap, &list));
    heap.refuse(1);
    assert!(rt; Corners::with_capacity(&heap, 3).is_err());
    Ok(())
}

/// A ring's shape, and whether a growth was refused, where it was clipped once more with memory then.
fn clipped<'h, H: Refuses>(heap: &'h H, number: u64) -> Result<(Shape<&'h H>, bool), Fail> {
    let ring = simple_ring(heap, &BENT)?;
    heap.refuse(number);
    let clipped = Shape::clip(heap, ring);
    let is_refused = told(was_refused(heap), clipped.is_err())?;
    match clipped {
        Ok(shape) => Ok((shape, is_refused)),
        Err(_) => Ok((shape(heap, &BENT)?, is_refused)),
    }
}

/// A ring is clipped to these triangles, or growth `number` is refused, and then it is clipped with
/// memory; whether it was refused.
fn is_clipping_refused<H: Refuses>(heap: &H, number: u64, want: &[Tri]) -> Result<bool, Fail> {
    let (shape, is_refused) = clipped(heap, number)?;
    if shape.triangles.as_slice() == want {
        Ok(is_refused)
    } else {
        Err(Fail::new("other triangles"))
    }
}

#[test]
fn clipping(rt: HostRuntime) -> Result<(), Fail> {
    let want = [
        triangle((0, 0), (100, 0), (50, 50))?,
        triangle((0, 100), (0, 0), (50, 50))?,
        triangle((0, 100), (50, 50), (40, 90))?,
    ];
    let heap = Refusing::new(rt.alloc(), 0);
    for number in 1..MOST {
        if !is_clipping_refused(&heap, number, &want)? {
            assert!(rt; number > 1);
            return Ok(());
        }
    }
    Err(Fail::new("each growth was refused"))
}

/// A western ring, and a southern one beside it.
static RINGS: [&[Place]; 2] = [
    &[(0, 0), (60, 0), (60, 100), (0, 100)],
    &[(60, 0), (90, 0), (90, 50), (60, 50)],
];

/// The same two, noded for the cuts.
static NODED: [&[Place]; 2] = [
    &[(0, 0), (60, 0), (60, 50), (60, 100), (0, 100)],
    &[(60, 0), (75, 0), (90, 0), (90, 50), (60, 50)],
];

const CUTS: [Corner; 2] = [Corner { x: 60, y: 50 }, Corner { x: 75, y: 0 }];

/// Noded rings, and whether a growth was refused, where they were noded once more with memory then.
fn noded<'h, H: Refuses>(
    heap: &'h H,
    rings: &[Corners<&'h H>],
    number: u64,
) -> Result<(Vec<Corners<&'h H>, &'h H>, bool), Fail> {
    heap.refuse(number);
    let noded = node(heap, rings, &CUTS);
    let is_refused = told(was_refused(heap), noded.is_err())?;
    match noded {
        Ok(noded) => Ok((noded, is_refused)),
        Err(_) => Ok((node(heap, rings, &CUTS)?, is_refused)),
    }
}

/// Two rings are noded, or growth `number` is refused, and then they are noded with memory; whether it was refused.
fn is_noding_refused<H: Refuses>(heap: &H, number: u64) -> Result<bool, Fail> {
    let rings = rings_of(heap, &RINGS)?;
    let (noded, is_refused) = noded(heap, &rings, number)?;
    if noded.as_slice() == rings_of(heap, &NODED)?.as_slice() {
        Ok(is_refused)
    } else {
        Err(Fail::new("other rings"))
    }
}

#[test]
fn noding(rt: HostRuntime) -> Result<(), Fail> {
    let heap = Refusing::new(rt.alloc(), 0);
    for number in 1..MOST {
        if !is_noding_refused(&heap, number)? {
            assert!(rt; number > 1);
            return Ok(());
        }
    }
    Err(Fail::new("each growth was refused"))
}
