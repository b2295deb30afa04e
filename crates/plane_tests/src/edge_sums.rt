//! Each growth refused in turn of adding a ring to an edge sum, and of taking one: nothing has
//! changed, and with memory the same call counts the ring.

use crate::refuses::{MOST, told};
use edge_chains::EdgeSum;
use geo_exact::{Corner, Corners};
use refusing_alloc::Refusing;
use std::alloc::{AllocError, Allocator};
use std::test::Fail;
use test_builders::{Refuses, rectangle, saw, was_refused};

/// Adds or takes a ring. More edges than the tests here count are an error too, and so fail the test.
pub fn count<A: Allocator + Copy>(
    sum: &mut EdgeSum<A>,
    ring: &Corners<A>,
    is_added: bool,
) -> Result<(), AllocError> {
    if ring.len() > 100 || sum.edges() > 1000 {
        return Err(AllocError);
    }
    if is_added {
        sum.add(ring.as_slice())
    } else {
        sum.take(ring.as_slice())
    }
}

/// Fails unless an edge sum tells so many edges, and this first that is unbalanced.
fn expect<A: Allocator + Copy>(
    sum: &EdgeSum<A>,
    edges: u64,
    unbalanced: Option<(Corner, Corner, i64)>,
) -> Result<(), Fail> {
    if sum.edges() == edges && sum.first_unbalanced() == unbalanced {
        Ok(())
    } else {
        Err(Fail::new("other edges"))
    }
}

/// The first edge of the square.
const START: (Corner, Corner, i64) = (Corner { x: 0, y: -20 }, Corner { x: 0, y: -10 }, -1);

/// An edge sum to which a ring is added.
pub fn sum_of<A: Allocator + Copy>(alloc: A, ring: &Corners<A>) -> Result<EdgeSum<A>, AllocError> {
    let mut sum = EdgeSum::new(alloc);
    count(&mut sum, ring, true)?;
    Ok(sum)
}

/// Adds or takes a ring of 80 corners beside the square, with growth `number` refused, and where it was, which changes
/// nothing, once more with memory; whether it was.
fn is_ring_refused<'h, H: Refuses>(
    heap: &H,
    sum: &mut EdgeSum<&'h H>,
    ring: &Corners<&'h H>,
    number: u64,
    is_added: bool,
) -> Result<bool, Fail> {
    heap.refuse(number);
    let is_wanting = count(sum, ring, is_added).is_err();
    let is_refused = told(was_refused(heap), is_wanting)?;
    if is_refused {
        expect(sum, 4, Some(START))?;
        count(sum, ring, is_added)?;
    }
    expect(sum, 84, Some(START))?;
    Ok(is_refused)
}

/// Counts the square and the ring the other way, so that no edge is left.
fn take_back<A: Allocator + Copy>(
    sum: &mut EdgeSum<A>,
    square: &Corners<A>,
    ring: &Corners<A>,
    is_added: bool,
) -> Result<(), Fail> {
    count(sum, square, false)?;
    let net = if is_added { -1 } else { 1 };
    let side = (Corner { x: 0, y: 0 }, Corner { x: 0, y: 100 }, net);
    expect(sum, 88, Some(side))?;
    count(sum, ring, !is_added)?;
    expect(sum, 168, None)
}

/// A square is added; then a ring of 80 corners is added or taken, for which the map has no room
/// yet. Growth `number` is refused, and then nothing has changed and with memory the ring is
/// counted; whether it was refused.
fn is_counting_refused<H: Refuses>(heap: &H, number: u64, is_added: bool) -> Result<bool, Fail> {
    let square = rectangle(heap, (0, 10), (-20, -10))?;
    let ring = saw(heap, 80)?;
    let mut sum = sum_of(heap, &square)?;
    let is_refused = is_ring_refused(heap, &mut sum, &ring, number, is_added)?;
    take_back(&mut sum, &square, &ring, is_added)?;
    Ok(is_refused)
}

/// The last growth of adding, or of taking, that is refused.
fn last_refused<H: Refuses>(heap: &H, is_added: bool) -> Result<u64, Fail> {
    for number in 1..MOST {
        if !is_counting_refused(heap, number, is_added)? {
            return Ok(number - 1);
        }
    }
    Err(Fail::new("each growth was refused"))
}

#[test]
fn counting(rt: HostRuntime) -> Result<(), Fail> {
    let heap = Refusing::new(rt.alloc(), 0);
    assert!(rt; last_refused(&heap, true)? > 0);
    assert!(rt; last_refused(&heap, false)? > 0);
    Ok(())
}
