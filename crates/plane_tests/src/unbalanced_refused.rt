//! Each growth of telling all unbalanced edges refused in turn: the sum is as it was, and with
//! memory the same call tells them all.

use crate::edge_sums::sum_of;
use crate::refuses::{MOST, told};
use edge_chains::EdgeSum;
use geo_exact::Corner;
use refusing_alloc::Refusing;
use std::test::Fail;
use test_builders::{Refuses, rectangle, was_refused};

/// The edges of the square, each once, in the direction in which it is less.
const WANT: [(Corner, Corner, i64); 4] = [
    (Corner { x: 0, y: -20 }, Corner { x: 0, y: -10 }, -1),
    (Corner { x: 0, y: -20 }, Corner { x: 10, y: -20 }, 1),
    (Corner { x: 0, y: -10 }, Corner { x: 10, y: -10 }, -1),
    (Corner { x: 10, y: -20 }, Corner { x: 10, y: -10 }, 1),
];

/// All unbalanced edges with growth `number` refused, and where it was, once more with memory; whether it was, and
/// whether the edges are those of the square.
fn are_told<'h, H: Refuses>(
    heap: &'h H,
    sum: &EdgeSum<&'h H>,
    number: u64,
) -> Result<(bool, bool), Fail> {
    heap.refuse(number);
    let edges = sum.unbalanced(heap);
    let is_refused = told(was_refused(heap), edges.is_err())?;
    let edges = match edges {
        Ok(edges) => edges,
        Err(_) => sum.unbalanced(heap)?,
    };
    Ok((is_refused, edges.as_slice() == WANT.as_slice()))
}

/// The edges of a square are told, or growth `number` is refused and they are told with memory
/// then; whether it was refused.
fn is_telling_refused<H: Refuses>(heap: &H, number: u64) -> Result<bool, Fail> {
    let square = rectangle(heap, (0, 10), (-20, -10))?;
    let sum = sum_of(heap, &square)?;
    let (is_refused, are_wanted) = are_told(heap, &sum, number)?;
    if are_wanted && sum.edges() == 4 {
        Ok(is_refused)
    } else {
        Err(Fail::new("other edges"))
    }
}

#[test]
fn unbalanced(rt: HostRuntime) -> Result<(), Fail> {
    let heap = Refusing::new(rt.alloc(), 0);
    for number in 1..MOST {
        if !is_telling_refused(&heap, number)? {
            assert!(rt; number > 1);
            return Ok(());
        }
    }
    Err(Fail::new("each growth was refused"))
}
