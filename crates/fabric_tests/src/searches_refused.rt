//! Each growth of a search of a layer refused in turn: the answer is want of memory, and with
//! memory the same search finds what it has to find.

use crate::candidates::between;
use fabric_core::{At, Layer};
use refusing_alloc::Refusing;
use std::test::Fail;
use test_builders::{Refuses, corner, was_refused};
use test_cities::{RINGS, SQUARE, layer};

/// No call here has so many growths.
const MOST: u64 = 100;

/// A corner is located on the edge of both parcels, or growth `number` is refused, and then it is
/// located with memory; whether it was refused.
fn is_locating_refused<H: Refuses>(
    heap: &H,
    layer: &Layer<'_, H>,
    number: u64,
) -> Result<bool, Fail> {
    let corner = corner((60, 50))?;
    heap.refuse(number);
    let located = layer.locate(corner);
    let is_refused = was_refused(heap);
    if located.is_err() != is_refused {
        return Err(Fail::new("a refusal is told, and nothing else is"));
    }
    let at = match located {
        Ok(at) => at,
        Err(_) => layer.locate(corner)?,
    };
    let want: &[u64] = &[1, 2];
    match at {
        At::OnEdge(ids) if ids.as_slice() == want => Ok(is_refused),
        At::OnEdge(_) | At::Inside(_) | At::Outside => Err(Fail::new("located elsewhere")),
    }
}

/// The first growth of locating that is not made any more.
fn first_unrefused_of_locating<H: Refuses>(heap: &H) -> Result<u64, Fail> {
    let layer = layer(heap, &SQUARE, &RINGS)?;
    for number in 1..MOST {
        if !is_locating_refused(heap, &layer, number)? {
            return Ok(number);
        }
    }
    Err(Fail::new("each growth was refused"))
}

#[test]
fn locating(rt: HostRuntime) -> Result<(), Fail> {
    let heap = Refusing::new(rt.alloc(), 0);
    assert!(rt; first_unrefused_of_locating(&heap)? > 1);
    Ok(())
}

/// The candidates of both parcels' border are found, or growth `number` is refused, and then they
/// are found with memory; whether it was refused.
fn is_finding_refused<H: Refuses>(
    heap: &H,
    layer: &Layer<'_, H>,
    number: u64,
) -> Result<bool, Fail> {
    heap.refuse(number);
    let found = between(layer, (60, 0), (60, 100))?;
    let is_refused = was_refused(heap);
    if found.is_err() != is_refused {
        return Err(Fail::new("a refusal is told, and nothing else is"));
    }
    let ids = match found {
        Ok(ids) => ids,
        Err(_) => between(layer, (60, 0), (60, 100))??,
    };
    let want: &[u64] = &[1, 2];
    if ids.as_slice() != want {
        return Err(Fail::new("other candidates"));
    }
    Ok(is_refused)
}

/// The first growth of finding candidates that is not made any more.
fn first_unrefused_of_finding<H: Refuses>(heap: &H) -> Result<u64, Fail> {
    let layer = layer(heap, &SQUARE, &RINGS)?;
    for number in 1..MOST {
        if !is_finding_refused(heap, &layer, number)? {
            return Ok(number);
        }
    }
    Err(Fail::new("each growth was refused"))
}

#[test]
fn finding_candidates(rt: HostRuntime) -> Result<(), Fail> {
    let heap = Refusing::new(rt.alloc(), 0);
    assert!(rt; first_unrefused_of_finding(&heap)? > 2);
    Ok(())
}
