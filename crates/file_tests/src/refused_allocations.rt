//! Each allocation of a reading refused in turn: its answer is want of memory, and with memory the same text is read.

use line_files::{ClerkFault, PointsFault, read_clerk, read_points};
use refusing_alloc::Refusing;
use std::alloc::Global;
use std::test::Fail;

/// No call here makes so many allocations.
const MOST: u64 = 100;

/// Lists of five edits and of five points, and paths of five corners, which grow more than once.
const EDITS: &[u8] =
    b"merge 1 2\nsplit 1 0 0 1 1 2 2 3 3 4 4\nmove 1 2 0 0 1 1 2 2 3 3 4 4\ninsert 0 0 2 2 1 1\nmerge 3 4";

const POINTS: &[u8] = b"0 0\n1 1\n2 2\n3 3\n4 4";

/// The heap of the tests here.
type Heap = Refusing<Global>;

/// Whether an allocation was refused. The answer, the length of the list that was read, has to be want
/// of memory exactly then, and else five.
fn refused(is_refused: bool, length: Option<usize>) -> Result<bool, Fail> {
    match (is_refused, length) {
        (true, None) => Ok(true),
        (false, Some(5)) => Ok(false),
        _ => Err(Fail::new("another answer")),
    }
}

/// Whether allocation `number` of a reading of the edits was refused.
fn is_refused_of_edits(heap: &Heap, number: u64) -> Result<bool, Fail> {
    heap.refuse(number);
    let answer = read_clerk(heap, EDITS);
    let is_refused = heap.is_spent();
    match answer {
        Ok(list) => refused(is_refused, Some(list.len())),
        Err(ClerkFault::NoMemory) => refused(is_refused, None),
        Err(ClerkFault::Line(_)) => Err(Fail::new("a text of edits")),
    }
}

#[test]
fn of_edits(rt: HostRuntime) -> Result<(), Fail> {
    let heap = Refusing::new(rt.alloc(), 0);
    for number in 1..MOST {
        if !is_refused_of_edits(&heap, number)? {
            assert!(rt; number > 6);
            return Ok(());
        }
    }
    Err(Fail::new("each allocation was refused"))
}

/// Whether allocation `number` of a reading of the points was refused.
fn is_refused_of_points(heap: &Heap, number: u64) -> Result<bool, Fail> {
    heap.refuse(number);
    let answer = read_points(heap, POINTS);
    let is_refused = heap.is_spent();
    match answer {
        Ok(list) => refused(is_refused, Some(list.len())),
        Err(PointsFault::NoMemory) => refused(is_refused, None),
        Err(PointsFault::BadLine(_)) => Err(Fail::new("a text of points")),
    }
}

#[test]
fn of_points(rt: HostRuntime) -> Result<(), Fail> {
    let heap = Refusing::new(rt.alloc(), 0);
    for number in 1..MOST {
        if !is_refused_of_points(&heap, number)? {
            assert!(rt; number > 2);
            return Ok(());
        }
    }
    Err(Fail::new("each allocation was refused"))
}
