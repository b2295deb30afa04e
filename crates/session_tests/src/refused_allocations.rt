//! Each allocation refused in turn: a line is answered to be wanting memory, and read with memory as it has to be.

use refusing_alloc::Refusing;
use session_lines::{Line, push_ready, read_line};
use std::alloc::Global;
use std::test::Fail;

/// No call here makes so many allocations.
const MOST: u64 = 100;

/// A line whose edit has a path.
const LINE: &[u8] = b"split 1 0 0 1 1 2 2 3 3 4 4 5 5 6 6 7 7 8 8";

/// Whether the line is read, or allocation `number` is refused, and told so.
fn is_reading_refused(heap: &Refusing<Global>, number: u64) -> Result<bool, Fail> {
    heap.refuse(number);
    let read = read_line(heap, LINE);
    let is_refused = heap.is_spent();
    heap.refuse(0);
    match read {
        Ok(Some(Line::Edit(_))) => {
            if is_refused {
                return Err(Fail::new("a refusal is not told"));
            }
        }
        Ok(_) => return Err(Fail::new("not the edit")),
        Err(_) => {
            if !is_refused {
                return Err(Fail::new("a refusal is told that was none"));
            }
        }
    }
    Ok(is_refused)
}

#[test]
fn reading_a_line(rt: HostRuntime) -> Result<(), Fail> {
    let heap = Refusing::new(rt.alloc(), 0);
    let mut refused = 0;
    for number in 1..MOST {
        if !is_reading_refused(&heap, number)? {
            break;
        }
        refused = number;
    }
    assert!(rt; 0 < refused && refused < MOST - 1);
    Ok(())
}

#[test]
fn adding_an_answer(rt: HostRuntime) -> Result<(), Fail> {
    let heap = Refusing::new(rt.alloc(), 1);
    let mut text = Vec::new(&heap);
    assert!(rt; push_ready(&mut text, 1).is_err());
    text.clear();
    push_ready(&mut text, 1)?;
    assert_eq!(rt; text.as_slice(), b"ready 1\n".as_slice());
    Ok(())
}
