//! One clerk who takes out a corner that was put in.

use crate::answers::{all_answer, submitted, tells};
use crate::changes::{Change, edit_of};
use crate::plays::Told;
use desk_lock::{Card, Naming, Office, Receipt, Window};
use fabric_core::Refusal;
use std::alloc::Allocator;
use std::sync::Wait;
use std::test::Fail;

/// Why a corner is not taken out; `None` where it is.
fn refusal_of<'a, H: Allocator, J: Naming<H>, R: Wait + Drop, W: Wait>(
    rt: &W,
    heap: &'a H,
    office: &Office<'a, H, J, R>,
    card: &mut Card<'a, H, J>,
    change: Change,
) -> Result<Option<Refusal>, Fail> {
    let edit = edit_of(heap, change)?;
    Ok(office.submit(rt, card, &edit).err())
}

/// Puts a corner in, tries to take out one that bends, and takes out the one that was put in: the last receipt.
fn straighten<'a, H: Allocator, J: Naming<H>, R: Wait + Drop, W: Wait>(
    rt: &W,
    heap: &'a H,
    office: &Office<'a, H, J, R>,
    card: &mut Card<'a, H, J>,
) -> Result<Receipt<'a, H, J>, Fail> {
    submitted(
        rt,
        heap,
        office,
        card,
        Change::Insert((60, 0), (60, 100), (60, 50)),
    )?;
    let bends = refusal_of(rt, heap, office, card, Change::Straighten((60, 0)))?;
    if bends != Some(Refusal::NotFlat(1)) {
        return Err(Fail::new("a corner that bends is taken out"));
    }
    submitted(rt, heap, office, card, Change::Straighten((60, 50)))
}

/// A clerk's corner is put in and taken out again, which is seen at the first window, that learns the last receipt, and
/// then at each other.
pub fn learn_straight<'a, H: Allocator, J: Naming<H>, R: Wait + Drop, W: Wait>(
    rt: &W,
    heap: &'a H,
    office: &Office<'a, H, J, R>,
    card: &mut Card<'a, H, J>,
    windows: &mut [Window<'a, H, J>],
) -> Result<Told, Fail> {
    if windows.is_empty() || !all_answer(windows, 0, 1)? {
        return Err(Fail::new("another answer before the edits"));
    }
    let last = straighten(rt, heap, office, card)?;
    windows[0].learn(&last);
    if !tells(&last, 2, true) || !all_answer(windows, 2, 1)? || card.count() != 2 {
        return Err(Fail::new("another answer after the edits"));
    }
    Ok(Told::Done)
}
