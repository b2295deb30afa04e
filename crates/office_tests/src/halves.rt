//! One clerk who cuts the first parcel in halves.

use crate::answers::{Windows, all_answer, answers_late, submitted, tells};
use crate::changes::{Change, INTO_HALVES};
use crate::plays::Told;
use desk_lock::{Card, Naming, Office, Receipt, Window};
use std::alloc::Allocator;
use std::sync::Wait;
use std::test::Fail;

/// Puts one of the corners in, under the number of its place in the table, from 1.
fn put_corner<'a, H: Allocator, J: Naming<H>, R: Wait + Drop, W: Wait>(
    rt: &W,
    heap: &'a H,
    office: &Office<'a, H, J, R>,
    card: &mut Card<'a, H, J>,
    number: u64,
    change: Change,
) -> Result<Receipt<'a, H, J>, Fail> {
    let receipt = submitted(rt, heap, office, card, change)?;
    if !tells(&receipt, number, true) {
        return Err(Fail::new("another receipt"));
    }
    Ok(receipt)
}

/// Puts both corners in; a window learns their receipts.
pub fn learn_corners<'a, H: Allocator, J: Naming<H>, R: Wait + Drop, W: Wait>(
    rt: &W,
    heap: &'a H,
    office: &Office<'a, H, J, R>,
    card: &mut Card<'a, H, J>,
    window: &mut Window<'a, H, J>,
) -> Result<(), Fail> {
    for place in 0..2usize {
        let number = place as u64 + 1;
        let receipt = put_corner(rt, heap, office, card, number, INTO_HALVES[place])?;
        window.learn(&receipt);
    }
    Ok(())
}

/// Puts both corners in and cuts between them: the last receipt.
pub fn cut<'a, H: Allocator, J: Naming<H>, R: Wait + Drop, W: Wait>(
    rt: &W,
    heap: &'a H,
    office: &Office<'a, H, J, R>,
    card: &mut Card<'a, H, J>,
) -> Result<Receipt<'a, H, J>, Fail> {
    for place in 0..2usize {
        put_corner(rt, heap, office, card, place as u64 + 1, INTO_HALVES[place])?;
    }
    submitted(rt, heap, office, card, INTO_HALVES[2])
}

/// Makes the edits, of which a window learns the last receipt: whether that tells what it has to.
fn learn_cut<'a, H: Allocator, J: Naming<H>, R: Wait + Drop, W: Wait>(
    rt: &W,
    heap: &'a H,
    office: &Office<'a, H, J, R>,
    card: &mut Card<'a, H, J>,
    window: &mut Window<'a, H, J>,
) -> Result<bool, Fail> {
    let last = cut(rt, heap, office, card)?;
    window.learn(&last);
    Ok(tells(&last, 3, true))
}

/// A clerk's edits are told, and a window learns the last receipt, but is not asked.
pub fn learn_unasked<'a, H: Allocator, J: Naming<H>, R: Wait + Drop, W: Wait>(
    rt: &W,
    heap: &'a H,
    office: &Office<'a, H, J, R>,
    card: &mut Card<'a, H, J>,
    window: &mut Window<'a, H, J>,
) -> Result<Told, Fail> {
    if !learn_cut(rt, heap, office, card, window)? {
        return Err(Fail::new("another receipt"));
    }
    Ok(Told::Done)
}

/// What the last of some windows, which learnt a clerk's edits, tells once the office is closed.
pub fn ask_late<'a, H: Allocator, J: Naming<H>>(
    mut windows: Windows<'a, H, J>,
) -> Result<Told, Fail> {
    let Some(mut window) = windows.pop() else {
        return Err(Fail::new("no window"));
    };
    if answers_late(&mut window, 3, 3)? {
        Ok(Told::Done)
    } else {
        Ok(Told::NoVersion)
    }
}

/// A clerk's edits are told, and seen at a window that learns the last receipt, and then at each other.
pub fn learn_halves<'a, H: Allocator, J: Naming<H>, R: Wait + Drop, W: Wait>(
    rt: &W,
    heap: &'a H,
    office: &Office<'a, H, J, R>,
    cards: &mut [Card<'a, H, J>],
    windows: &mut [Window<'a, H, J>],
) -> Result<Told, Fail> {
    if cards.is_empty() || windows.is_empty() || !all_answer(windows, 0, 1)? {
        return Err(Fail::new("another answer before the edits"));
    }
    let is_told = learn_cut(rt, heap, office, &mut cards[0], &mut windows[0])?;
    if !is_told || !all_answer(windows, 3, 3)? || cards[0].count() != 3 {
        return Err(Fail::new("another answer after the edits"));
    }
    Ok(Told::Done)
}
