//! What clerks and windows are told.

use crate::changes::{Change, edit_of};
use desk_lock::{Card, LocateFault, Naming, Office, Receipt, Window};
use fabric_core::At;
use std::alloc::Allocator;
use std::sync::Wait;
use std::test::Fail;
use test_builders::corner;

/// The cards of an office.
pub type Cards<'a, H, J> = Vec<Card<'a, H, J>, &'a H>;

/// The windows of an office.
pub type Windows<'a, H, J> = Vec<Window<'a, H, J>, &'a H>;

/// Whether a window answers that (10, 10) is inside this parcel after so many entries.
pub fn answers<H: Allocator, J: Naming<H>>(
    window: &mut Window<'_, H, J>,
    entries: u64,
    parcel: u64,
) -> Result<bool, Fail> {
    let Ok((count, at)) = window.locate(corner((10, 10))?) else {
        return Err(Fail::new("no answer"));
    };
    match at {
        At::Inside(id) => Ok(count == entries && id == parcel),
        At::OnEdge(_) | At::Outside => Ok(false),
    }
}

/// Whether each window, one after the other, answers so.
pub fn all_answer<H: Allocator, J: Naming<H>>(
    windows: &mut [Window<'_, H, J>],
    entries: u64,
    parcel: u64,
) -> Result<bool, Fail> {
    for place in 0..windows.len() {
        if !answers(&mut windows[place], entries, parcel)? {
            return Ok(false);
        }
    }
    Ok(true)
}

/// Whether a window answers after its office was closed, and not K4. An answer is that (10, 10) is
/// inside this parcel after so many entries.
pub fn answers_late<H: Allocator, J: Naming<H>>(
    window: &mut Window<'_, H, J>,
    entries: u64,
    parcel: u64,
) -> Result<bool, Fail> {
    match window.locate(corner((10, 10))?) {
        Err(LocateFault::NoVersion) => Ok(false),
        Ok((count, At::Inside(id))) if count == entries && id == parcel => Ok(true),
        _ => Err(Fail::new("another answer after the close")),
    }
}

/// The receipt of an edit that is accepted.
pub fn submitted<'a, H: Allocator, J: Naming<H>, R: Wait + Drop, W: Wait>(
    rt: &W,
    heap: &'a H,
    office: &Office<'a, H, J, R>,
    card: &mut Card<'a, H, J>,
    change: Change,
) -> Result<Receipt<'a, H, J>, Fail> {
    let edit = edit_of(heap, change)?;
    match office.submit(rt, card, &edit) {
        Ok(receipt) => Ok(receipt),
        Err(_) => Err(Fail::new("an edit is refused")),
    }
}

/// Whether a receipt tells an entry of clerk 1 under this number, and that it was published, as is wanted.
pub fn tells<H: Allocator, J: Naming<H>>(
    receipt: &Receipt<'_, H, J>,
    number: u64,
    is_published: bool,
) -> bool {
    let entry = receipt.entry();
    receipt.number() == number
        && entry.number() == number
        && entry.clerk() == 1
        && receipt.published() == is_published
}
