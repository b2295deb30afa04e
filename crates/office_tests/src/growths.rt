//! Calls in which a growth is refused.

use crate::answers::{answers, submitted, tells};
use crate::changes::{INTO_HALVES, edit_of};
use crate::halves::{cut, learn_corners};
use crate::plays::Told;
use desk_lock::{Card, LocateFault, Naming, Notice, Office, Receipt, Window};
use fabric_core::{At, Refusal, Sheet};
use geo_exact::Corner;
use std::alloc::{AllocError, Allocator};
use std::sync::Wait;
use std::test::Fail;
use test_builders::{Refuses, corner, was_refused};

/// What came of a call that was made to its end.
pub fn told(is_refused: bool) -> Told {
    if is_refused {
        Told::Refused
    } else {
        Told::Done
    }
}

/// Cuts the first parcel, whose corners are made, with a growth refused: the answer, and whether a growth was refused.
fn cut_refused<'a, H: Refuses, J: Naming<H>, R: Wait + Drop, W: Wait>(
    rt: &W,
    heap: &'a H,
    office: &Office<'a, H, J, R>,
    card: &mut Card<'a, H, J>,
    number: u64,
) -> Result<(Result<Receipt<'a, H, J>, Refusal>, bool), Fail> {
    let edit = edit_of(heap, INTO_HALVES[2])?;
    heap.refuse(number);
    let answer = office.submit(rt, card, &edit);
    Ok((answer, was_refused(heap)))
}

/// The receipt of the cut, with a growth refused in its submit, and whether one was. Where memory
/// is wanting, nothing has changed, and it is submitted again.
fn cut_at_last<'a, H: Refuses, J: Naming<H>, R: Wait + Drop, W: Wait>(
    rt: &W,
    heap: &'a H,
    office: &Office<'a, H, J, R>,
    card: &mut Card<'a, H, J>,
    window: &mut Window<'a, H, J>,
    number: u64,
) -> Result<(Receipt<'a, H, J>, bool), Fail> {
    let (answer, is_refused) = cut_refused(rt, heap, office, card, number)?;
    match answer {
        Ok(receipt) => Ok((receipt, is_refused)),
        Err(refusal) => {
            let is_so = refusal == Refusal::NoMemory && is_refused && card.count() == 2;
            if !is_so || !answers(window, 2, 1)? {
                return Err(Fail::new("memory is wanting, and nothing changes"));
            }
            Ok((submitted(rt, heap, office, card, INTO_HALVES[2])?, true))
        }
    }
}

/// A notice of a publishing with memory.
pub fn published<'a, H: Allocator, J: Naming<H>, R: Wait + Drop, W: Wait>(
    rt: &W,
    office: &Office<'a, H, J, R>,
) -> Result<Notice<'a, H, J>, Fail> {
    match office.publish(rt) {
        Some(notice) => Ok(notice),
        None => Err(Fail::new("it is not published with memory")),
    }
}

/// A notice of a publishing, with a growth refused, and whether one was. Where memory is wanting,
/// the window still answers as before the cut, and it is published again.
fn publish_at_last<'a, H: Refuses, J: Naming<H>, R: Wait + Drop, W: Wait>(
    rt: &W,
    heap: &H,
    office: &Office<'a, H, J, R>,
    window: &mut Window<'a, H, J>,
    number: u64,
) -> Result<(Notice<'a, H, J>, bool), Fail> {
    heap.refuse(number);
    let notice = office.publish(rt);
    let is_refused = was_refused(heap);
    match notice {
        Some(notice) => Ok((notice, is_refused)),
        None => {
            if !is_refused || !answers(window, 2, 1)? {
                return Err(Fail::new("memory is wanting, and nothing changes"));
            }
            Ok((published(rt, office)?, true))
        }
    }
}

/// Lets a window learn a notice: how many entries that tells.
fn learn_notice<'a, H: Allocator, J: Naming<H>>(
    window: &mut Window<'a, H, J>,
    notice: Notice<'a, H, J>,
) -> u64 {
    window.learn_notice(&notice);
    notice.number()
}

/// Publishes a cut that was not published, with a growth refused: whether one was. When the window
/// learns the notice, it answers as after the cut.
fn publish_later<'a, H: Refuses, J: Naming<H>, R: Wait + Drop, W: Wait>(
    rt: &W,
    heap: &H,
    office: &Office<'a, H, J, R>,
    window: &mut Window<'a, H, J>,
    number: u64,
) -> Result<bool, Fail> {
    let (notice, is_refused) = publish_at_last(rt, heap, office, window, number)?;
    if learn_notice(window, notice) != 3 || !answers(window, 3, 3)? {
        return Err(Fail::new("another answer after the notice"));
    }
    Ok(is_refused)
}

/// What came of a cut in whose submit a growth may have been refused, after a window has learnt its receipt. Where it
/// was not published, it is now, with a growth refused.
fn told_of_cut<'a, H: Refuses, J: Naming<H>, R: Wait + Drop, W: Wait>(
    rt: &W,
    heap: &'a H,
    office: &Office<'a, H, J, R>,
    window: &mut Window<'a, H, J>,
    receipt: &Receipt<'a, H, J>,
    is_refused: bool,
    number: u64,
) -> Result<Told, Fail> {
    let is_published = receipt.published();
    if !tells(receipt, 3, is_published) {
        return Err(Fail::new("another receipt"));
    }
    if is_published && answers(window, 3, 3)? {
        return Ok(told(is_refused));
    }
    if is_published || !is_refused || !answers(window, 2, 1)? {
        return Err(Fail::new("another answer after the cut"));
    }
    let is_later = publish_later(rt, heap, office, window, number)?;
    Ok(Told::Unpublished(is_later))
}

/// Cuts the first parcel, with a growth refused in the last submit, and where it is not published,
/// with another refused in the publishing. The window has learnt all receipts.
pub fn cut_with_memory<'a, H: Refuses, J: Naming<H>, R: Wait + Drop, W: Wait>(
    rt: &W,
    heap: &'a H,
    office: &Office<'a, H, J, R>,
    card: &mut Card<'a, H, J>,
    window: &mut Window<'a, H, J>,
    numbers: (u64, u64),
) -> Result<Told, Fail> {
    learn_corners(rt, heap, office, card, window)?;
    let (receipt, is_refused) = cut_at_last(rt, heap, office, card, window, numbers.0)?;
    window.learn(&receipt);
    told_of_cut(rt, heap, office, window, &receipt, is_refused, numbers.1)
}

/// Whether a sheet has so many entries and parcels.
fn is_sheet<H: Allocator>(sheet: &Sheet<'_, H>, entries: u64, parcels: usize) -> bool {
    sheet.entries() == entries && sheet.ids().count() == parcels
}

/// A sheet, with a growth refused, and whether one was. Where memory is wanting, it is taken again.
fn sheet_at_last<'a, H: Refuses, J: Naming<H>, R: Wait + Drop, W: Wait>(
    rt: &W,
    heap: &H,
    office: &Office<'a, H, J, R>,
    cards: &mut [Card<'a, H, J>],
    number: u64,
) -> Result<(Sheet<'a, H>, bool), AllocError> {
    heap.refuse(number);
    let answer = office.sheet(rt, cards);
    let is_refused = was_refused(heap);
    match answer {
        Ok(sheet) => Ok((sheet, is_refused)),
        Err(fault) if !is_refused => Err(fault),
        Err(_) => Ok((office.sheet(rt, cards)?, true)),
    }
}

/// Whether a sheet that is taken with a growth refused has all entries and parcels after the cut,
/// and whether a growth was refused.
fn is_sheet_at_last<'a, H: Refuses, J: Naming<H>, R: Wait + Drop, W: Wait>(
    rt: &W,
    heap: &H,
    office: &Office<'a, H, J, R>,
    cards: &mut [Card<'a, H, J>],
    number: u64,
) -> Result<(bool, bool), AllocError> {
    let (sheet, is_refused) = sheet_at_last(rt, heap, office, cards, number)?;
    Ok((is_sheet(&sheet, 3, 3), is_refused))
}

/// Takes a sheet after the cut, with a growth refused.
pub fn sheet_with_memory<'a, H: Refuses, J: Naming<H>, R: Wait + Drop, W: Wait>(
    rt: &W,
    heap: &'a H,
    office: &Office<'a, H, J, R>,
    cards: &mut [Card<'a, H, J>],
    number: u64,
) -> Result<Told, Fail> {
    if cards.is_empty() {
        return Err(Fail::new("no card"));
    }
    cut(rt, heap, office, &mut cards[0])?;
    let (is_so, is_refused) = is_sheet_at_last(rt, heap, office, cards, number)?;
    if !is_so || cards[0].count() != 3 {
        return Err(Fail::new("another sheet"));
    }
    Ok(told(is_refused))
}

/// Whether a corner is on the edges of the parcels 2 and 4 alone.
fn is_between<A: Allocator>(at: &At<A>) -> bool {
    match at {
        At::OnEdge(ids) => ids.as_slice() == [2, 4].as_slice(),
        At::Inside(_) | At::Outside => false,
    }
}

/// Whether an answer tells, after three entries, that a corner is there.
fn is_between_then<A: Allocator>(answer: &Result<(u64, At<A>), LocateFault>) -> bool {
    match answer {
        Ok((entries, at)) => *entries == 3 && is_between(at),
        Err(_) => false,
    }
}

/// Whether a corner is found there with a growth refused, and whether one was. Where memory is
/// wanting, it is asked again.
fn is_between_at_last<H: Refuses, J: Naming<H>>(
    heap: &H,
    window: &mut Window<'_, H, J>,
    place: Corner,
    number: u64,
) -> (bool, bool) {
    heap.refuse(number);
    let answer = window.locate(place);
    let is_refused = was_refused(heap);
    let is_wanting = is_refused && matches!(&answer, Err(LocateFault::NoMemory));
    let is_so = if is_wanting {
        is_between_then(&window.locate(place))
    } else {
        is_between_then(&answer)
    };
    (is_so, is_refused)
}

/// Asks after the cut where a corner of two parcels' edges is, with a growth refused.
pub fn locate_with_memory<'a, H: Refuses, J: Naming<H>, R: Wait + Drop, W: Wait>(
    rt: &W,
    heap: &'a H,
    office: &Office<'a, H, J, R>,
    card: &mut Card<'a, H, J>,
    window: &mut Window<'a, H, J>,
    number: u64,
) -> Result<Told, Fail> {
    cut(rt, heap, office, card)?;
    let (is_so, is_refused) = is_between_at_last(heap, window, corner((60, 50))?, number);
    if is_so {
        Ok(told(is_refused))
    } else {
        Err(Fail::new("another answer"))
    }
}
