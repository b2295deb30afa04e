//! Windows that are asked how many entries they find, and which ring a parcel has.

use crate::growths::{published, told};
use crate::halves::cut;
use crate::plays::Told;
use desk_lock::{Card, LocateFault, Naming, Office, Window};
use std::alloc::Allocator;
use std::sync::Wait;
use std::test::Fail;
use test_builders::{Place, Refuses, corners, was_refused};
use test_cities::WEST;

/// The west half of the first parcel, which is parcel 3 once it is cut.
const HALF: [Place; 4] = [(0, 0), (30, 0), (30, 100), (0, 100)];

/// Whether a window finds so many entries, after which a parcel has this ring; none where it is gone or not there yet.
fn shows<'a, H: Allocator, J: Naming<H>>(
    heap: &'a H,
    window: &mut Window<'a, H, J>,
    entries: u64,
    id: u64,
    want: Option<&[Place]>,
) -> Result<bool, Fail> {
    let found = window.entries();
    let Ok((count, ring)) = window.parcel(id) else {
        return Err(Fail::new("no answer"));
    };
    let is_ring = match (ring, want) {
        (Some(ring), Some(want)) => ring == corners(heap, want)?,
        (None, None) => true,
        _ => false,
    };
    Ok(found == Ok(entries) && count == entries && is_ring)
}

/// Whether a window shows the first parcel and no half yet.
fn shows_whole<'a, H: Allocator, J: Naming<H>>(
    heap: &'a H,
    window: &mut Window<'a, H, J>,
) -> Result<bool, Fail> {
    Ok(shows(heap, window, 0, 1, Some(&WEST))? && shows(heap, window, 0, 3, None)?)
}

/// Whether a window shows the west half, and the first parcel is gone.
fn shows_half<'a, H: Allocator, J: Naming<H>>(
    heap: &'a H,
    window: &mut Window<'a, H, J>,
) -> Result<bool, Fail> {
    Ok(shows(heap, window, 3, 1, None)? && shows(heap, window, 3, 3, Some(&HALF))?)
}

/// A clerk cuts the first parcel, of which the window shows the ring before, and that of its west
/// half afterwards.
pub fn ask_parcels<'a, H: Allocator, J: Naming<H>, R: Wait + Drop, W: Wait>(
    rt: &W,
    heap: &'a H,
    office: &Office<'a, H, J, R>,
    card: &mut Card<'a, H, J>,
    window: &mut Window<'a, H, J>,
) -> Result<Told, Fail> {
    if !shows_whole(heap, window)? {
        return Err(Fail::new("another parcel before the edits"));
    }
    let last = cut(rt, heap, office, card)?;
    window.learn(&last);
    if !shows_half(heap, window)? || published(rt, office)?.number() != 3 {
        return Err(Fail::new("another parcel after the edits"));
    }
    Ok(Told::Done)
}

/// Asks after the cut for the ring of the west half, with a growth refused. Where memory is wanting,
/// it is asked again.
pub fn parcel_with_memory<'a, H: Refuses, J: Naming<H>, R: Wait + Drop, W: Wait>(
    rt: &W,
    heap: &'a H,
    office: &Office<'a, H, J, R>,
    card: &mut Card<'a, H, J>,
    window: &mut Window<'a, H, J>,
    number: u64,
) -> Result<Told, Fail> {
    cut(rt, heap, office, card)?;
    heap.refuse(number);
    let answer = window.parcel(3);
    let is_refused = was_refused(heap);
    let is_wanting = matches!(&answer, Err(LocateFault::NoMemory));
    if is_wanting != is_refused || !shows_half(heap, window)? {
        return Err(Fail::new("another parcel with memory refused"));
    }
    Ok(told(is_refused))
}
