//! Edits that are drawn at random from the parcels of a sheet.

use crate::borders::{corner_at, edge_at, has_edge, new_border};
use fabric_core::Sheet;
use geo_exact::{Corner, Corners, turn};
use rand_core::utils::NextWord;
use rand_pcg::Pcg32;
use ring_edits::Edit;
use std::alloc::Allocator;

/// Draws a place of a list of so many; 0 where it is empty.
fn drawn_place(words: &mut Pcg32, count: usize) -> usize {
    if count == 0 {
        return 0;
    }
    words.next_word() as usize % count
}

/// A corner put half way into the edge at a place, where that is whole.
fn insert_of<A: Allocator>(ring: &[Corner], place: usize) -> Option<Edit<A>> {
    let (from, to) = edge_at(ring, place)?;
    let x = from.x.wrapping_add(to.x);
    let y = from.y.wrapping_add(to.y);
    if x % 2 != 0 || y % 2 != 0 {
        return None;
    }
    let at = Corner::new(x / 2, y / 2)?;
    Some(Edit::Insert { from, to, at })
}

/// The first corner from a place on that lies in line with its neighbours, taken out.
fn straighten_of<A: Allocator>(ring: &[Corner], place: usize) -> Option<Edit<A>> {
    for step in 0..ring.len() {
        let before = place.wrapping_add(step);
        let from = corner_at(ring, before)?;
        let at = corner_at(ring, before.wrapping_add(1))?;
        let to = corner_at(ring, before.wrapping_add(2))?;
        if turn(from, at, to) == 0 {
            return Some(Edit::Straighten { at });
        }
    }
    None
}

/// A split from the corner at a place to the one across.
fn split_of<A: Allocator + Copy>(
    alloc: A,
    id: u64,
    ring: &[Corner],
    place: usize,
) -> Option<Edit<A>> {
    let mut path = Corners::with_capacity(alloc, 2).ok()?;
    path.push(corner_at(ring, place)?).ok()?;
    path.push(corner_at(ring, place.wrapping_add(ring.len() / 2))?)
        .ok()?;
    Some(Edit::Split { id, path })
}

/// The first of some parcels that has an edge.
fn first_with<H: Allocator>(
    sheet: &Sheet<'_, H>,
    ids: &[u64],
    edge: (Corner, Corner),
) -> Option<u64> {
    for id in ids {
        if has_edge(sheet.ring(*id)?.corners.as_slice(), edge) {
            return Some(*id);
        }
    }
    None
}

/// The parcel beyond the edge at a place.
fn beyond<H: Allocator>(sheet: &Sheet<'_, H>, ring: &[Corner], place: usize) -> Option<u64> {
    let (from, to) = edge_at(ring, place)?;
    let ids = sheet.candidates(from, from).ok()?;
    first_with(sheet, ids.as_slice(), (to, from))
}

/// A merge with the parcel beyond the edge at a place.
fn merge_of<'a, H: Allocator>(
    sheet: &Sheet<'a, H>,
    id: u64,
    ring: &[Corner],
    place: usize,
) -> Option<Edit<&'a H>> {
    let b = beyond(sheet, ring, place)?;
    Some(Edit::Merge { a: id, b })
}

/// A move of the border with the parcel beyond the edge at a place.
fn move_of<'a, H: Allocator>(
    heap: &'a H,
    sheet: &Sheet<'a, H>,
    id: u64,
    ring: &[Corner],
    place: usize,
) -> Option<Edit<&'a H>> {
    let b = beyond(sheet, ring, place)?;
    let path = new_border(heap, ring, place, sheet.ring(b)?.corners.as_slice())?;
    Some(Edit::Move { a: id, b, path })
}

/// An edit that may be lawful, of a parcel that is drawn, and of a kind that is drawn, but that short
/// rings get corners, long ones are not merged, and of few parcels none is.
pub fn drawn_edit<'a, H: Allocator>(
    heap: &'a H,
    sheet: &Sheet<'a, H>,
    words: &mut Pcg32,
) -> Option<Edit<&'a H>> {
    let count = sheet.ids().count();
    let id = sheet.ids().nth(drawn_place(words, count))?;
    let ring = sheet.ring(id)?.corners.as_slice();
    let place = drawn_place(words, ring.len());
    let kind = words.next_word() % 5;
    if ring.len() < 8 || kind == 0 {
        insert_of(ring, place)
    } else if kind == 1 {
        straighten_of(ring, place)
    } else if kind == 2 {
        move_of(heap, sheet, id, ring, place)
    } else if ring.len() > 24 || count < 30 || kind == 3 {
        split_of(heap, id, ring, place)
    } else {
        merge_of(sheet, id, ring, place)
    }
}
