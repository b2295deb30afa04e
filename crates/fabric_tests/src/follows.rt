//! A fabric that follows the journal of another, entry by entry.

use crate::changes::{Parcel, are, take};
use crate::steps::{BACK_TO_ONE, HALVES, INTO_HALVES, ONE_CORNER, TWO, TWO_CORNERS};
use fabric_core::{Entry, Fabric, FollowFault, Row};
use refusing_alloc::Refusing;
use std::alloc::Allocator;
use std::test::Fail;
use test_builders::{Refuses, was_refused};
use test_cities::{RINGS, SQUARE, fabric};

/// No call here has so many growths.
const MOST: u64 = 1000;

/// The parcels before an entry, and those after it.
type Passage = (&'static [Parcel], &'static [Parcel]);

/// Of the entries that the steps into halves make.
static PASSAGES: [Passage; 3] = [
    (&TWO, &ONE_CORNER),
    (&ONE_CORNER, &TWO_CORNERS),
    (&TWO_CORNERS, &HALVES),
];

/// Whether the rows have the same rings under the same ids.
fn are_same_rows<A: Allocator>(rows: &[Row<A>], others: &[Row<A>]) -> bool {
    rows.len() == others.len()
        && rows.iter().zip(others).all(|(row, other)| row.id == other.id
            && row.corners == other.corners)
}

/// Whether the entries are alike in all that they tell.
fn is_same_entry<A: Allocator>(entry: &Entry<A>, other: &Entry<A>) -> bool {
    entry.number() == other.number()
        && entry.clerk() == other.clerk()
        && entry.edit() == other.edit()
        && entry.out() == other.out()
        && are_same_rows(entry.rows(), other.rows())
}

/// Whether both have the same journal.
pub fn have_same_journal<'a, H: Allocator>(fabric: &Fabric<'a, H>, other: &Fabric<'a, H>) -> bool {
    let entries = fabric.journal();
    let others = other.journal();
    if entries.len() != others.len() {
        return false;
    }
    for place in 0..entries.len() {
        if !is_same_entry(&entries[place], &others[place]) {
            return false;
        }
    }
    true
}

/// Whether the copy has the journal and the refined ring of the original, and these parcels.
fn is_copy_of<'a, H: Allocator>(
    copy: &Fabric<'a, H>,
    original: &Fabric<'a, H>,
    want: &[Parcel],
) -> bool {
    have_same_journal(copy, original) && copy.refined() == original.refined() && are(copy, want)
}

/// Follows an entry that is not due, which changes nothing.
fn follow_not_due<'a, H: Allocator>(
    copy: &mut Fabric<'a, H>,
    entry: &Entry<&'a H>,
    parcels: &[Parcel],
) -> Result<(), Fail> {
    let before = copy.entries();
    let answer = copy.follow(entry);
    if answer != Err(FollowFault::NotDue) || copy.entries() != before || !are(copy, parcels) {
        return Err(Fail::new("an entry that is not due was followed"));
    }
    Ok(())
}

/// Follows the entries in their order, none of the others being due before it.
fn follow_in_order<'a, H: Allocator>(
    copy: &mut Fabric<'a, H>,
    entries: &[Entry<&'a H>],
    passages: &[Passage],
) -> Result<(), Fail> {
    for (entry, passage) in entries.iter().zip(passages) {
        for other in entries {
            if other.number() != entry.number() {
                follow_not_due(copy, other, passage.0)?;
            }
        }
        if copy.follow(entry) != Ok(()) {
            return Err(Fail::new("an entry that is due was not followed"));
        }
    }
    Ok(())
}

/// Follows none of the entries again.
fn follow_none<'a, H: Allocator>(
    copy: &mut Fabric<'a, H>,
    entries: &[Entry<&'a H>],
) -> Result<(), Fail> {
    for entry in entries {
        follow_not_due(copy, entry, &HALVES)?;
    }
    Ok(())
}

/// Lets a copy follow an entry with growth `number` refused, and where memory is then wanting,
/// which changes nothing, once more with memory: whether it was, or nothing where no growth was
/// refused. A growth that is only made ahead may be refused and not be wanting.
fn follow_refused<'a, H: Refuses>(
    heap: &H,
    copy: &mut Fabric<'a, H>,
    entry: &Entry<&'a H>,
    before: &[Parcel],
    number: u64,
) -> Result<Option<bool>, Fail> {
    let entries = copy.entries();
    heap.refuse(number);
    let answer = copy.follow(entry);
    let is_refused = was_refused(heap);
    match answer {
        Ok(()) if is_refused => Ok(Some(false)),
        Ok(()) => Ok(None),
        Err(FollowFault::NoMemory)
            if is_refused && copy.entries() == entries && are(copy, before) => {
            match copy.follow(entry) {
                Ok(()) => Ok(Some(true)),
                Err(_) => Err(Fail::new("it is not followed with memory")),
            }
        }
        Err(_) => Err(Fail::new("a refusal is told, and changes nothing")),
    }
}

/// Follows an entry from one copy with each growth refused in turn: whether memory was wanting in some call.
fn follow_at_last<'a, H: Refuses>(
    heap: &H,
    base: &Fabric<'a, H>,
    entry: &Entry<&'a H>,
    passage: Passage,
) -> Result<bool, Fail> {
    let mut is_wanting = false;
    for number in 1..MOST {
        let mut copy = base.copy()?;
        let told = follow_refused(heap, &mut copy, entry, passage.0, number)?;
        if copy.entries() != entry.number() || !are(&copy, passage.1) {
            return Err(Fail::new("other parcels or entries"));
        }
        match told {
            Some(told) => is_wanting |= told,
            None => return Ok(is_wanting),
        }
    }
    Err(Fail::new("each growth was refused"))
}

/// Follows the entries in their order, each with each growth refused in turn, and then with none.
fn follow_refused_in_order<'a, H: Refuses>(
    heap: &H,
    copy: &mut Fabric<'a, H>,
    entries: &[Entry<&'a H>],
    passages: &[Passage],
) -> Result<(), Fail> {
    for (entry, passage) in entries.iter().zip(passages) {
        if !follow_at_last(heap, copy, entry, *passage)? || copy.follow(entry) != Ok(()) {
            return Err(Fail::new("memory is wanting, and then it is followed"));
        }
    }
    Ok(())
}

/// Lets a copy follow the steps into halves, which the original takes first, and looks that both
/// are alike then and later.
fn follow_halves<'a, H: Allocator>(
    heap: &'a H,
    original: &mut Fabric<'a, H>,
    copy: &mut Fabric<'a, H>,
) -> Result<(), Fail> {
    take(heap, original, &INTO_HALVES)?;
    follow_in_order(copy, original.journal(), &PASSAGES)?;
    if !is_copy_of(copy, original, &HALVES) {
        return Err(Fail::new("no copy"));
    }
    follow_none(copy, original.journal())?;
    take(heap, original, &BACK_TO_ONE)?;
    take(heap, copy, &BACK_TO_ONE)
}

#[test]
fn follows_the_entries_in_their_order(rt: HostRuntime) -> Result<(), Fail> {
    let heap = &rt.alloc();
    let mut original = fabric(heap, &SQUARE, &RINGS)?;
    let mut copy = fabric(heap, &SQUARE, &RINGS)?;
    follow_halves(heap, &mut original, &mut copy)
}

/// The same with each growth refused in turn.
fn follow_refused_halves<'a, H: Refuses>(
    heap: &'a H,
    original: &mut Fabric<'a, H>,
    copy: &mut Fabric<'a, H>,
) -> Result<(), Fail> {
    take(heap, original, &INTO_HALVES)?;
    follow_refused_in_order(heap, copy, original.journal(), &PASSAGES)?;
    if is_copy_of(copy, original, &HALVES) {
        Ok(())
    } else {
        Err(Fail::new("no copy"))
    }
}

/// The same, of two fabrics of the two parcels.
fn follow_refused_of_two<H: Refuses>(heap: &H) -> Result<(), Fail> {
    let mut original = fabric(heap, &SQUARE, &RINGS)?;
    let mut copy = fabric(heap, &SQUARE, &RINGS)?;
    follow_refused_halves(heap, &mut original, &mut copy)
}

#[test]
fn follows_where_memory_was_wanting(rt: HostRuntime) -> Result<(), Fail> {
    follow_refused_of_two(&Refusing::new(rt.alloc(), 0))
}
