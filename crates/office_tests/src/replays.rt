//! Copies of the large city that follow a journal, and are compared with the fabric that has it.

use crate::city_of_many::large_city;
use crate::drawn::drawn_edit;
use fabric_core::{Entry, Fabric};
use rand_pcg::Pcg32;
use std::alloc::Allocator;
use std::test::Fail;

/// So many edits are drawn for two fabrics that are alike.
const NEXT: u64 = 100;

/// Follows a journal up to so many entries.
pub fn follow_to<'a, H: Allocator>(
    copy: &mut Fabric<'a, H>,
    journal: &[Entry<&'a H>],
    entries: u64,
) -> Result<(), Fail> {
    for place in copy.entries()..entries {
        let Some(entry) = journal.get(place as usize) else {
            return Err(Fail::new("the journal is too short"));
        };
        if copy.follow(entry) != Ok(()) {
            return Err(Fail::new("an entry of the journal is not followed"));
        }
    }
    Ok(())
}

/// Whether two fabrics have as many entries, the same parcels and the same refined ring.
fn are_alike<'a, H: Allocator>(one: &Fabric<'a, H>, other: &Fabric<'a, H>) -> bool {
    for (id, shape) in one.shapes() {
        let Some(ring) = other.ring(id) else {
            return false;
        };
        if shape.ring.corners != ring.corners {
            return false;
        }
    }
    one.entries() == other.entries()
        && one.ids().count() == other.ids().count()
        && one.refined() == other.refined()
}

/// Whether two fabrics are still alike when the same edits, which are drawn, are submitted to both,
/// and new parcels have come: so the ids that come next are the same, too.
fn stay_alike<'a, H: Allocator>(
    heap: &'a H,
    one: &mut Fabric<'a, H>,
    other: &mut Fabric<'a, H>,
) -> Result<bool, Fail> {
    let last = one.ids().last();
    let sheet = one.sheet()?;
    let mut words = Pcg32::new(42, NEXT);
    for _ in 0..NEXT {
        if let Some(edit) = drawn_edit(heap, &sheet, &mut words) {
            let _ = one.edit(1, &edit);
            let _ = other.edit(1, &edit);
        }
    }
    Ok(one.ids().last() != last && are_alike(one, other))
}

/// Whether a copy of the opening that follows a fabric's journal is like it then, and stays so.
fn becomes_alike<'a, H: Allocator>(
    heap: &'a H,
    copy: &mut Fabric<'a, H>,
    fabric: &mut Fabric<'a, H>,
) -> Result<bool, Fail> {
    follow_to(copy, fabric.journal(), fabric.entries())?;
    Ok(are_alike(copy, fabric) && stay_alike(heap, copy, fabric)?)
}

/// Whether a fabric is what the replay of its journal leads to. A few more edits are made in it.
pub fn is_replayed<'a, H: Allocator>(
    heap: &'a H,
    fabric: &mut Fabric<'a, H>,
) -> Result<bool, Fail> {
    let mut copy = large_city(heap)?;
    becomes_alike(heap, &mut copy, fabric)
}
