//! Edits as tables have them, and what stands after them.

use fabric_core::{At, Fabric, Refusal};
use geo_exact::{Corner, LIST_CORNERS, RING_CORNERS, area2};
use ring_core::{Side, side_of};
use ring_edits::Edit;
use std::alloc::Allocator;
use std::test::Fail;
use test_builders::{Place, corner, corners};

/// The clerk of all edits here.
pub const CLERK: u32 = 7;

/// An edit, its corners given as places.
#[derive(Clone, Copy)]
pub enum Change {
    /// A parcel is cut along a path.
    Split(u64, &'static [Place]),
    /// Two parcels become one.
    Merge(u64, u64),
    /// The border between two parcels is moved to a path.
    Move(u64, u64, &'static [Place]),
    /// The last corner is put into the edge between the first two.
    Insert(Place, Place, Place),
    /// A corner is taken out of all rings that have it.
    Straighten(Place),
}

/// A parcel's id, twice its area, and its ring.
pub type Parcel = (u64, i128, &'static [Place]);

/// An edit with its answer, the number of its entry or why it is refused, and the parcels after it.
pub type Step = (Change, Result<u64, Refusal>, &'static [Parcel]);

/// The edit of a table's row.
pub fn edit_of<A: Allocator>(alloc: A, change: Change) -> Result<Edit<A>, Fail> {
    match change {
        Change::Split(id, path) => Ok(Edit::Split {
            id,
            path: corners(alloc, path)?,
        }),
        Change::Merge(a, b) => Ok(Edit::Merge { a, b }),
        Change::Move(a, b, path) => Ok(Edit::Move {
            a,
            b,
            path: corners(alloc, path)?,
        }),
        Change::Insert(from, to, at) => Ok(Edit::Insert {
            from: corner(from)?,
            to: corner(to)?,
            at: corner(at)?,
        }),
        Change::Straighten(at) => Ok(Edit::Straighten { at: corner(at)? }),
    }
}

/// Whether the corners are at these places, in order.
pub fn are_at(corners: &[Corner], places: &[Place]) -> bool {
    corners.len() == places.len()
        && corners.iter().zip(places).all(|(corner, place)| corner.x == place.0
            && corner.y == place.1)
}

/// Whether a ring is at these places, and twice its area is this.
fn is_ring(ring: &[Corner], places: &[Place], twice_area: i128) -> bool {
    ring.len() <= LIST_CORNERS && area2(ring) == twice_area && are_at(ring, places)
}

/// Whether these are the parcels, by ascending id, each found by its id too.
pub fn are<H: Allocator>(fabric: &Fabric<'_, H>, want: &[Parcel]) -> bool {
    if fabric.ids().count() != want.len() {
        return false;
    }
    for ((id, shape), parcel) in fabric.shapes().zip(want) {
        let Some(ring) = fabric.ring(parcel.0) else {
            return false;
        };
        if id != parcel.0
            || !is_ring(shape.ring.corners.as_slice(), parcel.2, parcel.1)
            || !is_ring(ring.corners.as_slice(), parcel.2, parcel.1)
        {
            return false;
        }
    }
    true
}

/// Whether a place is inside this parcel.
pub fn is_inside<H: Allocator>(
    fabric: &Fabric<'_, H>,
    place: Place,
    parcel: u64,
) -> Result<bool, Fail> {
    match fabric.locate(corner(place)?)? {
        At::Inside(id) => Ok(id == parcel),
        At::OnEdge(_) | At::Outside => Ok(false),
    }
}

/// Coordinates of places that are located: those of corners, and what is beside them.
static COORDINATES: [i64; 12] = [-1, 0, 1, 10, 29, 30, 31, 59, 60, 61, 99, 100];

/// Whether a place is located, by this answer, where the rings of all parcels of a fabric say that it is.
pub fn is_scanned<H: Allocator>(
    heap: &H,
    fabric: &Fabric<'_, H>,
    place: Corner,
    answer: &At<&H>,
) -> Result<bool, Fail> {
    let mut on_edge = Vec::new(heap);
    let mut inside = None;
    for (id, shape) in fabric.shapes() {
        let ring = shape.ring.corners.as_slice();
        if ring.len() > RING_CORNERS {
            return Err(Fail::new("a ring that no layer has"));
        }
        match side_of(ring, place) {
            Side::Inside => inside = Some(id),
            Side::OnEdge => on_edge.push(id)?,
            Side::Outside => {}
        }
    }
    Ok(match answer {
        At::OnEdge(ids) => !ids.is_empty() && ids.as_slice() == on_edge.as_slice(),
        At::Inside(id) => on_edge.is_empty() && inside == Some(*id),
        At::Outside => on_edge.is_empty() && inside.is_none(),
    })
}

/// Whether a place is located where the rings of all parcels say that it is.
fn is_located<H: Allocator>(heap: &H, fabric: &Fabric<'_, H>, place: Corner) -> Result<bool, Fail> {
    is_scanned(heap, fabric, place, &fabric.locate(place)?)
}

/// Whether all places are.
fn are_located<H: Allocator>(heap: &H, fabric: &Fabric<'_, H>) -> Result<bool, Fail> {
    for x in &COORDINATES {
        for y in &COORDINATES {
            if !is_located(heap, fabric, corner((*x, *y))?)? {
                return Ok(false);
            }
        }
    }
    Ok(true)
}

/// The answer to an edit: the number of its entry, or why it is refused.
fn answer<'a, H: Allocator>(
    heap: &'a H,
    fabric: &mut Fabric<'a, H>,
    change: Change,
) -> Result<Result<u64, Refusal>, Fail> {
    let edit = edit_of(heap, change)?;
    match fabric.edit(CLERK, &edit) {
        Ok(entry) => Ok(Ok(entry.number())),
        Err(refusal) => Ok(Err(refusal)),
    }
}

/// Makes the edits of a table in turn. It is a failure where the answer to one, or the parcels or the number of entries
/// after it, are others, or a place is located elsewhere than the parcels say.
pub fn take<'a, H: Allocator>(
    heap: &'a H,
    fabric: &mut Fabric<'a, H>,
    steps: &[Step],
) -> Result<(), Fail> {
    for (change, want, parcels) in steps {
        let before = fabric.entries();
        let answer = answer(heap, fabric, *change)?;
        if answer != *want {
            return Err(Fail::new("another answer"));
        }
        let entries = match answer {
            Ok(number) => number,
            Err(_) => before,
        };
        if fabric.entries() != entries || !are(fabric, parcels) {
            return Err(Fail::new("other parcels or entries"));
        }
        if !are_located(heap, fabric)? {
            return Err(Fail::new("a place that is located elsewhere"));
        }
    }
    Ok(())
}
