//! Each growth of opening a fabric, of copying it and of taking a sheet refused in turn; and what a fabric and a sheet
//! answer to a search, beside a scan of all parcels.

use crate::changes::{is_scanned, take};
use crate::refused_edits::are_alike;
use crate::steps::INTO_HALVES;
use fabric_core::{Fabric, Layer, Sheet};
use geo_exact::Corner;
use refusing_alloc::Refusing;
use std::alloc::{AllocError, Allocator};
use std::test::Fail;
use test_builders::{Place, Refuses, corner, was_refused};
use test_cities::{RINGS, SQUARE, fabric, layer};

/// No call here has so many growths.
const MOST: u64 = 1000;

/// The fabric of a layer that came back, with memory.
fn opened_again<'a, H: Refuses>(layer: Layer<'a, H>) -> Result<Fabric<'a, H>, Fail> {
    match Fabric::open(layer) {
        Ok(fabric) => Ok(fabric),
        Err(_) => Err(Fail::new("it is not opened with memory")),
    }
}

/// Opens a fabric with allocation `number` refused, and where the layer then comes back, opens that; whether it was
/// refused.
fn is_opening_refused<'a, H: Refuses>(
    heap: &'a H,
    want: &Fabric<'a, H>,
    number: u64,
) -> Result<bool, Fail> {
    let layer = layer(heap, &SQUARE, &RINGS)?;
    heap.refuse(number);
    let opened = Fabric::open(layer);
    let is_refused = was_refused(heap);
    if opened.is_err() != is_refused {
        return Err(Fail::new("a refusal is told, and nothing else is"));
    }
    let fabric = match opened {
        Ok(fabric) => fabric,
        Err(layer) => opened_again(layer)?,
    };
    if !are_alike(&fabric, want)? {
        return Err(Fail::new("another fabric"));
    }
    Ok(is_refused)
}

/// The first growth of an opening that is not made any more.
fn first_unrefused_of_opening<H: Refuses>(heap: &H) -> Result<u64, Fail> {
    let want = fabric(heap, &SQUARE, &RINGS)?;
    for number in 1..MOST {
        if !is_opening_refused(heap, &want, number)? {
            return Ok(number);
        }
    }
    Err(Fail::new("each growth was refused"))
}

#[test]
fn opens_again(rt: HostRuntime) -> Result<(), Fail> {
    let heap = Refusing::new(rt.alloc(), 0);
    // Opening asks for no memory.
    assert!(rt; first_unrefused_of_opening(&heap)? == 1);
    Ok(())
}

/// Copies a fabric with growth `number` refused, and where it was, once more; whether it was.
fn is_copying_refused<H: Refuses>(
    heap: &H,
    fabric: &Fabric<'_, H>,
    number: u64,
) -> Result<bool, Fail> {
    heap.refuse(number);
    let copy = fabric.copy();
    let is_refused = was_refused(heap);
    if copy.is_err() != is_refused {
        return Err(Fail::new("a refusal is told, and nothing else is"));
    }
    let copy = match copy {
        Ok(copy) => copy,
        Err(_) => fabric.copy()?,
    };
    if !are_alike(&copy, fabric)? {
        return Err(Fail::new("another fabric"));
    }
    Ok(is_refused)
}

/// The candidates between two corners: of a sheet, and of its fabric.
fn between<'a, H: Allocator>(
    fabric: &Fabric<'a, H>,
    sheet: &Sheet<'a, H>,
    low: Corner,
    high: Corner,
) -> Result<Result<(Vec<u64, &'a H>, Vec<u64, &'a H>), AllocError>, Fail> {
    if low.x > high.x || low.y > high.y {
        return Err(Fail::new("no box"));
    }
    let of_sheet = sheet.candidates(low, high)?;
    Ok(Ok((of_sheet, fabric.candidates(low, high)?)))
}

/// Boxes among the three parcels behind the cut, and the candidates between their corners: cells are two wide.
static BOXES: [((i64, i64), (i64, i64), &[u64]); 4] = [
    ((0, 0), (10, 10), &[3]),
    ((30, 0), (30, 100), &[3, 4]),
    ((62, 0), (100, 100), &[2]),
    ((0, 0), (100, 100), &[2, 3, 4]),
];

/// Whether a sheet shows what its fabric shows.
fn shows_alike<'a, H: Allocator>(fabric: &Fabric<'a, H>, sheet: &Sheet<'a, H>) -> bool {
    if !sheet.ids().eq(fabric.ids()) || sheet.entries() != fabric.entries() {
        return false;
    }
    for ((_, shape), (_, it)) in sheet.shapes().zip(fabric.shapes()) {
        if shape.ring.corners != it.ring.corners {
            return false;
        }
    }
    sheet.city() == fabric.city() && sheet.refined() == fabric.refined()
}

/// Whether a sheet and its fabric have the candidates of each box.
fn have_candidates<'a, H: Allocator>(
    fabric: &Fabric<'a, H>,
    sheet: &Sheet<'a, H>,
) -> Result<bool, Fail> {
    for (low, high, want) in &BOXES {
        let (of_sheet, of_fabric) = between(fabric, sheet, corner(*low)?, corner(*high)?)??;
        if of_sheet.as_slice() != *want || of_fabric.as_slice() != *want {
            return Ok(false);
        }
    }
    Ok(true)
}

/// Places in the parcels behind the cut, on their edges, and outside the city.
static PLACES: [Place; 6] = [(10, 10), (30, 50), (60, 50), (80, 1), (60, 0), (101, 5)];

/// Whether a sheet and its fabric locate each place where the rings of all parcels say that it is.
fn are_scanned<'a, H: Allocator>(
    heap: &'a H,
    fabric: &Fabric<'a, H>,
    sheet: &Sheet<'a, H>,
) -> Result<bool, Fail> {
    for place in &PLACES {
        let place = corner(*place)?;
        let is_so = is_scanned(heap, fabric, place, &sheet.locate(place)?)?
            && is_scanned(heap, fabric, place, &fabric.locate(place)?)?;
        if !is_so {
            return Ok(false);
        }
    }
    Ok(true)
}

/// Whether a sheet shows what its fabric shows, and both answer searches as they have to.
fn is_sheet_of<'a, H: Allocator>(
    heap: &'a H,
    fabric: &Fabric<'a, H>,
    sheet: &Sheet<'a, H>,
) -> Result<bool, Fail> {
    Ok(
        shows_alike(fabric, sheet)
            && have_candidates(fabric, sheet)?
            && are_scanned(heap, fabric, sheet)?,
    )
}

/// Takes a sheet with growth `number` refused, and where it was, once more; whether it was.
fn is_sheet_refused<'a, H: Refuses>(
    heap: &'a H,
    fabric: &Fabric<'a, H>,
    number: u64,
) -> Result<bool, Fail> {
    heap.refuse(number);
    let sheet = fabric.sheet();
    let is_refused = was_refused(heap);
    if sheet.is_err() != is_refused {
        return Err(Fail::new("a refusal is told, and nothing else is"));
    }
    let sheet = match sheet {
        Ok(sheet) => sheet,
        Err(_) => fabric.sheet()?,
    };
    if !is_sheet_of(heap, fabric, &sheet)? {
        return Err(Fail::new("another sheet"));
    }
    Ok(is_refused)
}

/// The first growth of a copy, or of a sheet, that is not made any more.
fn first_unrefused<'a, H: Refuses>(
    heap: &'a H,
    fabric: &Fabric<'a, H>,
    is_of_sheet: bool,
) -> Result<u64, Fail> {
    for number in 1..MOST {
        let is_refused = if is_of_sheet {
            is_sheet_refused(heap, fabric, number)?
        } else {
            is_copying_refused(heap, fabric, number)?
        };
        if !is_refused {
            return Ok(number);
        }
    }
    Err(Fail::new("each growth was refused"))
}

/// The same, of the fabric of the halves.
fn first_unrefused_of_halves<H: Refuses>(heap: &H, is_of_sheet: bool) -> Result<u64, Fail> {
    let mut fabric = fabric(heap, &SQUARE, &RINGS)?;
    take(heap, &mut fabric, &INTO_HALVES)?;
    first_unrefused(heap, &fabric, is_of_sheet)
}

#[test]
fn copies_again(rt: HostRuntime) -> Result<(), Fail> {
    let heap = Refusing::new(rt.alloc(), 0);
    assert!(rt; first_unrefused_of_halves(&heap, false)? > 10);
    assert!(rt; first_unrefused_of_halves(&heap, true)? > 10);
    Ok(())
}
