//! Writing a layer's two files.

ghost use Rattle.std.specs.Prelude.{◌≡◌, ◌≤◌, ◌+◌, ◌*◌, ◌++◌, length, flat_map, reverse, All, IfOk, OnOk, List};
ghost use Rattle.std.specs.Prelude.{None, Some, pos, ◌≤ℤ◌, int_lt, if◌then◌else◌};
ghost use Rattle.geo_exact.specs.declared.coord.Unit.TheVariants.{Mm};
ghost use Rattle.geo_exact.specs.declared.corner.Corner.{Corner as CornerValue};
ghost use Rattle.geo_exact.specs.Area.{area2 as area2_of};
ghost use Rattle.geo_exact.specs.Rings.{turned_round};
ghost use Rattle.geo_exact.specs.declared.limits.TheConstants.{LAYER_CORNERS, LAYER_RECORDS};
ghost use Rattle.shp_files.specs.LayerFile.{joined, rings_of, corner_count, IsLayerFile};
ghost use Rattle.shp_files.specs.NormalForm.{IsNormal};
ghost use Rattle.shp_files.specs.Written as written;
ghost use Rattle.shp_files.specs.Written.{as_written, corner_lists, all_corners};
ghost use Rattle.shp_files.specs.Written.{numbered_from, written_main, written_index};
ghost use Rattle.shp_files.specs.own.Writing.{MayBeBounds};

use crate::bounds::{put_box, with_corners};
use crate::header::{FILE_CODE, POLYGON, VERSION};
use crate::put::{put_big, put_little, put_point};
use geo_exact::{Bounds, Corner, RawRing, area2};
use std::alloc::{AllocError, Allocator};

/// How many points a ring is written with: its corners, and the first once more.
fn point_count(ring: &[Corner]) -> u32
    requires { length ring.now ≤ LAYER_CORNERS }
    ensures { result ≡ length (written.points ring.now) }
{
    if ring.is_empty() {
        0
    } else {
        ring.len() as u32 + 1
    }
}

/// The length of a record's content in words.
fn content_words(ring: &[Corner]) -> u32
    requires { length ring.now ≤ LAYER_CORNERS }
    ensures { result ≡ written.words (written.content ring.now) }
{
    // 48 bytes before the points, and 16 of each.
    24 + 8 * point_count(ring)
}

fn put_forwards<A: Allocator>(out: &mut Vec<u8, A>, corners: &[Corner]) -> Result<(), AllocError>
    ensures { OnOk result (out.new.items ≡ out.old.items ++ flat_map written.point corners.now) }
{
    for corner in corners {
        put_point(out, *corner)?;
    }
    Ok(())
}

fn put_backwards<A: Allocator>(out: &mut Vec<u8, A>, corners: &[Corner]) -> Result<(), AllocError>
    ensures { OnOk result (out.new.items ≡ out.old.items ++ flat_map written.point (reverse corners.now)) }
{
    for corner in corners.iter().rev() {
        put_point(out, *corner)?;
    }
    Ok(())
}

/// A ring's points: clockwise where it has an area, and its first corner first and last.
fn put_points<A: Allocator>(out: &mut Vec<u8, A>, ring: &[Corner]) -> Result<(), AllocError>
    requires { length ring.now ≤ LAYER_CORNERS }
    ensures { OnOk result (out.new.items ≡ out.old.items ++ flat_map written.point (written.points ring.now)) }
{
    let Some(first) = ring.first() else {
        return Ok(());
    };
    if area2(ring) > 0 {
        put_point(out, *first)?;
        put_backwards(out, ring)
    } else {
        put_forwards(out, ring)?;
        put_point(out, *first)
    }
}

/// A polygon.
fn put_content<A: Allocator>(out: &mut Vec<u8, A>, ring: &[Corner]) -> Result<(), AllocError>
    requires { length ring.now ≤ LAYER_CORNERS }
    ensures { OnOk result (out.new.items ≡ out.old.items ++ written.content ring.now) }
{
    put_little(out, POLYGON as u32)?;
    put_box(out, with_corners(None, ring))?;
    put_little(out, 1)?;
    put_little(out, point_count(ring))?;
    put_little(out, 0)?;
    put_points(out, ring)
}

fn put_record<A: Allocator>(
    out: &mut Vec<u8, A>,
    number: u32,
    ring: &[Corner],
) -> Result<(), AllocError>
    requires { length ring.now ≤ LAYER_CORNERS }
    ensures { OnOk result (out.new.items ≡ out.old.items ++ written.record_bytes number ring.now) }
{
    put_big(out, number)?;
    put_big(out, content_words(ring))?;
    put_content(out, ring)
}

/// The header of a file that has so many words.
fn put_header<A: Allocator>(
    out: &mut Vec<u8, A>,
    file_words: u32,
    bounds: Option<Bounds>,
) -> Result<(), AllocError>
    ensures { (corners : List CornerValue) → MayBeBounds bounds corners
        → OnOk result (out.new.items ≡ out.old.items ++ written.header file_words corners) }
{
    put_big(out, FILE_CODE as u32)?;
    // Five numbers that are not used.
    out.extend_from_slice(&[0u8; 20])?;
    put_big(out, file_words)?;
    put_little(out, VERSION as u32)?;
    put_little(out, POLYGON as u32)?;
    put_box(out, bounds)?;
    // The ranges of heights and measures, which polygons have none of.
    out.extend_from_slice(&[0u8; 32])
}

/// The bounds of all corners of the rings.
fn layer_bounds<A: Allocator>(rings: &[RawRing<A>]) -> Option<Bounds>
    ensures { MayBeBounds result (all_corners (corner_lists rings.now)) }
{
    let mut bounds = None;
    for ring in rings {
        bounds = with_corners(bounds, ring.corners.as_slice());
    }
    bounds
}

/// The length of the records in words.
fn records_words<A: Allocator>(rings: &[RawRing<A>]) -> u32
    requires rings { length rings.now ≤ LAYER_RECORDS }
    requires corners { length (all_corners (corner_lists rings.now)) ≤ LAYER_CORNERS }
    ensures value { result ≡ written.words (joined (written.records 1 (corner_lists rings.now))) }
    ensures bound { result ≤ 36 * LAYER_RECORDS + 8 * LAYER_CORNERS }
{
    let mut words = 0;
    for ring in rings {
        words += 4 + content_words(ring.corners.as_slice());
    }
    words
}

/// The records, numbered from 1.
fn put_records<A: Allocator>(out: &mut Vec<u8, A>, rings: &[RawRing<A>]) -> Result<(), AllocError>
    requires rings { length rings.now ≤ LAYER_RECORDS }
    requires corners { length (all_corners (corner_lists rings.now)) ≤ LAYER_CORNERS }
    ensures { OnOk result
        (out.new.items ≡ out.old.items ++ joined (written.records 1 (corner_lists rings.now))) }
{
    let mut number = 1;
    for ring in rings {
        put_record(out, number, ring.corners.as_slice())?;
        number += 1;
    }
    Ok(())
}

/// The index records.
fn put_index_records<A: Allocator>(
    out: &mut Vec<u8, A>,
    rings: &[RawRing<A>],
) -> Result<(), AllocError>
    requires rings { length rings.now ≤ LAYER_RECORDS }
    requires corners { length (all_corners (corner_lists rings.now)) ≤ LAYER_CORNERS }
    ensures { OnOk result
        (out.new.items ≡ out.old.items ++ written.index_records 50 (corner_lists rings.now)) }
{
    // In words, behind the header.
    let mut place = 50;
    for ring in rings {
        let words = content_words(ring.corners.as_slice());
        put_big(out, place)?;
        put_big(out, words)?;
        place += 4 + words;
    }
    Ok(())
}

fn write_main<A: Allocator + Copy>(
    alloc: A,
    rings: &[RawRing<A>],
    bounds: Option<Bounds>,
) -> Result<Vec<u8, A>, AllocError>
    requires rings { length rings.now ≤ LAYER_RECORDS }
    requires corners { length (all_corners (corner_lists rings.now)) ≤ LAYER_CORNERS }
    requires bounds { MayBeBounds bounds (all_corners (corner_lists rings.now)) }
    ensures { IfOk result (λ file. file.items ≡ written_main (corner_lists rings.now)) }
{
    let words = 50 + records_words(rings);
    let mut out = Vec::with_capacity(alloc, 2 * words as usize)?;
    put_header(&mut out, words, bounds)?;
    put_records(&mut out, rings)?;
    Ok(out)
}

fn write_index<A: Allocator + Copy>(
    alloc: A,
    rings: &[RawRing<A>],
    bounds: Option<Bounds>,
) -> Result<Vec<u8, A>, AllocError>
    requires rings { length rings.now ≤ LAYER_RECORDS }
    requires corners { length (all_corners (corner_lists rings.now)) ≤ LAYER_CORNERS }
    requires bounds { MayBeBounds bounds (all_corners (corner_lists rings.now)) }
    ensures { IfOk result (λ file. file.items ≡ written_index (corner_lists rings.now)) }
{
    let words = 50 + 4 * rings.len() as u32;
    let mut out = Vec::with_capacity(alloc, 2 * words as usize)?;
    put_header(&mut out, words, bounds)?;
    put_index_records(&mut out, rings)?;
    Ok(out)
}

/// A layer's main file and its index file, in millimetres.
///
/// Each ring is a record, numbered from 1 in the order of the list. A ring of positive twice-area
/// is written clockwise, its first corner first, as the Technical Description asks; any other in
/// its own order. There may be at most 65,536 rings, with at most 1,000,000 corners together.
///
/// # Errors
///
/// `AllocError` where the memory for one of the files is refused.
///
/// ```
/// let (main, index) = write_layer(alloc, rings.as_slice())?;
/// ```
#[tactic(auto, using(crate::proofs::written::WrittenRings::same_count))]
pub fn write_layer<A: Allocator + Copy>(
    alloc: A,
    rings: &[RawRing<A>],
) -> Result<(Vec<u8, A>, Vec<u8, A>), AllocError>
    requires rings { length rings.now ≤ LAYER_RECORDS }
    requires corners { corner_count (rings_of rings.now) ≤ LAYER_CORNERS }
    ensures main { IfOk result (λ files. files.0.items ≡ written_main (corner_lists rings.now)) }
    ensures index { IfOk result (λ files. files.1.items ≡ written_index (corner_lists rings.now)) }
    // Reading the two back gives the same corner lists, numbered from 1.
    ensures read_back { IfOk result (λ files.
        IsLayerFile files.0.items (Some files.1.items) Mm (numbered_from 1 (corner_lists rings.now))) }
{
    let bounds = layer_bounds(rings);
    let main = write_main(alloc, rings, bounds)?;
    let index = write_index(alloc, rings, bounds)?;
    Ok((main, index))
}

/// The main file that is written, alone or with the index that is written, is a layer's in
/// millimetres, of the same rings, numbered from 1: reading it back gives the same corner lists.
/// The rings are in normal form, as a [`RawRing`] is by its type.
#[tactic(auto, using(crate::proofs::written::WrittenLayer::written_layer, crate::proofs::written::WrittenLayer::written_with_index))]
pub fn a_written_file_is_a_layer_file()
    ensures alone { (rings : List (List CornerValue))
        → All IsNormal rings → length rings ≤ LAYER_RECORDS → length (all_corners rings) ≤ LAYER_CORNERS
        → IsLayerFile (written_main rings) None Mm (numbered_from 1 rings) }
    ensures with_index { (rings : List (List CornerValue))
        → All IsNormal rings → length rings ≤ LAYER_RECORDS → length (all_corners rings) ≤ LAYER_CORNERS
        → IsLayerFile (written_main rings) (Some (written_index rings)) Mm (numbered_from 1 rings) }
{}

/// A ring whose twice-area is not negative is written so that turning it round again, where its twice-area has become
/// negative, gives back the same list of corners.
#[tactic(auto, using(crate::proofs::written::WrittenLayer::turned_back))]
pub fn a_written_ring_is_turned_back()
    ensures { (ring : List CornerValue) → pos 0 ≤ℤ area2_of ring
        → (if int_lt (area2_of (as_written ring)) (pos 0) then turned_round (as_written ring) else as_written ring)
        ≡ ring }
{}
