//! The records of a main file, in the order of their checks.

ghost use Rattle.std.specs.Prelude.{◌≡◌, ◌≤◌, ◌<◌, ◌^◌, ◌+◌, ◌-◌, ◌*◌, Ok, length, IfOk, IfSome, IfNone};
ghost use Rattle.std.specs.Prelude.{IsSome, true, false, ◌||◌};
ghost use Rattle.std.specs.Result.{result_err};
ghost use Rattle.shp_files.specs.Layout as layout;
ghost use Rattle.geo_exact.specs.Grid.{coordinate};
ghost use Rattle.geo_exact.specs.Limit.{IsWithin, limit};
ghost use Rattle.geo_exact.specs.declared.limits.TheConstants.{LAYER_CORNERS, LAYER_RECORDS, RING_CORNERS};
ghost use Rattle.shp_files.specs.Checks.{first_failure, frame_checks, shape_checks, count_checks, coordinate_checks};
ghost use Rattle.shp_files.specs.Checks.{ring_checks, polygon_checks, record_checks, is_null, declared_end, record_end};
ghost use Rattle.shp_files.specs.Checks.{points_of, fault};
ghost use Rattle.shp_files.specs.LayerFile.{closed};
ghost use Rattle.shp_files.specs.own.Reading.{Finds, IsReadAs, AreReadAs, IsDrawnAs};

use crate::fault::{FaultKind, FileFault, FileName, LayerFault};
use crate::fields::{big_at, double_at, little_at, natural, refuse_if};
use crate::header::POLYGON;
use crate::normal::{is_other, kept_once, turn_counterclockwise};
use geo_exact::{
    Corner, Corners, LAYER_CORNERS, LAYER_RECORDS, RING_CORNERS, RawRing, Unit, read_coord,
};
use std::alloc::Allocator;

/// The shape type of null shapes.
const NULL_SHAPE: i32 = 0;

/// The bytes of a record before its points: 8 of its header and 48 of its content.
const POINTS: usize = 56;

/// The most points of a ring, the closing one included.
const MOST_POINTS: usize = RING_CORNERS + 1;

/// Where a record begins.
#[derive(Clone, Copy)]
pub struct RecordHead {
    /// Its position in the file, from 1.
    pub position: u32,
    /// Its first byte.
    pub start: usize,
}

impl RecordHead {
    fn fault(self, offset: usize, kind: FaultKind) -> FileFault
        requires { self.start + offset < 2 ^ 64 }
        ensures { result ≡ fault self.position (self.start + offset) kind }
    {
        FileFault {
            file: FileName::Main,
            position: self.position,
            place: (self.start + offset) as u64,
            kind,
        }
    }
}

/// The record's frame; answers the byte at which its content ends.
#[tactic(auto, unfolding(crate::specs::Checks::frame_checks, crate::specs::Checks::first_failure))]
fn check_frame(main: &[u8], end: usize, head: RecordHead) -> Result<usize, FileFault>
    requires end { end ≡ declared_end main.now }
    requires bound { end < 2 ^ 32 }
    requires within { end ≤ length main.now }
    requires start { head.start ≤ end }
    ensures checked { result_err result ≡ first_failure (frame_checks main.now head.position head.start) }
    ensures end { IfOk result (λ content_end. content_end ≡ record_end main.now head.start) }
    ensures within { IfOk result (λ content_end. content_end ≤ end) }
    ensures room { IfOk result (λ content_end. head.start + 12 ≤ content_end) }
    ensures few { IfOk result (λ content_end. head.position ≤ LAYER_RECORDS) }
{
    let RecordHead { position, start } = head;
    refuse_if(position > LAYER_RECORDS, head.fault(0, FaultKind::TooMany))?;
    refuse_if(end < start + 8, head.fault(0, FaultKind::Short))?;
    let words = big_at(main, start + 4);
    refuse_if(words < 2, head.fault(4, FaultKind::Content))?;
    let content_end = start + 8 + 2 * natural(words);
    refuse_if(end < content_end, head.fault(4, FaultKind::Short))?;
    Ok(content_end)
}

/// The record's shape type; answers whether it is that of null shapes.
#[tactic(auto, unfolding(crate::specs::Checks::shape_checks, crate::specs::Checks::first_failure))]
fn check_shape(main: &[u8], head: RecordHead) -> Result<bool, FileFault>
    requires bound { head.start < 2 ^ 32 }
    requires room { head.start + 12 ≤ length main.now }
    ensures checked { result_err result ≡ first_failure (shape_checks main.now head.position head.start) }
    ensures null { IfOk result (λ null. null ≡ is_null main.now head.start) }
{
    let shape_type = little_at(main, head.start + 8);
    let null = shape_type == NULL_SHAPE;
    let polygon = shape_type == POLYGON;
    refuse_if(!null && !polygon, head.fault(8, FaultKind::ShapeType))?;
    let words = big_at(main, head.start + 4);
    refuse_if(null && words != 2, head.fault(4, FaultKind::Content))?;
    Ok(null)
}

/// The polygon's counts; answers the number of its points. The polygons before it have
/// `corners_before` corners together.
#[tactic(auto, unfolding(crate::specs::Checks::count_checks, crate::specs::Checks::first_failure))]
fn check_counts(
    main: &[u8],
    content_end: usize,
    head: RecordHead,
    corners_before: usize,
) -> Result<usize, FileFault>
    requires end { content_end ≡ record_end main.now head.start }
    requires within { content_end ≤ length main.now }
    requires bound { content_end < 2 ^ 32 }
    requires room { head.start + 12 ≤ content_end }
    requires corners { corners_before ≤ LAYER_CORNERS }
    ensures checked { result_err result
        ≡ first_failure (count_checks main.now head.position head.start corners_before) }
    ensures count { IfOk result (λ count. count ≡ points_of main.now head.start) }
    ensures enough { IfOk result (λ count. 4 ≤ count) }
    ensures few { IfOk result (λ count. count ≤ RING_CORNERS + 1) }
    ensures few_together { IfOk result (λ count. corners_before + (count - 1) ≤ LAYER_CORNERS) }
    ensures filled { IfOk result (λ count. head.start + 56 + 16 * count ≡ content_end) }
{
    let start = head.start;
    let words = big_at(main, start + 4);
    // The type, the box, and the numbers of parts and points have so many.
    refuse_if(words < 22, head.fault(4, FaultKind::Content))?;
    let parts = little_at(main, start + 44);
    refuse_if(parts != 1, head.fault(44, FaultKind::Parts))?;
    refuse_if(content_end < start + 52, head.fault(4, FaultKind::Content))?;
    let points = little_at(main, start + 48);
    refuse_if(points < 4, head.fault(48, FaultKind::FewPoints))?;
    let count = natural(points);
    let many = MOST_POINTS < count || LAYER_CORNERS < corners_before + (count - 1);
    refuse_if(many, head.fault(48, FaultKind::TooMany))?;
    let bytes = content_end - (start + 8);
    refuse_if(bytes != 48 + 16 * count, head.fault(4, FaultKind::Content))?;
    let first = little_at(main, start + 52);
    refuse_if(first != 0, head.fault(52, FaultKind::Parts))?;
    Ok(count)
}

/// The point at a byte.
#[inline(always)]
fn read_point(main: &[u8], unit: Unit, head: RecordHead, offset: usize) -> Result<Corner, FileFault>
    requires bound { head.start + offset < 2 ^ 63 }
    requires room { head.start + offset + 16 ≤ length main.now }
    ensures checked { result_err result
        ≡ first_failure (coordinate_checks main.now unit head.position (head.start + offset) 2) }
    ensures read { IfOk result (λ corner. IsReadAs unit main.now (head.start + offset) corner) }
{
    let x = read_number(main, unit, head, offset)?;
    let y = read_number(main, unit, head, offset + 8)?;
    Ok(Corner { x, y })
}

/// The coordinate at a byte.
#[inline(always)]
fn read_number(main: &[u8], unit: Unit, head: RecordHead, offset: usize) -> Result<i64, FileFault>
    requires bound { head.start + offset < 2 ^ 63 }
    requires room { head.start + offset + 8 ≤ length main.now }
    ensures checked { result_err result
        ≡ first_failure (coordinate_checks main.now unit head.position (head.start + offset) 1) }
    ensures read { IfOk result (λ number. coordinate (layout.double_at main.now (head.start + offset)) unit
        ≡ Ok number) }
    ensures within { IfOk result (λ number. IsWithin limit number) }
{
    match read_coord(double_at(main, head.start + offset), unit) {
        Ok(number) => Ok(number),
        Err(fault) => Err(head.fault(offset, FaultKind::Coord(fault))),
    }
}

/// The points of so many corners, each after the other.
fn read_corners<A: Allocator + Copy>(
    alloc: A,
    main: &[u8],
    unit: Unit,
    head: RecordHead,
    count: usize,
) -> Result<Corners<A>, LayerFault>
    requires bound { head.start + 16 * count < 2 ^ 62 }
    requires room { head.start + 56 + 16 * count ≤ length main.now }
    ensures checked { Finds result
        (first_failure (coordinate_checks main.now unit head.position (head.start + 56) (2 * count))) }
    ensures read { IfOk result (λ corners. AreReadAs unit main.now (head.start + 56) corners) }
    ensures count { IfOk result (λ corners. length corners ≡ count) }
{
    let mut corners = Corners::with_capacity(alloc, count)?;
    for i in 0..count {
        let corner = read_point(main, unit, head, POINTS + 16 * i)?;
        corners.push(corner)?;
    }
    Ok(corners)
}

/// The ring of so many points, the last of which is the first again.
fn read_ring<A: Allocator + Copy>(
    alloc: A,
    main: &[u8],
    unit: Unit,
    head: RecordHead,
    count: usize,
) -> Result<Corners<A>, LayerFault>
    requires bound { head.start + 16 * count < 2 ^ 62 }
    requires room { head.start + 56 + 16 * count ≤ length main.now }
    requires enough { 4 ≤ count }
    ensures checked { Finds result (first_failure (ring_checks main.now unit head.position (head.start + 56) count)) }
    ensures read { IfOk result (λ corners. AreReadAs unit main.now (head.start + 56) (closed corners)) }
    ensures count { IfOk result (λ corners. length corners + 1 ≡ count) }
{
    let corners = read_corners(alloc, main, unit, head, count - 1)?;
    let last = POINTS + 16 * (count - 1);
    let closing = read_point(main, unit, head, last)?;
    let first = corners.as_slice()[0];
    let open = is_other(first, closing);
    refuse_if(open, head.fault(last, FaultKind::NotClosed))?;
    Ok(corners)
}

/// A record as it was read.
#[derive(Drop)]
pub struct Record<A: Allocator> {
    /// The byte at which it ends.
    pub end: usize,
    /// The corners with which its ring is drawn; 0 for a null shape.
    pub drawn: usize,
    /// Its ring; none for a null shape.
    pub ring: Option<RawRing<A>>,
}

/// Reads a polygon whose content ends at `content_end`.
fn read_polygon<A: Allocator + Copy>(
    alloc: A,
    main: &[u8],
    unit: Unit,
    content_end: usize,
    head: RecordHead,
    corners_before: usize,
) -> Result<Record<A>, LayerFault>
    requires end { content_end ≡ record_end main.now head.start }
    requires within { content_end ≤ length main.now }
    requires bound { content_end < 2 ^ 32 }
    requires room { head.start + 12 ≤ content_end }
    requires corners { corners_before ≤ LAYER_CORNERS }
    ensures checked { Finds result
        (first_failure (polygon_checks main.now unit head.position head.start corners_before)) }
    ensures end { IfOk result (λ polygon. polygon.end ≡ content_end) }
    ensures ring { IfOk result (λ polygon. IfSome polygon.ring (λ ring. (ring.number ≡ head.position)
        × IsDrawnAs unit main.now head.start polygon.drawn ring.corners)) }
    ensures some { IfOk result (λ polygon. IsSome polygon.ring) }
    ensures count { IfOk result (λ polygon. polygon.drawn + 1 ≡ points_of main.now head.start) }
    ensures few_together { IfOk result (λ polygon. corners_before + polygon.drawn ≤ LAYER_CORNERS) }
{
    let count = check_counts(main, content_end, head, corners_before)?;
    let drawn = read_ring(alloc, main, unit, head, count)?;
    let mut corners = kept_once(alloc, drawn)?;
    let few = corners.as_slice().len() < 3;
    refuse_if(few, head.fault(48, FaultKind::FewPoints))?;
    turn_counterclockwise(&mut corners);
    Ok(Record {
        end: content_end,
        drawn: count - 1,
        ring: Some(RawRing {
            number: head.position,
            corners,
        }),
    })
}

/// Reads a record of a file that is declared to end at `end`, where the polygons before it have
/// `corners_before` corners together.
pub fn read_record<A: Allocator + Copy>(
    alloc: A,
    main: &[u8],
    unit: Unit,
    end: usize,
    head: RecordHead,
    corners_before: usize,
) -> Result<Record<A>, LayerFault>
    requires end { end ≡ declared_end main.now }
    requires bound { end < 2 ^ 32 }
    requires within { end ≤ length main.now }
    requires start { head.start ≤ end }
    requires corners { corners_before ≤ LAYER_CORNERS }
    ensures checked { Finds result
        (first_failure (record_checks main.now unit head.position head.start corners_before)) }
    ensures end { IfOk result (λ found. found.end ≡ record_end main.now head.start) }
    ensures within { IfOk result (λ found. found.end ≤ end) }
    ensures longer { IfOk result (λ found. head.start < found.end) }
    ensures null { IfOk result (λ found. IfNone found.ring ((is_null main.now head.start ≡ true) × (found.drawn ≡ 0))) }
    ensures ring { IfOk result (λ found. IfSome found.ring (λ ring. (is_null main.now head.start ≡ false)
        × (ring.number ≡ head.position) × (found.drawn + 1 ≡ points_of main.now head.start)
        × IsDrawnAs unit main.now head.start found.drawn ring.corners)) }
    ensures few { IfOk result (λ found. head.position ≤ LAYER_RECORDS) }
    ensures few_together { IfOk result (λ found. corners_before + found.drawn ≤ LAYER_CORNERS) }
{
    let content_end = check_frame(main, end, head)?;
    if check_shape(main, head)? {
        return Ok(Record {
            end: content_end,
            drawn: 0,
            ring: None,
        });
    }
    read_polygon(alloc, main, unit, content_end, head, corners_before)
}
