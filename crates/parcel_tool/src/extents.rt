//! What the doubles of a main file look like.

use crate::doubles::{big_at, double_at, is_latitude, is_longitude, little_at};

/// Bytes of a main file's header.
const HEADER: usize = 100;

/// Bytes of a record's header: its number and its length.
const RECORD_HEADER: usize = 8;

/// Bytes before the points of a polygon of one part: 4 of the type, 32 of the box, and 4 each of the numbers of parts
/// and of points and of where the part begins.
const BEFORE_POINTS: usize = 48;

/// The most records that are looked at: a layer has no more.
const RECORDS: usize = 65_536;

/// Whether all points of a main file can be in degrees, and there are some: each x from -180 to 180, each y from -90
/// to 90.
pub(crate) fn looks_like_degrees(main: &[u8]) -> bool {
    let Some((_, behind)) = main.split_at_checked(HEADER) else {
        return false;
    };
    let mut rest = behind;
    let mut some = false;
    for _ in 0..RECORDS {
        let Some((content, behind)) = first_record(rest) else {
            return some;
        };
        if !are_degrees(content) {
            return false;
        }
        some |= content.len() > BEFORE_POINTS;
        rest = behind;
    }
    some
}

/// The content of the first record, and what stands behind it.
fn first_record(records: &[u8]) -> Option<(&[u8], &[u8])> {
    let words = big_at(records, 4)?;
    let (_, behind) = records.split_at_checked(RECORD_HEADER)?;
    behind.split_at_checked(2 * words as usize)
}

/// Whether the points of a record can be in degrees.
fn are_degrees(content: &[u8]) -> bool {
    if little_at(content, 0) != Some(5) {
        return true;
    }
    let Some((_, points)) = content.split_at_checked(BEFORE_POINTS) else {
        return true;
    };
    let mut rest = points;
    // A point has two doubles.
    for _ in 0..points.len() / 16 {
        let (Some(x), Some(y)) = (double_at(rest, 0), double_at(rest, 8)) else {
            return true;
        };
        if !is_longitude(x) || !is_latitude(y) {
            return false;
        }
        let Some((_, behind)) = rest.split_at_checked(16) else {
            return true;
        };
        rest = behind;
    }
    true
}
