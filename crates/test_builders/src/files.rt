//! The bytes of layer files.

ghost use Rattle.std.specs.Prelude.{◌≤◌, ◌+◌, length};
ghost use Rattle.geo_exact.specs.declared.limits.TheConstants.{LAYER_RECORDS};

use geo_exact::{Corner, Corners, write_coord};
use std::alloc::{AllocError, Allocator};

/// The double 0.
pub const ZERO: [u8; 8] = [0; 8];

/// The double 1.
pub const ONE: [u8; 8] = [0, 0, 0, 0, 0, 0, 0xf0, 0x3f];

/// The double 100.
pub const HUNDRED: [u8; 8] = [0, 0, 0, 0, 0, 0, 0x59, 0x40];

/// The ring of [`square_file`] from [`ZERO`] to [`HUNDRED`], in millimetres.
pub const SQUARE: [Corner; 4] = [
    Corner { x: 0, y: 0 },
    Corner { x: 100, y: 0 },
    Corner { x: 100, y: 100 },
    Corner { x: 0, y: 100 },
];

/// Exchanges the bytes from a place on.
pub fn put(file: &mut [u8], at: usize, bytes: &[u8])
    requires { at + length bytes.now ≤ length file.old }
{
    file[at..at + bytes.len()].copy_from_slice(bytes);
}

/// The header of a file of so many words, with an empty box.
pub fn put_header(file: &mut [u8], words: u8)
    requires { 100 ≤ length file.old }
{
    put(file, 0, &[0, 0, 0x27, 0x0a]);
    put(file, 24, &[0, 0, 0, words]);
    put(file, 28, &[0xe8, 3, 0, 0]);
    put(file, 32, &[5, 0, 0, 0]);
}

/// A point at a place.
pub fn put_point(file: &mut [u8], at: usize, x: &[u8; 8], y: &[u8; 8])
    requires { at + 16 ≤ length file.old }
{
    put(file, at, x);
    put(file, at + 8, y);
}

/// Either file of a layer with no record.
pub fn empty_file() -> [u8; 100] {
    let mut file = [0; 100];
    put_header(&mut file, 50);
    file
}

/// The main file of one square, clockwise from its corner of the least coordinates.
pub fn square_file(low: &[u8; 8], high: &[u8; 8]) -> [u8; 236] {
    let mut file = [0; 236];
    put_header(&mut file, 118);
    for box_at in [36usize, 112] {
        put(&mut file, box_at, low);
        put(&mut file, box_at + 8, low);
        put(&mut file, box_at + 16, high);
        put(&mut file, box_at + 24, high);
    }
    put(&mut file, 100, &[0, 0, 0, 1]);
    put(&mut file, 104, &[0, 0, 0, 64]);
    put(&mut file, 108, &[5, 0, 0, 0]);
    put(&mut file, 144, &[1, 0, 0, 0]);
    put(&mut file, 148, &[5, 0, 0, 0]);
    for (at, x, y) in [
        (156usize, low, low),
        (172, low, high),
        (188, high, high),
        (204, high, low),
        (220, low, low),
    ] {
        put_point(&mut file, at, x, y);
    }
    file
}

/// A null shape, and the square behind it.
pub fn behind_a_null_shape() -> [u8; 248] {
    let square = square_file(&ZERO, &HUNDRED);
    let mut file = [0; 248];
    put_header(&mut file, 124);
    put(&mut file, 100, &[0, 0, 0, 1, 0, 0, 0, 2]);
    put(&mut file, 112, &square[100..]);
    put(&mut file, 112, &[0, 0, 0, 2]);
    file
}

/// An index of so many words, with two index records: an offset and a content length each.
pub fn index_of(words: u8, first: (u8, u8), second: (u8, u8)) -> [u8; 116] {
    let mut file = [0; 116];
    put_header(&mut file, words);
    put(&mut file, 100, &[0, 0, 0, first.0, 0, 0, 0, first.1]);
    put(&mut file, 108, &[0, 0, 0, second.0, 0, 0, 0, second.1]);
    file
}

/// The header of a file of so many words, in a file that grows.
fn header<A: Allocator + Copy>(alloc: A, words: u32) -> Result<Vec<u8, A>, AllocError> {
    let mut file = empty_file();
    put(&mut file, 24, &words.to_be_bytes());
    Vec::from_slice(alloc, &file)
}

/// The record of this number, with a square from x to x + 100 millimetres on both axes.
fn square_record(number: u32, x: u32) -> [u8; 136] {
    let low = write_coord(i64::from(x)).to_le_bytes();
    let high = write_coord(i64::from(x) + 100).to_le_bytes();
    let file = square_file(&low, &high);
    let mut record = [0; 136];
    put(&mut record, 0, &file[100..]);
    put(&mut record, 0, &number.to_be_bytes());
    record
}

/// The main file and the index of so many squares: record k, from 1, holds the one from k to k +
/// 100 millimetres on both axes.
///
/// # Errors
///
/// [`AllocError`] where memory is wanting.
pub fn squares_in_a_row<A: Allocator + Copy>(
    alloc: A,
    count: u32,
) -> Result<(Vec<u8, A>, Vec<u8, A>), AllocError>
    requires { count ≤ LAYER_RECORDS }
{
    let mut main = header(alloc, 50 + 68 * count)?;
    let mut index = header(alloc, 50 + 4 * count)?;
    for k in 0..count {
        main.extend_from_slice(&square_record(k + 1, k + 1))?;
        index.extend_from_slice(&(50 + 68 * k).to_be_bytes())?;
        index.extend_from_slice(&64u32.to_be_bytes())?;
    }
    Ok((main, index))
}

/// The main file of one ring, from its corners counterclockwise: its points are clockwise, and the
/// first stands once more at the end. Its boxes are empty.
///
/// # Errors
///
/// [`AllocError`] where memory is wanting.
pub fn ring_file<A: Allocator + Copy>(alloc: A, ring: &[Corner]) -> Result<Vec<u8, A>, AllocError> {
    let mut file = header(alloc, 50u32.wrapping_add(record_words(ring)))?;
    extend_by_record(&mut file, 1, ring)?;
    Ok(file)
}

/// The main file of these rings, as [`ring_file`] has one, numbered from 1; a list of no corner is a null shape.
///
/// # Errors
///
/// [`AllocError`] where memory is wanting.
pub fn layer_file<A: Allocator + Copy>(
    alloc: A,
    rings: &[Corners<A>],
) -> Result<Vec<u8, A>, AllocError> {
    let mut words = 50u32;
    for ring in rings {
        words = words.wrapping_add(record_words(ring.as_slice()));
    }
    let mut file = header(alloc, words)?;
    let mut number = 0u32;
    for ring in rings {
        number = number.wrapping_add(1);
        extend_by_record(&mut file, number, ring.as_slice())?;
    }
    Ok(file)
}

/// How many words the record of a ring takes, its own header among them; a ring of no corner is a null shape.
fn record_words(ring: &[Corner]) -> u32 {
    content_words(ring).wrapping_add(4)
}

fn content_words(ring: &[Corner]) -> u32 {
    if ring.is_empty() {
        2
    } else {
        point_count(ring).wrapping_mul(8).wrapping_add(24)
    }
}

/// The points of a ring that is closed by its first corner.
fn point_count(ring: &[Corner]) -> u32 {
    u32::try_from(ring.len())
        .unwrap_or(u32::MAX)
        .wrapping_add(1)
}

fn extend_by_record<A: Allocator>(
    file: &mut Vec<u8, A>,
    number: u32,
    ring: &[Corner],
) -> Result<(), AllocError> {
    file.extend_from_slice(&number.to_be_bytes())?;
    file.extend_from_slice(&content_words(ring).to_be_bytes())?;
    let Some(first) = ring.first() else {
        return file.extend_from_slice(&[0; 4]);
    };
    file.extend_from_slice(&[5, 0, 0, 0])?;
    file.extend_from_slice(&[0; 32])?;
    file.extend_from_slice(&[1, 0, 0, 0])?;
    file.extend_from_slice(&point_count(ring).to_le_bytes())?;
    file.extend_from_slice(&[0, 0, 0, 0])?;
    extend_by_point(file, *first)?;
    for corner in ring.iter().rev() {
        extend_by_point(file, *corner)?;
    }
    Ok(())
}

fn extend_by_point<A: Allocator>(file: &mut Vec<u8, A>, corner: Corner) -> Result<(), AllocError> {
    file.extend_from_slice(&write_coord(corner.x).to_le_bytes())?;
    file.extend_from_slice(&write_coord(corner.y).to_le_bytes())
}
