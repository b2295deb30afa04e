//! The bytes of main files and indexes for tests.

use std::alloc::{AllocError, Global};

/// The bits of 0 and of 100.
pub const HUNDRED: (u64, u64) = (0, 0x4059_0000_0000_0000);

/// The bits of -10,000,000,000 and of 10,000,000,000.
pub const FARTHEST: (u64, u64) = (0xC237_4876_E800_0000, 0x4237_4876_E800_0000);

/// The points of a square with sides of 100, clockwise from its least corner, and the first once more.
pub const POINTS: [(u64, u64); 5] = [
    (0, 0),
    (0, HUNDRED.1),
    (HUNDRED.1, HUNDRED.1),
    (HUNDRED.1, 0),
    (0, 0),
];

/// A main file of 236 bytes whose one record is a square, clockwise from its least corner.
pub fn square(alloc: Global, (low, high): (u64, u64)) -> Result<Vec<u8>, AllocError> {
    let mut file = header(alloc, 118, [low, low, high, high])?;
    for word in [1u32, 64] {
        file.extend_from_slice(&word.to_be_bytes())?;
    }
    push_words(&mut file, &[5])?;
    push_doubles(&mut file, &[low, low, high, high])?;
    push_words(&mut file, &[1, 5, 0])?;
    push_doubles(
        &mut file,
        &[low, low, low, high, high, high, high, low, low, low],
    )?;
    Ok(file)
}

/// The header of a main file of so many 16-bit words.
pub fn header(alloc: Global, words: u32, bounds: [u64; 4]) -> Result<Vec<u8>, AllocError> {
    let mut file = Vec::new(alloc);
    for word in [9994u32, 0, 0, 0, 0, 0, words] {
        file.extend_from_slice(&word.to_be_bytes())?;
    }
    push_words(&mut file, &[1000, 5])?;
    push_doubles(&mut file, &bounds)?;
    push_doubles(&mut file, &[0; 4])?;
    Ok(file)
}

/// Words whose least significant byte comes first.
fn push_words(file: &mut Vec<u8>, words: &[u32]) -> Result<(), AllocError> {
    for word in words {
        file.extend_from_slice(&word.to_le_bytes())?;
    }
    Ok(())
}

/// The bits of doubles, the least significant byte first.
fn push_doubles(file: &mut Vec<u8>, doubles: &[u64]) -> Result<(), AllocError> {
    for bits in doubles {
        file.extend_from_slice(&bits.to_le_bytes())?;
    }
    Ok(())
}

/// The index file, of 100 bytes and 8 for each entry, with these entries: the record's place and
/// its content's length, both in 16-bit words.
pub fn index(alloc: Global, entries: &[(u32, u32)]) -> Result<Vec<u8>, AllocError> {
    let words = 50u32.wrapping_add(4u32.wrapping_mul(count_of(entries.len())));
    let mut file = header(alloc, words, [0, 0, HUNDRED.1, HUNDRED.1])?;
    for (place, length) in entries {
        file.extend_from_slice(&place.to_be_bytes())?;
        file.extend_from_slice(&length.to_be_bytes())?;
    }
    Ok(file)
}

/// A main file of one record, the polygon of these points, as (x, y) in the bits of doubles.
pub fn polygon(alloc: Global, points: &[(u64, u64)]) -> Result<Vec<u8>, AllocError> {
    let content = 24u32.wrapping_add(8u32.wrapping_mul(count_of(points.len())));
    let mut file = header(alloc, content.wrapping_add(54), [0; 4])?;
    push_record(&mut file, 1, content, points)?;
    Ok(file)
}

/// A main file of 248 bytes: a null shape, and then the polygon of these five points.
pub fn null_and_polygon(alloc: Global, points: &[(u64, u64); 5]) -> Result<Vec<u8>, AllocError> {
    let mut file = header(alloc, 124, [0; 4])?;
    for word in [1u32, 2] {
        file.extend_from_slice(&word.to_be_bytes())?;
    }
    push_words(&mut file, &[0])?;
    push_record(&mut file, 2, 64, points)?;
    Ok(file)
}

/// A main file and its index: so many squares with sides of 100.
pub fn squares(alloc: Global, number: u32) -> Result<(Vec<u8>, Vec<u8>), AllocError> {
    let mut place = 50u32;
    let mut main = header(
        alloc,
        68u32.wrapping_mul(number).wrapping_add(place),
        [0; 4],
    )?;
    let mut entries = Vec::new(alloc);
    for position in 1..=number {
        push_record(&mut main, position, 64, &POINTS)?;
        entries.push((place, 64))?;
        place = place.wrapping_add(68);
    }
    let beside = index(alloc, entries.as_slice())?;
    Ok((main, beside))
}

/// A count as a file has it.
fn count_of(count: usize) -> u32 {
    u32::try_from(count).unwrap_or(u32::MAX)
}

/// The record of a polygon of one part, with so many 16-bit words of content.
pub fn push_record(
    file: &mut Vec<u8>,
    number: u32,
    content: u32,
    points: &[(u64, u64)],
) -> Result<(), AllocError> {
    for word in [number, content] {
        file.extend_from_slice(&word.to_be_bytes())?;
    }
    push_words(file, &[5])?;
    push_doubles(file, &[0; 4])?;
    push_words(file, &[1, count_of(points.len()), 0])?;
    for (x, y) in points {
        push_doubles(file, &[*x, *y])?;
    }
    Ok(())
}
