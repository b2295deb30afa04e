//! The bytes of a text, whatever it is written in.

ghost use Rattle.std.specs.Prelude.{◌≡◌, IfOk};
ghost use Rattle.projection_units.specs.Plain.{plain, narrow as narrow_of, ascii as ascii_of, one_byte as one_byte_of};

use std::alloc::{AllocError, Global};

/// How UTF-8 begins, where it says so.
const UTF_8: [u8; 3] = [0xEF, 0xBB, 0xBF];

/// How UTF-16 begins, the least significant byte of each character first.
const UTF_16: [u8; 2] = [0xFF, 0xFE];

/// How it begins the other way round.
const UTF_16_BIG: [u8; 2] = [0xFE, 0xFF];

/// The characters of a file: those of UTF-16 as one byte each, in which `?` stands for what is not ASCII.
pub(crate) fn plain_text(alloc: Global, file: &[u8]) -> Result<Vec<u8>, AllocError>
    ensures { IfOk result (λ text. text.items ≡ plain file.now) }
{
    if file.starts_with(&UTF_16) {
        narrow(alloc, &file[2..], false)
    } else if file.starts_with(&UTF_16_BIG) {
        narrow(alloc, &file[2..], true)
    } else if file.starts_with(&UTF_8) {
        Vec::from_slice(alloc, &file[3..])
    } else {
        Vec::from_slice(alloc, file)
    }
}

/// The characters of UTF-16, whose bytes of each two are the least significant first, or last.
fn narrow(alloc: Global, wide: &[u8], big: bool) -> Result<Vec<u8>, AllocError>
    ensures { IfOk result (λ text. text.items ≡ narrow_of big wide.now) }
{
    let mut plain = Vec::new(alloc);
    for at in 0..wide.len() / 2 {
        plain.push(one_byte(big, wide[2 * at], wide[2 * at + 1]))?;
    }
    Ok(plain)
}

/// A character as one byte, by its two in their order.
fn one_byte(big: bool, first: u8, second: u8) -> u8
    ensures { result ≡ one_byte_of big first second }
{
    if big {
        ascii(second, first)
    } else {
        ascii(first, second)
    }
}

/// A character as one byte, by its two: `?` for what is not ASCII.
fn ascii(low: u8, high: u8) -> u8
    ensures { result ≡ ascii_of low high }
{
    if high == 0 && low < 128 { low } else { b'?' }
}
