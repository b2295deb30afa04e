//! The fields of a file, written at its end.

ghost use Rattle.std.specs.Prelude.{◌≡◌, ◌++◌, OnOk};
ghost use Rattle.byteorder.specs.Endian.{little_bytes};
ghost use Rattle.shp_files.specs.Written as written;

use byteorder::{BigEndian, ByteOrder, LittleEndian};
use geo_exact::{Corner, write_coord};
use std::alloc::{AllocError, Allocator};

/// A whole number, its most significant byte first.
#[tactic(auto, unfolding(crate::specs::Written::big))]
pub fn put_big<A: Allocator>(out: &mut Vec<u8, A>, number: u32) -> Result<(), AllocError>
    ensures { OnOk result (out.new.items ≡ out.old.items ++ written.big number) }
{
    let mut bytes = [0u8; 4];
    BigEndian::write_u32(&mut bytes, number);
    out.extend_from_slice(&bytes)
}

/// A whole number, its least significant byte first.
#[tactic(auto, unfolding(crate::specs::Written::little))]
pub fn put_little<A: Allocator>(out: &mut Vec<u8, A>, number: u32) -> Result<(), AllocError>
    ensures { OnOk result (out.new.items ≡ out.old.items ++ written.little number) }
{
    let mut bytes = [0u8; 4];
    LittleEndian::write_u32(&mut bytes, number);
    out.extend_from_slice(&bytes)
}

/// Two doubles by their bits, the least significant byte of each first.
fn two_doubles(first: u64, second: u64) -> [u8; 16]
    ensures { result ≡ little_bytes 8 first ++ little_bytes 8 second }
{
    let mut bytes = [0u8; 16];
    LittleEndian::write_u64(&mut bytes, first);
    LittleEndian::write_u64(&mut bytes[8..], second);
    bytes
}

/// A point: its x, and then its y.
pub fn put_point<A: Allocator>(out: &mut Vec<u8, A>, corner: Corner) -> Result<(), AllocError>
    ensures { OnOk result (out.new.items ≡ out.old.items ++ written.point corner) }
{
    let bytes = two_doubles(write_coord(corner.x), write_coord(corner.y));
    out.extend_from_slice(&bytes)
}
