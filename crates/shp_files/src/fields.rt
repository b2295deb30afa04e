//! The numbers of a file, by the byte at which they stand, and the tests that are made on them.

ghost use Rattle.std.specs.Prelude.{◌≡◌, ◌≤◌, ◌<◌, ◌≤ℤ◌, pos, ◌^◌, ◌+◌, length, ◌∷◌, []};
ghost use Rattle.std.specs.Result.{result_err};
ghost use Rattle.shp_files.specs.Layout as layout;
ghost use Rattle.shp_files.specs.Checks.{check, first_failure};

use crate::fault::FileFault;
use byteorder::{BigEndian, ByteOrder, LittleEndian};

/// The signed number at a byte, its most significant byte first.
#[tactic(auto, unfolding(crate::specs::Layout::big_at))]
pub fn big_at(file: &[u8], at: usize) -> i32
    requires { at + 4 ≤ length file.now }
    ensures { result ≡ layout.big_at file.now at }
{
    BigEndian::read_i32(&file[at..])
}

/// The signed number at a byte, its least significant byte first.
#[tactic(auto, unfolding(crate::specs::Layout::little_at))]
pub fn little_at(file: &[u8], at: usize) -> i32
    requires { at + 4 ≤ length file.now }
    ensures { result ≡ layout.little_at file.now at }
{
    LittleEndian::read_i32(&file[at..])
}

/// The bits of the double at a byte, its least significant byte first.
#[tactic(auto, unfolding(crate::specs::Layout::double_at))]
pub fn double_at(file: &[u8], at: usize) -> u64
    requires { at + 8 ≤ length file.now }
    ensures { result ≡ layout.double_at file.now at }
{
    LittleEndian::read_u64(&file[at..])
}

/// A number that is not negative, and 0 for one that is.
#[tactic(auto, unfolding(crate::specs::Layout::natural))]
pub fn natural(number: i32) -> usize
    ensures value { result ≡ layout.natural number }
    ensures kept { pos 0 ≤ℤ number → pos result ≡ number }
    ensures bound { result < 2 ^ 31 }
{
    if number < 0 { 0 } else { number as usize }
}

/// One line of the order of checks: when it fails, and with what.
#[tactic(auto, unfolding(crate::specs::Checks::first_failure))]
pub fn refuse_if(fails: bool, fault: FileFault) -> Result<(), FileFault>
    ensures { result_err result ≡ first_failure (check fails fault ∷ []) }
{
    if fails { Err(fault) } else { Ok(()) }
}
