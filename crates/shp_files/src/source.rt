//! All bytes of a reader.

ghost use Rattle.std.specs.Prelude.{◌≡◌, ◌≤◌, ◌<◌, length, take, IfOk, OnOk, IfSome, IsErrOf};
ghost use Rattle.std.specs.Io.KnownBytes.{IsAtEnd};
ghost use Rattle.geo_exact.specs.Bytes.{raised};
ghost use Rattle.geo_exact.specs.declared.limits.TheConstants.{FILE_BYTES};
ghost use Rattle.shp_files.specs.declared.source.ReadFault.TheVariants.{Device, NoMemory};

use geo_exact::{ByteIn, FILE_BYTES, Failed};
use std::alloc::{AllocError, Allocator};

/// The zeros that are added at first: room for a small layer at once.
const LEAST_PIECE: usize = 16384;

/// The most zeros that are added at once: so few that they are still in the processor's cache when
/// bytes take their places.
const MOST_PIECE: usize = 262_144;

/// Why a reader's bytes were not read.
#[derive(Clone, Copy, Debug, PartialEq, Eq)]
pub enum ReadFault {
    /// The reader failed.
    Device,
    /// It holds more than [`FILE_BYTES`](geo_exact::FILE_BYTES).
    TooLong,
    /// An allocation failed.
    NoMemory,
}

impl From<Failed> for ReadFault {
    ghost from_gives = { λ _ e. e ≡ Device };

    fn from(_e: Failed) -> ReadFault {
        ReadFault::Device
    }
}

impl From<AllocError> for ReadFault {
    ghost from_gives = { λ _ e. e ≡ NoMemory };

    fn from(_e: AllocError) -> ReadFault {
        ReadFault::NoMemory
    }
}

/// Reads all that a reader holds, up to [`FILE_BYTES`](geo_exact::FILE_BYTES).
///
/// # Errors
///
/// [`ReadFault::Device`] only where the reader failed in this call, [`ReadFault::TooLong`], and
/// [`ReadFault::NoMemory`] only where an allocation failed. With each of them no bytes are handed on.
///
/// ```
/// let main = read_all(alloc, &mut Counted::new(File::open(rt, path)?))?;
/// ```
pub fn read_all<A: Allocator + Copy, R: ByteIn>(
    alloc: A,
    reader: &mut R,
) -> Result<Vec<u8, A>, ReadFault>
    // What is answered is all that the reader held, where it tells that.
    ensures whole { IfOk result (λ bytes. IfSome (R.remaining reader.old) (λ held. bytes.items ≡ held)) }
    // Afterwards it holds none any more.
    ensures at_end { OnOk result (IsAtEnd (R.remaining reader.new)) }
    ensures bound { IfOk result (λ bytes. length bytes.items ≤ FILE_BYTES) }
    ensures too_long { IsErrOf result ReadFault.TooLong →
        IfSome (R.remaining reader.old) (λ held. FILE_BYTES < length held) }
    ensures device { IsErrOf result ReadFault.Device → R.failure_count reader.new
        ≡ raised (R.failure_count reader.old) }
    ensures no_failure { (¬ IsErrOf result ReadFault.Device) → R.failure_count reader.new ≡ R.failure_count reader.old }
{
    let mut bytes = Vec::new(alloc);
    let mut filled = 0;
    loop {
        if filled == bytes.len() {
            widen(&mut bytes)?;
        }
        let count = reader.pull(&mut bytes[filled..])?;
        if count == 0 {
            bytes.truncate(filled);
            return Ok(bytes);
        }
        if FILE_BYTES - filled < count {
            return Err(ReadFault::TooLong);
        }
        filled += count;
    }
}

/// Adds zeros behind the bytes, as many as there are bytes, but no fewer and no more than the pieces.
fn widen<A: Allocator>(bytes: &mut Vec<u8, A>) -> Result<(), AllocError>
    requires { length bytes.old.items ≤ FILE_BYTES }
    ensures kept { OnOk result (take (length bytes.old.items) bytes.new.items ≡ bytes.old.items) }
    ensures longer { OnOk result (length bytes.old.items < length bytes.new.items) }
{
    let piece = bytes.len().clamp(LEAST_PIECE, MOST_PIECE);
    bytes.resize(bytes.len() + piece, 0)
}
