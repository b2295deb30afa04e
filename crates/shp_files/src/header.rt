//! The header of a file.

ghost use Rattle.std.specs.Prelude.{◌≡◌, ◌≤◌, ◌<◌, ◌^◌, length, IfOk};
ghost use Rattle.std.specs.Result.{result_err};
ghost use Rattle.shp_files.specs.Checks.{first_failure, header_checks, declared_end, fault_in};

use crate::fault::{FaultKind, FileFault, FileName};
use crate::fields::{big_at, little_at, natural, refuse_if};

/// The bytes of a header.
pub const HEADER: usize = 100;

/// The file code of both files.
pub const FILE_CODE: i32 = 9994;

/// The version of both files.
pub const VERSION: i32 = 1000;

/// The shape type of polygons.
pub const POLYGON: i32 = 5;

/// Checks the header, and answers the byte at which the file is declared to end.
#[tactic(auto, unfolding(crate::specs::Checks::header_checks, crate::specs::Checks::declared_end, crate::specs::Checks::first_failure))]
pub fn read_header(name: FileName, file: &[u8]) -> Result<usize, FileFault>
    ensures checked { result_err result ≡ first_failure (header_checks name file.now) }
    ensures end { IfOk result (λ end. end ≡ declared_end file.now) }
    ensures within { IfOk result (λ end. end ≤ length file.now) }
    ensures room { IfOk result (λ end. 100 ≤ end) }
    ensures bound { IfOk result (λ end. end < 2 ^ 32) }
{
    let size = file.len();
    refuse_if(size < HEADER, in_header(name, size, FaultKind::Short))?;
    let code = big_at(file, 0);
    refuse_if(code != FILE_CODE, in_header(name, 0, FaultKind::FileCode))?;
    let words = big_at(file, 24);
    // The header itself has 50 words.
    refuse_if(words < 50, in_header(name, 24, FaultKind::Short))?;
    let end = 2 * natural(words);
    refuse_if(size < end, in_header(name, size, FaultKind::Short))?;
    let version = little_at(file, 28);
    refuse_if(version != VERSION, in_header(name, 28, FaultKind::Version))?;
    let shape_type = little_at(file, 32);
    refuse_if(
        shape_type != POLYGON,
        in_header(name, 32, FaultKind::ShapeType),
    )?;
    Ok(end)
}

fn in_header(name: FileName, place: usize, kind: FaultKind) -> FileFault
    ensures { result ≡ fault_in name 0 place kind }
{
    FileFault {
        file: name,
        position: 0,
        place: place as u64,
        kind,
    }
}
