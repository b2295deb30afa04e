//! The first fault of a layer's files.

ghost use Rattle.std.specs.Prelude.{◌≡◌};
ghost use Rattle.shp_files.specs.declared.fault.LayerFault.TheVariants.{File, NoMemory};

use geo_exact::CoordFault;
use std::alloc::{AllocError, AllocFailed};

/// The file of a layer in which a fault lies.
#[derive(Clone, Copy, Debug, PartialEq, Eq)]
pub enum FileName {
    /// The main file, `.shp`.
    Main,
    /// The index file, `.shx`.
    Index,
}

/// What is wrong at the place of a fault.
#[derive(Clone, Copy, Debug, PartialEq, Eq)]
pub enum FaultKind {
    /// F1: the file ends too early.
    Short,
    /// F2: the file code is not 9994.
    FileCode,
    /// F3: the version is not 1000.
    Version,
    /// F4: the shape type is none of those that are read.
    ShapeType,
    /// F5: the content length does not fit the content.
    Content,
    /// F6: the polygon is not of one part that begins at its first point.
    Parts,
    /// F7: the last point is not the first.
    NotClosed,
    /// F8: too few points for a ring.
    FewPoints,
    /// F9: a coordinate that is refused.
    Coord(CoordFault),
    /// F10: the index disagrees with the main file.
    IndexDisagrees,
    /// F11: more records, or more points in a ring or in all rings, than are read.
    TooMany,
}

/// The first fault of a layer's files.
#[derive(Clone, Copy, Debug, PartialEq, Eq)]
pub struct FileFault {
    /// The file that has the fault.
    pub file: FileName,
    /// The record's position, from 1; 0 for the header. Where the index goes on behind the main
    /// file's last record it is one more than the main file has.
    pub position: u32,
    /// The byte of the file at which the fault lies, from 0.
    pub place: u64,
    /// What is wrong there.
    pub kind: FaultKind,
}

/// Why a layer was not read.
#[derive(Clone, Copy, Debug, PartialEq, Eq)]
pub enum LayerFault {
    /// The files are no layer: their first fault.
    File(FileFault),
    /// An allocation failed.
    NoMemory,
}

impl From<FileFault> for LayerFault {
    ghost from_gives = { λ fault e. e ≡ File fault };

    fn from(fault: FileFault) -> LayerFault {
        LayerFault::File(fault)
    }
}

impl From<AllocError> for LayerFault {
    ghost from_gives = { λ _ e. e ≡ NoMemory };

    fn from(_e: AllocError) -> LayerFault {
        LayerFault::NoMemory
    }
}

impl<T: Drop> From<AllocFailed<T>> for LayerFault {
    ghost from_gives = { λ _ e. e ≡ NoMemory };

    fn from(_e: AllocFailed<T>) -> LayerFault {
        LayerFault::NoMemory
    }
}
