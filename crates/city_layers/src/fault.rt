//! Why a run ends early.

ghost use Rattle.std.specs.Prelude.{◌≡◌};
ghost use Rattle.city_layers.specs.declared.fault.ToolFault.TheVariants.{NoMemory, Output};

use fabric_core::{CityFault, LoadFault};
use geo_exact::Failed;
use shp_files::FileFault;
use std::alloc::{AllocError, AllocFailed};

/// What the layer is to the run that reads it.
#[derive(Clone, Copy, Debug, PartialEq, Eq)]
pub enum Role {
    /// The one layer of a run that reads no other.
    File,
    /// The city's outline.
    City,
    /// The parcels of a city.
    Parcels,
    /// The zones of a city.
    Zones,
}

/// Why a run ended early. Its `Display` is the text that the user sees after `error: `.
#[derive(Clone, Copy, Debug, PartialEq, Eq)]
pub enum ToolFault<'a> {
    /// S1: the input file at this path can't be opened or read, or is too long.
    Unreadable(&'a str),
    /// S1: the index file at the path that is this and `.shx` can't be read, or is too long.
    UnreadableIndex(&'a str),
    /// S2: a write failed.
    Output,
    /// A layer's files are refused: their first fault.
    File(Role, FileFault),
    /// S3: the city's file has this number of polygons, and not one.
    CityCount(usize),
    /// G1, G2, G5: the city's ring is refused.
    CityRing(CityFault),
    /// H1 to H3: the rings of the layer do not tile the city.
    NoTiling(Role, LoadFault),
    /// K1: the command line has this number of clerks' files, more than a run takes.
    ClerkCount(usize),
    /// L1: of the file of this clerk, counted from 1, the line of this number, counted from 1, is no edit.
    ClerkLine(u32, u64),
    /// L1: the line of this number, counted from 1, of the points' file is no point.
    PointLine(usize),
    /// H4: no polygon of the parcels' layer has a record of this number.
    NoParcel(u64),
    /// O7: the system refused a thread for the hand of this number, counted from 0.
    NoThread(usize),
    /// K3: the window of this number, counted from 1, of the clerks' office was given no reader.
    NoWindow(usize),
    /// An allocation failed.
    NoMemory,
}

impl<'a> From<AllocError> for ToolFault<'a> {
    ghost from_gives = { λ _ fault. fault ≡ NoMemory };

    fn from(_: AllocError) -> ToolFault<'a> {
        ToolFault::NoMemory
    }
}

impl<'a, T: Drop> From<AllocFailed<T>> for ToolFault<'a> {
    ghost from_gives = { λ _ fault. fault ≡ NoMemory };

    fn from(_: AllocFailed<T>) -> ToolFault<'a> {
        ToolFault::NoMemory
    }
}

impl<'a> From<Failed> for ToolFault<'a> {
    ghost from_gives = { λ _ fault. fault ≡ Output };

    fn from(_: Failed) -> ToolFault<'a> {
        ToolFault::Output
    }
}
