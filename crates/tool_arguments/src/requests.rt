//! What a command line asks for.

ghost use Rattle.std.specs.Prelude.{◌<◌, ◌≤◌};
ghost use Rattle.overlay_work.specs.declared.round.TheConstants.{MOST_HANDS};

use geo_exact::{Corners, Unit};
use overlay_work::MOST_HANDS;
use std::alloc::Global;

/// What a command line asks for.
#[derive(Debug, Drop)]
pub enum Request<'a> {
    /// The area of each ring of a layer.
    Area {
        /// The path of the layer's main file.
        main: &'a str,
        /// The unit of its coordinates.
        unit: Unit,
    },
    /// Whether parcels tile their city.
    Check {
        /// What is read.
        inputs: Inputs<'a>,
        /// Whether all faults of a layer that does not tile its city are told, and not only the first.
        all: bool,
    },
    /// The parcels that tile their city, written anew.
    Export {
        /// What is read.
        inputs: Inputs<'a>,
        /// The path of the files that are written, without their endings .shp and .shx.
        base: &'a str,
        /// Whether the table and the projection that stand beside are removed, and not refused.
        force: bool,
    },
    /// Where points lie among parcels.
    Locate {
        /// What is read.
        inputs: Inputs<'a>,
        /// The points.
        points: Points<'a>,
    },
    /// Which parcels and which zones overlap.
    Overlay {
        /// What is read.
        inputs: Inputs<'a>,
        /// The path of the main file of the zones' layer.
        zones: &'a str,
        /// Whether it is told, too, how much of each parcel lies in each zone.
        areas: bool,
    },
    /// Districts of those that tile their city, each written as a layer of its own.
    Part {
        /// What is read.
        districts: Districts<'a>,
        /// The path of the files that are written, without their endings .shp and .shx; of all districts, without what
        /// comes behind it of each, too.
        base: &'a str,
        /// Whether the tables and projections that stand beside are removed, and not refused.
        force: bool,
    },
    /// A register that stays open, at whose desks edits and questions are answered.
    Session(Session<'a>),
    /// What codes of refusals mean: the words of one code, or none for all of them.
    Explain {
        /// The words, as they were given.
        code: Vec<&'a str>,
    },
}

/// What a session is of.
#[derive(Debug, Drop)]
pub struct Session<'a> {
    /// The path of the main file of the city's layer.
    pub city: &'a str,
    /// The path of the main file of the parcels' layer.
    pub parcels: &'a str,
    /// The unit of the coordinates of all layers.
    pub unit: Unit,
    /// The path of the main file of the zones' layer, where overlays are asked for.
    pub zones: Option<&'a str>,
    /// The path of the journal, where there is one.
    pub journal: Option<&'a str>,
    /// The path of the clerk's file whose edits come first, where there is one.
    pub clerk: Option<&'a str>,
    /// The names of the desks; desk K's is the K-th.
    pub desks: Vec<&'a str>,
    /// How many threads share the load of the layers, where a number was given.
    pub workers: Option<Workers>,
}

/// How many threads share the work: 1 to 64.
#[derive(Clone, Copy, Debug, PartialEq, Eq)]
pub struct Workers {
    /// Their number.
    pub count: usize,
    pub ghost some: { 0 < count },
    pub ghost few: { count ≤ MOST_HANDS },
}

/// What a request about parcels reads.
#[derive(Debug, Drop)]
pub struct Inputs<'a> {
    /// The path of the main file of the city's layer.
    pub city: &'a str,
    /// The path of the main file of the parcels' layer.
    pub parcels: &'a str,
    /// The unit of the coordinates of both.
    pub unit: Unit,
    /// The paths of the files of clerks' edits; clerk K's is the K-th.
    pub clerks: Vec<&'a str>,
    /// How many threads share the work, where a number was given.
    pub workers: Option<Workers>,
}

/// What a request about districts reads.
#[derive(Debug, Drop)]
pub struct Districts<'a> {
    /// The path of the main file of the city's layer.
    pub city: &'a str,
    /// The path of the main file of the layer of all districts.
    pub districts: &'a str,
    /// The unit of the coordinates of both.
    pub unit: Unit,
    /// Which of them are written.
    pub wanted: Wanted,
    /// How many threads share the work, where a number was given.
    pub workers: Option<Workers>,
}

/// Which districts are written.
#[derive(Clone, Copy, Debug, PartialEq, Eq)]
pub enum Wanted {
    /// That of the record of this number.
    One(u64),
    /// All.
    All,
}

/// The points that a command line asks for.
#[derive(Debug, Drop)]
pub enum Points<'a> {
    /// These.
    At(Corners<Global>),
    /// Those of the file at this path; `-` is standard input.
    File(&'a str),
}
