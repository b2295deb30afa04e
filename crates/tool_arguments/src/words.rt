//! The words of a command line, each under its name.

/// What a command is to do.
#[derive(Clone, Copy, Debug, PartialEq, Eq)]
pub enum Verb {
    /// Tell areas.
    Area,
    /// Look for faults.
    Check,
    /// Write parcels anew.
    Export,
    /// Find points.
    Locate,
    /// Find pairs of a parcel and a zone.
    Overlay,
    /// Write districts.
    Part,
    /// Keep a register open.
    Session,
    /// Say what a code means.
    Explain,
}

/// The words of a command line, each under the name by which it is given; `None` or `false` where it is not.
#[derive(Clone, Copy)]
pub struct Words<'g, 'a> {
    /// MAIN.
    pub main: Option<&'a str>,
    /// CITY.
    pub city: Option<&'a str>,
    /// PARCELS.
    pub parcels: Option<&'a str>,
    /// ZONES, or `--zones`.
    pub zones: Option<&'a str>,
    /// DISTRICTS.
    pub districts: Option<&'a str>,
    /// ID.
    pub id: Option<u64>,
    /// `--unit`.
    pub unit: Option<&'a str>,
    /// `--out`.
    pub out: Option<&'a str>,
    /// `--points`.
    pub points: Option<&'a str>,
    /// `--journal`.
    pub journal: Option<&'a str>,
    /// `--workers`.
    pub workers: Option<usize>,
    /// `--all`.
    pub all: bool,
    /// `--force`.
    pub force: bool,
    /// `--areas`.
    pub areas: bool,
    /// Each `--clerk`.
    pub clerks: Option<&'g [&'a str]>,
    /// Each `--desk`.
    pub desks: Option<&'g [&'a str]>,
    /// CODE, one or more words.
    pub code: Option<&'g [&'a str]>,
    /// The words behind each `--at`.
    pub at: Option<&'g [&'a str]>,
}
