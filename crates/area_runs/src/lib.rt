//! How much of each parcel lies in each zone, as a run of the program tells it: behind the lines of an overlay.
#![tactic(auto)]

mod areas;

pub use areas::overlay_areas;
