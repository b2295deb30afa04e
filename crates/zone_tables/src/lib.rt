//! The table of an overlay: which parcels of a sheet and which zones have a common interior point,
//! which parcels are split by zones, within which zone each other parcel is, and the report of all
//! that.
#![tactic(auto)]

mod laws;
mod lines;
mod report;
mod table;
mod zoning;

pub use laws::{a_parcel_is_within_its_only_zone, each_parcel_overlaps_a_zone};
pub use report::write_report;
pub use table::Table;
