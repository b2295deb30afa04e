//! How much of each parcel lies in each zone, in whole numbers that sum to the parcel's area.
#![tactic(auto)]

mod areas;
mod parcels;
mod report;
mod rounding;
mod share;
mod shared;
mod workers;
mod zones;

pub use areas::{area_lines, push_area_lines};
pub use report::write_areas;
pub use shared::AreaLine;
pub use workers::area_lines_by;
