//! The unit of a layer's coordinates, as the projection beside it says it: well-known text, of OGC and of ESRI.
#![tactic(auto)]

mod factors;
mod keywords;
mod names;
mod plain;
mod reading;
mod stated;

pub use reading::unit_in;
pub use stated::{Stated, unit_of_projection};
