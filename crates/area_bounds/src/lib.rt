//! Whole numbers between which twice the area common to two rings lies, never more than 2 apart.
#![tactic(auto)]

mod between;
mod lines;
mod parts;
mod rising;
mod sums;

pub use parts::{PARTS, Parts};
pub use sums::{AreaBounds, common_area2, common_parts};
