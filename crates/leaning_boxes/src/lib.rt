//! Boxes that may lean: what is looked at first, before the edges and corners of a part of a ring or of a layer.
#![tactic(auto)]

mod edge;
mod holding;
mod leaning;

pub use edge::ranges_are_apart;
pub use holding::{is_beside, reach};
pub use leaning::LeaningBox;
