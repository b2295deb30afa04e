//! What runs of the program do: whether layers tile their city, where points lie among their
//! parcels, which parcels and zones overlap, edits of clerks made, and layers and single districts
//! written anew.
//!
//! Each call answers from the bytes of the files, and says to which layer a fault belongs.
#![tactic(auto)]

mod all_inputs;
pub mod check;
mod clerks;
mod dealing;
mod edited;
pub mod export;
mod inputs;
pub mod locate;
pub mod overlay;
mod overlay_job;
pub mod part;
mod run_files;
pub mod sheets;

pub use clerks::refuse_many_clerks;
pub use edited::edit_layer;
pub use inputs::{RunInputs, load_inputs};
pub use overlay_job::overlay_table;
pub use run_files::RunFiles;
