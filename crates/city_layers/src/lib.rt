//! Layers and their files: read from a folder and replaced in it, their areas told, and the parcels and zones that tile
//! one city.
//!
//! What is read of a layer follows from the bytes of its files; a fault says whose it is.
#![tactic(auto)]

mod all_tiles;
pub mod area;
mod beside;
mod fault;
mod fault_lines;
mod fault_texts;
mod layers;
mod replace;
mod report;
mod sources;
mod tiles;
mod zones;

pub use all_tiles::{LayerRefusal, load_tiles_or_lines, load_tiles_or_lines_by};
pub use fault::{Role, ToolFault};
pub use fault_texts::push_fault;
pub use replace::replace_layer;
pub use sources::{Disk, Folder, PathFault, Source, StandardInput, read_source, read_text};
pub use tiles::{load_tiles, load_tiles_by};
pub use zones::{Layers, load_layers, load_layers_by};
