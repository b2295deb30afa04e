//! Layers' files for tests of what runs make of them: main files and index files, byte by byte, what a run of
//! areas prints, and a writer that takes one byte a call. Only tests name this crate.
#![tactic(auto)]

mod areas;
mod file_bytes;
mod layers;

pub use areas::{ByteByByte, changed, run};
pub use file_bytes::{
    FARTHEST, HUNDRED, POINTS, header, index, null_and_polygon, polygon, push_record, square,
    squares,
};
pub use layers::{BAY, BEYOND, CITY, EAST, Place, WEST, alone, layer};
