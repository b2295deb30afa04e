//! Layers of polygons in shapefiles: read, checked to the first fault, and written (ESRI Shapefile
//! Technical Description, July 1998: main file, index file, null shapes and polygons).
#![tactic(auto)]

mod bounds;
mod decided;
mod fault;
mod fields;
mod header;
mod index;
mod layer;
mod limits;
mod normal;
mod put;
mod record;
mod source;
mod taking;
mod write;

pub use decided::a_text_is_a_layer_or_has_a_fault;
pub use fault::{FaultKind, FileFault, FileName, LayerFault};
pub use layer::{
    a_layer_file_has_no_fault, a_layer_file_has_one_list_of_rings, a_text_has_one_first_fault,
    read_each, read_layer,
};
pub use limits::a_layer_file_is_within_the_limits;
pub use source::{ReadFault, read_all};
pub use taking::TakeEach;
pub use write::{a_written_file_is_a_layer_file, a_written_ring_is_turned_back, write_layer};
