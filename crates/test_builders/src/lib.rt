//! What tests are built of: corners, rings, triangles, shapes, and the bytes of layer files. Only
//! tests name this crate.
//!
//! A builder that is handed what it cannot build is a test's mistake, and fails the test.
#![tactic(auto)]

mod files;
mod heaps;
mod plain;
mod polygons;
mod rings;

pub use files::{
    HUNDRED, ONE, SQUARE, ZERO, behind_a_null_shape, empty_file, index_of, layer_file, put,
    put_header, put_point, ring_file, square_file, squares_in_a_row,
};
pub use heaps::{Refuses, was_refused};
pub use plain::plainly_clipped;
pub use polygons::{Ways, clipped_as_plainly, count_clipped};
pub use rings::{
    Place, corner, corners, rectangle, ring_of, saw, shape, shape_of, simple_ring, triangle,
};
