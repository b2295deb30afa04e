//! Whether two interiors meet, exactly: the first entry of the nine-intersection matrix
//! (OGC 06-103r4, 6.1.15.2), said of all rational points.
#![tactic(auto)]

mod folds;
mod laws;
mod shapes;
mod triangles;
mod windows;

pub use folds::{first_overlap, folded};
pub use laws::{a_shape_without_overlaps_winds_at_most_once, triangles_are_apart_by_an_edge};
pub use shapes::shapes_overlap;
pub use triangles::triangles_overlap;
