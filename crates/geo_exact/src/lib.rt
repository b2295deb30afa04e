//! Exact plane geometry over whole millimetres: coordinates, orientation, twice-area, and byte
//! streams that count their failures. No floating-point number occurs.
#![tactic(auto)]

mod area;
mod bounds;
mod bytes;
mod coord;
mod corner;
mod corners;
mod laws;
mod limits;
mod order;
mod orientation;
mod products;
mod raw_ring;
mod segment;
mod write;

pub use area::area2;
pub use bounds::{Bounds, edge_boxes_meet};
pub use bytes::counted::Counted;
pub use bytes::fail_at::FailAt;
pub use bytes::{ByteIn, ByteOut, Failed};
pub use coord::{
    CoordFault, Unit, coordinate_faults_are_exact, coordinates_are_on_the_grid,
    one_millimetre_fits, read_coord,
};
pub use corner::Corner;
pub use corners::Corners;
pub use laws::{
    a_corner_on_an_edge_changes_nothing, a_corner_turns_as_its_place,
    a_place_beyond_a_box_is_off_the_rings_in_it,
    a_ring_does_not_go_round_what_its_least_corner_sees_outside, a_ring_has_no_first_corner,
    a_ring_is_begun_at_a_corner_of_it, a_ring_turned_round_has_the_opposite_orientation,
    a_triangle_winds_once_round_its_inside, a_way_off_the_ring_keeps_its_winding_number,
    the_interior_of_a_triangle_is_left_of_its_edges, the_limits_are_these_numbers,
};
pub use limits::{
    COUNTED_EDGES, FILE_BYTES, LAYER_CORNERS, LAYER_RECORDS, LIMIT, LIST_CORNERS, RING_CORNERS,
};
pub use order::comes_before;
pub use orientation::turn;
pub use products::wide_product;
pub use raw_ring::RawRing;
pub use segment::on_segment;
pub use write::write_coord;
