//! The fabric of a city's parcels: a layer that tiles its city exactly, with no tolerance.
#![tactic(auto)]

mod all_faults;
mod box_laws;
mod candidates;
mod carry_out;
mod change;
mod city;
mod clipped;
mod draft;
mod edges;
mod fabric;
mod farthest;
mod follow;
mod gaps;
mod grid_index;
mod hints;
mod journal;
mod laws;
mod layer;
mod limits;
mod locate;
mod make;
mod new_limits;
mod new_shapes;
mod opening;
mod refine;
mod refusal;
mod ring_change;
mod ring_edges;
mod rings;
mod tenfold;
mod tiled;

pub use all_faults::{AllFaults, Asked, LoadRefusal};
pub use box_laws::{a_parcel_that_meets_a_ring_is_a_candidate, rows_lie_in_the_box_of_their_city};
pub use city::{City, CityFault};
pub use fabric::{Fabric, Sheet};
pub use follow::FollowFault;
pub use journal::{Entry, JOURNAL_ENTRIES, Row};
pub use laws::{
    a_journal_has_room_for_so_many_entries, a_place_off_all_edges_is_inside_one_parcel,
    a_refined_city_keeps_its_ground, an_id_stands_in_the_cells_that_its_row_reaches,
    an_unbalanced_edge_is_no_tiling, rows_with_the_nets_of_a_city_tile_it,
    what_is_inside_a_parcel_is_in_no_other,
};
pub use layer::{Layer, LoadFault};
pub use locate::At;
pub use parcel_table::{Ids, Shapes};
pub use refusal::Refusal;
pub use tenfold::ScaleFault;
