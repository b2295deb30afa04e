//! Laws of a city made of districts, each with a layer of its own: all rows together tile the city, a point is located
//! by its district, and the overlay's pairs are those of the districts.
#![tactic(auto)]

mod live;
mod overlaps;
mod places;
mod tilings;

pub use live::{
    any_versions_of_districts_tile_their_city, parcels_tile_their_city_however_they_are_filed,
};
pub use overlaps::{cutting_zones_changes_no_pair, pairs_of_districts_are_the_pairs_of_their_city};
pub use places::{
    a_point_inside_a_district_is_located_by_it,
    a_point_on_a_districts_edge_is_on_an_edge_of_its_rows,
    a_point_outside_all_districts_is_outside_all_rows,
    rows_at_a_point_inside_a_district_are_its_own, rows_lie_in_the_ring_that_they_tile,
};
pub use tilings::{
    layers_of_the_records_are_districts, tilings_of_districts_tile_their_city,
    what_tiles_says_nothing_of_numbers,
};
