//! How much ground two rings have in common: twice the area, as a fraction, and laws of it.
#![tactic(auto)]

mod laws;

pub use laws::{
    a_common_area_has_no_order, a_common_area_is_one_of_interiors,
    a_covered_ring_has_its_whole_area_in_common, a_fine_grid_is_there, common_areas_add_up,
    common_areas_are_counts_of_cells,
};
