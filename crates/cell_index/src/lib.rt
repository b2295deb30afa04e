//! An index of boxes by the cells of a grid of 64 by 64 cells over an area: which boxes may hold a
//! point is answered from the one cell that the point is in.
#![tactic(auto)]

mod axis;
mod batch;
mod cells;
mod entry;
mod index;
mod laws;
mod places;
mod range;

pub use entry::IndexEntry;
pub use index::CellIndex;
pub use laws::{
    a_corner_is_off_what_does_not_stand_in_its_cell, in_each_cell_stand_the_entries_of_its_boxes,
    rings_whose_interiors_meet_share_a_cell,
};
