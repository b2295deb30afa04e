//! What each edit of a fabric makes of the rings concerned: lists of corners alone, with no parcel numbers, no fabric
//! and no journal.
#![tactic(auto)]

mod border;
mod edit;
mod fault;
mod inserts;
mod laws;
mod merges;
mod round;
mod shifts;
mod splits;
mod straightens;

pub use border::{Run, shared_run};
pub use edit::Edit;
pub use fault::EditFault;
pub use inserts::{insert, is_between, put_into};
pub use laws::{
    a_ring_that_lacks_a_corner_stays, a_simple_ring_bends_only_with_its_parts,
    a_simple_ring_bends_where_a_corner_is_not_flat, a_simple_ring_has_its_corners_apart,
    each_edit_has_one_result, inserting_covers_alike, inserting_into_all_keeps_equal_nets,
    inserting_keeps_the_least_box, inserting_keeps_where_a_ring_begins,
    new_rings_have_so_many_corners, new_rings_have_the_nets_of_the_old, simple_rings_stay_simple,
    straightening_covers_alike, straightening_keeps_the_least_box,
};
pub use merges::merge;
pub use shifts::shift;
pub use splits::split;
pub use straightens::{is_bent, straighten, take_out};
