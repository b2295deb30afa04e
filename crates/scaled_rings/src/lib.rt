//! Rings and edits, each coordinate times ten: what is so of them is so of those ten times as large.
#![tactic(auto)]

mod boxes;
mod corners;
mod edits;
mod limits;
mod rings;

pub use boxes::least_box;
pub use corners::{is_up_to, least_beyond, least_far, tenfold, tenfold_all};
pub use edits::{least_far_of_edit, tenfold_edit};
pub use limits::{NEAR_LIMIT, the_near_limit_is_this_number};
pub use rings::tenfold_ring;
