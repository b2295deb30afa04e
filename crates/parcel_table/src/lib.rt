//! A table of parcels: each is kept under a key that stays its own, and is found by its id at once; and what became of
//! ids that are no parcel's any more is told.
#![tactic(auto)]

mod fate;
mod iter;
mod parcels;
mod place;

pub use fate::Fate;
pub use iter::{Ids, Shapes};
pub use parcels::{Parcel, Parcels};
