//! Laws of areas in zones: what a parcel has in common with the zones that tile a city adds up.
#![tactic(auto)]

mod laws;

pub use laws::areas_in_zones_add_up;
