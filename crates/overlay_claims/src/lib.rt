//! Places of lists, claimed by many hands at once: each place by one hand, with no lock, by adding to one word a list.
#![tactic(auto)]

mod claimant;
mod claims;
mod gathering;
mod laws;
mod plays;
mod view;

pub use claimant::Claimant;
pub use claims::Claims;
pub use gathering::Gathering;
pub use laws::no_word_passes_its_list_by_more_than_the_hands;
pub use plays::{Claim, Confirm, PartOff, Rule, Together};
pub use view::View;
