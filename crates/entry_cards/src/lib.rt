//! Clerks' cards, tied to the one list of all entries: who keeps the list knows each entry and its clerk, each clerk's
//! stub knows the entries that were made with it, and these are all that the list has of the clerk. All of it is for
//! proofs: beside one word and two counts there are no bytes.
#![tactic(auto)]

mod cards;
mod gathering;
mod keeper;
mod plays;
mod stub;
mod view;

pub use gathering::Gathering;
pub use keeper::Keeper;
pub use stub::Stub;
