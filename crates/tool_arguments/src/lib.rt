//! The command line of `parcel_tool`: what its words ask for.
#![tactic(auto)]

mod arguments;
mod asked;
mod bases;
mod requests;
mod words;

pub use arguments::{parse, wants_hints};
pub use asked::request_of;
pub use bases::is_refused_base;
pub use requests::{Districts, Inputs, Points, Request, Session, Wanted, Workers};
pub use words::{Verb, Words};
