//! A list of entries that only grows, and of which any thread may know a beginning: of two beginnings of one list the
//! shorter begins the longer. No list is kept: it exists in proofs alone, beside one word, its length.
#![tactic(auto)]

mod front;
mod history;
mod steps;

pub use front::Front;
pub use history::{History, Naming, Opened};
pub use steps::{Add, Law, Nothing};
