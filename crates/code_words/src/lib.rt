//! The codes of refusals in words: what each means, what usually causes it, and what to do. The pages and the program
//! take them from here.
#![tactic(auto)]

mod codes;
mod words;

pub use codes::{GROUPS, group};
pub use words::{CodeWords, begun_by, words_of};
