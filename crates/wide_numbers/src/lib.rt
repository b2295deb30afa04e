//! Whole numbers of 256 bits: products of two numbers of 128 bits, and their quotients.
#![tactic(auto)]

mod division;
mod wide;

pub use division::{Quotient, divided, divided_with_rest};
pub use wide::{Wide, product};
