//! Tests of whole bounds of common areas: rows by hand, and rings at the limits.
#![tactic(auto)]

#[cfg(test)]
mod rows;
