//! Tests of a session's lines: what each line asks for, and each answer, byte for
//! byte; and allocations that are refused.
#![tactic(auto)]

#[cfg(test)]
mod answers;
#[cfg(test)]
mod asked;
#[cfg(test)]
mod refused_allocations;
