//! Tests of the overlay: worked examples of its table, of what the table tells and of its report;
//! tables for several sharings and orders of steps, hands that work at the same time, and each
//! refusal.
#![tactic(auto)]

#[cfg(test)]
mod areas;
#[cfg(test)]
mod gates;
#[cfg(test)]
mod growths;
#[cfg(test)]
mod pairs;
#[cfg(test)]
mod refusals;
#[cfg(test)]
mod reports;
#[cfg(test)]
mod rounds;
#[cfg(test)]
mod steps;
#[cfg(test)]
mod tables;
#[cfg(test)]
mod zones;
