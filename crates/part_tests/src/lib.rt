//! Tests of what a fabric is made of: the index of boxes by cells, the table of parcels, and what
//! each edit makes of rings. Worked examples, each refusal, and allocations that are refused.
#![tactic(auto)]

#[cfg(test)]
mod borders;
#[cfg(test)]
mod cells;
#[cfg(test)]
mod changes;
#[cfg(test)]
mod inserts;
#[cfg(test)]
mod refusals;
#[cfg(test)]
mod splits;
#[cfg(test)]
mod straightens;
