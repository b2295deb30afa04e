//! Tests of runs: what they print and write, what clerks' edits lead to, which zones overlap, and what a run answers
//! whose allocations are refused.
#![tactic(auto)]

#[cfg(test)]
mod edit_runs;
#[cfg(test)]
mod export_runs;
#[cfg(test)]
mod locate_runs;
#[cfg(test)]
mod overlay_runs;
#[cfg(test)]
mod part_runs;
#[cfg(test)]
mod point_lines;
#[cfg(test)]
mod refused_allocations;
#[cfg(test)]
mod refused_areas;
