//! Tests of files: layer files, read and written, and files that are read line by line, or written so. Worked
//! examples, each cut and each fault, the first bad line, allocations that are refused, and layers of
//! the greatest size.
#![tactic(auto)]

#[cfg(test)]
mod bad_lines;
#[cfg(test)]
mod clerk_files;
#[cfg(test)]
mod grids;
#[cfg(test)]
mod index_rows;
#[cfg(test)]
mod reading;
#[cfg(test)]
mod refusals;
#[cfg(test)]
mod refused_allocations;
#[cfg(test)]
mod size;
#[cfg(test)]
mod taking;
#[cfg(test)]
mod write_rows;
#[cfg(test)]
mod written_edits;
