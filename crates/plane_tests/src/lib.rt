//! Tests of numbers and corners, of boxes that lean, of rings and the triangles that they are clipped to, of overlaps,
//! and of edges: outside vectors, growths that are refused, and rings of the greatest size.
#![tactic(auto)]

#[cfg(test)]
mod chains;
#[cfg(test)]
mod clipping;
#[cfg(test)]
mod ears;
#[cfg(test)]
mod edge_sums;
#[cfg(test)]
mod exact;
#[cfg(test)]
mod leaning;
#[cfg(test)]
mod overlaps;
#[cfg(test)]
mod refusals;
#[cfg(test)]
mod refuses;
#[cfg(test)]
mod rings;
#[cfg(test)]
mod size;
#[cfg(test)]
mod slow_edges;
#[cfg(test)]
mod unbalanced_refused;
#[cfg(test)]
mod winding_rings;
