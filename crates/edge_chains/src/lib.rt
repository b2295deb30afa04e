//! Sums of directed edges, and noding: whether two sets of rings cover the same ground, without any
//! polygon being clipped and without a tolerance.
#![tactic(auto)]

mod blocks;
mod directions;
mod edge_sum;
mod edge_tests;
mod far;
mod laws;
mod lines;
mod noding;
mod order;
mod points;
mod search;
mod steps;
mod tree;

pub use edge_sum::EdgeSum;
pub use laws::{
    an_unbalanced_edge_is_a_jump, each_ring_is_noded, equal_nets_cover_alike,
    noding_changes_no_ground, rings_that_wind_alike_have_equal_nets,
};
pub use noding::{node, node_by};
