//! Simple rings, checked exactly, and cut into triangles whose winding numbers sum to the ring's at
//! every rational point.
#![tactic(auto)]

mod blocks;
mod boxes;
mod by_place;
mod ear;
mod inner;
mod kind;
mod laws;
mod leaning;
mod left;
mod marks;
mod meeting;
mod places;
mod rest;
mod ring;
mod seen;
mod shape;
mod side;
mod sorted;
mod triangle;
mod witness;

pub use boxes::bounds_of;
pub use laws::{
    a_diagonal_cuts_a_ring_in_two, a_left_turn_stays_where_a_neighbour_is_clipped,
    a_left_turn_that_is_no_ear_has_a_diagonal, a_ring_is_clipped_in_one_way,
    a_simple_ring_has_two_ears, edges_are_those_of_their_numbers,
    what_clipping_takes_out_leaves_a_simple_ring,
};
pub use ring::{Ring, RingFault};
pub use shape::Shape;
pub use side::{Side, side_of};
pub use triangle::{Tri, Triangles};
