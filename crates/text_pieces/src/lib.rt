//! Pieces of the texts that users read: numbers, corners, and why a ring is refused; and what takes such a text: a list
//! of bytes, or a writer.
//!
//! Each `push_` call puts its piece behind what the sink has taken, byte for byte as stated, or answers that the sink
//! failed; a beginning of the piece may have been taken then.
#![tactic(auto)]

mod gathered;
mod lists;
mod numbers;
mod pending;
mod pieces;
mod put;
mod ring_faults;
mod sink;

pub use gathered::Gathered;
pub use numbers::{push_corner, push_number};
pub use pieces::{Piece, push_parts, push_pieces};
pub use put::put_all;
pub use ring_faults::push_ring_fault;
pub use sink::Sink;
