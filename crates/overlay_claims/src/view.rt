//! What a seat of the claims knows, in proofs alone.

use std::collections::LinkedList;

/// What a hand knows: the lengths of the lists, its parts of the right to know the whole, the
/// places that it claimed (each under its list's number), and the lists that it found at their end.
/// No value of it is made: it exists in proofs alone.
pub struct View {
    /// The lengths of the lists.
    pub lengths: LinkedList<u64>,
    /// How many hands' rights were put together.
    pub parts: u64,
    /// The list's number and the place, in the order in which they were claimed.
    pub places: LinkedList<(u64, u64)>,
    /// The numbers of the lists that were found at their end.
    pub notes: LinkedList<u64>,
}
