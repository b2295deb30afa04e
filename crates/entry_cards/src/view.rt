//! What a seat of the table knows, in proofs alone.

use std::collections::LinkedList;

/// What is known of a clerk's card. No value of it is made: it exists in proofs alone.
pub struct Card<E> {
    /// Its clerk's number.
    pub clerk: u32,
    /// The entries that were made with it, in order.
    pub made: LinkedList<E>,
    /// All entries that its keeper had when they last met, in order.
    pub met: LinkedList<E>,
}

/// What a seat of the table knows. No value of it is made: it exists in proofs alone.
pub struct View<E> {
    /// How many clerks there are, where it keeps.
    pub clerks: u32,
    /// Whether it has the right to keep.
    pub keeps: bool,
    /// All entries, each behind its clerk's number, in order, where it keeps.
    pub all: LinkedList<(u32, E)>,
    /// The clerks' cards that it has.
    pub cards: LinkedList<Card<E>>,
}
