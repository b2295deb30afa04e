//! Heaps that refuse a growth.

use refusing_alloc::Refusing;
use std::alloc::Allocator;

/// A heap that refuses one growth, as [`Refusing`] does. A function that is generic over it is proved faster than one
/// over that heap.
pub trait Refuses: Allocator {
    /// The growth of this number from here on is refused, and 0 refuses none.
    fn refuse(&self, number: u64);

    /// Whether that growth lies behind.
    fn is_spent(&self) -> bool;
}

impl<B: Allocator> Refuses for Refusing<B> {
    fn refuse(&self, number: u64) {
        self.refuse(number);
    }

    fn is_spent(&self) -> bool {
        self.is_spent()
    }
}

/// Ends the refusing of growths; whether one was refused.
pub fn was_refused<H: Refuses>(heap: &H) -> bool {
    let is_refused = heap.is_spent();
    heap.refuse(0);
    is_refused
}
