//! An allocator for tests that refuses one allocation, chosen by its number, and passes each other call on.
#![tactic(auto)]

use std::alloc::{AllocError, Allocator};
use std::sync::atomic::{AtomicU64, Ordering};

/// Passes each call on to an inner allocator, but for one `allocate`, which it refuses.
///
/// The collections of std get memory by `allocate` alone, so each allocation is one call. A reference to it is an
/// allocator too: a test hands out `&heap`, and so has one count for all that it calls.
pub struct Refusing<B: Allocator> {
    inner: B,
    left: AtomicU64,
}

impl<B: Allocator> Refusing<B> {
    /// The call of this number is refused: 1 is the first, and 0 refuses none.
    pub fn new(inner: B, number: u64) -> Refusing<B> {
        Refusing {
            inner,
            left: AtomicU64::new(number),
        }
    }

    /// Counts anew: from here on, the call of this number is refused, and 0 refuses none.
    pub fn refuse(&self, number: u64) {
        self.left.store(number, Ordering::SeqCst);
    }

    /// The call to refuse lies behind, or there is none: each later call is passed on.
    ///
    /// So a test tells an answer after the refusal, which has to say that memory was wanting, from
    /// one with no refusal at all.
    pub fn is_spent(&self) -> bool {
        self.left.load(Ordering::SeqCst) == 0
    }
}

impl<B: Allocator> Drop for Refusing<B> {
    fn drop(self) {
        let Self { inner: _, left: _ } = self;
    }
}

/// Counts a call, and says whether it is the one to refuse. The count stays at 0 from then on.
fn is_refused(left: &AtomicU64) -> bool {
    left.fetch_update(Ordering::SeqCst, Ordering::SeqCst, |n| n.checked_sub(1)) == Ok(1)
}

unsafe impl<B: Allocator> Allocator for Refusing<B> {
    ghost dealloc_token = { λ heap ty ptr. B.dealloc_token heap.inner ty ptr };

    fn allocate(&self, size: usize, align: usize) -> Result<*mut u8, AllocError> {
        if is_refused(&self.left) {
            return Err(AllocError);
        }
        self.inner.allocate(size, align)
    }

    unsafe fn deallocate(&self, ptr: *mut u8, size: usize, align: usize) {
        self.inner.deallocate(ptr, size, align);
    }
}
