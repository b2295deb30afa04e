//! Lists with free places in front, from which elements are taken out.

ghost use Rattle.std.specs.Prelude.{◌≡◌, ◌⊎◌, ◌+◌, ◌<◌, ◌≤◌, length, drop, slice_index_or};
ghost use Rattle.std.specs.List.{remove};

use std::alloc::Allocator;

/// Of a list of `len` places the first `start` are free. So many are once element `k` of the others went:
/// one more where fewer stand before it than behind it.
pub fn free_without(len: usize, start: usize, k: usize) -> usize
    requires below { start + k < len }
    ensures { (result ≡ start) ⊎ (result ≡ start + 1) }
{
    if k < len - start - k {
        start + 1
    } else {
        start
    }
}

/// Takes out element `k` of those behind the first `start` places, which are free, so that `free` places
/// are: the elements before it move up, or those behind it move down. The others stay in order.
pub fn take_out<T: Copy, A: Allocator>(
    items: &mut Vec<T, A>,
    start: usize,
    k: usize,
    free: usize,
) -> T
    requires below { start + k < length items.old.items }
    requires free { (free ≡ start) ⊎ (free ≡ start + 1) }
    ensures left { drop free items.new.items ≡ remove (drop start items.old.items) k }
    ensures within { free ≤ length items.new.items }
    ensures taken { result ≡ slice_index_or (drop start items.old.items) k result }
{
    let taken = items[start + k];
    if free == start {
        items.remove(start + k);
    } else {
        items.copy_within(start..start + k, free);
    }
    taken
}
