//! The numbers that a ring's corners keep while it is clipped.

ghost use Rattle.std.specs.Prelude.{◌≡◌, ℕ, ◌<◌, ◌≤◌, IfOk, length, slice_index_or};
ghost use Rattle.std.specs.List.Sorted.{IsNonDecreasing};
ghost use Rattle.ring_core.specs.own.Kinds.{IsInReach, IsMarked, everywhere};

use std::alloc::{AllocError, Allocator};

/// The greatest number that a corner can have, which has 16 bits, so that more marks lie in a cache. Of a ring of more
/// corners the last ones share it, and are looked at again too when one of them goes.
const LAST_NUMBER: usize = 65_535;

/// The numbers of so many corners, in order: they ascend.
///
/// # Errors
///
/// [`AllocError`] where an allocation fails.
pub fn numbers_of<A: Allocator>(alloc: A, count: usize) -> Result<Vec<u16, A>, AllocError>
    ensures as_many { IfOk result (λ numbers. length numbers.items ≡ count) }
    ensures ascend { IfOk result (λ numbers. IsNonDecreasing numbers.items) }
{
    let mut numbers = Vec::with_capacity(alloc, count)?;
    for k in 0..count {
        numbers.push(k.min(LAST_NUMBER) as u16)?;
    }
    Ok(numbers)
}

/// Where the corners are whose witness a corner is: their numbers are neither below the first nor above the
/// last. There is none where the first is above the last.
#[derive(Clone, Copy, Debug)]
pub struct Reach {
    /// No number is below this one.
    pub first: u16,
    /// No number is above this one.
    pub last: u16,
}

impl Reach {
    /// The same, but with the number.
    fn around(self, number: u16) -> Reach
        ensures here { IsInReach number result }
        ensures kept { (n : ℕ) → IsInReach n self → IsInReach n result }
    {
        Reach {
            first: self.first.min(number),
            last: self.last.max(number),
        }
    }
}

/// No mark yet, for so many numbers: none is anybody's witness.
///
/// # Errors
///
/// [`AllocError`] where an allocation fails.
pub fn marks_of<A: Allocator>(alloc: A, count: usize) -> Result<Vec<Reach, A>, AllocError> {
    let mut marks = Vec::with_capacity(alloc, count)?;
    for _ in 0..count {
        marks.push(Reach {
            first: u16::MAX,
            last: 0,
        })?;
    }
    Ok(marks)
}

/// Marks the number of a witness, if it has a mark, with the number of the corner whose witness it is.
pub fn mark(marks: &mut [Reach], witness: u16, number: u16)
    ensures marked { IsMarked marks.new witness number }
    ensures kept { (w n : ℕ) → IsMarked marks.old w n → IsMarked marks.new w n }
{
    let w = usize::from(witness);
    if w < marks.len() {
        marks[w] = marks[w].around(number);
    }
}

/// Where the corners are whose witness has the number: anywhere, if it has no mark.
pub fn reach_of(marks: &[Reach], witness: u16) -> Reach
    ensures { result ≡ slice_index_or marks.now witness everywhere }
{
    let w = usize::from(witness);
    if w < marks.len() {
        return marks[w];
    }
    Reach {
        first: 0,
        last: u16::MAX,
    }
}

/// The first place whose number is not below the reach, of numbers that ascend.
pub fn first_place(numbers: &[u16], reach: Reach) -> usize
    requires ascend { IsNonDecreasing numbers.now }
    ensures within { result ≤ length numbers.now }
    ensures below { (j : ℕ) → j < result → slice_index_or numbers.now j 0 < reach.first }
{
    numbers.partition_point(|number| *number < reach.first)
}
