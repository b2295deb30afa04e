//! A ring's corners in order along an axis.

ghost use Rattle.std.specs.Prelude.{◌≡◌, ◌<◌, ◌≤◌, length, IfOk, IfSome};
ghost use Rattle.std.specs.List.Sorted.{IsNonDecreasingBy};
ghost use Rattle.ring_core.specs.own.Sorted.{AreListed, AreListedSoFar, AreSortedOrNone, HasHeld, IsKey};

use crate::blocks::Span;
use geo_exact::{Bounds, Corner};
use std::alloc::{AllocError, Allocator};

/// The most corners of a ring that are not put in order: to sort fewer takes longer than it spares.
const FEW_TO_SORT: usize = 1_024;

/// Along which axis corners are in order.
#[derive(Clone, Copy, Debug)]
pub enum Axis {
    /// From west to east.
    X,
    /// From south to north.
    Y,
}

impl Axis {
    /// How far the corner is above the least coordinate that 64 bits have: numbers
    /// without a sign, in the corners' order.
    fn key(self, corner: Corner) -> u64
        ensures { IsKey self corner result }
    {
        match self {
            Axis::X => corner.x.abs_diff(i64::MIN),
            Axis::Y => corner.y.abs_diff(i64::MIN),
        }
    }
}

/// A corner of the ring as it was, beside its number and its key along an axis.
#[derive(Clone, Copy, Debug)]
pub struct Listed {
    /// The corner's key.
    pub key: u64,
    /// The corner.
    pub corner: Corner,
    /// The number that it keeps.
    pub number: u16,
}

/// The corners of a ring as it was, in order along each axis. Those that went are in it still.
#[derive(Debug, Drop)]
pub struct Sorted<A: Allocator> {
    /// In order along the x axis.
    pub by_x: Vec<Listed, A>,
    /// In order along the y axis.
    pub by_y: Vec<Listed, A>,
}

/// The corners in order along each axis; of a small ring there is none.
///
/// # Errors
///
/// [`AllocError`] where an allocation fails.
pub fn sorted_of<A: Allocator + Copy>(
    alloc: A,
    corners: &[Corner],
    numbers: &[u16],
) -> Result<Sorted<A>, AllocError>
    requires as_many { length numbers.now ≡ length corners.now }
    ensures { IfOk result (λ sorted. AreSortedOrNone corners.now numbers.now sorted.by_x.items sorted.by_y.items) }
{
    if corners.len() <= FEW_TO_SORT {
        return Ok(Sorted {
            by_x: Vec::new(alloc),
            by_y: Vec::new(alloc),
        });
    }
    let by_x = sorted_along(alloc, corners, numbers, Axis::X)?;
    let by_y = sorted_along(alloc, corners, numbers, Axis::Y)?;
    Ok(Sorted { by_x, by_y })
}

/// The corners in order along an axis.
fn sorted_along<A: Allocator>(
    alloc: A,
    corners: &[Corner],
    numbers: &[u16],
    axis: Axis,
) -> Result<Vec<Listed, A>, AllocError>
    requires as_many { length numbers.now ≡ length corners.now }
    ensures { IfOk result (λ list. AreListed axis corners.now numbers.now list.items) }
{
    let mut list = list_of(alloc, corners, numbers, axis)?;
    list.sort_unstable_by_key(|it| it.key);
    Ok(list)
}

/// The corners beside their numbers and keys.
fn list_of<A: Allocator>(
    alloc: A,
    corners: &[Corner],
    numbers: &[u16],
    axis: Axis,
) -> Result<Vec<Listed, A>, AllocError>
    requires as_many { length numbers.now ≡ length corners.now }
    ensures { IfOk result (λ list. AreListedSoFar axis corners.now numbers.now (length corners.now) list.items) }
{
    let mut list = Vec::with_capacity(alloc, corners.len())?;
    for j in 0..corners.len() {
        let corner = corners[j];
        list.push(Listed {
            key: axis.key(corner),
            corner,
            number: numbers[j],
        })?;
    }
    Ok(list)
}

/// Where in a list stand the corners that the box holds, and others that lie as far along the axis, where
/// these are no more than `most`. Of an empty list nothing is said.
pub fn few_between(list: &[Listed], axis: Axis, bounds: Bounds, most: usize) -> Option<Span>
    requires sorted { IsNonDecreasingBy (λ it. it.key) list.now }
    ensures some { IfSome result (λ span. 0 < length list.now) }
    ensures within { IfSome result (λ span. span.end ≤ length list.now) }
    ensures has { IfSome result (HasHeld axis bounds list.now) }
{
    if list.is_empty() {
        return None;
    }
    let low = axis.key(bounds.low);
    let high = axis.key(bounds.high);
    let start = list.partition_point(|it| it.key < low);
    if is_at_most(list, start.saturating_add(most), high) {
        return None;
    }
    let end = list.partition_point(|it| it.key <= high);
    Some(Span { start, end })
}

/// Whether something is listed at the place, under no greater key than this one.
fn is_at_most(list: &[Listed], place: usize, key: u64) -> bool {
    place < list.len() && list[place].key <= key
}
