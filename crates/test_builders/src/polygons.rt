//! Every polygon of a few corners on a grid of 4 by 4 places.

use crate::plain::plainly_clipped;
use crate::rings::shape_of;
use geo_exact::{Corner, Corners, LIST_CORNERS, area2, on_segment, turn};
use ring_core::Ring;
use std::alloc::{AllocError, Allocator};
use std::test::Fail;

/// How many places the grid has.
const PLACES: u8 = 16;

/// The place of this number: by columns from the left, and in each from below, so in the order of corners.
fn place(number: u8) -> Corner {
    Corner {
        x: i64::from(number / 4),
        y: i64::from(number % 4),
    }
}

/// The number of a corner of the grid, and as many as there are for another.
fn number(corner: Corner) -> u8 {
    u8::try_from(corner.x * 4 + corner.y).unwrap_or(PLACES)
}

/// Whether the edges from `a` to `b` and from `c` to `d` have a common point.
fn meet(a: Corner, b: Corner, c: Corner, d: Corner) -> bool {
    if on_segment(a, b, c) || on_segment(a, b, d) || on_segment(c, d, a) || on_segment(c, d, b) {
        return true;
    }
    let are_apart = (turn(a, b, c) < 0) != (turn(a, b, d) < 0);
    are_apart && (turn(c, d, a) < 0) != (turn(c, d, b) < 0)
}

/// Whether a way goes on to this corner without touching itself.
fn goes_on(way: &[Corner], to: Corner) -> bool {
    let Some(last) = way.last() else {
        return true;
    };
    let mut before = None;
    for corner in way {
        if let Some(from) = before {
            let is_last = *corner == *last;
            if !is_last && meet(from, *corner, *last, to) {
                return false;
            }
            if is_last && (on_segment(from, *last, to) || on_segment(*last, to, from)) {
                return false;
            }
        }
        before = Some(*corner);
    }
    true
}

/// The ways over the grid that begin at their least corner and do not touch themselves, up to a
/// number of corners: each longer one comes after the way that it goes on from. Every simple ring
/// of the grid's places, begun at its least corner, is among them.
#[derive(Debug, Drop)]
pub struct Ways<A: Allocator> {
    corners: Vec<Corner, A>,
    most: usize,
    next: u8,
}

impl<A: Allocator> Ways<A> {
    /// Before the first way, of up to `most` corners.
    pub fn new(alloc: A, most: usize) -> Ways<A> {
        Ways {
            corners: Vec::new(alloc),
            most,
            next: 0,
        }
    }

    /// The corners of the way.
    pub fn as_slice(&self) -> &[Corner] {
        self.corners.as_slice()
    }

    /// Goes to the next way; false where there is none.
    ///
    /// # Errors
    ///
    /// [`AllocError`] where memory is wanting.
    pub fn advance(&mut self) -> Result<bool, AllocError> {
        for _ in 0..u64::MAX {
            if self.next >= PLACES || self.corners.len() >= self.most {
                let Some(last) = self.corners.pop() else {
                    return Ok(false);
                };
                self.next = number(last).wrapping_add(1);
                continue;
            }
            let to = place(self.next);
            self.next += 1;
            if goes_on(self.corners.as_slice(), to) {
                self.corners.push(to)?;
                self.next = number(self.corners[0]).wrapping_add(1);
                return Ok(true);
            }
        }
        Ok(false)
    }
}

/// Whether these corners are a simple ring, which is then clipped, to the triangles of the plain clipping.
///
/// # Errors
///
/// Where a simple ring is not clipped so, or its triangles have not its area, or memory is wanting.
pub fn clipped_as_plainly<A: Allocator + Copy>(
    alloc: A,
    corners: Corners<A>,
) -> Result<bool, Fail> {
    if corners.as_slice().len() > LIST_CORNERS {
        return Err(Fail::new("more corners than a list may have"));
    }
    let area = area2(corners.as_slice());
    let Ok(ring) = Ring::check(corners) else {
        return Ok(false);
    };
    let plain = plainly_clipped(alloc, ring.corners.as_slice())?;
    let shape = shape_of(alloc, ring)?;
    if shape.triangles.as_slice() != plain.as_slice() {
        return Err(Fail::new("other triangles than the plain clipping"));
    }
    let mut sum = 0i128;
    for tri in plain.as_slice() {
        sum = sum.wrapping_add(turn(tri.a, tri.b, tri.c));
    }
    if sum != area {
        return Err(Fail::new("another area than the ring's"));
    }
    Ok(true)
}

/// Clips every simple polygon of up to `most` corners on the grid: how many there are.
///
/// # Errors
///
/// As [`clipped_as_plainly`].
pub fn count_clipped<A: Allocator + Copy>(alloc: A, most: usize) -> Result<u64, Fail> {
    let mut count = 0u64;
    let mut ways = Ways::new(alloc, most);
    for _ in 0..u64::MAX {
        if !ways.advance()? {
            break;
        }
        if clipped_as_plainly(
            alloc,
            Corners::from_vec(Vec::from_slice(alloc, ways.as_slice())?),
        )? {
            count = count.wrapping_add(1);
        }
    }
    Ok(count)
}
