//! The clipping with nothing remembered: at each step it looks for the first flat corner, and then
//! for the first ear, from the start.
ghost use Rattle.std.specs.Prelude.{◌<◌, IfSome, length};

use geo_exact::{Corner, turn};
use ring_core::Tri;
use std::alloc::Allocator;
use std::test::Fail;

/// Which corners come before and after corner `k`, round a ring of `count` corners.
fn neighbours(count: usize, k: usize) -> (usize, usize)
    requires { k < count }
    ensures { (result.0 < count) × (result.1 < count) }
{
    let last = count - 1;
    let before = if k == 0 { last } else { k - 1 };
    let after = if k == last { 0 } else { k + 1 };
    (before, after)
}

/// Corner `k` between its neighbours.
fn around(rest: &[Corner], k: usize) -> (Corner, Corner, Corner)
    requires { k < length rest.now }
{
    let (before, after) = neighbours(rest.len(), k);
    (rest[before], rest[k], rest[after])
}

fn is_flat(rest: &[Corner], k: usize) -> bool
    requires { k < length rest.now }
{
    let (a, b, c) = around(rest, k);
    turn(a, b, c) == 0
}

/// Whether corner `k` turns left, and no corner but it and its neighbours is in the closed triangle of these three.
fn is_ear(rest: &[Corner], k: usize) -> bool
    requires { k < length rest.now }
{
    let (a, b, c) = around(rest, k);
    if turn(a, b, c) <= 0 {
        return false;
    }
    let (before, after) = neighbours(rest.len(), k);
    for j in 0..rest.len() {
        let p = rest[j];
        let is_inside = turn(a, b, p) >= 0 && turn(b, c, p) >= 0 && turn(c, a, p) >= 0;
        if is_inside && j != before && j != k && j != after {
            return false;
        }
    }
    true
}

/// The first corner that is flat.
fn first_flat(rest: &[Corner]) -> Option<usize>
    ensures { IfSome result (λ k. k < length rest.now) }
{
    for k in 0..rest.len() {
        if is_flat(rest, k) {
            return Some(k);
        }
    }
    None
}

/// The first corner that is an ear.
fn first_ear(rest: &[Corner]) -> Option<usize>
    ensures { IfSome result (λ k. k < length rest.now) }
{
    for k in 0..rest.len() {
        if is_ear(rest, k) {
            return Some(k);
        }
    }
    None
}

/// The triangles of the plain clipping, up to a rest without a flat corner and without an ear.
///
/// # Errors
///
/// Where memory is wanting.
pub fn plainly_clipped<A: Allocator + Copy>(
    alloc: A,
    corners: &[Corner],
) -> Result<Vec<Tri, A>, Fail> {
    let mut rest = Vec::from_slice(alloc, corners)?;
    let mut triangles = Vec::new(alloc);
    for _ in 0..corners.len() {
        if rest.len() <= 2 {
            break;
        }
        if let Some(k) = first_flat(rest.as_slice()) {
            rest.remove(k);
        } else if let Some(k) = first_ear(rest.as_slice()) {
            let (a, b, c) = around(rest.as_slice(), k);
            let Some(tri) = Tri::new(a, b, c) else {
                return Err(Fail::new("an ear that does not turn left"));
            };
            triangles.push(tri)?;
            rest.remove(k);
        } else {
            break;
        }
    }
    Ok(triangles)
}
