//! The border that two neighbours share.

ghost use Rattle.std.specs.Prelude.{◌↔◌, ◌<◌, ◌≤◌, length, IfOk, IfErr, IsTrue};
ghost use Rattle.ring_core.specs.Simple.{IsSimpleRing};
ghost use Rattle.ring_edits.specs.Edits.{IsBorderFault, IsSharedAt, IsSharedRun};
ghost use Rattle.ring_edits.specs.own.Borders.{IsAlikeUpTo, IsBorderAt, IsSharedFromTo};

use crate::fault::EditFault;
use crate::round::{edge_place, following, place_of};
use geo_exact::Corner;

/// The ends of the run of edges that two rings share.
#[derive(Clone, Copy, Debug, PartialEq, Eq)]
pub struct Run {
    /// Where it begins, in the direction of the first ring.
    pub from: Corner,
    /// Where it ends.
    pub to: Corner,
}

/// The run of edges that two rings share: the edges of `a` that `b` has in the other direction.
///
/// # Errors
///
/// [`EditFault::NotNeighbours`] (E4) where there are none. [`EditFault::SharedTwice`] (E5) where they are not one
/// unbroken run round the ring `a`, and where they are all its edges, since that run would begin nowhere.
pub fn shared_run(a: &[Corner], b: &[Corner]) -> Result<Run, EditFault>
    ensures run { IfOk result (λ run. IsSharedRun a.now b.now run.from run.to) }
    ensures err { IfErr result (λ fault. IsBorderFault a.now b.now fault) }
{
    let (i, j) = shared_places(a, b)?;
    Ok(Run {
        from: a[i],
        to: a[j],
    })
}

/// Where the run of edges that two rings share begins and ends, as numbers of corners of both.
#[derive(Clone, Copy)]
pub(crate) struct Border {
    /// The corner of `a` where it begins.
    pub from_in_a: usize,
    /// The corner of `a` where it ends.
    pub to_in_a: usize,
    /// The corner of `b` where it begins, in the direction of `a`.
    pub from_in_b: usize,
    /// The corner of `b` where it ends.
    pub to_in_b: usize,
}

/// Where the run of edges that two rings share begins and ends in both.
pub(crate) fn border_of(a: &[Corner], b: &[Corner]) -> Result<Border, EditFault>
    requires { IsSimpleRing a.now }
    ensures border { IfOk result (λ border.
        IsBorderAt a.now b.now border.from_in_a border.to_in_a border.from_in_b border.to_in_b) }
    ensures err { IfErr result (λ fault. IsBorderFault a.now b.now fault) }
{
    let (from_in_a, to_in_a) = shared_places(a, b)?;
    let Some(from_in_b) = place_of(b, a[from_in_a]) else {
        unreachable!();
    };
    let Some(to_in_b) = place_of(b, a[to_in_a]) else {
        unreachable!();
    };
    Ok(Border {
        from_in_a,
        to_in_a,
        from_in_b,
        to_in_b,
    })
}

/// The numbers of the corners of `a` where the shared run begins and ends.
pub(crate) fn shared_places(a: &[Corner], b: &[Corner]) -> Result<(usize, usize), EditFault>
    ensures run { IfOk result (λ ends. IsSharedFromTo a.now b.now ends.0 ends.1) }
    ensures err { IfErr result (λ fault. IsBorderFault a.now b.now fault) }
{
    if a.is_empty() {
        return Err(EditFault::NotNeighbours);
    }
    let begins_shared = is_shared_at(a, b, 0);
    let first = first_other(a, b, 0, begins_shared);
    if first == a.len() {
        if begins_shared {
            return Err(EditFault::SharedTwice);
        }
        return Err(EditFault::NotNeighbours);
    }
    let second = first_other(a, b, first, !begins_shared);
    if first_other(a, b, second, begins_shared) < a.len() {
        return Err(EditFault::SharedTwice);
    }
    let last = if second == a.len() { 0 } else { second };
    if begins_shared {
        Ok((last, first))
    } else {
        Ok((first, last))
    }
}

/// The number of the first edge, from this one on, that is shared where `shared` is false, and is not where it is
/// true; or the number of edges, where there is none.
fn first_other(a: &[Corner], b: &[Corner], from: usize, shared: bool) -> usize
    requires { from ≤ length a.now }
    ensures { IsAlikeUpTo (IsSharedAt a.now b.now) (length a.now) from shared result }
{
    for i in from..a.len() {
        if is_shared_at(a, b, i) != shared {
            return i;
        }
    }
    a.len()
}

/// Whether `b` has the edge of `a` with this number, in the other direction.
fn is_shared_at(a: &[Corner], b: &[Corner], i: usize) -> bool
    requires { i < length a.now }
    ensures { IsTrue result ↔ IsSharedAt a.now b.now i }
{
    edge_place(b, a[following(a.len(), i)], a[i]).is_some()
}
