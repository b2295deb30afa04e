//! Corners that are found by their places.
ghost use Rattle.std.specs.Prelude.{◌≡◌, ◌↔◌, ◌<◌, ◌+ℤ◌, List, IfOk};
ghost use Rattle.std.specs.List.{Contains};
ghost use Rattle.geo_exact.specs.Limit.{IsWithin, limit};
ghost use Rattle.edge_chains.specs.own.Steps.{AreInside, AreSteps};

use crate::steps::Steps;
use geo_exact::Corner;
use std::alloc::{AllocError, Allocator};
use std::collections::HashSet;
use std::hash::{BuildHasherDefault, FoldHasher};
use std::marker::Model;

/// Corners without any order.
type Places<A> = HashSet<Corner, BuildHasherDefault<FoldHasher>, A>;

/// Corners that are looked up at the steps of an edge.
#[derive(Drop)]
pub(crate) struct Points<A: Allocator> {
    places: Places<A>,
}

impl<A: Allocator> Model for Points<A> {
    ghost use Rattle.std.specs.Prelude.{List};
    ghost use Rattle.geo_exact.specs.declared.corner.Corner.{Corner};

    ghost Value = { List Corner };

    ghost view = { λ points. points.places.keys };
}

impl<A: Allocator + Copy> Points<A> {
    /// These corners.
    pub fn new(alloc: A, corners: &[Corner]) -> Result<Points<A>, AllocError>
        ensures { IfOk result (λ points. (c : Corner) → Contains points c ↔ Contains corners.now c) }
    {
        let mut places = HashSet::with_capacity(alloc, corners.len())?;
        for corner in corners {
            places.insert(*corner)?;
        }
        Ok(Points { places })
    }

    /// Those of the corners that lie strictly inside the edge from a to b, of which these are the steps.
    pub fn inside(
        &self,
        alloc: A,
        a: Corner,
        b: Corner,
        steps: Steps,
    ) -> Result<Vec<Corner, A>, AllocError>
        requires { AreSteps a b steps.across steps.up steps.count }
        ensures { IfOk result (λ found. AreInside self.now a b found.items) }
    {
        let mut found = Vec::new(alloc);
        let mut corner = a;
        for _done in 1..steps.count {
            corner = moved(corner, steps.across, steps.up);
            if self.places.contains(&corner) {
                found.push(corner)?;
            }
        }
        Ok(found)
    }
}

/// The place so far across and up from a corner, in millimetres.
fn moved(corner: Corner, across: i64, up: i64) -> Corner
    requires in_x { IsWithin limit (corner.x +ℤ across) }
    requires in_y { IsWithin limit (corner.y +ℤ up) }
    ensures x { result.x ≡ corner.x +ℤ across }
    ensures y { result.y ≡ corner.y +ℤ up }
{
    Corner {
        x: corner.x + across,
        y: corner.y + up,
    }
}
