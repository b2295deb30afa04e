//! Of the corners of parcels, the least beyond each of several limits.

ghost use Rattle.std.specs.Prelude.{◌≡◌, ◌+◌, ◌-◌, ◌≤◌, ◌<◌, ℕ, List, None, IfSome, get_or};
ghost use Rattle.geo_exact.specs.declared.corner.Corner.{Corner as CornerValue};
ghost use Rattle.scaled_rings.specs.Tenfold.{AreTenTimes, IsLeastBeyondOf, IsNear};
ghost use Rattle.fabric_core.specs.Tenfold.{corners_of_state};
ghost use Rattle.fabric_core.specs.own.Changes.{state_of};
ghost use Rattle.fabric_core.specs.own.Farthest.{AreLeastBeyond, IsTenTimesOf, limit_of};
ghost use Rattle.fabric_core.specs.declared.farthest.TheConstants.{LIMITS};

use crate::tiled::Tiled;
use geo_exact::Corner;
use scaled_rings::{is_up_to, tenfold};
use std::alloc::Allocator;

/// How many limits there are: 0, and the powers of ten from 1 to 10,000,000,000, beyond which nothing is made ten
/// times.
pub(crate) const LIMITS: usize = 12;

/// Of corners, the least beyond each limit, by `x` and then by `y`. The last is what keeps them from being made ten
/// times. Where nothing does, what is beyond a limit once they are made ten times is now beyond the limit before it.
#[derive(Clone, Copy)]
pub(crate) struct Farthest {
    pub(crate) least: [Option<Corner>; LIMITS],
}

/// The limit behind this one.
fn next_limit(most: u64) -> u64
    requires { most ≤ 1000000000 }
    ensures { (level : ℕ) → most ≡ limit_of level → result ≡ limit_of (level + 1) }
{
    if most == 0 { 1 } else { most * 10 }
}

/// The least corner of parcels beyond a limit, where the least beyond a lower one is known.
fn least_behind<H: Allocator>(
    tiled: &Tiled<'_, H>,
    most: u64,
    lower: Option<Corner>,
) -> Option<Corner>
    ensures { (less : ℕ) → less ≤ most → IsLeastBeyondOf less (corners_of_state (state_of tiled.now)) lower
        → IsLeastBeyondOf most (corners_of_state (state_of tiled.now)) result }
{
    match lower {
        None => None,
        Some(corner) => {
            if is_up_to(corner, most) {
                tiled.least_beyond(most, None)
            } else {
                lower
            }
        }
    }
}

/// The corner ten times, where there is one.
fn tenfold_of(corner: Option<Corner>) -> Option<Corner>
    requires { IfSome corner IsNear }
    ensures { IsTenTimesOf corner result }
{
    match corner {
        None => None,
        Some(corner) => Some(tenfold(corner)),
    }
}

impl Farthest {
    /// Of the corners of parcels and of the city's refined ring. The least beyond one limit is mostly the least beyond
    /// the next, too, so they are gone through once for each that differs, and not once for each limit.
    pub(crate) fn of_tiled<H: Allocator>(tiled: &Tiled<'_, H>) -> Farthest
        ensures { AreLeastBeyond (corners_of_state (state_of tiled.now)) result.least }
    {
        let mut most = 0;
        let mut found = tiled.least_beyond(most, None);
        let mut least = [found; LIMITS];
        for level in 0..LIMITS - 1 {
            most = next_limit(most);
            found = least_behind(tiled, most, found);
            least[level + 1] = found;
        }
        Farthest { least }
    }

    /// Of these corners ten times.
    pub(crate) fn tenfold(self) -> Farthest
        requires { (level : ℕ) → level < LIMITS → IfSome (get_or self.least level None) IsNear }
        ensures { (corners others : List CornerValue) → AreTenTimes corners others → AreLeastBeyond corners self.least
            → AreLeastBeyond others result.least }
    {
        let mut least = [tenfold_of(self.least[0]); LIMITS];
        for level in 0..LIMITS - 1 {
            least[level + 1] = tenfold_of(self.least[level]);
        }
        Farthest { least }
    }

    /// What keeps the corners from being made ten times: the least that is too far.
    pub(crate) fn too_far(&self) -> Option<Corner>
        ensures { result ≡ get_or self.now.least (LIMITS - 1) None }
    {
        self.least[LIMITS - 1]
    }
}
