//! What zones have of a parcel.

ghost use Rattle.std.specs.Prelude.{◌≢◌, ◌≤◌, ℕ, length, IfOk, MatchOption};
ghost use Rattle.std.specs.List.{AllByRecursion, Contains};
ghost use Rattle.geo_exact.specs.Layers.{NumberedRing};
ghost use Rattle.fabric_core.specs.Rows.{numbers};
ghost use Rattle.area_shares.specs.own.Parcels.{IsShareOf, AreSharesOf};

use crate::share::Share;
use area_bounds::common_parts;
use fabric_core::Layer;
use geo_exact::{Corner, RING_CORNERS};
use std::alloc::{AllocError, Allocator};

/// What a zone has of a parcel; `None` where the id is no zone's.
pub fn share_of<'h, H: Allocator>(
    parcel: &[Corner],
    zones: &Layer<'h, H>,
    zone: u64,
) -> Option<Share>
    requires { length parcel.now ≤ RING_CORNERS }
    ensures { MatchOption result ((row : NumberedRing) → Contains zones.now.rows row → row.number ≢ zone)
        (λ share. (id : ℕ) → IsShareOf parcel.now zones.now.rows (id, zone) share) }
{
    zones.use_invariant();
    let _ = zones.ids();
    let ring = zones.ring(zone)?;
    Some(Share::of_parts(zone, common_parts(parcel, ring.corners.as_slice())))
}

/// What the zones of a parcel's pairs have of it, in their order.
pub fn shares_of<'h, H: Allocator, A: Allocator>(
    alloc: A,
    parcel: &[Corner],
    zones: &Layer<'h, H>,
    here: &[(u64, u64)],
) -> Result<Vec<Share, A>, AllocError>
    requires corners { length parcel.now ≤ RING_CORNERS }
    requires zones { AllByRecursion (λ pair. Contains (numbers zones.now.rows) pair.1) here.now }
    ensures { IfOk result (λ shares. AreSharesOf parcel.now zones.now.rows here.now shares.items) }
{
    let mut shares = Vec::with_capacity(alloc, here.len())?;
    for pair in here {
        let Some(share) = share_of(parcel, zones, pair.1) else {
            return Ok(shares);
        };
        shares.push(share)?;
    }
    Ok(shares)
}
