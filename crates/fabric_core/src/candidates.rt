//! The parcels that a search of the index finds, in order and each once.

ghost use Rattle.std.specs.Prelude.{◌↔◌, ℕ, IfOk};
ghost use Rattle.std.specs.List.{AllZip, Contains};
ghost use Rattle.std.specs.List.Sorted.{IsStrictlyIncreasing};
ghost use Rattle.parcel_table.specs.declared.parcels.Parcel.{Parcel as ParcelValue};
ghost use Rattle.fabric_core.specs.own.Lists.{IsIdOf};

use parcel_table::Parcels;
use std::alloc::{AllocError, Allocator};

/// The ids of the parcels under these keys, one for each.
pub(crate) fn ids_under<A: Allocator + Copy>(
    parcels: &Parcels<A>,
    keys: &[usize],
) -> Result<Vec<u64, A>, AllocError>
    requires { (key : ℕ) → Contains keys.now key → (parcel : ParcelValue A)
        × Contains parcels.now.parcels (key, parcel) }
    ensures { IfOk result (λ ids. AllZip (IsIdOf parcels.now.parcels) keys.now ids.items) }
{
    let mut ids = Vec::with_capacity(parcels.allocator(), keys.len())?;
    for key in keys {
        ids.push(parcels.at(*key).id)?;
    }
    Ok(ids)
}

/// Puts ids in order, and keeps each once.
pub(crate) fn sort_once<A: Allocator>(ids: &mut Vec<u64, A>)
    ensures ascend { IsStrictlyIncreasing ids.new.items }
    ensures same { (id : ℕ) → Contains ids.new.items id ↔ Contains ids.old.items id }
{
    ids.sort_unstable();
    ids.dedup();
}
