//! A parcel's place in the table.

ghost use Rattle.std.specs.Prelude.{◌≡◌, ◌++◌, ◌<◌, ◌≤◌, ℕ, length, OnOk, option_copied, slice_index_or};
ghost use Rattle.std.specs.Prelude.{replicate, vec_len, vec_capacity};
ghost use Rattle.parcel_table.specs.own.Places.{parcel_at};

use crate::parcels::Parcel;
use slab::Slab;
use std::alloc::{AllocError, Allocator};

/// What has become of an id that is below the next one.
#[derive(Clone, Copy)]
pub(crate) enum Place {
    /// It was never given to a parcel.
    Unused,
    /// Its parcel was retired, by this number.
    Retired(u64),
    /// Its parcel is here, under this key.
    Here(usize),
}

/// The parcel that a place leads to.
pub(crate) fn parcel_of<A: Allocator>(slab: &Slab<Parcel<A>, A>, place: Place) -> Option<&Parcel<A>>
    ensures { option_copied result ≡ parcel_at slab.now place }
{
    match place {
        Place::Unused | Place::Retired(_) => None,
        Place::Here(key) => slab.get(key),
    }
}

/// The place of an id; beyond the table no id was ever given to a parcel.
pub(crate) fn place_of(places: &[Place], id: u64) -> Place
    ensures { result ≡ slice_index_or places.now id Place.Unused }
{
    places.get(id as usize).copied().unwrap_or(Place::Unused)
}

/// Makes room for the place of this id, which is not below the next one: the ids before it were
/// never given to a parcel.
pub(crate) fn make_room<A: Allocator>(
    places: &mut Vec<Place, A>,
    id: usize,
) -> Result<(), AllocError>
    requires { length places.old.items ≤ id }
    ensures items { (n : ℕ) × (places.new.items ≡ places.old.items ++ replicate n Place.Unused) }
    ensures next { OnOk result (length places.new.items ≡ id) }
    ensures room { OnOk result (vec_len places.new < vec_capacity places.new) }
{
    places.resize(id, Place::Unused)?;
    places.reserve(1)
}
