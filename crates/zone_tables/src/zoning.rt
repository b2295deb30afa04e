//! The pairs of a table, parcel by parcel.

ghost use Rattle.std.specs.Prelude.{◌≡◌, ◌↔◌, ℕ, ◌≤◌, length, Some};
ghost use Rattle.std.specs.Iterator.{YieldsFirst, item_count};
ghost use Rattle.zone_tables.specs.Overlap.{AreInPairOrder};
ghost use Rattle.zone_tables.specs.own.Zonings.{behind, zonings, IsFrom, IsOnlyZone};

use std::marker::Model;

/// A parcel of a table: its id, its first zone, and whether it has another.
#[derive(Clone, Copy, Debug, PartialEq, Eq)]
pub(crate) struct Zoning {
    pub id: u64,
    pub zone: u64,
    pub is_split: bool,
}

/// The parcels that pairs speak of, where the pairs of each stand together. Contracts see the list
/// of those that are left.
#[derive(Drop)]
pub(crate) struct Zonings<'p> {
    pairs: &'p [(u64, u64)],
}

impl<'p> Model for Zonings<'p> {
    ghost use Rattle.std.specs.Prelude.{List};
    ghost use Rattle.zone_tables.specs.declared.zoning.Zoning.{Zoning};

    ghost Value = { List Zoning };

    ghost use Rattle.zone_tables.specs.own.Zonings.{zonings};

    ghost view = { λ it. zonings it.pairs.now };
}

impl<'p> Zonings<'p> {
    /// The parcels of these pairs.
    pub(crate) fn new(pairs: &'p [(u64, u64)]) -> Zonings<'p>
        ensures { result ≡ zonings pairs.now }
    {
        Zonings { pairs }
    }
}

impl<'p> Iterator for Zonings<'p> {
    type Item = Zoning;

    ghost next_gives = { YieldsFirst (λ rest. rest) };

    ghost remaining = { item_count (λ rest. rest) };

    fn next(&mut self) -> Option<Zoning> {
        let (first, rest) = self.pairs.split_first()?;
        let (id, zone) = *first;
        let others = behind_parcel(id, rest);
        self.pairs = others;
        Some(Zoning {
            id,
            zone,
            is_split: others.len() < rest.len(),
        })
    }
}

/// The pairs behind those of a parcel that stand first.
fn behind_parcel(id: u64, pairs: &[(u64, u64)]) -> &[(u64, u64)]
    ensures behind { result.now ≡ behind id pairs.now }
    ensures fewer { length result.now ≤ length pairs.now }
{
    let mut rest = pairs;
    while let Some((first, others)) = rest.split_first()
        && first.0 == id
    {
        rest = others;
    }
    rest
}

/// The pairs from the first on that is not one of a lower parcel.
fn from_parcel(id: u64, pairs: &[(u64, u64)]) -> &[(u64, u64)]
    requires { AreInPairOrder pairs.now }
    ensures { IsFrom id pairs.now result.now }
{
    let start = pairs.partition_point(|pair| pair.0 < id);
    &pairs[start..]
}

/// The zone of a parcel that has one pair alone.
pub(crate) fn only_zone(id: u64, pairs: &[(u64, u64)]) -> Option<u64>
    requires { AreInPairOrder pairs.now }
    ensures { (zone : ℕ) → (result ≡ Some zone) ↔ IsOnlyZone pairs.now id zone }
{
    let parcel = Zonings::new(from_parcel(id, pairs)).next()?;
    (parcel.id == id && !parcel.is_split).then_some(parcel.zone)
}
