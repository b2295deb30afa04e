//! A round worked off by threads.

ghost use Rattle.std.specs.Prelude.{◌≡◌, length, map};
ghost use Rattle.std.specs.List.{Contains};
ghost use Rattle.fabric_core.specs.Rows.{numbers};
ghost use Rattle.overlay_work.specs.Sharing.{IsSharing};
ghost use Rattle.overlay_work.specs.Rounds.{id_at};
ghost use Rattle.overlay_work.specs.own.Kept.{IsTask};
ghost use Rattle.overlay_claims.specs.Claimants.{IsPlace};

use fabric_core::{Layer, Sheet};
use overlay_claims::Claims;
use std::alloc::Allocator;
use std::marker::Model;

/// What the hands of a round share: the lists of the sharing with the claims of their places, the sheet and the zones.
#[derive(Drop)]
pub(crate) struct Work<'t, 'h, H: Allocator> {
    claims: Claims<&'h H>,
    lists: Vec<Vec<u64, &'h H>, &'h H>,
    sheet: &'t Sheet<'h, H>,
    zones: &'t Layer<'h, H>,
}

impl<'t, 'h, H: Allocator> Model for Work<'t, 'h, H> {
    ghost use Rattle.std.specs.Prelude.{◌≡◌, length, map};
    ghost use Rattle.overlay_work.specs.Rounds.{Task};
    ghost use Rattle.overlay_work.specs.own.Kept.{IsTask};

    ghost Value = { Task };

    ghost view = { λ work. record {
      claims = work.claims;
      lists = map (λ list. list.items) work.lists.items;
      rows = work.sheet.now.now.rows;
      zones = work.zones.now.rows;
      city = work.sheet.now.city;
      entries = length work.sheet.now.journal;
    } };

    ghost invariant = { λ work. (work.zones.now.city ≡ work.sheet.now.city) × IsTask (record {
      claims = work.claims;
      lists = map (λ list. list.items) work.lists.items;
      rows = work.sheet.now.now.rows;
      zones = work.zones.now.rows;
      city = work.sheet.now.city;
      entries = length work.sheet.now.journal;
    }) };
}

impl<'t, 'h, H: Allocator> Work<'t, 'h, H> {
    /// What the hands share.
    pub(crate) fn new(
        claims: Claims<&'h H>,
        lists: Vec<Vec<u64, &'h H>, &'h H>,
        sheet: &'t Sheet<'h, H>,
        zones: &'t Layer<'h, H>,
    ) -> Work<'t, 'h, H>
        requires sharing { IsSharing (numbers sheet.now.now.rows) (map (λ list. list.items) lists.items) }
        requires lengths { claims.lengths ≡ map (λ list. length list.items) lists.items }
        requires city { zones.now.city ≡ sheet.now.city }
        ensures { result ≡ record {
          claims = claims.entry;
          lists = map (λ list. list.items) lists.entry.items;
          rows = sheet.now.now.rows;
          zones = zones.now.rows;
          city = sheet.now.city;
          entries = length sheet.now.journal;
        } }
    {
        sheet.use_invariant();
        zones.use_invariant();
        Work {
            claims,
            lists,
            sheet,
            zones,
        }
    }

    /// Only teaches the prover: the lists share the sheet's ids.
    pub(crate) fn use_invariant(&self)
        ensures { IsTask self.now }
    {
        let _ = &self.lists;
    }

    /// The claims of the lists' places.
    pub(crate) fn claims(&self) -> &Claims<&'h H>
        ensures { result.now ≡ self.now.claims }
    {
        &self.claims
    }

    pub(crate) fn sheet(&self) -> &'t Sheet<'h, H>
        ensures rows { result.now.now.rows ≡ self.now.rows }
        ensures city { result.now.city ≡ self.now.city }
        ensures entries { length result.now.journal ≡ self.now.entries }
    {
        self.sheet
    }

    pub(crate) fn zones(&self) -> &'t Layer<'h, H>
        ensures zones { result.now.rows ≡ self.now.zones }
        ensures city { result.now.city ≡ self.now.city }
    {
        self.zones
    }

    /// The heap that was lent.
    pub(crate) fn heap(&self) -> &'h H {
        *self.lists.allocator()
    }

    /// How many lists there are.
    pub(crate) fn len(&self) -> usize
        ensures { result ≡ length self.now.lists }
    {
        self.lists.len()
    }

    /// The id that stands at a place, which is a parcel's.
    pub(crate) fn id_at(&self, list: usize, place: u64) -> u64
        requires { IsPlace self.now.claims (list, place) }
        ensures id { result ≡ id_at self.now.lists (list, place) }
        ensures here { Contains (numbers self.now.rows) result }
    {
        self.lists[list][place as usize]
    }
}
