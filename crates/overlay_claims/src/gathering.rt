//! Hands that are taken back, to see that all places were claimed.

ghost use Rattle.std.specs.Prelude.{◌≡◌, ◌+◌, ◌++◌, length, IsPermutation};
ghost use Rattle.overlay_claims.specs.Claims.{all_places};
ghost use Rattle.overlay_claims.specs.Claimants.{AreAllEnded};

use crate::claimant::Claimant;
use crate::claims::{Claims, Mark};
use std::alloc::Allocator;
use std::marker::Model;

/// What several hands claimed and found, put together. It has no bytes. Contracts see a `Gathered`.
#[derive(Drop)]
pub struct Gathering {
    mark: Mark,
}

impl Model for Gathering {
    ghost use Rattle.std.specs.Prelude.{◌≡◌, ◌<◌, []};
    ghost use Rattle.overlay_claims.specs.Claimants.{Gathered};

    ghost Value = { Gathered };

    ghost view = { λ gathering. record {
      lists = record { name = gathering.mark.table_id; lengths = gathering.mark.me.0.lengths };
      hands = gathering.mark.me.0.parts;
      places = gathering.mark.me.0.places;
      ended = gathering.mark.me.0.notes;
    } };

    ghost invariant = { λ gathering. (gathering.mark.me.1 ≡ []) × (0 < gathering.mark.me.0.parts) };
}

impl Gathering {
    /// What one hand knows.
    pub fn new(hand: Claimant) -> Gathering
        ensures { result ≡ record { lists = hand.lists; hands = 1; places = hand.places; ended = hand.ended } }
    {
        Gathering {
            mark: hand.into_mark(),
        }
    }

    /// Takes in what another hand knows.
    pub fn add<A: Allocator + Copy>(&mut self, claims: &Claims<A>, hand: Claimant)
        requires own { self.old.lists ≡ claims.now }
        requires other { hand.lists ≡ claims.now }
        ensures { self.new ≡ record {
          lists = self.old.lists;
          hands = self.old.hands + 1;
          places = self.old.places ++ hand.places;
          ended = self.old.ended ++ hand.ended;
        } }
    {
        claims.join(&mut self.mark, hand.into_mark());
    }

    /// With all hands, and each list found at its end: each place of each list was claimed by one of them, once.
    pub fn confirm<A: Allocator + Copy>(&mut self, claims: &Claims<A>)
        requires own { self.old.lists ≡ claims.now }
        requires all_hands { self.old.hands ≡ length claims.now.lengths }
        requires all_ends { AreAllEnded (length claims.now.lengths) self.old.ended }
        ensures same { self.new ≡ self.old }
        ensures all_once { IsPermutation self.old.places (all_places 0 claims.now.lengths) }
    {
        claims.confirm(&mut self.mark);
    }
}
