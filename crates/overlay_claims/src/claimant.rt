//! A claimant: the hand that takes parcels out of the lists one by one.

ghost use Rattle.std.specs.Prelude.{◌≡◌, ◌+◌, ◌%◌, ◌^◌, ◌<◌, ◌≤◌, [], length, sum_by, IfOk};
ghost use Rattle.std.specs.Prelude.{IfSome, IfNone, IsTrue, ◌↔◌};
ghost use Rattle.std.specs.List.{AllByRecursion};
ghost use Rattle.overlay_claims.specs.Claims.{view_of};
ghost use Rattle.overlay_claims.specs.Claimants.{fresh_hands, HasAllEnds, ClaimsNext, EndsAll};

use crate::claims::{Claims, Mark};
use std::alloc::{AllocError, Allocator};
use std::marker::Model;

/// A hand that claims places of lists: first of its own, which has its number, and then of the
/// others, by rising number and, past the last, from 0. A list that it found at its end it does not
/// touch again. Contracts see a `Standing`.
#[derive(Drop)]
pub struct Claimant {
    mark: Mark,
    number: usize,
    count: usize,
    ended: usize,
}

impl Model for Claimant {
    ghost use Rattle.std.specs.Prelude.{◌≡◌, ◌<◌, ◌≤◌, [], length};
    ghost use Rattle.overlay_claims.specs.Claimants.{Standing, IsInOrder};

    ghost Value = { Standing };

    ghost view = { λ hand. record {
      lists = record { name = hand.mark.table_id; lengths = hand.mark.me.0.lengths };
      number = hand.number;
      places = hand.mark.me.0.places;
      ended = hand.mark.me.0.notes;
    } };

    ghost invariant = { λ hand. (hand.mark.me.1 ≡ []) × (hand.mark.me.0.parts ≡ 1)
        × (hand.count ≡ length hand.mark.me.0.lengths)
        × IsInOrder (length hand.mark.me.0.lengths) hand.number hand.ended hand.mark.me.0.notes };
}

impl Claimant {
    /// Its number, which is that of its own list.
    pub fn number(&self) -> usize
        ensures number { result ≡ self.now.number }
        ensures own_list { result < length self.now.lists.lengths }
    {
        self.number
    }

    /// Claims the next place: of its own list, or else of the first other list that is not at its
    /// end. `None` where each list was found at its end.
    pub fn next<A: Allocator + Copy>(&mut self, claims: &Claims<A>) -> Option<(usize, u64)>
        requires own { self.old.lists ≡ claims.now }
        ensures same { (self.new.lists ≡ self.old.lists) × (self.new.number ≡ self.old.number) }
        ensures some { IfSome result (λ place. ClaimsNext self.old self.new place) }
        ensures bounded { IfSome result (λ place. length self.new.places ≤ sum_by (λ n. n) claims.now.lengths) }
        ensures none { IfNone result (EndsAll self.old self.new) }
    {
        while self.ended < self.count {
            let list = list_after(self.number, self.ended, self.count);
            if let Some(place) = claims.claim(&mut self.mark, list) {
                return Some((list, place));
            }
            self.ended += 1;
        }
        None
    }

    /// The mark, with which what it knows is handed on.
    pub(crate) fn into_mark(self) -> Mark
        ensures name { result.table_id ≡ self.lists.name }
        ensures no_slot { result.me.1 ≡ [] }
        ensures view { result.me.0
            ≡ record { lengths = self.lists.lengths; parts = 1; places = self.places; notes = self.ended } }
    {
        let Claimant {
            mark,
            number: _,
            count: _,
            ended: _,
        } = self;
        mark
    }

    /// Whether it found each list at its end.
    pub fn is_done(&self) -> bool
        ensures { IsTrue result ↔ HasAllEnds self.now }
    {
        self.ended == self.count
    }
}

/// The list to which a hand goes after so many: by rising number from its own, and past the last from 0.
fn list_after(number: usize, ended: usize, count: usize) -> usize
    requires own { number < count }
    requires more { ended < count }
    ensures { result ≡ (number + ended) % count }
{
    let to_the_last = count - number;
    if ended < to_the_last {
        number + ended
    } else {
        ended - to_the_last
    }
}

/// A hand for each list, the first of which takes what is left of the mark of all.
pub(crate) fn deal<A: Allocator + Copy>(
    claims: &Claims<A>,
    mut whole: Mark,
    mut hands: Vec<Claimant, A>,
) -> Result<Vec<Claimant, A>, AllocError>
    requires own { whole.table_id ≡ claims.now.name }
    requires mark { whole.me ≡ (view_of claims.now.lengths (length claims.now.lengths), []) }
    requires none { hands.items ≡ [] }
    ensures { IfOk result (λ made. made.items ≡ fresh_hands claims.now (length claims.now.lengths)) }
{
    let count = claims.len();
    let last = count - 1;
    for number in 0..last {
        let mark = claims.part_off(&mut whole);
        hands.push(Claimant {
            mark,
            number,
            count,
            ended: 0,
        })?;
    }
    hands.push(Claimant {
        mark: whole,
        number: last,
        count,
        ended: 0,
    })?;
    Ok(hands)
}
