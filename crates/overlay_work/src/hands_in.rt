//! What hands that are handed in show, and what they did together.

ghost use Rattle.std.specs.Prelude.{◌≡◌, List, [], ◌∷◌, ◌++◌, false, length, IsTrue, None, Some, IfErr};
ghost use Rattle.std.specs.Prelude.{OnOk, MatchOption, map, flat_map, IsPermutation};
ghost use Rattle.std.specs.List.{AllByRecursion};
ghost use Rattle.fabric_core.specs.Rows.{numbers};
ghost use Rattle.overlay_claims.specs.Claims.{all_places};
ghost use Rattle.overlay_work.specs.Rounds.{Progress, HasAllEnds, AreHandsOf};
ghost use Rattle.overlay_work.specs.Faults.{IsCloseFault, IsLeastHolding, HoldNothing};
ghost use Rattle.overlay_work.specs.own.Gathered.{AreDone, LeastIs, SomeHasAllEnds};

use crate::close::CloseFault;
use crate::hand::Hand;
use crate::work::Work;
use overlay_claims::Gathering;
use std::alloc::Allocator;

/// Whether a round can be closed with these hands, or why not.
pub(crate) fn check_hands<'t, 'h, H: Allocator>(
    work: &Work<'t, 'h, H>,
    hands: &[Hand<'t, 'h, H>],
) -> Result<(), CloseFault>
    ensures ok { OnOk result (AreDone work.now hands.now) }
    ensures fault { IfErr result (IsCloseFault work.now hands.now) }
{
    if hands.len() != work.len() {
        return Err(CloseFault::HandsMissing(work.len(), hands.len()));
    }
    if let Some(number) = least_holding(hands) {
        return Err(CloseFault::Holding(number));
    }
    if !some_is_done(hands) {
        return Err(CloseFault::NotDone);
    }
    Ok(())
}

/// The least number of a hand that holds a parcel, where there is one.
pub(crate) fn least_holding<'t, 'h, H: Allocator>(hands: &[Hand<'t, 'h, H>]) -> Option<usize>
    ensures { MatchOption result (HoldNothing hands.now) (IsLeastHolding hands.now) }
{
    let mut least = None;
    for hand in hands {
        least = lesser(least, hand);
    }
    least
}

/// The lesser of a number and a hand's, where the hand holds a parcel.
fn lesser<'t, 'h, H: Allocator>(least: Option<usize>, hand: &Hand<'t, 'h, H>) -> Option<usize>
    ensures { (hands : List Progress) → LeastIs least hands → LeastIs result (hands ++ hand.now ∷ []) }
{
    if !hand.holds_one() {
        return least;
    }
    match least {
        Some(number) => Some(number.min(hand.number())),
        None => Some(hand.number()),
    }
}

/// Whether a hand has found each list at its end.
fn some_is_done<'t, 'h, H: Allocator>(hands: &[Hand<'t, 'h, H>]) -> bool
    ensures yes { IsTrue result → SomeHasAllEnds hands.now }
    ensures no { result ≡ false → AllByRecursion (λ hand. HasAllEnds hand → ⊥) hands.now }
{
    for hand in hands {
        if hand.is_done() {
            return true;
        }
    }
    false
}

/// Puts together what the hands claimed: each place was claimed by one of them, once, and each parcel done by one.
pub(crate) fn confirm<'t, 'h, H: Allocator>(
    work: &Work<'t, 'h, H>,
    hands: Vec<Hand<'t, 'h, H>, &'h H>,
)
    requires at_work { AreHandsOf work.now hands.items }
    requires done { AreDone work.now hands.items }
    ensures claimed { IsPermutation (flat_map (λ hand. hand.claimed) hands.entry.items)
        (all_places 0 (map (λ list. length list) work.now.lists)) }
    ensures did { IsPermutation (flat_map (λ hand. hand.did) hands.entry.items) (numbers work.now.rows) }
{
    work.use_invariant();
    let claims = work.claims();
    let mut rest = hands.into_iter();
    let Some(first) = rest.next() else {
        unreachable!();
    };
    let mut all = Gathering::new(first.into_claimant());
    for hand in rest {
        all.add(claims, hand.into_claimant());
    }
    all.confirm(claims);
}
