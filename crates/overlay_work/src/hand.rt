//! A hand: one worker's part of a round.

ghost use Rattle.std.specs.Prelude.{◌≡◌, ◌≤◌, ℕ, length, Some, IfSome, IfNone, OnOk, OnErr, None, IsTrue, IsSome, ◌↔◌};
ghost use Rattle.std.specs.Arc.{arc_value};
ghost use Rattle.geo_exact.specs.declared.limits.TheConstants.{LAYER_CORNERS};
ghost use Rattle.overlay_work.specs.declared.hand.Step.TheVariants.{Did, Done, NoMemory};
ghost use Rattle.overlay_claims.specs.Claimants.{fresh as fresh_claimant};
ghost use Rattle.overlay_work.specs.Rounds.{fresh, DoesParcel, IsDone, WaitsForMemory, HasAllEnds};
ghost use Rattle.overlay_work.specs.own.Kept.{Takes, ArePairsOfAll, ids_at};

use crate::pair_search::keep_pairs;
use crate::work::Work;
use overlay_claims::Claimant;
use std::alloc::{AllocError, Allocator};
use std::marker::Model;
use std::sync::Arc;

/// What a step of a hand did.
#[derive(Clone, Copy, Debug, PartialEq, Eq)]
pub enum Step {
    /// The parcel with this id was tested against the zones.
    Did(u64),
    /// Each list was found at its end: all parcels were claimed, and this hand holds none.
    Done,
    /// An allocation failed. The parcel stays with the hand, and a later step does it.
    NoMemory,
}

/// One of those who share the work of a round. It claims a parcel at a time, of its own list first,
/// and keeps the pairs of the parcel and each zone whose interior meets the parcel's. Hands may
/// work at the same time, in threads of their own; none waits for another.
///
/// Contracts see a `Progress`.
#[derive(Drop)]
pub struct Hand<'t, 'h, H: Allocator> {
    work: Arc<Work<'t, 'h, H>, &'h H>,
    claimant: Claimant,
    holds: Option<u64>,
    kept: Vec<(u64, u64), &'h H>,
    tests: u64,
}

impl<'t, 'h, H: Allocator> Model for Hand<'t, 'h, H> {
    ghost use Rattle.std.specs.Arc.{arc_value};
    ghost use Rattle.overlay_work.specs.Rounds.{Progress};
    ghost use Rattle.overlay_work.specs.own.Kept.{IsHand, done_of, ids_at};

    ghost Value = { Progress };

    ghost view = { λ hand. record {
      task = arc_value hand.work;
      number = hand.claimant.number;
      claimed = hand.claimant.places;
      did = done_of hand.holds (ids_at (arc_value hand.work).lists hand.claimant.places);
      kept = hand.kept.items;
      holds = hand.holds;
      ended = hand.claimant.ended;
      tests = hand.tests;
    } };

    ghost invariant = { λ hand. IsHand (arc_value hand.work) hand.claimant hand.holds hand.kept.items hand.tests };
}

impl<'t, 'h, H: Allocator> Hand<'t, 'h, H> {
    /// A hand that has claimed nothing.
    pub(crate) fn new(
        heap: &'h H,
        work: Arc<Work<'t, 'h, H>, &'h H>,
        claimant: Claimant,
    ) -> Hand<'t, 'h, H>
        requires { (number : ℕ) × (claimant ≡ fresh_claimant (arc_value work).claims number) }
        ensures { result ≡ fresh (arc_value work.entry) claimant.number }
    {
        Hand {
            work,
            claimant,
            holds: None,
            kept: Vec::new(heap),
            tests: 0,
        }
    }

    /// Does at most one parcel: the one that it holds, or else the next one that is claimed by
    /// nobody, of its own list or, past its end, of another. It takes no lock and waits for nobody.
    ///
    /// ```
    /// while let Step::Did(id) = hand.step() {}
    /// ```
    pub fn step(&mut self) -> Step
        ensures same { (self.new.task ≡ self.old.task) × (self.new.number ≡ self.old.number) }
        ensures did { (id : ℕ) → result ≡ Did id → DoesParcel self.old self.new id }
        ensures done { result ≡ Done → IsDone self.old self.new }
        ensures no_memory { result ≡ NoMemory → WaitsForMemory self.old self.new }
    {
        let Some(id) = self.take() else {
            return Step::Done;
        };
        match self.finish(id) {
            Ok(()) => Step::Did(id),
            Err(_) => Step::NoMemory,
        }
    }

    /// The parcel that it holds, which it may claim now; `None` where each list is at its end.
    fn take(&mut self) -> Option<u64>
        ensures same { (self.new.task ≡ self.old.task) × (self.new.number ≡ self.old.number) }
        ensures some { IfSome result (λ id. Takes self.old self.new id) }
        ensures none { IfNone result (IsDone self.old self.new) }
    {
        match self.holds {
            Some(id) => Some(id),
            None => self.claim(),
        }
    }

    /// Claims the next parcel; `None` where each list is at its end.
    fn claim(&mut self) -> Option<u64>
        requires { self.old.holds ≡ None }
        ensures same { (self.new.task ≡ self.old.task) × (self.new.number ≡ self.old.number) }
        ensures some { IfSome result (λ id. Takes self.old self.new id) }
        ensures none { IfNone result (IsDone self.old self.new) }
    {
        self.work.use_invariant();
        let Some((list, place)) = self.claimant.next(self.work.claims()) else {
            return None;
        };
        let id = self.work.id_at(list, place);
        self.holds = Some(id);
        Some(id)
    }

    /// Does the parcel that it holds.
    fn finish(&mut self, id: u64) -> Result<(), AllocError>
        requires { self.old.holds ≡ Some id }
        ensures ok { OnOk result (DoesParcel self.old self.new id) }
        ensures same { (self.new.task ≡ self.old.task) × (self.new.number ≡ self.old.number) }
        ensures err { OnErr result (self.new ≡ self.old) }
    {
        self.work.use_invariant();
        let tests = keep_pairs(&self.work, id, &mut self.kept)?;
        self.holds = None;
        self.tests += tests as u64;
        Ok(())
    }

    /// How many tests of a parcel and a zone it made.
    pub fn tests(&self) -> u64
        ensures { result ≡ self.now.tests }
    {
        self.tests
    }

    /// Its number.
    pub(crate) fn number(&self) -> usize
        ensures { result ≡ self.now.number }
    {
        self.claimant.number()
    }

    /// Whether it holds a parcel.
    pub(crate) fn holds_one(&self) -> bool
        ensures { IsTrue result ↔ IsSome self.now.holds }
    {
        self.holds.is_some()
    }

    /// Only teaches the prover: it did no more parcels than a layer may have.
    pub(crate) fn use_invariant(&self)
        ensures { length self.now.did ≤ LAYER_CORNERS }
    {
        self.work.use_invariant();
    }

    /// Whether it has found each list at its end.
    pub(crate) fn is_done(&self) -> bool
        ensures { IsTrue result ↔ HasAllEnds self.now }
    {
        self.work.use_invariant();
        self.claimant.is_done()
    }

    /// The pairs that it kept, which are those of the parcels that it did.
    pub(crate) fn kept(&self) -> &[(u64, u64)]
        ensures kept { result.now ≡ self.now.kept }
        ensures pairs { ArePairsOfAll self.now.task.rows self.now.task.zones self.now.did self.now.kept }
    {
        self.kept.as_slice()
    }

    /// Its claims, whose places are those of the parcels that it did.
    pub(crate) fn into_claimant(self) -> Claimant
        requires { self.holds ≡ None }
        ensures claims { result.lists ≡ self.entry.task.claims }
        ensures claimed { result.places ≡ self.entry.claimed }
        ensures did { ids_at self.entry.task.lists result.places ≡ self.entry.did }
        ensures ended { result.ended ≡ self.entry.ended }
    {
        let Hand {
            work: _,
            claimant,
            holds: _,
            kept: _,
            tests: _,
        } = self;
        claimant
    }

    /// Lets the hand go, with what it did, and hands back its claims, to which it has added none. Its round
    /// can no longer be closed.
    pub fn give_up(self) -> Claimant
        ensures claims { (result.lists ≡ self.entry.task.claims) × (result.number ≡ self.entry.number) }
        ensures claimed { result.places ≡ self.entry.claimed }
        ensures ended { result.ended ≡ self.entry.ended }
    {
        let Hand { claimant, .. } = self;
        claimant
    }
}
