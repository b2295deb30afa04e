//! Claims: each place of the lists is claimed by one hand at most.

ghost use Rattle.std.specs.Prelude.{◌≡◌, ℕ, ◌+◌, ◌^◌, ◌<◌, ◌≤◌, [], length, slice_index, sum_by, IfOk};
ghost use Rattle.std.specs.Prelude.{IfSome, IfNone, IsPermutation};
ghost use Rattle.std.specs.List.{AllByRecursion};
ghost use Rattle.overlay_claims.specs.own.Spread.{word_of};
ghost use Rattle.overlay_claims.specs.Claimants.{fresh_hands};
ghost use Rattle.overlay_claims.specs.Claims.{view_of, with_fewer_parts, with_place, with_note};
ghost use Rattle.overlay_claims.specs.Claims.{joined, times, all_places};

use crate::claimant::{Claimant, deal};
use crate::plays::{Claim, Confirm, PartOff, Rule, Together};
use crate::view::View;
use atomic_table::{Seat, Table};
use std::alloc::{AllocError, Allocator};
use std::marker::Model;

/// The token with which a hand claims places, and by which proofs follow what it knows. It has no bytes.
pub(crate) type Mark = Seat<(), View>;

/// How many words there are for each list, of which one is used: so no two that hands change lie in one line of a
/// cache, nor in two lines, of 64 bytes each, that are fetched together.
const APART: usize = 16;

/// The number of a list's word, which has eight words that nobody uses before it, and seven behind.
fn word_for(list: usize) -> usize
    requires { word_of list < 2 ^ 64 }
    ensures { result ≡ word_of list }
{
    APART * list + 8
}

/// Lists whose places hands claim, each place by one hand. Contracts see their name and the lengths of the lists.
#[derive(Drop)]
pub struct Claims<A: Allocator> {
    table: Table<(), View, Vec<u64, A>, Rule, A>,
    lengths: Vec<u64, A>,
}

impl<A: Allocator> Model for Claims<A> {
    ghost use Rattle.std.specs.Prelude.{◌≡◌, ◌*◌, ◌^◌, ◌<◌, length};
    ghost use Rattle.overlay_claims.specs.Claimants.{Lists};

    ghost Value = { Lists };

    ghost view = { λ claims. record { name = claims.table.shared.table_id; lengths = claims.lengths.items } };

    ghost invariant = { λ claims. (claims.table.shared.key.items ≡ claims.lengths.items)
        × (claims.table.shared.table_id.words ≡ 16 * length claims.lengths.items) × (0 < length claims.lengths.items)
        × (16 * length claims.lengths.items < 2 ^ 64) };
}

impl<A: Allocator + Copy> Claims<A> {
    /// Lists of these lengths, none of whose places is claimed, and a hand for each list, in order.
    ///
    /// # Errors
    ///
    /// [`AllocError`] where an allocation fails.
    pub fn open(alloc: A, lengths: Vec<u64, A>) -> Result<(Claims<A>, Vec<Claimant, A>), AllocError>
        requires some { 0 < length lengths.items }
        requires short { AllByRecursion (λ n. n + length lengths.items < 2 ^ 64) lengths.items }
        ensures lengths { IfOk result (λ made. made.0.lengths ≡ lengths.items) }
        ensures hands { IfOk result (λ made. made.1.items ≡ fresh_hands made.0 (length lengths.items)) }
    {
        let (claims, mark) = Claims::new(alloc, lengths)?;
        let hands = Vec::with_capacity(alloc, claims.len())?;
        let hands = deal(&claims, mark, hands)?;
        Ok((claims, hands))
    }

    /// Lists of these lengths, none of whose places is claimed, with a mark that has the parts of all
    /// hands, of which there are as many as lists.
    pub(crate) fn new(alloc: A, lengths: Vec<u64, A>) -> Result<(Claims<A>, Mark), AllocError>
        requires some { 0 < length lengths.items }
        requires short { AllByRecursion (λ n. n + length lengths.items < 2 ^ 64) lengths.items }
        ensures lengths { IfOk result (λ made. made.0.lengths ≡ lengths.items) }
        ensures name { IfOk result (λ made. made.1.table_id ≡ made.0.name) }
        ensures mark { IfOk result (λ made. made.1.me ≡ (view_of lengths.items (length lengths.items), [])) }
    {
        let Some(count) = lengths.len().checked_mul(APART) else {
            return Err(AllocError);
        };
        let words = Vec::from_elem(alloc, 0u64, count)?;
        let (table, mark) = Table::of_words(alloc, words.as_slice(), &lengths)?;
        Ok((Claims { table, lengths }, mark))
    }

    /// How many lists there are.
    pub fn len(&self) -> usize
        ensures count { result ≡ length self.now.lengths }
        ensures some { 0 < result }
    {
        self.lengths.len()
    }

    /// The mark of one hand, cut off from the mark that has the parts of all hands.
    pub(crate) fn part_off(&self, mark: &mut Mark) -> Mark
        requires own { mark.old.table_id ≡ self.now.name }
        requires parts { 1 < mark.old.me.0.parts }
        requires nothing { mark.old.me.0.notes ≡ [] }
        ensures kept { (mark.new.table_id ≡ mark.old.table_id)
            × (mark.new.me ≡ (with_fewer_parts mark.old.me.0, mark.old.me.1)) }
        ensures given { (result.table_id ≡ mark.old.table_id) × (result.me ≡ (view_of mark.old.me.0.lengths 1, [])) }
    {
        self.table.shared.split_seat::<PartOff>(mark)
    }

    /// Claims the next place of a list, by one addition to its word; `None` where the list is at its
    /// end, which the hand then notes.
    pub(crate) fn claim(&self, mark: &mut Mark, list: usize) -> Option<u64>
        requires own { mark.old.table_id ≡ self.now.name }
        requires lengths { mark.old.me.0.lengths ≡ self.now.lengths }
        requires here { list < length self.now.lengths }
        requires not_noted { times list mark.old.me.0.notes < mark.old.me.0.parts }
        ensures own { (mark.new.table_id ≡ mark.old.table_id) × (mark.new.me.1 ≡ mark.old.me.1) }
        ensures here { IfSome result (λ place. place < slice_index self.now.lengths list) }
        ensures some { IfSome result (λ place. mark.new.me.0 ≡ with_place mark.old.me.0 list place) }
        ensures bounded { IfSome result (λ place. length mark.new.me.0.places ≤ sum_by (λ n. n) self.now.lengths) }
        ensures none { IfNone result (mark.new.me.0 ≡ with_note mark.old.me.0 list) }
    {
        // At the end a word may go beyond the length. It never wraps: a hand that notes an end adds no more there.
        let found = self
            .table
            .shared
            .fetch_add::<Claim>(mark, word_for(list), 1);
        if found < self.lengths[list] {
            Some(found)
        } else {
            None
        }
    }

    /// Takes in another hand's mark: what both know.
    pub(crate) fn join(&self, mark: &mut Mark, other: Mark)
        requires own { mark.old.table_id ≡ self.now.name }
        requires others { (other.table_id ≡ self.now.name) × (other.me.1 ≡ []) }
        requires parts { 0 < mark.old.me.0.parts }
        ensures { (mark.new.table_id ≡ mark.old.table_id)
            × (mark.new.me ≡ (joined mark.old.me.0 other.me.0, mark.old.me.1)) }
    {
        self.table.shared.join_seat::<Together>(mark, other);
    }

    /// With the parts of all hands, and each list found at its end: each place of each list was claimed, once.
    pub(crate) fn confirm(&self, mark: &mut Mark)
        requires own { mark.old.table_id ≡ self.now.name }
        requires lengths { mark.old.me.0.lengths ≡ self.now.lengths }
        requires whole { mark.old.me.0.parts ≡ length mark.old.me.0.lengths }
        requires ended { (list : ℕ) → list < length mark.old.me.0.lengths → 0 < times list mark.old.me.0.notes }
        ensures same { (mark.new.table_id ≡ mark.old.table_id) × (mark.new.me ≡ mark.old.me) }
        ensures all { IsPermutation mark.old.me.0.places (all_places 0 mark.old.me.0.lengths) }
    {
        self.table.shared.load::<Confirm>(mark, 0);
    }
}
