//! What lies under the lock.
ghost use Rattle.std.specs.Prelude.{◌≡◌, ◌≢◌, ◌⊎◌, ◌↔◌, ◌+◌, ◌≤◌, [], ◌∷◌, ◌++◌, map, length, drop, take, max};
ghost use Rattle.std.specs.Prelude.{All, true, IfOk, IfErr, IfSome, ◌<◌, None, IfNone, IsSome, IsOk, IsErrAnd};
ghost use Rattle.std.specs.Prelude.{IsErrOf, OnErr, MatchBool};
ghost use mathlib.Core.List.{IsPrefix};
ghost use Rattle.ring_edits.specs.Edits.{CoversAlike};
ghost use Rattle.fabric_core.specs.declared.refusal.Refusal.{Refusal};
ghost use Rattle.fabric_core.specs.declared.refusal.Refusal.TheVariants.{NoMemory};
ghost use Rattle.fabric_core.specs.Tiling.{IsTiling};
ghost use Rattle.fabric_core.specs.Faults.{AreSimple};
ghost use Rattle.fabric_core.specs.GridIndex.{IsIndexed};
ghost use Rattle.fabric_core.specs.Journal.{after_entry, replay};
ghost use Rattle.fabric_core.specs.EditResults.{IsEntryOf, IsLawful};
ghost use Rattle.fabric_core.specs.Refusals.{IsRefusal, NeedsNoMemory};
ghost use Rattle.desk_lock.specs.Offices.{AreOfClerks, IsOfOrigin, Agrees, HasMet, IsSometime, IsTotal, journal_met};
ghost use Rattle.desk_lock.specs.Offices.{with_made, with_met, behind};
ghost use Rattle.desk_lock.specs.own.Keeping.{as_known, IsKnown};
ghost use Rattle.desk_lock.specs.own.Steps.{IsStep};

use crate::card::Card;
use crate::copied::Copied;
use crate::name::Naming;
use crate::receipt::{Notice, Receipt};
use entry_cards::{Gathering, Keeper};
use fabric_core::{Entry, Fabric, Refusal, Sheet};
use published_copies::Publisher;
use ring_edits::Edit;
use std::alloc::{AllocError, Allocator};
use std::marker::Model;
use std::sync::Wait;

/// The writer of the versions that windows take.
pub(crate) type Copies<'a, H, J, R> = Publisher<Copied<'a, H, J>, Entry<&'a H>, J, R, &'a H>;

/// What lies under an office's lock: the fabric, who keeps the cards, and the writer of the
/// published versions. Each desk that the lock frees keeps these.
///
/// Contracts see the fabric, the entries that were accepted at the desk, and the journal of the
/// version that windows take.
#[derive(Drop)]
pub struct Desk<'a, H: Allocator, J: Naming<H>, R: Wait + Drop> {
    pub(crate) fabric: Fabric<'a, H>,
    pub(crate) keeper: Keeper<Entry<&'a H>, &'a H>,
    pub(crate) publisher: Copies<'a, H, J, R>,
    // How many entries the fabric had that was handed in.
    pub(crate) opened_with: usize,
}

impl<'a, H: Allocator, J: Naming<H>, R: Wait + Drop> Model for Desk<'a, H, J, R> {
    ghost use Rattle.std.specs.Prelude.{◌++◌};
    ghost use Rattle.std.specs.Borrow.{Bor};
    ghost use Rattle.desk_lock.specs.Offices.{DeskState, behind};
    ghost use Rattle.desk_lock.specs.own.Keeping.{Keeps};

    ghost Value = { DeskState (Bor H) };

    ghost view = { λ desk. record {
      book = desk.fabric;
      entries = behind J.office.origin desk.fabric.journal;
      published = J.office.origin.journal ++ desk.publisher.shown;
    } };

    ghost invariant = { λ desk. Keeps J.office desk.fabric desk.keeper desk.publisher.handed desk.opened_with };
}

impl<'a, H: Allocator, J: Naming<H>, R: Wait + Drop> Desk<'a, H, J, R> {
    /// Only teaches the prover: the desk's fabric tiles its city, its index and journal agree with its rows, and it
    /// comes of the fabric that was handed to the office, with entries of the office's clerks alone behind
    /// those of that fabric. What is published begins its journal, and has the entries of that fabric.
    pub fn use_invariant(&self)
        ensures tiling { IsTiling self.now.book.now.rows self.now.book.city }
        ensures simple { AreSimple self.now.book.now.rows }
        ensures indexed { IsIndexed self.now.book.now.rows self.now.book.city self.now.book.index }
        ensures ground { CoversAlike self.now.book.city self.now.book.now.refined }
        ensures lawful { IsLawful self.now.book.opening self.now.book.journal }
        ensures replays { replay self.now.book.opening self.now.book.journal ≡ self.now.book.now }
        ensures origin { IsOfOrigin J.office.origin self.now.book }
        ensures entries { self.now.book.journal ≡ J.office.origin.journal ++ self.now.entries }
        ensures of_clerks { AreOfClerks J.office.clerks self.now.entries }
        ensures published { IsPrefix self.now.published self.now.book.journal }
        ensures shows { IsPrefix J.office.origin.journal self.now.published }
    {
        self.fabric.use_invariant();
        self.publisher.use_invariant();
    }

    /// Makes an edit by the card's clerk, as [`Fabric::edit`] does; the card counts
    /// it, and has met the journal with it.
    ///
    /// # Errors
    ///
    /// As [`Fabric::edit`]; nothing has changed then, but that the card has met the journal.
    pub fn edit(
        &mut self,
        card: &mut Card<'a, H, J>,
        edit: &Edit<&'a H>,
    ) -> Result<Entry<&'a H>, Refusal>
        // What is before is lawful, the card's entries are its clerk's, and what it has met begins the journal.
        ensures sometime { IsSometime J.office card.old self.old.book.journal }
        ensures replays { replay J.office.origin.opening self.old.book.journal ≡ self.old.book.now }
        // An accepted edit: the entry is that of this edit by the card's clerk on the state before,
        // under the next number.
        ensures is_entry { IfOk result (λ entry. IsEntryOf self.old.book.now entry) }
        ensures edit { IfOk result (λ entry. entry.edit ≡ edit.now) }
        ensures clerk { IfOk result (λ entry. entry.clerk ≡ card.old.clerk) }
        ensures number { IfOk result (λ entry. entry.number ≡ length self.old.book.journal + 1) }
        ensures now { IfOk result (λ entry. self.new.book.now ≡ after_entry self.old.book.now entry) }
        ensures journal { IfOk result (λ entry. self.new.book.journal ≡ self.old.book.journal ++ entry ∷ []) }
        ensures city { self.new.book.city ≡ self.old.book.city }
        ensures opening { self.new.book.opening ≡ self.old.book.opening }
        // The card and the desk have it; it is not published yet.
        ensures made { IfOk result (λ entry. card.new ≡ with_made card.old entry card.new.met) }
        ensures entries { IfOk result (λ entry. self.new.entries ≡ self.old.entries ++ entry ∷ []) }
        ensures published { self.new.published ≡ self.old.published }
        // The card has met the journal as it is now.
        ensures met { journal_met J.office card.new ≡ self.new.book.journal }
        // A refused one changes nothing else.
        ensures unchanged { OnErr result ((self.new ≡ self.old) × (card.new ≡ with_met card.old card.new.met)) }
        ensures refusal { IfErr result (λ refusal.
            IsRefusal self.old.book.now self.old.book.journal edit.now refusal ⊎ (refusal ≡ NoMemory)) }
        ensures refuses { (refusal : Refusal) → IsRefusal self.old.book.now self.old.book.journal edit.now refusal
            → IsErrAnd result (λ e. (e ≡ refusal) ⊎ (e ≡ NoMemory)) }
        // E9, E1 to E5, E7 and E11 are told whatever memory there is.
        ensures exact { (refusal : Refusal) → IsRefusal self.old.book.now self.old.book.journal edit.now refusal
            → NeedsNoMemory refusal → IsErrOf result refusal }
    {
        self.fabric.use_invariant();
        self.keeper.meet(&mut card.stub);
        let entry = self.fabric.edit(card.clerk, edit)?;
        self.keeper.add(&mut card.stub, &entry);
        card.count += 1;
        Ok(entry)
    }

    /// Makes an edit by the card's clerk, as [`Desk::edit`], and publishes, as [`Desk::publish`]: a
    /// receipt, which tells the journal of the published version.
    ///
    /// # Errors
    ///
    /// As [`Desk::edit`]; nothing has changed then, but that the card has met the journal.
    pub fn submit(
        &mut self,
        card: &mut Card<'a, H, J>,
        edit: &Edit<&'a H>,
    ) -> Result<Receipt<'a, H, J>, Refusal>
        // What is before is lawful, the card's entries are its clerk's, and what it has met begins the journal.
        ensures sometime { IsSometime J.office card.old self.old.book.journal }
        ensures replays { replay J.office.origin.opening self.old.book.journal ≡ self.old.book.now }
        // An accepted edit: the receipt's entry is that of this edit by the card's clerk.
        ensures is_entry { IfOk result (λ receipt. IsEntryOf self.old.book.now receipt.entry) }
        ensures edit { IfOk result (λ receipt. receipt.entry.edit ≡ edit.now) }
        ensures clerk { IfOk result (λ receipt. receipt.entry.clerk ≡ card.old.clerk) }
        ensures number { IfOk result (λ receipt. receipt.entry.number ≡ length self.old.book.journal + 1) }
        ensures now { IfOk result (λ receipt. self.new.book.now ≡ after_entry self.old.book.now receipt.entry) }
        ensures journal { IfOk result (λ receipt. self.new.book.journal ≡ self.old.book.journal ++ receipt.entry ∷ []) }
        ensures city { self.new.book.city ≡ self.old.book.city }
        ensures opening { self.new.book.opening ≡ self.old.book.opening }
        ensures made { IfOk result (λ receipt. card.new ≡ with_made card.old receipt.entry card.new.met) }
        ensures entries { IfOk result (λ receipt. self.new.entries ≡ self.old.entries ++ receipt.entry ∷ []) }
        // The journal is lawful afterwards, and the card's entries are its clerk's.
        ensures after { IfOk result (λ receipt. IsSometime J.office card.new self.new.book.journal) }
        // Where it says that it was published, the published version has the whole journal, which it tells.
        ensures published { IfOk result (λ receipt. receipt.published ≡ true
            → self.new.published ≡ self.new.book.journal) }
        ensures told { IfOk result (λ receipt. receipt.published ≡ true → receipt.told ≡ self.new.published) }
        ensures unpublished { IfOk result (λ receipt. receipt.published ≢ true
            → self.new.published ≡ self.old.published) }
        ensures untold { IfOk result (λ receipt. receipt.published ≢ true → receipt.told ≡ []) }
        // The card has met the journal as it is now.
        ensures met { journal_met J.office card.new ≡ self.new.book.journal }
        // A refused one changes nothing else.
        ensures unchanged { OnErr result ((self.new ≡ self.old) × (card.new ≡ with_met card.old card.new.met)) }
        ensures refusal { IfErr result (λ refusal.
            IsRefusal self.old.book.now self.old.book.journal edit.now refusal ⊎ (refusal ≡ NoMemory)) }
        ensures refuses { (refusal : Refusal) → IsRefusal self.old.book.now self.old.book.journal edit.now refusal
            → IsErrAnd result (λ e. (e ≡ refusal) ⊎ (e ≡ NoMemory)) }
        // E9, E1 to E5, E7 and E11 are told whatever memory there is.
        ensures exact { (refusal : Refusal) → IsRefusal self.old.book.now self.old.book.journal edit.now refusal
            → NeedsNoMemory refusal → IsErrOf result refusal }
    {
        let entry = self.edit(card, edit)?;
        let heap = card.heap;
        self.use_invariant();
        let notice = self.publish();
        Ok(Receipt {
            entry,
            notice,
            heap,
        })
    }

    /// Hands on all entries that are not handed on yet, in order, and publishes: a notice of the whole
    /// journal, which is that of the published version then. `None` where that is refused: the
    /// journal and the published version stay, and the next call takes what is missing. It waits for
    /// those who read at this moment.
    pub fn publish(&mut self) -> Option<Notice<'a, H, J>>
        ensures same { (self.new.book ≡ self.old.book) × (self.new.entries ≡ self.old.entries) }
        ensures whole { IfSome result (λ told. told ≡ self.old.book.journal) }
        ensures shown { IfSome result (λ told. self.new.published ≡ told) }
        ensures none { IfNone result (self.new ≡ self.old) }
        // It is not refused where all is published already.
        ensures already { self.old.published ≡ self.old.book.journal → IsSome result }
    {
        let number = self.fabric.entries();
        self.publish_to(number)
    }

    /// Publishes the journal's first so many entries, and no entry behind them: a notice of the
    /// published version's journal. What is published stays so: where it has as many entries already,
    /// or more, it is what the notice tells, and nothing is done.
    ///
    /// `None` where the journal has fewer entries, where it is refused, or where the publishing of
    /// more entries was refused before, so that they would be published along with these: the
    /// journal and the published version stay. It waits for those who read at this moment.
    pub fn publish_to(&mut self, number: u64) -> Option<Notice<'a, H, J>>
        ensures same { (self.new.book ≡ self.old.book) × (self.new.entries ≡ self.old.entries) }
        // The published version has the journal's first so many entries, or those that it had, where they are more.
        ensures first { IfSome result (λ told. told ≡ take (max number (length self.old.published))
            self.old.book.journal) }
        ensures shown { IfSome result (λ told. self.new.published ≡ told) }
        ensures none { IfNone result (self.new ≡ self.old) }
        // It is refused where the journal is shorter, and not where so many entries are published already.
        ensures beyond { length self.old.book.journal < number → result ≡ None }
        ensures already { number ≤ length self.old.published → IsSome result }
    {
        let shown = self.publisher.shown().again();
        self.publisher.use_invariant();
        let entries = self.fabric.entries();
        let before = self.opened_with as u64;
        let published = before + shown.front().len();
        let handed = self.publisher.front().len();
        let count = match step_to(number, before, published, handed, entries) {
            Step::Shown => {
                return Some(Notice {
                    number: published,
                    shown,
                });
            }
            Step::Beyond | Step::Ahead => return None,
            Step::HandOn(count) => count,
        };
        let all = hand_on(
            self.fabric.journal(),
            self.opened_with,
            count,
            &mut self.publisher,
        );
        if !all {
            return None;
        }
        let shown = self.publisher.publish()?;
        Some(Notice { number, shown })
    }

    /// Compares cards with the journal: the entries that were accepted with each are all of its clerk
    /// behind those of the fabric that was handed in, and what each has met begins these.
    pub fn compare(&mut self, cards: &mut [Card<'a, H, J>])
        ensures same { (self.new ≡ self.old) × (cards.new ≡ cards.old) }
        ensures agree { All (Agrees self.old.entries) cards.old }
        ensures met { All (HasMet self.old.entries) cards.old }
    {
        recall_all(&mut self.keeper, cards);
    }

    /// A sheet of the fabric.
    ///
    /// # Errors
    ///
    /// [`AllocError`] where an allocation fails.
    pub fn sheet(&self) -> Result<Sheet<'a, H>, AllocError>
        ensures { IfOk result (λ sheet. sheet ≡ self.now.book) }
    {
        self.fabric.sheet()
    }

    /// The fabric, where all cards are handed in.
    pub(crate) fn close<A: Allocator>(self, cards: Vec<Card<'a, H, J>, A>) -> Fabric<'a, H>
        requires { length cards.items ≡ J.office.clerks }
        ensures { IsTotal J.office cards.entry.items result }
    {
        let Desk {
            fabric,
            keeper,
            publisher,
            opened_with: _,
        } = self;
        publisher.end();
        let mut gathering = take_all_in(keeper.gather(), cards);
        gathering.confirm();
        fabric
    }
}

/// What is done to publish the first so many entries of a journal.
#[derive(Clone, Copy, Debug, PartialEq, Eq)]
pub(crate) enum Step {
    /// As many are published already.
    Shown,
    /// The journal has fewer.
    Beyond,
    /// More were handed on before, and would be published along with them.
    Ahead,
    /// So many of those that were accepted at the desk are handed on, and published.
    HandOn(u64),
}

/// What is done to publish the first so many entries of a journal: how many it had when the office was opened, how many
/// are published, how many of those that were accepted at the desk were handed on, and how many there are.
fn step_to(number: u64, before: u64, published: u64, handed: u64, entries: u64) -> Step
    requires { before ≤ published }
    ensures { IsStep number before published handed entries result }
{
    if number <= published {
        return Step::Shown;
    }
    if number > entries {
        return Step::Beyond;
    }
    let count = number - before;
    if handed > count {
        return Step::Ahead;
    }
    Step::HandOn(count)
}

/// Compares cards with what the keeper knows.
fn recall_all<'a, H: Allocator, J: Naming<H>>(
    keeper: &mut Keeper<Entry<&'a H>, &'a H>,
    cards: &mut [Card<'a, H, J>],
)
    requires { keeper.old.name ≡ J.office.cards }
    ensures same { (keeper.new ≡ keeper.old) × (cards.new ≡ cards.old) }
    ensures known { All (IsKnown keeper.old.all) cards.old }
{
    for place in 0..cards.len() {
        recall_one(keeper, &mut cards[place]);
    }
}

/// Compares a card with what the keeper knows.
fn recall_one<'a, H: Allocator, J: Naming<H>>(
    keeper: &mut Keeper<Entry<&'a H>, &'a H>,
    card: &mut Card<'a, H, J>,
)
    requires { keeper.old.name ≡ J.office.cards }
    ensures same { (keeper.new ≡ keeper.old) × (card.new ≡ card.old) }
    ensures known { IsKnown keeper.old.all card.old }
{
    keeper.compare(&mut card.stub);
}

/// Takes all cards in.
fn take_all_in<'a, H: Allocator, J: Naming<H>, A: Allocator>(
    gathering: Gathering<Entry<&'a H>, &'a H>,
    cards: Vec<Card<'a, H, J>, A>,
) -> Gathering<Entry<&'a H>, &'a H>
    requires { gathering.name ≡ J.office.cards }
    ensures { result ≡ record gathering.entry {
      cards = map as_known cards.entry.items ++ gathering.entry.cards;
    } }
{
    let mut gathering = gathering;
    let mut cards = cards;
    for place in 0..cards.len() {
        let _ = place;
        if let Some(card) = cards.pop() {
            gathering.take_in(card.into_stub());
        }
    }
    gathering
}

/// Hands on the first so many entries of a journal behind a place, those of them that are not handed
/// on yet, in order; whether all are then.
fn hand_on<'a, H: Allocator, J: Naming<H>, R: Wait + Drop>(
    journal: &[Entry<&'a H>],
    from: usize,
    count: u64,
    publisher: &mut Copies<'a, H, J, R>,
) -> bool
    requires begins { IsPrefix publisher.old.handed (drop from journal.now) }
    requires from { from + count ≤ length journal.now }
    requires few { length publisher.old.handed ≤ count }
    ensures begins { IsPrefix publisher.new.handed (drop from journal.now) }
    ensures all { MatchBool result (publisher.new.handed ≡ take count (drop from journal.now)) (Unit {0}) }
    ensures shown { publisher.new.shown ≡ publisher.old.shown }
{
    let first = publisher.front().len() as usize;
    for place in first..count as usize {
        let Ok(entry) = journal[from + place].clone() else {
            return false;
        };
        let Ok(()) = publisher.hand_on(entry) else {
            return false;
        };
    }
    true
}
