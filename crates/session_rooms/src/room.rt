//! What all desks of a session share.

ghost use Rattle.std.specs.Prelude.{◌≡◌, ◌⊎◌, ◌↔◌, ◌≤◌, [], length, true, IfOk, IfErr, IfSome, IsSome};
ghost use mathlib.Core.List.{IsPrefix};
ghost use Rattle.fabric_core.specs.EditResults.{IsLawful};
ghost use Rattle.fabric_core.specs.declared.refusal.Refusal.{Refusal as RefusalValue};
ghost use Rattle.fabric_core.specs.Refusals.{NeedsNoMemory};
ghost use Rattle.desk_lock.specs.Offices.{with_made, with_met, journal_met, EndsWith, IsSometime, IsRefusedWhenMet};
ghost use Rattle.desk_lock.specs.Offices.{AreOfClerks, behind, IsDueWhenMet};
ghost use Rattle.session_rooms.specs.DeskAnswers.{IsCardLater};
ghost use Rattle.session_rooms.specs.Rooms.{IsDrawn, IfRefused, UnlessJournalFails, IfJournalFails};
ghost use Rattle.session_rooms.specs.Rooms.{IsRoomFault, IfNoLine, IsUnkept};
ghost use Rattle.session_rooms.specs.Kept.{IsRecorded, IsOnDisk, AreBrought, HasBrought};

use crate::door::Door;
use crate::journal::{Clocked, Journal};
use desk_lock::{Card, Naming, Notice, Office};
use fabric_core::{Entry, Refusal, Sheet};
use journal_records::Stamp;
use journal_writers::{DiskHas, JournalFile, JournalWriter, OnDisk};
use ring_edits::Edit;
use session_lines::SessionFault;
use std::alloc::Allocator;
use std::sync::Wait;

/// What all desks share: the office, the journal, if there is one, and the door.
///
/// Desks reach the office through it alone: so no edit is shown, reported or answered before the disk has its record.
#[derive(Drop)]
pub struct Room<'r, 'h, H: Allocator, J: Naming<H>, R: Wait, F: JournalFile, K: Clocked> {
    /// Where edits are made, and where windows look.
    office: Office<'h, H, J, &'r R>,
    /// Where their records go; `None` where the session keeps no journal.
    journal: Option<Journal<F, &'h H, K>>,
    /// Whether the session closes, and who stands in the door.
    pub door: Door,
    /// Where what the desks say is kept.
    pub heap: &'h H,
    /// By what a desk waits.
    pub rt: &'r R,
}

/// Why an edit is not answered `ok`.
#[derive(Clone, Copy, Debug, PartialEq, Eq)]
pub enum EditFault {
    /// It is refused, and nothing has changed.
    Refused(Refusal),
    /// The journal could not be written: of this edit, or of one before.
    Journal,
    /// Memory was refused for its line, and nothing has changed.
    NoMemory,
}

/// An edit that was made, and that the disk has, where there is a journal.
#[derive(Drop)]
pub struct Made<'h, H: Allocator, J: Naming<H>> {
    /// The entry that the edit is in the office's journal.
    pub entry: Entry<&'h H>,
    /// That the disk has its record, where there is a journal.
    pub on_disk: Option<DiskHas>,
    /// That it is shown, unless memory was refused for that: a later edit shows it, too.
    pub notice: Option<Notice<'h, H, J>>,
}

/// The parcels as they were at a moment, and that the disk has what led there, where there is a journal.
#[derive(Drop)]
pub struct Drawn<'h, H: Allocator> {
    /// The parcels, with the entries that led there.
    pub sheet: Sheet<'h, H>,
    /// That the disk has the records of these entries, where there is a journal.
    pub on_disk: Option<DiskHas>,
}

impl<'r, 'h, H: Allocator, J: Naming<H>, R: Wait, F: JournalFile, K: Clocked> Room<
    'r,
    'h,
    H,
    J,
    R,
    F,
    K,
> {
    /// A room with an open door, and the journal of its office, where there is one.
    pub fn new(
        office: Office<'h, H, J, &'r R>,
        journal: Option<Journal<F, &'h H, K>>,
        heap: &'h H,
        rt: &'r R,
    ) -> Room<'r, 'h, H, J, R, F, K>
        ensures office { result.office ≡ office.entry }
        ensures journal { result.journal ≡ journal.entry }
    {
        Room {
            office,
            journal,
            door: Door::new(),
            heap,
            rt,
        }
    }

    /// What is left once all desks have ended: the office, and which records the disk has of its journal, where there
    /// is one.
    pub fn end(self) -> (Office<'h, H, J, &'r R>, Option<DiskHas>)
        ensures office { result.0 ≡ self.entry.office }
        ensures kept { IsSome result.1 ↔ IsSome self.entry.journal }
    {
        let Room {
            office,
            journal,
            rt,
            ..
        } = self;
        let kept = match &journal {
            Some(journal) => Some(journal.synced(rt).told()),
            None => None,
        };
        (office, kept)
    }

    /// Makes an edit at the office, with the client's own word for who and why, and shows it. Where there is a journal,
    /// the disk has the edit's record before it is shown; records stand in the order of their entries' numbers.
    ///
    /// # Errors
    ///
    /// [`EditFault`].
    pub fn submit(
        &self,
        card: &mut Card<'h, H, J>,
        who: &[u8],
        edit: &Edit<&'h H>,
    ) -> Result<Made<'h, H, J>, EditFault>
        ensures edit { IfOk result (λ made. made.entry.edit ≡ edit.now) }
        ensures clerk { IfOk result (λ made. made.entry.clerk ≡ card.old.clerk) }
        ensures made { IfOk result (λ made. card.new ≡ with_made card.old made.entry card.new.met) }
        // The card has met the journal as it is then, which ends with the entry.
        ensures ends { IfOk result (λ made. EndsWith made.entry made.entry.number (journal_met J.office card.new)) }
        ensures after { IfOk result (λ made. IsSometime J.office card.new (journal_met J.office card.new)) }
        // What the notice tells is valid, and reaches the entry.
        ensures told { IfOk result (λ made. IfSome made.notice (λ told. made.entry.number ≤ length told)) }
        ensures lawful { IfOk result (λ made. IfSome made.notice (IsLawful J.office.origin.opening)) }
        // Where there is a journal, the disk has the entry's record, and those of all entries that the notice tells: a
        // synchronisation of the journal's own file has brought them.
        ensures on_disk { IfOk result (λ made. IsOnDisk self.now.journal made.on_disk made.entry.number) }
        ensures kept { IfOk result (λ made. IfSome self.now.journal (λ journal. IfSome made.notice (λ told.
            AreBrought K.brought (K.of journal.synchroniser) (length told)))) }
        // The card is its clerk's, as before, and has met what it had met.
        ensures card { IsCardLater card.old card.new }
        // A refused edit changes nothing, but that the card has met the journal, after which it is refused for this.
        ensures unchanged { IfErr result (λ fault. UnlessJournalFails fault
            (card.new ≡ with_met card.old card.new.met)) }
        ensures refusal { IfErr result (λ fault. IfRefused fault (λ refusal.
            IsRefusedWhenMet J.office card.new edit.now refusal ⊎ (refusal ≡ Refusal.NoMemory))) }
        // What is due is told, unless memory runs out; E9, E1 to E5, E7 and E11 are told whatever memory there is.
        ensures refuses { IfErr result (λ fault. IfRefused fault (λ refusal.
            (due : RefusalValue) → IsDueWhenMet J.office card.new edit.now due
            → (refusal ≡ due) ⊎ (refusal ≡ Refusal.NoMemory))) }
        ensures exact { IfErr result (λ fault. IfRefused fault (λ refusal.
            (due : RefusalValue) → IsDueWhenMet J.office card.new edit.now due → NeedsNoMemory due
            → refusal ≡ due)) }
        // Where memory is refused for its line, or the journal fails before, the office is not asked; else a journal
        // that fails has no record of an edit that is made.
        ensures unasked { IfErr result (λ fault. IfNoLine fault (card.new ≡ card.old)) }
        ensures unkept { IfErr result (λ fault. IfJournalFails fault
            (IsUnkept J.office card.old card.new edit.now)) }
        // Only a journal that there is can fail.
        ensures journal { IfErr result (λ fault. IfJournalFails fault (IsSome self.now.journal)) }
    {
        let Some(journal) = &self.journal else {
            let entered = self.enter(card, edit);
            let entry = match entered {
                Ok(entry) => entry,
                Err(fault) => return Err(fault),
            };
            let notice = self.office.publish_to(self.rt, entry.number());
            return Ok(Made {
                entry,
                on_disk: None,
                notice,
            });
        };
        let kept = self.keep(journal, card, who, edit);
        let (entry, on_disk) = match kept {
            Ok(made) => made,
            Err(fault) => return Err(fault),
        };
        let notice = self.show_kept(journal, entry.number());
        Ok(Made {
            entry,
            on_disk: Some(on_disk),
            notice,
        })
    }

    /// Makes an edit at the office, and shows it to nobody.
    fn enter(
        &self,
        card: &mut Card<'h, H, J>,
        edit: &Edit<&'h H>,
    ) -> Result<Entry<&'h H>, EditFault>
        ensures edit { IfOk result (λ entry. entry.edit ≡ edit.now) }
        ensures clerk { IfOk result (λ entry. entry.clerk ≡ card.old.clerk) }
        ensures made { IfOk result (λ entry. card.new ≡ with_made card.old entry card.new.met) }
        ensures ends { IfOk result (λ entry. EndsWith entry entry.number (journal_met J.office card.new)) }
        ensures after { IfOk result (λ entry. IsSometime J.office card.new (journal_met J.office card.new)) }
        ensures card { IsCardLater card.old card.new }
        ensures unchanged { IfErr result (λ fault. UnlessJournalFails fault
            (card.new ≡ with_met card.old card.new.met)) }
        ensures refusal { IfErr result (λ fault. IfRefused fault (λ refusal.
            IsRefusedWhenMet J.office card.new edit.now refusal ⊎ (refusal ≡ Refusal.NoMemory))) }
        ensures refuses { IfErr result (λ fault. IfRefused fault (λ refusal.
            (due : RefusalValue) → IsDueWhenMet J.office card.new edit.now due
            → (refusal ≡ due) ⊎ (refusal ≡ Refusal.NoMemory))) }
        ensures exact { IfErr result (λ fault. IfRefused fault (λ refusal.
            (due : RefusalValue) → IsDueWhenMet J.office card.new edit.now due → NeedsNoMemory due
            → refusal ≡ due)) }
        ensures asked { IfErr result (λ fault. IfNoLine fault ⊥) }
        ensures no_journal { IfErr result (λ fault. IfJournalFails fault ⊥) }
    {
        match self.office.enter(self.rt, card, edit) {
            Ok(entry) => Ok(entry),
            Err(refusal) => Err(EditFault::Refused(refusal)),
        }
    }

    /// Makes an edit at the office, and has the disk hold its record. Nobody else makes one between the two, but others
    /// may while this one waits for the disk.
    #[tactic(auto, using(crate::proofs::Cards::same_card, crate::proofs::Rooms::made_unkept))]
    fn keep(
        &self,
        journal: &Journal<F, &'h H, K>,
        card: &mut Card<'h, H, J>,
        who: &[u8],
        edit: &Edit<&'h H>,
    ) -> Result<(Entry<&'h H>, DiskHas), EditFault>
        ensures edit { IfOk result (λ made. made.0.edit ≡ edit.now) }
        ensures clerk { IfOk result (λ made. made.0.clerk ≡ card.old.clerk) }
        ensures made { IfOk result (λ made. card.new ≡ with_made card.old made.0 card.new.met) }
        ensures ends { IfOk result (λ made. EndsWith made.0 made.0.number (journal_met J.office card.new)) }
        ensures after { IfOk result (λ made. IsSometime J.office card.new (journal_met J.office card.new)) }
        ensures card { IsCardLater card.old card.new }
        ensures unchanged { IfErr result (λ fault. UnlessJournalFails fault
            (card.new ≡ with_met card.old card.new.met)) }
        ensures refusal { IfErr result (λ fault. IfRefused fault (λ refusal.
            IsRefusedWhenMet J.office card.new edit.now refusal ⊎ (refusal ≡ Refusal.NoMemory))) }
        ensures refuses { IfErr result (λ fault. IfRefused fault (λ refusal.
            (due : RefusalValue) → IsDueWhenMet J.office card.new edit.now due
            → (refusal ≡ due) ⊎ (refusal ≡ Refusal.NoMemory))) }
        ensures exact { IfErr result (λ fault. IfRefused fault (λ refusal.
            (due : RefusalValue) → IsDueWhenMet J.office card.new edit.now due → NeedsNoMemory due
            → refusal ≡ due)) }
        ensures unasked { IfErr result (λ fault. IfNoLine fault (card.new ≡ card.old)) }
        ensures unkept { IfErr result (λ fault. IfJournalFails fault
            (IsUnkept J.office card.old card.new edit.now)) }
        ensures on_disk { IfOk result (λ made. made.0.number ≤ made.1.records) }
    {
        let Some(mut writer) = journal.take(self.rt) else {
            return Err(EditFault::Journal);
        };
        let time = match journal.time(self.heap) {
            Ok(Some(time)) => time,
            Ok(None) => return Err(EditFault::Journal),
            Err(_) => return Err(EditFault::NoMemory),
        };
        let entry = match self.enter_and_record(&mut writer, card, time.as_bytes(), who, edit) {
            Ok(entry) => entry,
            Err(fault) => return Err(fault),
        };
        journal.wrote(self.rt, writer.written());
        drop(writer);
        match journal.sync_to(self.rt, entry.number()) {
            Some(on_disk) => Ok((entry, on_disk.told())),
            None => Err(EditFault::Journal),
        }
    }

    /// Makes an edit at the office, and adds its record to the journal, which is taken.
    #[tactic(auto, using(crate::proofs::Cards::same_card, crate::proofs::Rooms::made_unkept))]
    fn enter_and_record(
        &self,
        writer: &mut JournalWriter<F, &'h H>,
        card: &mut Card<'h, H, J>,
        time: &[u8],
        who: &[u8],
        edit: &Edit<&'h H>,
    ) -> Result<Entry<&'h H>, EditFault>
        ensures edit { IfOk result (λ entry. entry.edit ≡ edit.now) }
        ensures clerk { IfOk result (λ entry. entry.clerk ≡ card.old.clerk) }
        ensures made { IfOk result (λ entry. card.new ≡ with_made card.old entry card.new.met) }
        ensures ends { IfOk result (λ entry. EndsWith entry entry.number (journal_met J.office card.new)) }
        ensures after { IfOk result (λ entry. IsSometime J.office card.new (journal_met J.office card.new)) }
        ensures card { IsCardLater card.old card.new }
        ensures unchanged { IfErr result (λ fault. UnlessJournalFails fault
            (card.new ≡ with_met card.old card.new.met)) }
        ensures refusal { IfErr result (λ fault. IfRefused fault (λ refusal.
            IsRefusedWhenMet J.office card.new edit.now refusal ⊎ (refusal ≡ Refusal.NoMemory))) }
        ensures refuses { IfErr result (λ fault. IfRefused fault (λ refusal.
            (due : RefusalValue) → IsDueWhenMet J.office card.new edit.now due
            → (refusal ≡ due) ⊎ (refusal ≡ Refusal.NoMemory))) }
        ensures exact { IfErr result (λ fault. IfRefused fault (λ refusal.
            (due : RefusalValue) → IsDueWhenMet J.office card.new edit.now due → NeedsNoMemory due
            → refusal ≡ due)) }
        ensures unasked { IfErr result (λ fault. IfNoLine fault (card.new ≡ card.old)) }
        ensures unkept { IfErr result (λ fault. IfJournalFails fault
            (IsUnkept J.office card.old card.new edit.now)) }
        // The journal has one record more, which is the entry's; a refused edit has none.
        ensures recorded { IfOk result (λ entry. IsRecorded writer.old writer.new entry) }
        ensures no_record { IfErr result (λ fault. UnlessJournalFails fault (writer.new ≡ writer.old)) }
        ensures broken { IfErr result (λ fault. IfJournalFails fault (writer.new.is_broken ≡ true)) }
    {
        let stamp = Stamp {
            // It never wraps: a journal is full long before.
            number: writer.records().wrapping_add(1),
            clerk: card.clerk(),
            time,
            who,
        };
        let Ok(draft) = writer.draft(self.heap, &stamp, edit) else {
            return Err(EditFault::NoMemory);
        };
        let entry = match self.enter(card, edit) {
            Ok(entry) => entry,
            Err(fault) => return Err(fault),
        };
        if entry.number() != draft.number() || writer.add(&draft).is_err() {
            writer.give_up();
            return Err(EditFault::Journal);
        }
        Ok(entry)
    }

    /// Shows the entries up to this number, where the disk has their records, and tells of no entry whose record it has
    /// not.
    #[tactic(auto, using(crate::proofs::Brought::are_brought))]
    fn show_kept(&self, journal: &Journal<F, &'h H, K>, number: u64) -> Option<Notice<'h, H, J>>
        ensures lawful { IfSome result (IsLawful J.office.origin.opening) }
        ensures begins { IfSome result (IsPrefix J.office.origin.journal) }
        ensures of_clerks { IfSome result (λ told. AreOfClerks J.office.clerks (behind J.office.origin told)) }
        ensures reaches { IfSome result (λ told. number ≤ length told) }
        ensures kept { IfSome result (λ told.
            AreBrought K.brought (K.of journal.now.synchroniser) (length told)) }
    {
        let Some(_) = journal.brought(self.rt, number) else {
            return None;
        };
        let Some(notice) = self.office.publish_to(self.rt, number) else {
            return None;
        };
        let Some(on_disk) = journal.brought(self.rt, notice.number()) else {
            return None;
        };
        on_disk.use_invariant();
        Some(notice)
    }

    /// Shows all entries; where there is a journal, once the disk has them.
    ///
    /// # Errors
    ///
    /// [`SessionFault::JournalFailed`], and nothing is shown; [`SessionFault::NoMemory`].
    #[tactic(auto, using(crate::proofs::Brought::has_brought))]
    pub fn publish(&self) -> Result<Notice<'h, H, J>, SessionFault>
        // What the notice tells is valid, and goes on from the register that the office was opened with.
        ensures lawful { IfOk result (IsLawful J.office.origin.opening) }
        ensures begins { IfOk result (IsPrefix J.office.origin.journal) }
        ensures of_clerks { IfOk result (λ told. AreOfClerks J.office.clerks (behind J.office.origin told)) }
        // Where there is a journal, it tells of what a synchronisation of its own file has brought to the disk, all of
        // it, and of nothing that none has brought.
        ensures kept { IfOk result (λ told. IfSome self.now.journal (λ journal.
            AreBrought K.brought (K.of journal.synchroniser) (length told))) }
        ensures reaches { IfOk result (λ told. IfSome self.now.journal (λ journal.
            HasBrought K.brought (K.of journal.synchroniser) (length told))) }
        ensures fault { IfErr result (IsRoomFault self.now.journal) }
    {
        let Some(journal) = &self.journal else {
            return match self.office.publish(self.rt) {
                Some(notice) => Ok(notice),
                None => Err(SessionFault::NoMemory),
            };
        };
        let on_disk = self.sync_kept(journal)?;
        on_disk.use_invariant();
        match self.show_kept(journal, on_disk.records()) {
            Some(notice) => Ok(notice),
            None => Err(SessionFault::NoMemory),
        }
    }

    /// Has the disk hold all records that were written, and says how many they are.
    fn sync_kept(&self, journal: &Journal<F, &'h H, K>) -> Result<OnDisk<K>, SessionFault>
        ensures file { IfOk result (λ on_disk. on_disk.file ≡ K.of journal.now.synchroniser) }
        ensures fault { IfErr result (λ fault. fault ≡ SessionFault.JournalFailed) }
    {
        match journal.sync_all(self.rt) {
            Some(on_disk) => Ok(on_disk),
            None => Err(SessionFault::JournalFailed),
        }
    }

    /// The parcels as they are now, with the entries that led there. Where there is a journal, the disk has all of
    /// them. The office is held no longer than they are copied.
    ///
    /// # Errors
    ///
    /// [`SessionFault::JournalFailed`], [`SessionFault::NoMemory`].
    pub fn sheet(&self) -> Result<Drawn<'h, H>, SessionFault>
        // What it has is what its entries lead to.
        ensures sheet { IfOk result (λ drawn. IsDrawn J.office drawn.sheet) }
        ensures on_disk { IfOk result (λ drawn. IsOnDisk self.now.journal drawn.on_disk (length drawn.sheet.journal)) }
        ensures fault { IfErr result (IsRoomFault self.now.journal) }
    {
        let Some(journal) = &self.journal else {
            return Ok(Drawn {
                sheet: self.copy()?,
                on_disk: None,
            });
        };
        // Who has taken the journal finds no edit that is not written yet.
        let Some(writer) = journal.take(self.rt) else {
            return Err(SessionFault::JournalFailed);
        };
        let sheet = self.copy()?;
        drop(writer);
        match journal.sync_to(self.rt, sheet.entries()) {
            Some(on_disk) => Ok(Drawn {
                sheet,
                on_disk: Some(on_disk.told()),
            }),
            None => Err(SessionFault::JournalFailed),
        }
    }

    /// A copy of the office's parcels.
    fn copy(&self) -> Result<Sheet<'h, H>, SessionFault>
        ensures sheet { IfOk result (IsDrawn J.office) }
        ensures fault { IfErr result (λ fault. fault ≡ SessionFault.NoMemory) }
    {
        let mut none = Vec::new(self.heap);
        let Ok(sheet) = self.office.sheet(self.rt, none.as_mut_slice()) else {
            return Err(SessionFault::NoMemory);
        };
        sheet.use_invariant();
        Ok(sheet)
    }
}
