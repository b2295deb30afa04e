//! What the disk has of a journal.

ghost use Rattle.std.specs.Prelude.{◌≡◌, ◌↔◌, ◌≤◌, false, true, IfOk, IsTrue};
ghost use Rattle.journal_writers.specs.Ends.{Reached, IsEnded};

use crate::file::FileFailed;
use crate::file_id::FileId;
use std::marker::{Model, PhantomData};

/// Has the disk hold all that was written to a file, without keeping who writes to it.
pub trait Synchroniser: Drop {
    ghost use Rattle.std.specs.Prelude.{◌≡◌, ℕ, OnOk};
    ghost use Rattle.journal_writers.specs.declared.file_id.FileId.{FileId};

    // Which file it is of.
    ghost of: { Self → FileId };

    // A synchronisation brought so many records of this file to the disk.
    ghost brought: { FileId → ℕ → Type 0 };

    /// Which file it is of.
    fn id(&self) -> FileId
        ensures { result ≡ of self.now };

    /// Has the disk hold all that was written, under the file's path: these records, and what came after them.
    fn synchronise(&self, written: &Written) -> Result<(), FileFailed>
        ensures { OnOk result (brought written.now.file written.now.records) };
}

/// That so many records of a file were written. Only its [`JournalWriter`](crate::JournalWriter) says it.
#[derive(Clone, Copy, Debug, PartialEq, Eq)]
pub struct Written {
    pub(crate) file: FileId,
    pub(crate) records: u64,
}

impl Written {
    /// How many records they are.
    pub fn records(&self) -> u64
        ensures { result ≡ self.now.records }
    {
        self.records
    }
}

/// That the disk has so many records of a journal: such a synchroniser has brought them. Only [`sync`] says it.
///
/// Contracts see the file, and how many records they are.
#[derive(Drop)]
pub struct OnDisk<K: Synchroniser> {
    file: FileId,
    records: u64,
    by: PhantomData<K>,
}

impl<K: Synchroniser> Model for OnDisk<K> {
    ghost use Rattle.journal_writers.specs.Ends.{Reached};

    ghost Value = { Reached };

    ghost view = { λ it. record { file = it.file; records = it.records } };

    ghost invariant = { λ it. K.brought it.file it.records };
}

impl<K: Synchroniser> OnDisk<K> {
    /// Which file it is.
    pub fn file(&self) -> FileId
        ensures { result ≡ self.now.file }
    {
        self.file
    }

    /// How many records they are.
    pub fn records(&self) -> u64
        ensures { result ≡ self.now.records }
    {
        self.records
    }

    /// The same, whoever synchronised.
    pub fn told(&self) -> DiskHas
        ensures file { result.file ≡ self.now.file }
        ensures records { result.records ≡ self.now.records }
    {
        DiskHas {
            file: self.file,
            records: self.records,
        }
    }

    /// Says it once more.
    pub fn again(&self) -> OnDisk<K>
        ensures { result ≡ self.now }
    {
        OnDisk {
            file: self.file,
            records: self.records,
            by: PhantomData,
        }
    }

    /// Only teaches the prover: a synchronisation of that file brought these records to the disk.
    pub fn use_invariant(&self)
        ensures { K.brought self.now.file self.now.records }
    {
        let _ = &self.records;
    }
}

/// That the disk has so many records of a journal, by whichever synchroniser. Only an [`OnDisk`] says it.
#[derive(Clone, Copy, Debug, PartialEq, Eq)]
pub struct DiskHas {
    file: FileId,
    records: u64,
}

impl DiskHas {
    /// How many records they are.
    pub fn records(&self) -> u64
        ensures { result ≡ self.now.records }
    {
        self.records
    }
}

/// Synchronises a journal of which so many records were written before.
///
/// # Errors
///
/// [`FileFailed`], also where the synchroniser is of another file.
pub fn sync<K: Synchroniser>(synchroniser: &K, written: &Written) -> Result<OnDisk<K>, FileFailed>
    ensures file { IfOk result (λ on_disk. on_disk.file ≡ K.of synchroniser.now) }
    ensures records { IfOk result (λ on_disk. on_disk.records ≡ written.now.records) }
{
    let file = synchroniser.id();
    if file != written.file {
        return Err(FileFailed);
    }
    synchroniser.synchronise(written)?;
    Ok(OnDisk {
        file,
        records: written.records,
        by: PhantomData,
    })
}

/// How far a journal is synchronised.
///
/// Contracts see what the disk has for certain, whether somebody synchronises, and whether a synchronisation failed.
#[derive(Drop)]
pub struct Synced<K: Synchroniser> {
    /// What the disk has for certain.
    on_disk: OnDisk<K>,
    /// Whether somebody synchronises.
    is_busy: bool,
    /// Whether a synchronisation failed: no later one says that the disk has what this one was to bring.
    is_lost: bool,
}

impl<K: Synchroniser> Model for Synced<K> {
    ghost use Rattle.journal_writers.specs.Ends.{SyncedState};

    ghost Value = { SyncedState };

    ghost view = { λ it. record { on_disk = it.on_disk; is_busy = it.is_busy; is_lost = it.is_lost } };
}

impl<K: Synchroniser> Synced<K> {
    /// So far, and nobody synchronises.
    pub fn new(on_disk: OnDisk<K>) -> Synced<K>
        ensures { result ≡ record { on_disk = on_disk; is_busy = false; is_lost = false } }
    {
        Synced {
            on_disk,
            is_busy: false,
            is_lost: false,
        }
    }

    /// What the disk has.
    pub fn on_disk(&self) -> OnDisk<K>
        ensures { result ≡ self.now.on_disk }
    {
        self.on_disk.again()
    }

    /// Whether the disk has the record of this number.
    pub fn has(&self, number: u64) -> bool
        ensures { IsTrue result ↔ number ≤ self.now.on_disk.records }
    {
        number <= self.on_disk.records
    }

    /// Whether somebody synchronises.
    pub fn is_busy(&self) -> bool
        ensures { result ≡ self.now.is_busy }
    {
        self.is_busy
    }

    /// Whether a synchronisation failed.
    pub fn is_lost(&self) -> bool
        ensures { result ≡ self.now.is_lost }
    {
        self.is_lost
    }

    /// Somebody begins to synchronise.
    pub fn begin(&mut self)
        ensures { self.new ≡ record self.old { is_busy = true } }
    {
        self.is_busy = true;
    }

    /// A synchronisation has ended: what it brought is on the disk; one that failed brings nothing, and is remembered.
    pub fn end(&mut self, brought: Result<OnDisk<K>, FileFailed>)
        ensures { IsEnded self.old self.new brought }
    {
        self.is_busy = false;
        match brought {
            Ok(on_disk) => {
                if !self.has(on_disk.records) {
                    self.on_disk = on_disk;
                }
            }
            Err(FileFailed) => self.is_lost = true,
        }
    }
}
