//! The journal of a session, to which all desks write.

ghost use Rattle.std.specs.Prelude.{◌≡◌, ◌≤◌, IfSome};

use jiff::Timestamp;
use journal_writers::{JournalFile, JournalWriter, OnDisk, Synced, Synchroniser, Written, sync};
use std::alloc::{AllocError, Allocator};
use std::io;
use std::sync::{Condvar, Mutex, MutexGuard, Wait};

/// A synchroniser of a machine that has the time.
pub trait Clocked: Synchroniser {
    /// The time, in whole seconds since 1970, UTC.
    fn seconds(&self) -> io::Result<i64>;
}

/// A journal that is written.
///
/// One desk at a time writes to its file, and synchronises it without keeping others from writing meanwhile.
#[derive(Drop)]
pub struct Journal<F: JournalFile, A: Allocator, K: Clocked> {
    synchroniser: K,
    writer: Mutex<JournalWriter<F, A>>,
    /// How many records were written whole.
    written: Mutex<Written>,
    synced: Mutex<Synced<K>>,
    /// Wakes those that wait for a synchronisation.
    ended: Condvar,
}

impl<F: JournalFile, A: Allocator, K: Clocked> Journal<F, A, K> {
    /// A journal of whose records the disk has so many.
    pub fn new(
        writer: JournalWriter<F, A>,
        synchroniser: K,
        on_disk: OnDisk<K>,
    ) -> Journal<F, A, K> {
        let written = writer.written();
        Journal {
            synchroniser,
            writer: Mutex::new(writer),
            written: Mutex::new(written),
            synced: Mutex::new(Synced::new(on_disk)),
            ended: Condvar::new(),
        }
    }

    /// Takes the journal. Until it is let go, nobody else writes to it. `None` where it could not be written once.
    pub(crate) fn take<R: Wait>(&self, rt: &R) -> Option<MutexGuard<'_, JournalWriter<F, A>>> {
        let writer = self.writer.lock(rt);
        if writer.is_broken() {
            None
        } else {
            Some(writer)
        }
    }

    /// The time, as a record says it; `None` where the system has none.
    pub(crate) fn time<B: Allocator + Copy>(
        &self,
        alloc: B,
    ) -> Result<Option<String<B>>, AllocError> {
        time_of(alloc, &self.synchroniser)
    }

    /// Says which records were written whole, by whom has taken the journal.
    pub(crate) fn wrote<R: Wait>(&self, rt: &R, written: Written) {
        *self.written.lock(rt) = written;
    }

    /// Waits until the disk has the record of this number, and all before it; `None` where it has not. One
    /// synchronisation serves all records that were written before it began. All that wait are woken at its end, and
    /// one of those whose record came later begins the next.
    pub fn sync_to<R: Wait>(&self, rt: &R, number: u64) -> Option<OnDisk<K>>
        ensures records { IfSome result (λ on_disk. number ≤ on_disk.records) }
        ensures file { IfSome result (λ on_disk. on_disk.file ≡ K.of self.now.synchroniser) }
    {
        let mut synced = self.ended.wait_while(rt, self.synced.lock(rt), |synced| {
            synced.is_busy() && !synced.has(number)
        });
        if synced.has(number) {
            return self.own(synced.on_disk());
        }
        if synced.is_lost() {
            return None;
        }
        synced.begin();
        drop(synced);
        match self.synchronise(rt) {
            Some(on_disk) if number <= on_disk.records() => Some(on_disk),
            _ => None,
        }
    }

    /// What the disk has of this journal's file; `None` of another one, of which nobody here ever says it.
    fn own(&self, on_disk: OnDisk<K>) -> Option<OnDisk<K>>
        ensures same { IfSome result (λ own. own ≡ on_disk) }
        ensures file { IfSome result (λ own. own.file ≡ K.of self.now.synchroniser) }
    {
        if on_disk.file() == self.synchroniser.id() {
            Some(on_disk)
        } else {
            None
        }
    }

    /// Waits until the disk has all records that were written, and answers how many they are; `None` where it has not.
    pub(crate) fn sync_all<R: Wait>(&self, rt: &R) -> Option<OnDisk<K>>
        ensures { IfSome result (λ on_disk. on_disk.file ≡ K.of self.now.synchroniser) }
    {
        let writer = self.take(rt)?;
        let records = writer.records();
        drop(writer);
        self.sync_to(rt, records)
    }

    /// What the disk has of this journal's file, where that are so many records.
    pub(crate) fn brought<R: Wait>(&self, rt: &R, number: u64) -> Option<OnDisk<K>>
        ensures records { IfSome result (λ on_disk. number ≤ on_disk.records) }
        ensures file { IfSome result (λ on_disk. on_disk.file ≡ K.of self.now.synchroniser) }
    {
        let Some(on_disk) = self.own(self.synced(rt)) else {
            return None;
        };
        if number <= on_disk.records() {
            Some(on_disk)
        } else {
            None
        }
    }

    /// What the disk has for certain.
    pub(crate) fn synced<R: Wait>(&self, rt: &R) -> OnDisk<K> {
        self.synced.lock(rt).on_disk()
    }

    /// Synchronises all records that were written, and wakes those that wait for it; what the disk has then, `None`
    /// where it failed.
    fn synchronise<R: Wait>(&self, rt: &R) -> Option<OnDisk<K>>
        ensures { IfSome result (λ on_disk. on_disk.file ≡ K.of self.now.synchroniser) }
    {
        // Counted before it begins: what is written meanwhile may not be on the disk at its end.
        let written = *self.written.lock(rt);
        let (kept, told) = match sync(&self.synchroniser, &written) {
            Ok(on_disk) => (Some(on_disk.again()), Ok(on_disk)),
            Err(failed) => {
                // Before anybody is woken, so that nobody writes behind a synchronisation that failed.
                self.writer.lock(rt).give_up();
                (None, Err(failed))
            }
        };
        let mut synced = self.synced.lock(rt);
        synced.end(told);
        drop(synced);
        self.ended.notify_all();
        kept
    }
}

/// The time, as a record says it; `None` where the system has none.
///
/// # Errors
///
/// [`AllocError`] where an allocation fails.
pub fn time_of<K: Clocked, B: Allocator + Copy>(
    alloc: B,
    synchroniser: &K,
) -> Result<Option<String<B>>, AllocError> {
    let Ok(seconds) = synchroniser.seconds() else {
        return Ok(None);
    };
    let Ok(time) = Timestamp::from_second(seconds) else {
        return Ok(None);
    };
    Ok(Some(format!(in alloc; "{time}")?))
}
