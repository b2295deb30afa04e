//! The file of a journal on the disk.

ghost use Rattle.std.specs.Prelude.{◌≡◌};

use crate::size_limit::longest_file;
use city_layers::Disk;
use journal_writers::{FileFailed, FileId, JournalFile, Synchroniser, Written};
use session_rooms::Clocked;
use std::fs::{File, Metadata};
use std::io;
use std::io::{ErrorKind, Write};
use std::os::unix::fs::MetadataExt;
use std::rt::{Clock, Files};

/// What a machine says of its files and of the time: [`Disk`] is the machine's.
pub trait Machine {
    ghost use Rattle.std.specs.Prelude.{⊤, ℕ, List, Option};
    ghost use Rattle.std.specs.Result.{result_ok};

    // What may be told of the file at a path: its device and its node, or none; a machine that says nothing leaves it
    // out.
    ghost tells: { Self → List ℕ → Option (ℕ × ℕ) → Type 0 } = { λ _ _ _. ⊤ };

    /// The device and the node of the file at a path.
    fn node(&self, path: &str) -> io::Result<(u64, u64)>
        ensures { tells self.now path.now (result_ok result) };

    /// The time, in whole seconds since 1970, UTC.
    fn seconds(&self) -> io::Result<i64>;

    /// How many bytes a file may have that this process writes. A write beyond it would end the process.
    fn longest_file(&self) -> u64;
}

impl<'a, R: Files<File = File> + Clock> Machine for Disk<'a, R> {
    fn node(&self, path: &str) -> io::Result<(u64, u64)> {
        let metadata = self.0.metadata(path)?;
        Ok((metadata.dev(), metadata.ino()))
    }

    fn seconds(&self) -> io::Result<i64> {
        // A clock that stands before 1970 is taken as 1970.
        let Ok(since) = self.0.since_1970() else {
            return Ok(0);
        };
        match i64::try_from(since.as_secs()) {
            Ok(seconds) => Ok(seconds),
            Err(_) => Err(io::Error::from(ErrorKind::InvalidData)),
        }
    }

    fn longest_file(&self) -> u64 {
        longest_file(self.0)
    }
}

/// A journal's file on the disk, as it is written.
#[derive(Drop)]
pub(crate) struct DiskFile {
    file: File,
    id: FileId,
    /// As the last write left it.
    left: Traces,
    /// How many bytes it may have.
    most: u64,
}

/// What shows that somebody else has written to a file: its length, and when it was last written.
#[derive(Clone, Copy, PartialEq, Eq)]
struct Traces {
    length: u64,
    seconds: i64,
    nanoseconds: i64,
}

impl DiskFile {
    /// An empty file that is opened to append, and held, and that may have so many bytes.
    pub(crate) fn new(file: File, most: u64) -> io::Result<DiskFile> {
        let metadata = file.metadata()?;
        Ok(DiskFile {
            file,
            id: id_of(&metadata),
            left: traces_of(&metadata),
            most,
        })
    }

    /// The file.
    pub(crate) fn file(&self) -> &File {
        &self.file
    }

    /// Adds bytes at the end of the file, unless somebody else has written to it, or it may not become so long.
    fn add(&mut self, more: &[u8]) -> io::Result<()>
        ensures { self.new.id ≡ self.old.id }
    {
        if traces_of(&self.file.metadata()?) != self.left {
            return Err(io::Error::from(ErrorKind::InvalidData));
        }
        if self.left.length.saturating_add(more.len() as u64) > self.most {
            return Err(io::Error::from(ErrorKind::FileTooLarge));
        }
        self.file.write_all(more)?;
        self.left = traces_of(&self.file.metadata()?);
        Ok(())
    }
}

/// Which file this is.
fn id_of(metadata: &Metadata) -> FileId {
    FileId {
        device: metadata.dev(),
        node: metadata.ino(),
    }
}

/// What a write leaves of itself.
fn traces_of(metadata: &Metadata) -> Traces {
    Traces {
        length: metadata.len(),
        seconds: metadata.mtime(),
        nanoseconds: metadata.mtime_nsec(),
    }
}

impl JournalFile for DiskFile {
    ghost which = { λ it. it.id };

    fn id(&self) -> FileId {
        self.id
    }

    /// A file that somebody else has written to is lost.
    fn append(&mut self, more: &[u8]) -> Result<(), FileFailed> {
        match self.add(more) {
            Ok(()) => Ok(()),
            Err(_) => Err(FileFailed),
        }
    }
}

/// The same file, as it is synchronised.
#[derive(Drop)]
pub struct DiskSynchroniser<'m, P> {
    machine: &'m P,
    path: &'m str,
    file: File,
    id: FileId,
}

impl<'m, P> DiskSynchroniser<'m, P> {
    /// A synchroniser of the file that is at this path of a machine.
    pub(crate) fn new(
        machine: &'m P,
        path: &'m str,
        file: &DiskFile,
    ) -> io::Result<DiskSynchroniser<'m, P>> {
        Ok(DiskSynchroniser {
            machine,
            path,
            file: file.file.try_clone()?,
            id: file.id,
        })
    }
}

impl<'m, P: Machine> Synchroniser for DiskSynchroniser<'m, P> {
    ghost use Rattle.std.specs.Prelude.{⊤};

    ghost of = { λ it. it.id };

    // The kit's files say nothing of the disk.
    ghost brought = { λ _ _. ⊤ };

    fn id(&self) -> FileId {
        self.id
    }

    /// A file that was moved or unlinked is lost, whatever the disk holds of it.
    fn synchronise(&self, _: &Written) -> Result<(), FileFailed> {
        match is_kept(self.machine, self.path, &self.file) {
            Ok(true) => Ok(()),
            _ => Err(FileFailed),
        }
    }
}

impl<'m, P: Machine> Clocked for DiskSynchroniser<'m, P> {
    fn seconds(&self) -> io::Result<i64> {
        self.machine.seconds()
    }
}

/// Synchronises a file; whether its path names it still.
fn is_kept<P: Machine>(machine: &P, path: &str, file: &File) -> io::Result<bool> {
    file.sync_data()?;
    let metadata = file.metadata()?;
    Ok(machine.node(path)? == (metadata.dev(), metadata.ino()))
}
