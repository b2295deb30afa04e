//! The journal that is found at a session's start, and the file that takes its place.

use crate::start_fault::StartFault;
use city_layers::ToolFault;
use std::alloc::Allocator;
use std::fs::{File, Metadata, OpenOptions, TryLockError};
use std::io;
use std::io::{ErrorKind, Read, Write};
use std::os::unix::fs::{MetadataExt, OpenOptionsExt, fchown};
use std::rt::Files;

/// Only its owner reads and writes a journal that a session makes.
const OWNERS: u32 = 0o600;

/// How the path of the file ends that takes the journal's place, behind that of the journal.
const NEXT: &str = ".gandovel-next";

/// How a journal begins; a file that a start which was killed has left begins so, too, or with a part of it.
const BEGINNING: &[u8] = b"# gandovel journal 1 mm ";

/// How many files there are at most of what was set aside of one journal.
const MOST_ASIDE: u32 = 1_000_000;

/// A journal's file that was read, and not written yet.
#[derive(Drop)]
pub(crate) struct FoundJournal<'a, A: Allocator> {
    /// As the user names it.
    pub(crate) path: &'a str,
    /// Where its file is: behind the link, where the user names one.
    pub(crate) real: String<A>,
    /// Held until another file has taken its place.
    pub(crate) file: File,
    pub(crate) text: Vec<u8, A>,
}

/// Opens the journal at a path, or makes it, holds it, and reads it whole.
pub(crate) fn find_journal<'p, F: Files<File = File>, A: Allocator + Copy>(
    files: &F,
    alloc: A,
    path: &'p str,
) -> Result<FoundJournal<'p, A>, StartFault<'p, A>> {
    let Ok(file) = open_or_make(files, path) else {
        return Err(StartFault::JournalUnreadable(path));
    };
    match file.try_lock() {
        Ok(()) => {}
        Err(TryLockError::WouldBlock) => return Err(StartFault::JournalInUse(path)),
        Err(TryLockError::Error(_)) => return Err(StartFault::JournalUnreadable(path)),
    }
    // Another session may have put another file in its place before this one held it.
    if !is_at(files, path, &file) {
        return Err(StartFault::JournalInUse(path));
    }
    let mut text = Vec::new(alloc);
    match (&file).read_to_end(&mut text) {
        Ok(_) => {}
        Err(error) if error.kind() == ErrorKind::OutOfMemory => {
            return Err(StartFault::Run(ToolFault::NoMemory));
        }
        Err(_) => return Err(StartFault::JournalUnreadable(path)),
    }
    let real = match behind_link(files, alloc, path) {
        Ok(real) => real,
        Err(error) if error.kind() == ErrorKind::OutOfMemory => {
            return Err(StartFault::Run(ToolFault::NoMemory));
        }
        Err(_) => return Err(StartFault::JournalUnreadable(path)),
    };
    Ok(FoundJournal {
        path,
        real,
        file,
        text,
    })
}

/// Opens a file to read and to append, or makes it. One that is no regular file is an error.
fn open_or_make<F: Files<File = File>>(files: &F, path: &str) -> io::Result<File> {
    let file = OpenOptions::new()
        .read(true)
        .append(true)
        .create(true)
        .mode(OWNERS)
        .open(files, path)?;
    if file.metadata()?.is_file() {
        Ok(file)
    } else {
        Err(io::Error::from(ErrorKind::InvalidInput))
    }
}

/// Whether this file is at the path.
fn is_at<F: Files>(files: &F, path: &str, file: &File) -> bool {
    let (Ok(there), Ok(own)) = (files.metadata(path), file.metadata()) else {
        return false;
    };
    (there.dev(), there.ino()) == (own.dev(), own.ino())
}

/// The path of the file that a path names: another one where it is a link.
fn behind_link<F: Files, A: Allocator + Copy>(
    files: &F,
    alloc: A,
    path: &str,
) -> io::Result<String<A>> {
    if files.symlink_metadata(path)?.is_symlink() {
        let real = files.canonicalize(alloc, path)?;
        Ok(format!(in alloc; "{}", real.display())?)
    } else {
        Ok(format!(in alloc; "{path}")?)
    }
}

/// A new, empty file for a journal beside the old one, held, of the same owner and mode. It takes the old one's place
/// by [`take_place`]. What a start that was killed has left there goes.
pub(crate) fn make_next<F: Files<File = File>, A: Allocator + Copy>(
    files: &F,
    alloc: A,
    found: &FoundJournal<'_, A>,
) -> io::Result<File> {
    let real = found.real.as_str();
    let path = format!(in alloc; "{real}{NEXT}")?;
    if is_left_over(files, path.as_str())? {
        files.remove_file(path.as_str())?;
    }
    let next = OpenOptions::new()
        .read(true)
        .append(true)
        .create_new(true)
        .mode(OWNERS)
        .open(files, path.as_str())?;
    next.try_lock()?;
    keep_owner(&next, &found.file.metadata()?)?;
    Ok(next)
}

/// Gives a file the owner and the mode of another one. Only the mode has to be kept: another owner may not be given.
fn keep_owner(next: &File, old: &Metadata) -> io::Result<()> {
    let own = next.metadata()?;
    if (own.uid(), own.gid()) != (old.uid(), old.gid()) {
        let _ = fchown(next, Some(old.uid()), Some(old.gid()));
    }
    next.set_permissions(old.permissions())
}

/// Whether at the path is what a start that was killed has left: a beginning of a journal. Any other file is an error,
/// and stays; where there is none, nothing is left.
fn is_left_over<F: Files<File = File>>(files: &F, path: &str) -> io::Result<bool> {
    let metadata = match files.symlink_metadata(path) {
        Ok(metadata) => metadata,
        Err(error) if error.kind() == ErrorKind::NotFound => return Ok(false),
        Err(error) => return Err(error),
    };
    if !metadata.is_file() {
        return Err(io::Error::from(ErrorKind::AlreadyExists));
    }
    let file = File::open(files, path)?;
    let mut first = [0; 24];
    let length = (&file).read(&mut first)?;
    match first.get(..length) {
        Some(read) if BEGINNING.starts_with(read) => Ok(true),
        _ => Err(io::Error::from(ErrorKind::AlreadyExists)),
    }
}

/// Has the disk hold a file that [`make_next`] made, and puts it in the old one's place.
pub(crate) fn take_place<F: Files<File = File>, A: Allocator + Copy>(
    files: &F,
    alloc: A,
    found: &FoundJournal<'_, A>,
    next: &File,
) -> io::Result<()> {
    let real = found.real.as_str();
    let path = format!(in alloc; "{real}{NEXT}")?;
    next.sync_all()?;
    if !is_at(files, real, &found.file) {
        return Err(io::Error::from(ErrorKind::NotFound));
    }
    files.rename(path.as_str(), real)?;
    // The name may go with the folder's entry: so the folder is on the disk, too.
    sync_folder(files, real)
}

/// Removes the file that [`make_next`] made, where it does not take the old one's place.
pub(crate) fn remove_next<F: Files<File = File>, A: Allocator + Copy>(
    files: &F,
    alloc: A,
    found: &FoundJournal<'_, A>,
) {
    let real = found.real.as_str();
    if let Ok(path) = format!(in alloc; "{real}{NEXT}") {
        if let Ok(true) = is_left_over(files, path.as_str()) {
            let _ = files.remove_file(path.as_str());
        }
    }
}

/// Writes bytes that a journal had behind its last whole record to a new file beside it, FILE.cut.N under the first N
/// that is free, and has the disk hold it. Answers the file's path.
pub(crate) fn set_aside<F: Files<File = File>, A: Allocator + Copy>(
    files: &F,
    alloc: A,
    found: &FoundJournal<'_, A>,
    bytes: &[u8],
) -> io::Result<String<A>> {
    let real = found.real.as_str();
    for number in 1..MOST_ASIDE {
        let path = format!(in alloc; "{real}.cut.{number}")?;
        match make_new(files, path.as_str()) {
            Ok(mut file) => {
                file.write_all(bytes)?;
                file.sync_all()?;
                sync_folder(files, real)?;
                return Ok(path);
            }
            Err(error) if error.kind() == ErrorKind::AlreadyExists => {}
            Err(error) => return Err(error),
        }
    }
    Err(io::Error::from(ErrorKind::AlreadyExists))
}

/// Makes a file that is not there.
fn make_new<F: Files<File = File>>(files: &F, path: &str) -> io::Result<File> {
    OpenOptions::new()
        .write(true)
        .create_new(true)
        .mode(OWNERS)
        .open(files, path)
}

/// Has the disk hold what a file's folder says.
fn sync_folder<F: Files<File = File>>(files: &F, path: &str) -> io::Result<()> {
    File::open(files, folder_of(path))?.sync_all()
}

/// The path of the folder in which a path is.
fn folder_of(path: &str) -> &str {
    match path.rfind('/') {
        Some(0) => "/",
        Some(place) => &path[..place],
        None => ".",
    }
}
