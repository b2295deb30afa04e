//! The named pipes of desks.

use crate::start_fault::StartFault;
use city_layers::Disk;
use std::alloc::{AllocError, Allocator};
use std::fs::{File, OpenOptions};
use std::os::unix::fs::{FileTypeExt, MetadataExt, OpenOptionsExt};
use std::rt::{Clock, Files};
use std::sync::atomic::AtomicBool;
use std::time::Duration;
use std::{io, thread};

/// How the path of the pipe ends at which a desk is asked.
pub(crate) const LINES: &str = ".in";

/// How the path of the pipe ends at which it answers.
pub(crate) const ANSWERS: &str = ".out";

/// How the path of the file ends that a session holds as long as it serves a desk. A pipe has no place for a lock:
/// whoever holds one open is its client's other end.
pub(crate) const LOCK: &str = ".lock";

/// How the path of the session's own name of a pipe ends, behind that of the pipe. By it the pipe is opened and its
/// desk is woken, also where somebody has unlinked the pipe meanwhile.
const OWN_NAME: &str = ".held";

/// What of a pipe's mode lets every user read or write it.
const EVERY_USER: u32 = 0o006;

/// Only its owner takes a lock that a session makes.
const OWNERS: u32 = 0o600;

/// Where the named pipes of desks are opened: [`Disk`] is the machine's. A runtime of its own is passed so, since
/// threads that open files are started at a runtime that is known.
pub trait Pipes {
    /// Opens the pipe at this path to read it: waits until somebody has opened it to write.
    fn open_to_read(&self, path: &str) -> io::Result<File>;

    /// Opens the pipe at this path to write it: waits until somebody has opened it to read.
    fn open_to_write(&self, path: &str) -> io::Result<File>;

    /// Opens the pipe at this path for both, and waits for nobody.
    fn open_for_both(&self, path: &str) -> io::Result<File>;

    /// Waits so many milliseconds.
    fn pause(&self, milliseconds: u64);
}

impl<'a, R: Files<File = File> + Clock> Pipes for Disk<'a, R> {
    fn open_to_read(&self, path: &str) -> io::Result<File> {
        pipe(OpenOptions::new().read(true).open(self.0, path)?)
    }

    fn open_to_write(&self, path: &str) -> io::Result<File> {
        pipe(OpenOptions::new().write(true).open(self.0, path)?)
    }

    fn open_for_both(&self, path: &str) -> io::Result<File> {
        pipe(
            OpenOptions::new()
                .read(true)
                .write(true)
                .open(self.0, path)?,
        )
    }

    fn pause(&self, milliseconds: u64) {
        thread::sleep(self.0, Duration::from_millis(milliseconds));
    }
}

/// An opened file that is a pipe; any other is an error.
fn pipe(file: File) -> io::Result<File> {
    if file.metadata()?.file_type().is_fifo() {
        Ok(file)
    } else {
        Err(io::Error::from(io::ErrorKind::InvalidInput))
    }
}

/// The paths of a desk's pipes, where they can be the session's own names of them: the lines that are asked come in at
/// the one, and the answers go out at the other.
#[derive(Drop)]
pub(crate) struct Paths<A: Allocator> {
    pub(crate) lines: String<A>,
    pub(crate) answers: String<A>,
    /// Held as long as the desk is served.
    pub(crate) lock: File,
    /// Whether the desk waits for a line.
    pub(crate) asks: AtomicBool,
    /// Whether the desk has a client, or waits for one.
    pub(crate) serves: AtomicBool,
}

/// The pipes of desks with these names: NAME.in and NAME.out of each. None is opened; NAME.lock is held.
///
/// # Errors
///
/// [`StartFault::NoPipe`] (S4) with the first path at which is no named pipe, or one of those before, or one that every
/// user can read or write, or a lock that another session holds; [`StartFault::Run`] where an allocation fails.
pub(crate) fn find_pipes<'a, F: Files<File = File>, A: Allocator + Copy>(
    files: &F,
    alloc: A,
    names: &[&'a str],
) -> Result<Vec<Paths<A>, A>, StartFault<'a, A>> {
    let mut seen = Vec::new(alloc);
    let mut all = Vec::new(alloc);
    for name in names {
        let lines = format!(in alloc; "{name}{LINES}")?;
        let answers = format!(in alloc; "{name}{ANSWERS}")?;
        if !see_pipe(files, lines.as_str(), &mut seen)? {
            return Err(StartFault::NoPipe(*name, LINES));
        }
        if !see_pipe(files, answers.as_str(), &mut seen)? {
            return Err(StartFault::NoPipe(*name, ANSWERS));
        }
        let lock = format!(in alloc; "{name}{LOCK}")?;
        let Ok(lock) = hold(files, lock.as_str()) else {
            return Err(StartFault::NoPipe(*name, LOCK));
        };
        all.push(Paths {
            lines: own_name(files, alloc, lines)?,
            answers: own_name(files, alloc, answers)?,
            lock,
            asks: AtomicBool::new(false),
            serves: AtomicBool::new(false),
        })?;
    }
    Ok(all)
}

/// Gives a pipe the session's own name, and answers it; the pipe's path where that can't be made. A name that a session
/// which was killed has left goes; any other file stays.
fn own_name<F: Files, A: Allocator + Copy>(
    files: &F,
    alloc: A,
    path: String<A>,
) -> Result<String<A>, AllocError> {
    let own = format!(in alloc; "{path}{OWN_NAME}")?;
    let_go_of(files, own.as_str());
    match files.hard_link(path.as_str(), own.as_str()) {
        Ok(()) => Ok(own),
        Err(_) => Ok(path),
    }
}

/// Removes the session's own name of a pipe, if that is one.
fn let_go_of<F: Files>(files: &F, own: &str) {
    if let Ok(metadata) = files.symlink_metadata(own) {
        if own.ends_with(OWN_NAME) && metadata.file_type().is_fifo() {
            let _ = files.remove_file(own);
        }
    }
}

/// Removes the session's own names of all pipes.
pub(crate) fn let_go<F: Files, A: Allocator>(files: &F, paths: &[Paths<A>]) {
    for desk in paths {
        let_go_of(files, desk.lines.as_str());
        let_go_of(files, desk.answers.as_str());
    }
}

/// Opens or makes the file at a path, and locks it.
fn hold<F: Files<File = File>>(files: &F, path: &str) -> io::Result<File> {
    let file = OpenOptions::new()
        .read(true)
        .write(true)
        .create(true)
        .mode(OWNERS)
        .open(files, path)?;
    if !file.metadata()?.is_file() {
        return Err(io::Error::from(io::ErrorKind::InvalidInput));
    }
    file.try_lock()?;
    Ok(file)
}

/// Whether at a path is a named pipe that not every user can read or write, and none that was seen; then it is seen.
fn see_pipe<F: Files, A: Allocator>(
    files: &F,
    path: &str,
    seen: &mut Vec<(u64, u64), A>,
) -> Result<bool, AllocError> {
    let Ok(metadata) = files.metadata(path) else {
        return Ok(false);
    };
    let node = (metadata.dev(), metadata.ino());
    let is_open = metadata.mode() & EVERY_USER != 0;
    if !metadata.file_type().is_fifo() || is_open || seen.contains(&node) {
        return Ok(false);
    }
    seen.push(node)?;
    Ok(true)
}
