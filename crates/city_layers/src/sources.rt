//! The bytes of a layer's files.

ghost use Rattle.std.specs.Prelude.{◌≡◌, ⊤, ℕ, List, Result, IfOk, IfSome, IsErrOf};
ghost use Rattle.std.specs.Option.{option_copied};
ghost use Rattle.city_layers.specs.Sources.{index_of, bytes_of, IsTextBy, IsSourceBy};

use crate::fault::ToolFault;
use geo_exact::Counted;
use shp_files::{ReadFault, read_all};
use std::alloc::Allocator;
use std::fs::File;
use std::io;
use std::io::{Input, Read};
use std::rt::Files;

/// The bytes of a layer's files: of `parcels.shp`, and of `parcels.shx` beside it.
#[derive(Debug)]
pub struct Source<A: Allocator> {
    /// The main file.
    pub main: Vec<u8, A>,
    /// The index file, where there is one.
    pub index: Option<Vec<u8, A>>,
}

// Not derived: whoever drops it makes one call, and what that does is proved once, here.
impl<A: Allocator> Drop for Source<A> {
    fn drop(self) {
        let Source { main: _, index: _ } = self;
    }
}

impl<A: Allocator> Source<A> {
    /// The bytes of the index file, where there is one.
    pub fn index_bytes(&self) -> Option<&[u8]>
        ensures bytes { option_copied result ≡ index_of self.now }
    {
        match &self.index {
            Some(index) => Some(index.as_slice()),
            None => None,
        }
    }
}

/// Why the file at a path was not read.
#[derive(Clone, Copy, Debug, PartialEq, Eq)]
pub enum PathFault {
    /// It can't be opened.
    NotOpened,
    /// It can't be read, or is too long.
    NotRead,
    /// An allocation failed.
    NoMemory,
}

/// A place with files at paths.
pub trait Folder {
    ghost use Rattle.city_layers.specs.declared.sources.PathFault.{PathFault};

    // What reading the file at a path may answer.
    ghost reads: { Self → List ℕ → Result (List ℕ) PathFault → Type 0 };

    /// All bytes of the file at a path.
    fn read<A: Allocator + Copy>(&self, alloc: A, path: &str) -> Result<Vec<u8, A>, PathFault>
        ensures { reads self.now path.now (bytes_of result) };
}

/// The files of this machine. What they hold no contract can say.
#[derive(Clone, Copy)]
pub struct Disk<'a, R>(pub &'a R);

impl<'a, R: Files> Folder for Disk<'a, R> {
    ghost reads = { λ _ _ _. ⊤ };

    fn read<A: Allocator + Copy>(&self, alloc: A, path: &str) -> Result<Vec<u8, A>, PathFault> {
        match File::open(self.0, path) {
            Ok(file) => read_file(alloc, file),
            Err(error) if error.kind() == io::ErrorKind::OutOfMemory => Err(PathFault::NoMemory),
            Err(_) => Err(PathFault::NotOpened),
        }
    }
}

/// Standard input, which is read whatever the path. What it holds no contract can say.
#[derive(Clone, Copy)]
pub struct StandardInput<'a, R>(pub &'a R);

impl<'a, R: Input> Folder for StandardInput<'a, R> {
    ghost reads = { λ _ _ _. ⊤ };

    fn read<A: Allocator + Copy>(&self, alloc: A, _path: &str) -> Result<Vec<u8, A>, PathFault> {
        read_file(alloc, self.0.reader())
    }
}

/// Reads a text by its path.
///
/// # Errors
///
/// A file that can't be opened or read, or is too long, is the fault with its path.
pub fn read_text<'a, F: Folder, A: Allocator + Copy>(
    folder: &F,
    alloc: A,
    path: &'a str,
) -> Result<Vec<u8, A>, ToolFault<'a>>
    ensures { IsTextBy (F.reads folder.now) path.entry result }
{
    match folder.read(alloc, path) {
        Ok(text) => Ok(text),
        Err(PathFault::NotOpened | PathFault::NotRead) => Err(ToolFault::Unreadable(path)),
        Err(PathFault::NoMemory) => Err(ToolFault::NoMemory),
    }
}

/// Reads a layer's files by the path of the main file. Where that ends in `.shp` and the same path
/// ending in `.shx` can be opened, that is the layer's index; otherwise it has none.
///
/// # Errors
///
/// A file that can't be read or is too long, or a main file that can't be opened, is the fault with its path.
pub fn read_source<'a, F: Folder, A: Allocator + Copy>(
    folder: &F,
    alloc: A,
    path: &'a str,
) -> Result<Source<A>, ToolFault<'a>>
    ensures { IsSourceBy (F.reads folder.now) path.entry result }
{
    let main = match folder.read(alloc, path) {
        Ok(main) => main,
        Err(PathFault::NotOpened | PathFault::NotRead) => return Err(ToolFault::Unreadable(path)),
        Err(PathFault::NoMemory) => return Err(ToolFault::NoMemory),
    };
    let Some(stem) = path.strip_suffix(".shp") else {
        return Ok(Source { main, index: None });
    };
    let beside = format!(in alloc; "{stem}.shx")?;
    match folder.read(alloc, beside.as_str()) {
        Ok(index) => Ok(Source {
            main,
            index: Some(index),
        }),
        Err(PathFault::NotOpened) => Ok(Source { main, index: None }),
        Err(PathFault::NotRead) => Err(ToolFault::UnreadableIndex(stem)),
        Err(PathFault::NoMemory) => Err(ToolFault::NoMemory),
    }
}

/// All bytes of an opened file.
fn read_file<F: Read + Drop, A: Allocator + Copy>(
    alloc: A,
    file: F,
) -> Result<Vec<u8, A>, PathFault>
    // All that the file held, where it tells that.
    ensures whole { IfOk result (λ bytes. IfSome (F.remaining file) (λ held. bytes.items ≡ held)) }
    ensures opened { ¬ IsErrOf result PathFault.NotOpened }
{
    match read_all(alloc, &mut Counted::new(file)) {
        Ok(bytes) => Ok(bytes),
        Err(ReadFault::NoMemory) => Err(PathFault::NoMemory),
        Err(ReadFault::Device | ReadFault::TooLong) => Err(PathFault::NotRead),
    }
}
