//! Files that are replaced whole.

ghost use Rattle.std.specs.Prelude.{◌≡◌, ◌⊎◌, OnOk, IfErr};
ghost use Rattle.std.specs.Io.KnownBytes.{Appends};

use crate::fault::ToolFault;
use std::alloc::Allocator;
use std::fs::{File, OpenFile};
use std::io;
use std::io::{ErrorKind, Write};
use std::rt::Files;

/// How many names are tried for a file that is written aside: more than a folder holds, so that what killed runs left
/// there is never in the way of another.
const NAMES: u32 = u32::MAX;

/// Replaces the layer BASE.shp and BASE.shx, or makes it, by one of these bytes.
///
/// Both files are written aside in the same folder, flushed and synchronised, and then renamed, the
/// main file first. A file that is written aside takes a name that nothing has, such as
/// `BASE.shp.0.new`, and is removed where it is not renamed. So a fault before the first renaming
/// leaves what stood under BASE as it was. Between the two the main file is the new one, and the
/// index is the old one or there is none: a fault there leaves them so, and a reader then finds
/// that the old index disagrees, unless it fits.
///
/// No contract can say what stands on a disk: tests show it, over a file system that fails at each
/// of its calls in turn.
///
/// # Errors
///
/// [`ToolFault::Output`] where BASE.shp or BASE.shx is a folder, or a file can't be made, written or renamed;
/// [`ToolFault::NoMemory`].
pub fn replace_layer<F: Files, A: Allocator + Copy>(
    files: &F,
    alloc: A,
    base: &str,
    main: &[u8],
    index: &[u8],
) -> Result<(), ToolFault<'static>>
    ensures { IfErr result (λ fault. (fault ≡ ToolFault.Output) ⊎ (fault ≡ ToolFault.NoMemory)) }
{
    let main_path = format!(in alloc; "{base}.shp")?;
    let index_path = format!(in alloc; "{base}.shx")?;
    refuse_folder(files, main_path.as_str())?;
    refuse_folder(files, index_path.as_str())?;
    let new_main = write_aside(files, alloc, main_path.as_str(), main)?;
    let new_index = match write_aside(files, alloc, index_path.as_str(), index) {
        Ok(new_index) => new_index,
        Err(fault) => {
            remove(files, new_main.as_str());
            return Err(fault);
        }
    };
    if files.rename(new_main.as_str(), main_path.as_str()).is_err() {
        remove(files, new_main.as_str());
        remove(files, new_index.as_str());
        return Err(ToolFault::Output);
    }
    if files
        .rename(new_index.as_str(), index_path.as_str())
        .is_err()
    {
        remove(files, new_index.as_str());
        return Err(ToolFault::Output);
    }
    Ok(())
}

/// Refuses the path of a folder, to which no file can be renamed.
fn refuse_folder<F: Files>(files: &F, path: &str) -> Result<(), ToolFault<'static>>
    ensures { IfErr result (λ fault. fault ≡ ToolFault.Output) }
{
    match files.symlink_metadata(path) {
        Ok(metadata) if metadata.is_dir() => Err(ToolFault::Output),
        Ok(_) => Ok(()),
        Err(error) if error.kind() == ErrorKind::NotFound => Ok(()),
        Err(_) => Err(ToolFault::Output),
    }
}

/// Writes the bytes to a new file beside the one at this path, and answers its path.
fn write_aside<F: Files, A: Allocator + Copy>(
    files: &F,
    alloc: A,
    path: &str,
    bytes: &[u8],
) -> Result<String<A>, ToolFault<'static>>
    ensures { IfErr result (λ fault. (fault ≡ ToolFault.Output) ⊎ (fault ≡ ToolFault.NoMemory)) }
{
    for number in 0..NAMES {
        let aside = format!(in alloc; "{path}.{number}.new")?;
        match File::create_new(files, aside.as_str()) {
            Ok(file) => {
                if fill(file, bytes).is_err() {
                    remove(files, aside.as_str());
                    return Err(ToolFault::Output);
                }
                return Ok(aside);
            }
            Err(error) if error.kind() == ErrorKind::AlreadyExists => {}
            Err(_) => return Err(ToolFault::Output),
        }
    }
    Err(ToolFault::Output)
}

/// Writes all bytes to a new file and closes it, once the device has them.
fn fill<W: Write + OpenFile + Drop>(file: W, bytes: &[u8]) -> io::Result<()> {
    let mut file = file;
    put(&mut file, bytes)?;
    file.sync_all()
}

/// Writes all bytes, and hands them on to the system.
fn put<W: Write>(file: &mut W, bytes: &[u8]) -> io::Result<()>
    ensures { OnOk result (Appends (W.contents file.old) (W.contents file.new) bytes.now) }
{
    file.write_all(bytes)?;
    file.flush()
}

/// Removes a file that was written aside. Where that fails too, it is left over.
fn remove<F: Files>(files: &F, path: &str) {
    let _ = files.remove_file(path);
}
