//! The files of clerks' edits.

ghost use Rattle.std.specs.Prelude.{◌≡◌, ◌⊎◌, ◌↔◌, ◌≤◌, length, IfOk, IfErr, IsErrAnd, IsOk};
ghost use Rattle.clerk_runs.specs.ClerkFiles.{texts_of, AreClerkFiles};
ghost use Rattle.city_layers.specs.declared.fault.ToolFault.{ToolFault as ToolFaultValue};
ghost use Rattle.parcel_runs.specs.RunFaults.{IsClerkFault};
ghost use Rattle.desk_lock.specs.declared.opening.TheConstants.{MOST_PLACES};

use crate::run_files::RunFiles;
use city_layers::ToolFault;
use clerk_runs::{ClerkEdits, FilesFault, read_clerks};
use desk_lock::MOST_PLACES;
use std::alloc::Allocator;

/// Refuses more files of clerks' edits than one office has places for clerks.
///
/// # Errors
///
/// [`ToolFault::ClerkCount`] with their number.
pub fn refuse_many_clerks(count: usize) -> Result<(), ToolFault<'static>>
    ensures few { IsOk result ↔ (count ≤ MOST_PLACES) }
    ensures eight { IsOk result ↔ (count ≤ 8) }
    ensures many { IfErr result (λ fault. fault ≡ ToolFault.ClerkCount count) }
{
    if count > MOST_PLACES {
        return Err(ToolFault::ClerkCount(count));
    }
    Ok(())
}

/// The edits of a run's clerks' files; clerk K is that of file K, from 1. The first bad line of the
/// files is a fault of the run.
///
/// # Errors
///
/// [`ToolFault::ClerkLine`] with the first line that is no edit of the first file that has one, and
/// [`ToolFault::NoMemory`].
pub fn read_clerk_files<'h, H: Allocator, A: Allocator>(
    heap: &'h H,
    files: &RunFiles<A>,
) -> Result<Vec<ClerkEdits<&'h H>, &'h H>, ToolFault<'static>>
    requires { length files.now.clerks.items ≤ MOST_PLACES }
    ensures edits { IfOk result (λ clerks. AreClerkFiles (texts_of files.now.clerks.items) clerks.items) }
    ensures few { IfOk result (λ clerks. length clerks.items ≤ MOST_PLACES) }
    ensures fault { IfErr result (λ fault.
        IsClerkFault (texts_of files.now.clerks.items) fault ⊎ (fault ≡ ToolFault.NoMemory)) }
    ensures refuses { (fault : ToolFaultValue) → IsClerkFault (texts_of files.now.clerks.items) fault
        → IsErrAnd result (λ told. (told ≡ fault) ⊎ (told ≡ ToolFault.NoMemory)) }
{
    match read_clerks(heap, files.clerks.as_slice()) {
        Ok(clerks) => Ok(clerks),
        Err(FilesFault::BadLine(clerk, line)) => Err(ToolFault::ClerkLine(clerk, line)),
        Err(FilesFault::NoMemory) => Err(ToolFault::NoMemory),
    }
}
