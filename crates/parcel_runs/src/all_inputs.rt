//! The parcels of a run before its clerks' edits, or all faults of the first's kind.

ghost use Rattle.std.specs.Prelude.{◌≡◌, ◌⊎◌, ◌<◌, ◌≤◌, [], length, IfOk, IfErr, IsErrAnd};
ghost use Rattle.city_layers.specs.declared.fault.ToolFault.{ToolFault as ToolFaultValue};
ghost use Rattle.city_layers.specs.FaultLines.{AreLinesBefore, text_or_none};
ghost use Rattle.city_layers.specs.TilingFiles.{files_of, AreTiles};
ghost use Rattle.clerk_runs.specs.ClerkFiles.{texts_of, AreClerkFiles};
ghost use Rattle.parcel_runs.specs.RunFiles.{parcel_run_of};
ghost use Rattle.parcel_runs.specs.RunFaults.{IsRunFault};
ghost use Rattle.desk_lock.specs.declared.opening.TheConstants.{MOST_PLACES};

use crate::clerks::{read_clerk_files, refuse_many_clerks};
use crate::inputs::RunInputs;
use crate::run_files::RunFiles;
use city_layers::{LayerRefusal, ToolFault, load_tiles_or_lines_by};
use std::alloc::Allocator;
use std::thread::Threads;

/// The layer of the parcels' files, which tiles the city of the city's files, and the edits of
/// clerks' files; or all faults of the parcels of the first's kind.
///
/// # Errors
///
/// Those of [`load_inputs`](crate::inputs::load_inputs) without zones, each with the lines that come before it.
pub fn load_inputs_or_lines<'h, R: Threads + Sync, H: Allocator + Send + Sync, A: Allocator>(
    rt: &R,
    workers: usize,
    heap: &'h H,
    files: &RunFiles<A>,
) -> Result<RunInputs<'h, H>, LayerRefusal<&'h H>>
    ensures tiles { IfOk result (λ inputs.
        AreTiles (files_of files.now.city) (files_of files.now.parcels) files.now.unit inputs.layer) }
    ensures edits { IfOk result (λ inputs. AreClerkFiles (texts_of files.now.clerks.items) inputs.clerks.items) }
    ensures few { IfOk result (λ inputs. length inputs.clerks.items ≤ MOST_PLACES) }
    ensures fault { IfErr result (λ refusal.
        (IsRunFault (parcel_run_of files.now) refusal.fault
        × AreLinesBefore (files_of files.now.city) (files_of files.now.parcels) files.now.unit
        refusal.fault (text_or_none refusal.lines))
        ⊎ ((refusal.fault ≡ ToolFault.NoMemory) × (text_or_none refusal.lines ≡ []))) }
    ensures refuses { (fault : ToolFaultValue) → IsRunFault (parcel_run_of files.now) fault
        → IsErrAnd result (λ refusal. (refusal.fault ≡ fault) ⊎ (refusal.fault ≡ ToolFault.NoMemory)) }
    // Too many clerks' files are told before any memory is asked for, and without lines.
    ensures many { MOST_PLACES < length files.now.clerks.items
        → IsErrAnd result (λ refusal. (refusal.fault ≡ ToolFault.ClerkCount (length files.now.clerks.items))
        × (text_or_none refusal.lines ≡ [])) }
{
    refuse_many_clerks(files.clerks.len())?;
    let layer = load_tiles_or_lines_by(rt, workers, heap, &files.city, &files.parcels, files.unit)?;
    let clerks = read_clerk_files(heap, files)?;
    Ok(RunInputs {
        layer,
        clerks,
        zones: None,
    })
}
