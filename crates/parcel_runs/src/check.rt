//! Whether parcels tile their city.

ghost use Rattle.std.specs.Prelude.{◌≡◌, ◌⊎◌, ◌<◌, ◌≤◌, ◌++◌, ℕ, List, [], length, IfOk, IfErr, IsErrAnd, IsErrOf};
ghost use Rattle.std.specs.Prelude.{IsOk, OnOk, OnErr};
ghost use Rattle.std.specs.Io.KnownBytes.{Appends};
ghost use Rattle.text_pieces.specs.Beginnings.{AppendsBeginning};
ghost use Rattle.std.specs.Borrow.{Bor};
ghost use Rattle.geo_exact.specs.Bytes.{raised};
ghost use Rattle.geo_exact.specs.declared.limits.TheConstants.{LIST_CORNERS};
ghost use Rattle.city_layers.specs.declared.fault.ToolFault.{ToolFault as ToolFaultValue};
ghost use Rattle.parcel_runs.specs.RunFiles.{parcel_run_of};
ghost use Rattle.parcel_runs.specs.CheckReport.{tiling_line, WritesTiling, BeginsTiling, BeginsLines};
ghost use Rattle.city_layers.specs.FaultLines.{WritesLinesBefore};
ghost use Rattle.city_layers.specs.TilingFiles.{files_of};
ghost use Rattle.clerk_runs.specs.ClerkRuns.{Register, AreMade};
ghost use Rattle.parcel_runs.specs.RunFaults.{IsRunFault, IsWant};
ghost use Rattle.desk_lock.specs.declared.opening.TheConstants.{MOST_PLACES};

use crate::all_inputs::load_inputs_or_lines;
use crate::edited::edit_layer;
use crate::inputs::{RunInputs, load_inputs};
use crate::run_files::RunFiles;
use crate::sheets::push_sheet_tiling;
use city_layers::ToolFault;
use clerk_runs::Edited;
use geo_exact::{ByteOut, Failed};
use shp_files::a_layer_file_is_within_the_limits;
use std::alloc::Allocator;
use std::sync::Wait;
use std::thread::Threads;
use text_pieces::put_all;

/// Writes `tiling N AREA2` where the parcels tile their city exactly: how many they are, and twice
/// the city's area in square millimetres. Before that the edits of clerks' files are made at one
/// office, each file's by a thread of its own, line by line, and a line for each is written, by
/// clerk and line; clerk K is that of file K, from 1. All files are checked whole before the first
/// edit is made. So many threads share the load of the layer at the most; what is written is the same for any number.
///
/// # Errors
///
/// [`ToolFault::ClerkCount`] for more clerks' files than [`MOST_PLACES`]; the first fault of the city's files and
/// ring, then of the parcels' files and rings, then the first bad line of the clerks' files;
/// [`ToolFault::NoWindow`] and [`ToolFault::NoMemory`]; all before anything is written.
/// [`ToolFault::Output`] where a write failed.
pub fn check<
    'h,
    R: Threads + Wait + Sync,
    H: Allocator + Send + Sync,
    A: Allocator + Sync,
    W: ByteOut,
>(
    rt: &R,
    workers: usize,
    heap: &'h H,
    files: &RunFiles<A>,
    out: &mut W,
) -> Result<(), ToolFault<'static>>
    ensures ok { OnOk result
        (WritesTiling (Bor H) (parcel_run_of files.now) (W.written out.old) (W.written out.new)) }
    ensures fault { IfErr result (λ fault.
        (IsRunFault (parcel_run_of files.now) fault × (out.new ≡ out.old))
        ⊎ (IsWant (length files.now.clerks.items) fault × (out.new ≡ out.old)) ⊎ (fault ≡ ToolFault.Output)) }
    ensures refuses { (fault : ToolFaultValue) → IsRunFault (parcel_run_of files.now) fault
        → IsErrAnd result (λ told. (told ≡ fault) ⊎ (told ≡ ToolFault.NoMemory)) }
    // Too many clerks' files are told before any memory is asked for, and nothing is written.
    ensures many { MOST_PLACES < length files.now.clerks.items
        → IsErrOf result (ToolFault.ClerkCount (length files.now.clerks.items)) × (out.new ≡ out.old) }

    // Only a writer that failed in this call ends the output early.
    ensures output { IsErrOf result ToolFault.Output
        → BeginsTiling (Bor H) (parcel_run_of files.now) (W.written out.old) (W.written out.new) }
    ensures failed { IsErrOf result ToolFault.Output → W.failure_count out.new ≡ raised (W.failure_count out.old) }
    ensures no_failure { OnOk result (W.failure_count out.new ≡ W.failure_count out.old) }
{
    let inputs = load_inputs(rt, workers, heap, files, None)?;
    a_layer_file_is_within_the_limits();
    let text = checked_text(rt, heap, inputs)?;
    put_all(text.as_slice(), out)?;
    Ok(())
}

/// As [`check`], but where the rings are refused as parcels of their city, the lines of all faults
/// of the first's kind come before the first is answered: `ring R FAULT` for each record whose ring
/// is refused, by ascending number, or else `edge AX AY BX BY net N` for each edge that the parcels
/// do not have as often as their city, by its first corner and then by its second. A record whose
/// ring is too long, or passes the layer's limit, has no line. No edit is made then.
///
/// # Errors
///
/// Those of [`check`]; a fault of the files or of the city, [`ToolFault::NoWindow`] and
/// [`ToolFault::NoMemory`], before anything is written.
pub fn check_all<
    'h,
    R: Threads + Wait + Sync,
    H: Allocator + Send + Sync,
    A: Allocator,
    W: ByteOut,
>(
    rt: &R,
    workers: usize,
    heap: &'h H,
    files: &RunFiles<A>,
    out: &mut W,
) -> Result<(), ToolFault<'static>>
    ensures ok { OnOk result
        (WritesTiling (Bor H) (parcel_run_of files.now) (W.written out.old) (W.written out.new)) }
    // The lines of all faults are written before the first is answered.
    ensures fault { IfErr result (λ fault.
        ((IsRunFault (parcel_run_of files.now) fault ⊎ IsWant (length files.now.clerks.items) fault)
        × WritesLinesBefore (files_of files.now.city) (files_of files.now.parcels) files.now.unit fault
        (W.written out.old) (W.written out.new))
        ⊎ (fault ≡ ToolFault.Output)) }
    ensures refuses { (fault : ToolFaultValue) → IsRunFault (parcel_run_of files.now) fault
        → IsErrAnd result (λ told. (told ≡ fault) ⊎ (told ≡ ToolFault.NoMemory) ⊎ (told ≡ ToolFault.Output)) }
    // Too many clerks' files are told before any memory is asked for, and nothing is written.
    ensures many { MOST_PLACES < length files.now.clerks.items
        → IsErrOf result (ToolFault.ClerkCount (length files.now.clerks.items)) × (out.new ≡ out.old) }

    // Only a writer that failed in this call ends the output early, that of the lines too.
    ensures output { IsErrOf result ToolFault.Output
        → BeginsTiling (Bor H) (parcel_run_of files.now) (W.written out.old) (W.written out.new)
        ⊎ BeginsLines (parcel_run_of files.now) (W.written out.old) (W.written out.new) }
    ensures failed { IsErrOf result ToolFault.Output → W.failure_count out.new ≡ raised (W.failure_count out.old) }
    ensures no_failure { OnOk result (W.failure_count out.new ≡ W.failure_count out.old) }
{
    match load_inputs_or_lines(rt, workers, heap, files) {
        Ok(inputs) => {
            a_layer_file_is_within_the_limits();
            let text = checked_text(rt, heap, inputs)?;
            put_all(text.as_slice(), out)?;
            Ok(())
        }
        Err(refusal) => {
            put_lines(refusal.lines(), out)?;
            Err(refusal.fault)
        }
    }
}

/// Puts lines. Where there are none, the writer is not called, and so cannot fail.
fn put_lines<W: ByteOut>(lines: &[u8], out: &mut W) -> Result<(), Failed>
    ensures ok { OnOk result (Appends (W.written out.old) (W.written out.new) lines.now) }
    ensures err { OnErr result (AppendsBeginning (W.written out.old) (W.written out.new) lines.now) }
    ensures failed { OnErr result (W.failure_count out.new ≡ raised (W.failure_count out.old)) }
    ensures no_failure { OnOk result (W.failure_count out.new ≡ W.failure_count out.old) }
    ensures none { lines.now ≡ [] → IsOk result × (out.new ≡ out.old) }
{
    if lines.is_empty() {
        return Ok(());
    }
    put_all(lines, out)
}

/// The lines of a check that finds a tiling: those of the clerks' edits, which are made, and that of the tiling.
fn checked_text<'h, R: Threads + Wait + Sync, H: Allocator + Send + Sync>(
    rt: &R,
    heap: &'h H,
    inputs: RunInputs<'h, H>,
) -> Result<Vec<u8, &'h H>, ToolFault<'static>>
    requires few { length inputs.clerks.items ≤ MOST_PLACES }
    requires short { length inputs.layer.city ≤ LIST_CORNERS }
    ensures text { IfOk result (λ text. (after : Register (Bor H)) × (told : List ℕ)
        × AreMade inputs.entry.layer inputs.entry.clerks.items after told
        × (text.items ≡ told ++ tiling_line after.now.rows inputs.entry.layer.city)) }
    ensures fault { IfErr result (IsWant (length inputs.entry.clerks.items)) }
{
    let RunInputs { layer, clerks, .. } = inputs;
    let Edited { sheet, lines, .. } = edit_layer(rt, heap, layer, clerks, &[])?;
    let mut text = lines;
    push_sheet_tiling(&mut text, sheet)?;
    Ok(text)
}
