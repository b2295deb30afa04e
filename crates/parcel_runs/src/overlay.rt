//! Which parcels and which zones overlap.

ghost use Rattle.std.specs.Prelude.{◌≡◌, ◌⊎◌, ◌<◌, ◌≤◌, length, IfOk, IfErr, IsErrAnd, IsErrOf, OnOk, OnErr};
ghost use Rattle.std.specs.Borrow.{Bor};
ghost use Rattle.geo_exact.specs.Bytes.{raised};
ghost use Rattle.overlay_work.specs.declared.round.TheConstants.{MOST_HANDS};
ghost use Rattle.desk_lock.specs.declared.opening.TheConstants.{MOST_PLACES};
ghost use Rattle.city_layers.specs.declared.fault.ToolFault.{ToolFault as ToolFaultValue};
ghost use Rattle.parcel_runs.specs.RunFiles.{parcel_run_of};
ghost use Rattle.parcel_runs.specs.OverlayReport.{WritesOverlay, BeginsOverlay, IsOverlayFault, IsOverlayWant};
ghost use Rattle.city_layers.specs.TilingFiles.{files_of};
ghost use Rattle.parcel_runs.specs.own.LinesAndReports.{WritesBoth, BeginsBoth};

use crate::edited::edit_layer;
use crate::inputs::{RunInputs, load_inputs};
use crate::overlay_job::overlay_table;
use crate::run_files::RunFiles;
use city_layers::{Source, ToolFault};
use clerk_runs::Edited;
use geo_exact::ByteOut;
use overlay_work::{MOST_HANDS, Table, write_report};
use std::alloc::Allocator;
use std::sync::Wait;
use std::thread::Threads;
use text_pieces::put_all;

/// Writes which parcels and which zones overlap, where both tile one city: `entries N`, how many
/// edits led to these parcels; `pair ID ZONE` for each parcel and zone whose interiors have a
/// common point; `split ID` for each parcel that overlaps two zones or more; and `within ID ZONE`
/// for each other parcel. Before that the edits of clerks' files are made at one office, each
/// file's by a thread of its own, line by line, and a line for each is written, by clerk and line;
/// clerk K is that of file K, from 1. So many workers share the load of the layers and then the parcels. All files are
/// checked whole before the first edit is made.
///
/// # Errors
///
/// [`ToolFault::ClerkCount`] for more clerks' files than [`MOST_PLACES`]; the first fault of the city's files and
/// ring, then of the parcels' files and rings, then of the zones', then the first bad line of the
/// clerks' files; [`ToolFault::NoWindow`], [`ToolFault::NoThread`] and [`ToolFault::NoMemory`]; all
/// before anything is written. [`ToolFault::Output`] where a write failed.
pub fn overlay<
    'h,
    R: Threads + Wait + Sync,
    H: Allocator + Send + Sync,
    A: Allocator + Sync,
    W: ByteOut,
>(
    rt: &R,
    workers: usize,
    heap: &'h H,
    files: &RunFiles<A>,
    zones: &Source<A>,
    out: &mut W,
) -> Result<(), ToolFault<'static>>
    requires some { 0 < workers }
    requires few { workers ≤ MOST_HANDS }
    ensures ok { OnOk result
        (WritesOverlay (Bor H) (parcel_run_of files.now) (files_of zones.now) (W.written out.old) (W.written out.new)) }
    ensures fault { IfErr result (λ fault.
        (IsOverlayFault (parcel_run_of files.now) (files_of zones.now) fault × (out.new ≡ out.old))
        ⊎ (IsOverlayWant (length files.now.clerks.items) workers fault × (out.new ≡ out.old))
        ⊎ (fault ≡ ToolFault.Output)) }
    ensures refuses { (fault : ToolFaultValue) → IsOverlayFault (parcel_run_of files.now) (files_of zones.now) fault
        → IsErrAnd result (λ told. (told ≡ fault) ⊎ (told ≡ ToolFault.NoMemory)) }
    // Too many clerks' files are told before any memory is asked for, and nothing is written.
    ensures many { MOST_PLACES < length files.now.clerks.items
        → IsErrOf result (ToolFault.ClerkCount (length files.now.clerks.items)) × (out.new ≡ out.old) }

    // Only a writer that failed in this call ends the output early.
    ensures output { IsErrOf result ToolFault.Output
        → BeginsOverlay (Bor H) (parcel_run_of files.now) (files_of zones.now) (W.written out.old) (W.written out.new) }
    ensures failed { IsErrOf result ToolFault.Output → W.failure_count out.new ≡ raised (W.failure_count out.old) }
    ensures no_failure { OnOk result (W.failure_count out.new ≡ W.failure_count out.old) }
{
    let RunInputs {
        layer,
        clerks,
        zones,
    } = load_inputs(rt, workers, heap, files, Some(zones))?;
    let Some(zones) = zones else { unreachable!() };
    let Edited { sheet, lines, .. } = edit_layer(rt, heap, layer, clerks, &[])?;
    let table = overlay_table(rt, heap, &sheet, &zones, workers)?;
    write_both(lines.as_slice(), &table, out)
}

/// Writes lines, and then the report of a table.
fn write_both<'t, 'h, H: Allocator, A: Allocator, W: ByteOut>(
    lines: &[u8],
    table: &Table<'t, 'h, H, A>,
    out: &mut W,
) -> Result<(), ToolFault<'static>>
    ensures ok { OnOk result (WritesBoth lines.now table.now (W.written out.old) (W.written out.new)) }
    ensures err { OnErr result (BeginsBoth lines.now table.now (W.written out.old) (W.written out.new)) }
    ensures output { IfErr result (λ fault. fault ≡ ToolFault.Output) }
    ensures failed { OnErr result (W.failure_count out.new ≡ raised (W.failure_count out.old)) }
    ensures no_failure { OnOk result (W.failure_count out.new ≡ W.failure_count out.old) }
{
    table.use_invariant();
    put_all(lines, out)?;
    write_report(table, out)?;
    Ok(())
}
