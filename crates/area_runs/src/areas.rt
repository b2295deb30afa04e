//! Which parcels and which zones overlap, and how much of each parcel lies in each zone.

ghost use Rattle.std.specs.Prelude.{◌≡◌, ◌⊎◌, ◌<◌, ◌≤◌, length, IfErr, IsErrAnd, IsErrOf, OnOk, OnErr};
ghost use Rattle.std.specs.Borrow.{Bor};
ghost use Rattle.geo_exact.specs.Bytes.{raised};
ghost use Rattle.overlay_work.specs.declared.round.TheConstants.{MOST_HANDS};
ghost use Rattle.desk_lock.specs.declared.opening.TheConstants.{MOST_PLACES};
ghost use Rattle.city_layers.specs.declared.fault.ToolFault.{ToolFault as ToolFaultValue};
ghost use Rattle.city_layers.specs.TilingFiles.{files_of};
ghost use Rattle.parcel_runs.specs.RunFiles.{parcel_run_of};
ghost use Rattle.parcel_runs.specs.OverlayReport.{IsOverlayFault, IsOverlayWant};
ghost use Rattle.area_runs.specs.AreaReport.{WritesAreas, BeginsAreas};
ghost use Rattle.area_runs.specs.own.LinesReportsAreas.{WritesAll, BeginsAll};

use area_shares::{AreaLine, area_lines_by, write_areas};
use city_layers::{Source, ToolFault};
use clerk_runs::Edited;
use geo_exact::ByteOut;
use overlay_work::{MOST_HANDS, Table, write_report};
use parcel_runs::{RunFiles, RunInputs, edit_layer, load_inputs, overlay_table};
use std::alloc::Allocator;
use std::sync::Wait;
use std::thread::Threads;
use text_pieces::put_all;

/// Writes what [`overlay`](parcel_runs::overlay::overlay) writes of the same files, and behind it a line
/// `area ID ZONE AREA2` for each of its pairs, in their order: twice the area that the parcel and the zone have in
/// common, in whole square millimetres. For each parcel they sum to its area, exactly. The parcels are those that the
/// clerks' edits lead to.
///
/// # Errors
///
/// Those of `overlay`, at the same files: all before anything is written, but [`ToolFault::Output`] where a write
/// failed.
pub fn overlay_areas<
    'h,
    R: Threads + Wait + Sync,
    H: Allocator + Send + Sync,
    A: Allocator + Sync,
    W: ByteOut,
>(
    rt: &R,
    workers: usize,
    heap: &'h H,
    files: &RunFiles<A>,
    zones: &Source<A>,
    out: &mut W,
) -> Result<(), ToolFault<'static>>
    requires some { 0 < workers }
    requires few { workers ≤ MOST_HANDS }
    ensures ok { OnOk result
        (WritesAreas (Bor H) (parcel_run_of files.now) (files_of zones.now) (W.written out.old) (W.written out.new)) }
    ensures fault { IfErr result (λ fault.
        (IsOverlayFault (parcel_run_of files.now) (files_of zones.now) fault × (out.new ≡ out.old))
        ⊎ (IsOverlayWant (length files.now.clerks.items) workers fault × (out.new ≡ out.old))
        ⊎ (fault ≡ ToolFault.Output)) }
    ensures refuses { (fault : ToolFaultValue) → IsOverlayFault (parcel_run_of files.now) (files_of zones.now) fault
        → IsErrAnd result (λ told. (told ≡ fault) ⊎ (told ≡ ToolFault.NoMemory)) }
    // Too many clerks' files are told before any memory is asked for, and nothing is written.
    ensures many { MOST_PLACES < length files.now.clerks.items
        → IsErrOf result (ToolFault.ClerkCount (length files.now.clerks.items)) × (out.new ≡ out.old) }

    // Only a writer that failed in this call ends the output early.
    ensures output { IsErrOf result ToolFault.Output
        → BeginsAreas (Bor H) (parcel_run_of files.now) (files_of zones.now) (W.written out.old) (W.written out.new) }
    ensures failed { IsErrOf result ToolFault.Output → W.failure_count out.new ≡ raised (W.failure_count out.old) }
    ensures no_failure { OnOk result (W.failure_count out.new ≡ W.failure_count out.old) }
{
    let RunInputs {
        layer,
        clerks,
        zones,
    } = load_inputs(rt, workers, heap, files, Some(zones))?;
    let Some(zones) = zones else { unreachable!() };
    let Edited { sheet, lines, .. } = edit_layer(rt, heap, layer, clerks, &[])?;
    let table = overlay_table(rt, heap, &sheet, &zones, workers)?;
    let areas = area_lines_by(rt, workers, heap, &sheet, &zones, table.pairs())?;
    write_all(lines.as_slice(), &table, areas.as_slice(), out)
}

/// Writes lines, then the report of a table, and then the lines of areas.
fn write_all<'t, 'h, H: Allocator, A: Allocator, W: ByteOut>(
    lines: &[u8],
    table: &Table<'t, 'h, H, A>,
    areas: &[AreaLine],
    out: &mut W,
) -> Result<(), ToolFault<'static>>
    ensures ok { OnOk result (WritesAll lines.now table.now areas.now (W.written out.old) (W.written out.new)) }
    ensures err { OnErr result (BeginsAll lines.now table.now areas.now (W.written out.old) (W.written out.new)) }
    ensures output { IfErr result (λ fault. fault ≡ ToolFault.Output) }
    ensures failed { OnErr result (W.failure_count out.new ≡ raised (W.failure_count out.old)) }
    ensures no_failure { OnOk result (W.failure_count out.new ≡ W.failure_count out.old) }
{
    table.use_invariant();
    put_all(lines, out)?;
    write_report(table, out)?;
    write_areas(areas, out)?;
    Ok(())
}
