//! Where points lie among parcels.

ghost use Rattle.std.specs.Prelude.{◌≡◌, ◌⊎◌, ◌<◌, ◌≤◌, ◌++◌, ℕ, List, length, codes};
ghost use Rattle.std.specs.Prelude.{IfOk, IfErr, IsErrAnd, IsErrOf, OnOk};
ghost use Rattle.std.specs.Borrow.{Bor};
ghost use Rattle.geo_exact.specs.Bytes.{raised};
ghost use Rattle.city_layers.specs.declared.fault.ToolFault.{ToolFault as ToolFaultValue};
ghost use Rattle.text_pieces.specs.CornerText.{corner_text};
ghost use Rattle.parcel_runs.specs.RunFiles.{parcel_run_of};
ghost use Rattle.parcel_runs.specs.LocateReport.{ArePlaceLines, WritesPlaces, BeginsPlaces, IsLocateFault};
ghost use Rattle.parcel_runs.specs.LocateReport.{WritesPlacesOfText, BeginsPlacesOfText};
ghost use Rattle.line_files.specs.PointLines.{ArePoints, IsFirstBadPoint};
ghost use Rattle.clerk_runs.specs.ClerkRuns.{Register, AreMade};
ghost use Rattle.clerk_runs.specs.PlaceTexts.{place_text};
ghost use Rattle.parcel_runs.specs.RunFaults.{IsRunFault, IsWant};
ghost use Rattle.parcel_runs.specs.own.PlaceTexts.{places_text};
ghost use Rattle.desk_lock.specs.declared.opening.TheConstants.{MOST_PLACES};

use crate::edited::edit_layer;
use crate::inputs::{RunInputs, load_inputs};
use crate::run_files::RunFiles;
use city_layers::ToolFault;
use clerk_runs::{Edited, push_place};
use fabric_core::At;
use geo_exact::{ByteOut, Corner};
use line_files::{PointsFault, read_points};
use std::alloc::{AllocError, Allocator};
use std::sync::Wait;
use std::thread::Threads;
use text_pieces::{push_corner, put_all};

/// Writes for each point in order, where the parcels tile their city, `X Y inside ID`, `X Y edge ID
/// ID ..` with all parcels on whose edges it lies, or `X Y outside`. Before that the edits of
/// clerks' files are made at one office, each file's by a thread of its own, line by line, and a
/// line for each is written, by clerk and line; clerk K is that of file K, from 1. All files are
/// checked whole before the first edit is made.
///
/// # Errors
///
/// [`ToolFault::ClerkCount`] for more clerks' files than [`MOST_PLACES`]; the first fault of the city's files and
/// ring, then of the parcels' files and rings, then the first bad line of the clerks' files;
/// [`ToolFault::NoWindow`] and [`ToolFault::NoMemory`]; all before anything is written.
/// [`ToolFault::Output`] where a write failed.
pub fn locate<
    'h,
    R: Threads + Wait + Sync,
    H: Allocator + Send + Sync,
    A: Allocator + Sync,
    W: ByteOut,
>(
    rt: &R,
    workers: usize,
    heap: &'h H,
    files: &RunFiles<A>,
    points: &[Corner],
    out: &mut W,
) -> Result<(), ToolFault<'static>>
    ensures ok { OnOk result
        (WritesPlaces (Bor H) (parcel_run_of files.now) points.now (W.written out.old) (W.written out.new)) }
    ensures fault { IfErr result (λ fault.
        (IsRunFault (parcel_run_of files.now) fault × (out.new ≡ out.old))
        ⊎ (IsWant (length files.now.clerks.items) fault × (out.new ≡ out.old)) ⊎ (fault ≡ ToolFault.Output)) }
    ensures refuses { (fault : ToolFaultValue) → IsRunFault (parcel_run_of files.now) fault
        → IsErrAnd result (λ told. (told ≡ fault) ⊎ (told ≡ ToolFault.NoMemory)) }
    // Too many clerks' files are told before any memory is asked for, and nothing is written.
    ensures many { MOST_PLACES < length files.now.clerks.items
        → IsErrOf result (ToolFault.ClerkCount (length files.now.clerks.items)) × (out.new ≡ out.old) }

    // Only a writer that failed in this call ends the output early.
    ensures output { IsErrOf result ToolFault.Output
        → BeginsPlaces (Bor H) (parcel_run_of files.now) points.now (W.written out.old) (W.written out.new) }
    ensures failed { IsErrOf result ToolFault.Output → W.failure_count out.new ≡ raised (W.failure_count out.old) }
    ensures no_failure { OnOk result (W.failure_count out.new ≡ W.failure_count out.old) }
{
    let inputs = load_inputs(rt, workers, heap, files, None)?;
    let lines = located_text(rt, heap, inputs, points)?;
    put_all(lines.as_slice(), out)?;
    Ok(())
}

/// As [`locate`], of the points of a text: each line is a point `X Y`, in whole millimetres, unless
/// it is empty or begins with `#`.
///
/// # Errors
///
/// Those of [`locate`]; behind those of the layers' and clerks' files [`ToolFault::PointLine`] with
/// the first line that is no point, before anything is written.
pub fn locate_text<
    'h,
    R: Threads + Wait + Sync,
    H: Allocator + Send + Sync,
    A: Allocator + Sync,
    W: ByteOut,
>(
    rt: &R,
    workers: usize,
    heap: &'h H,
    files: &RunFiles<A>,
    text: &[u8],
    out: &mut W,
) -> Result<(), ToolFault<'static>>
    ensures ok { OnOk result
        (WritesPlacesOfText (Bor H) (parcel_run_of files.now) text.now (W.written out.old) (W.written out.new)) }
    ensures fault { IfErr result (λ fault.
        (IsLocateFault (parcel_run_of files.now) text.now fault × (out.new ≡ out.old))
        ⊎ (IsWant (length files.now.clerks.items) fault × (out.new ≡ out.old)) ⊎ (fault ≡ ToolFault.Output)) }
    ensures refuses { (fault : ToolFaultValue) → IsLocateFault (parcel_run_of files.now) text.now fault
        → IsErrAnd result (λ told. (told ≡ fault) ⊎ (told ≡ ToolFault.NoMemory)) }
    // Too many clerks' files are told before any memory is asked for, and nothing is written.
    ensures many { MOST_PLACES < length files.now.clerks.items
        → IsErrOf result (ToolFault.ClerkCount (length files.now.clerks.items)) × (out.new ≡ out.old) }

    // Only a writer that failed in this call ends the output early.
    ensures output { IsErrOf result ToolFault.Output
        → BeginsPlacesOfText (Bor H) (parcel_run_of files.now) text.now (W.written out.old) (W.written out.new) }
    ensures failed { IsErrOf result ToolFault.Output → W.failure_count out.new ≡ raised (W.failure_count out.old) }
    ensures no_failure { OnOk result (W.failure_count out.new ≡ W.failure_count out.old) }
{
    let inputs = load_inputs(rt, workers, heap, files, None)?;
    let points = points_of_text(heap, text)?;
    let lines = located_text(rt, heap, inputs, &points)?;
    put_all(lines.as_slice(), out)?;
    Ok(())
}

/// The points of a text; its first bad line is a fault of the run.
fn points_of_text<A: Allocator>(alloc: A, text: &[u8]) -> Result<Vec<Corner, A>, ToolFault<'static>>
    ensures points { IfOk result (λ points. ArePoints text.now points.items) }
    ensures fault { IfErr result (λ fault.
        ((number : ℕ) × (fault ≡ ToolFault.PointLine number) × IsFirstBadPoint text.now number)
        ⊎ (fault ≡ ToolFault.NoMemory)) }
    ensures refuses { (number : ℕ) → IsFirstBadPoint text.now number
        → IsErrAnd result (λ fault. (fault ≡ ToolFault.PointLine number) ⊎ (fault ≡ ToolFault.NoMemory)) }
{
    match read_points(alloc, text) {
        Ok(points) => Ok(points),
        Err(PointsFault::BadLine(number)) => Err(ToolFault::PointLine(number)),
        Err(PointsFault::NoMemory) => Err(ToolFault::NoMemory),
    }
}

/// The lines of the clerks' edits, which are made, and those of points among the parcels that these lead to.
fn located_text<'h, R: Threads + Wait + Sync, H: Allocator + Send + Sync>(
    rt: &R,
    heap: &'h H,
    inputs: RunInputs<'h, H>,
    points: &[Corner],
) -> Result<Vec<u8, &'h H>, ToolFault<'static>>
    requires { length inputs.clerks.items ≤ MOST_PLACES }
    ensures text { IfOk result (λ text. (after : Register (Bor H)) × (told : List ℕ) × (lines : List ℕ)
        × AreMade inputs.entry.layer inputs.entry.clerks.items after told
        × ArePlaceLines after.now.rows points.now lines × (text.items ≡ told ++ lines)) }
    ensures fault { IfErr result (IsWant (length inputs.entry.clerks.items)) }
{
    let RunInputs { layer, clerks, .. } = inputs;
    let Edited { lines, places, .. } = edit_layer(rt, heap, layer, clerks, points)?;
    let mut text = lines;
    push_point_lines(&mut text, points, &places)?;
    Ok(text)
}

/// Adds the lines of points, of which it is known where each lies.
fn push_point_lines<A: Allocator, B: Allocator>(
    text: &mut Vec<u8, A>,
    points: &[Corner],
    places: &[At<B>],
) -> Result<(), AllocError>
    requires { length places.now ≡ length points.now }
    ensures { OnOk result (text.new.items ≡ text.old.items ++ places_text points.now places.now) }
{
    for (k, point) in points.iter().enumerate() {
        push_point_line(text, *point, &places[k])?;
    }
    Ok(())
}

/// Adds the line of a point: its coordinates, and where it lies.
fn push_point_line<A: Allocator, B: Allocator>(
    lines: &mut Vec<u8, A>,
    point: Corner,
    at: &At<B>,
) -> Result<(), AllocError>
    ensures { OnOk result
        (lines.new.items ≡ lines.old.items ++ corner_text point ++ codes " " ++ place_text at.now ++ codes "\n") }
{
    push_corner(lines, point)?;
    lines.push(b' ')?;
    push_place(lines, at)?;
    lines.push(b'\n')?;
    Ok(())
}
