//! The files that hold a layer anew.

ghost use Rattle.std.specs.Prelude.{◌≡◌, ◌⊎◌, ◌<◌, ◌≤◌, ◌++◌, map, length, codes, decimal};
ghost use Rattle.std.specs.Prelude.{IfOk, IfErr, IsErrAnd, IsErrOf, OnOk};
ghost use Rattle.std.specs.Borrow.{Bor};
ghost use Rattle.std.specs.List.{AllByRecursion};
ghost use Rattle.geo_exact.specs.declared.limits.TheConstants.{LAYER_RECORDS, RING_CORNERS};
ghost use Rattle.shp_files.specs.Written.{corner_lists as lists_of_rings, written_main, written_index};
ghost use Rattle.city_layers.specs.declared.fault.ToolFault.{ToolFault as ToolFaultValue};
ghost use Rattle.parcel_runs.specs.RunFiles.{parcel_run_of};
ghost use Rattle.fabric_core.specs.Tiling.{corner_lists};
ghost use Rattle.parcel_runs.specs.ExportReport.{IsExport, exported_line};
ghost use Rattle.parcel_runs.specs.RunFaults.{IsRunFault, IsWant};
ghost use Rattle.desk_lock.specs.declared.opening.TheConstants.{MOST_PLACES};

use crate::edited::{edit_layer, parcel_count};
use crate::inputs::{RunInputs, load_inputs};
use crate::run_files::RunFiles;
use city_layers::ToolFault;
use clerk_runs::Edited;
use fabric_core::{Shapes, Sheet};
use geo_exact::RawRing;
use ring_core::Ring;
use shp_files::{a_layer_file_is_within_the_limits, write_layer};
use std::alloc::{AllocError, Allocator};
use std::sync::Wait;
use std::thread::Threads;
use text_pieces::push_number;

/// A layer's files as they are written, and what is printed of them.
#[derive(Drop)]
pub struct Exported<A: Allocator> {
    /// The bytes of the main file.
    pub main: Vec<u8, A>,
    /// The bytes of the index file.
    pub index: Vec<u8, A>,
    /// The text that is printed. Of all parcels a line for each edit of a clerk, and `exported N`, their number; of one
    /// district alone `part ID AREA2`.
    pub lines: Vec<u8, A>,
}

/// The two files of the parcels' layer, where the parcels tile their city exactly: its rings, each
/// with all corners of the layer and the city that lie inside its edges, by ascending id and
/// numbered anew from 1. Coordinates are in millimetres, whatever the unit that was read. Before
/// that the edits of clerks' files are made at one office, each file's by a thread of its own, line
/// by line; clerk K is that of file K, from 1. An edit that is refused changes nothing, and its
/// line says why. So many threads share the load of the layer at the most; what is written is the same for any number.
///
/// # Errors
///
/// [`ToolFault::ClerkCount`] for more clerks' files than [`MOST_PLACES`]; the first fault of the city's files and
/// ring, then of the parcels' files and rings, then the first bad line of the clerks' files;
/// [`ToolFault::NoWindow`] and [`ToolFault::NoMemory`].
pub fn export<'h, R: Threads + Wait + Sync, H: Allocator + Send + Sync, A: Allocator + Sync>(
    rt: &R,
    workers: usize,
    heap: &'h H,
    files: &RunFiles<A>,
) -> Result<Exported<&'h H>, ToolFault<'static>>
    ensures ok { IfOk result (λ exported.
        IsExport (Bor H) (parcel_run_of files.now) exported.main.items exported.index.items exported.lines.items) }
    ensures fault { IfErr result (λ fault.
        IsRunFault (parcel_run_of files.now) fault ⊎ IsWant (length files.now.clerks.items) fault) }
    ensures refuses { (fault : ToolFaultValue) → IsRunFault (parcel_run_of files.now) fault
        → IsErrAnd result (λ told. (told ≡ fault) ⊎ (told ≡ ToolFault.NoMemory)) }
    // Too many clerks' files are told before any memory is asked for.
    ensures many { MOST_PLACES < length files.now.clerks.items
        → IsErrOf result (ToolFault.ClerkCount (length files.now.clerks.items)) }
{
    let RunInputs { layer, clerks, .. } = load_inputs(rt, workers, heap, files, None)?;
    a_layer_file_is_within_the_limits();
    let Edited { sheet, lines, .. } = edit_layer(rt, heap, layer, clerks, &[])?;
    Ok(files_behind(heap, &sheet, lines)?)
}

/// The files of a sheet's parcels, and behind these lines the line that says how many they are.
pub(crate) fn files_behind<'h, H: Allocator>(
    heap: &'h H,
    sheet: &Sheet<'h, H>,
    lines: Vec<u8, &'h H>,
) -> Result<Exported<&'h H>, AllocError>
    requires { length sheet.now.now.rows ≤ LAYER_RECORDS }
    ensures main { IfOk result (λ exported. exported.main.items ≡ written_main (corner_lists sheet.now.now.rows)) }
    ensures index { IfOk result (λ exported. exported.index.items ≡ written_index (corner_lists sheet.now.now.rows)) }
    ensures lines { IfOk result (λ exported.
        exported.lines.items ≡ lines.entry.items ++ exported_line sheet.now.now.rows) }
{
    let (main, index) = written(heap, sheet)?;
    let mut lines = lines;
    push_exported(&mut lines, parcel_count(sheet))?;
    Ok(Exported { main, index, lines })
}

/// The main file and the index of a sheet's parcels, each numbered as the record that it is written as.
fn written<'h, H: Allocator>(
    heap: &'h H,
    sheet: &Sheet<'h, H>,
) -> Result<(Vec<u8, &'h H>, Vec<u8, &'h H>), AllocError>
    requires { length sheet.now.now.rows ≤ LAYER_RECORDS }
    ensures main { IfOk result (λ files. files.0.items ≡ written_main (corner_lists sheet.now.now.rows)) }
    ensures index { IfOk result (λ files. files.1.items ≡ written_index (corner_lists sheet.now.now.rows)) }
{
    sheet.use_invariant();
    let rings = rings_to_write(heap, sheet.shapes())?;
    write_layer(heap, &rings)
}

/// The rings of shapes, each numbered as the record that it is written as.
fn rings_to_write<A: Allocator + Copy>(
    alloc: A,
    shapes: Shapes<'_, A>,
) -> Result<Vec<RawRing<A>, A>, AllocError>
    requires count { length shapes ≤ LAYER_RECORDS }
    requires short { AllByRecursion (λ shape. length shape.1.ring.corners ≤ RING_CORNERS) shapes }
    ensures { IfOk result (λ rings. lists_of_rings rings.items ≡ map (λ shape. shape.1.ring.corners) shapes.entry) }
{
    let mut rings = Vec::with_capacity(alloc, shapes.len())?;
    let mut number = 0;
    for (_, shape) in shapes {
        number += 1;
        rings.push(ring_to_write(number, &shape.ring)?)?;
    }
    Ok(rings)
}

/// A ring under a record's number.
pub(crate) fn ring_to_write<A: Allocator + Copy>(
    number: u32,
    ring: &Ring<A>,
) -> Result<RawRing<A>, AllocError>
    requires { length ring.now.corners ≤ RING_CORNERS }
    ensures { IfOk result (λ written. written.corners ≡ ring.now.corners) }
{
    let corners = ring.corners.clone()?;
    Ok(RawRing { number, corners })
}

/// Adds the line of an export, with the number of parcels.
fn push_exported<A: Allocator>(text: &mut Vec<u8, A>, count: usize) -> Result<(), AllocError>
    ensures { OnOk result (text.new.items ≡ text.old.items ++ (codes "exported " ++ decimal count ++ codes "\n")) }
{
    text.extend_from_slice(b"exported ")?;
    push_number(text, count)?;
    text.push(b'\n')?;
    Ok(())
}
