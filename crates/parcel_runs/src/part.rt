//! The files that hold one parcel of a layer, or each of them, as the city of a layer of its own.

ghost use Rattle.std.specs.Prelude.{◌≡◌, ◌⊎◌, ◌≤◌, ◌++◌, [], ◌∷◌, Some, length, unsigned_abs, codes, decimal};
ghost use Rattle.std.specs.Prelude.{IfOk, IfErr, IsErrAnd, OnOk};
ghost use Rattle.std.specs.List.{AllByRecursion, AllZip};
ghost use Rattle.geo_exact.specs.Area.{area2 as area2_of};
ghost use Rattle.geo_exact.specs.Layers.{numbered};
ghost use Rattle.geo_exact.specs.declared.coord.Unit.TheVariants.{Mm};
ghost use Rattle.geo_exact.specs.declared.limits.TheConstants.{RING_CORNERS};
ghost use Rattle.shp_files.specs.LayerFile.{IsLayerFile};
ghost use Rattle.shp_files.specs.Written.{written_main, written_index};
ghost use Rattle.city_layers.specs.declared.fault.ToolFault.{ToolFault as ToolFaultValue};
ghost use Rattle.city_layers.specs.TilingFiles.{files_of, IsTilesFault};
ghost use Rattle.parcel_runs.specs.PartReport.{part_line, IsPart, IsPartFault, AreAllParts};
ghost use Rattle.parcel_runs.specs.own.WrittenParts.{IsWrittenPart};

use crate::export::{Exported, ring_to_write};
use city_layers::{Source, ToolFault, load_tiles_by};
use fabric_core::Shapes;
use geo_exact::{Unit, area2};
use ring_core::Ring;
use shp_files::write_layer;
use std::alloc::{AllocError, Allocator};
use std::thread::Threads;
use text_pieces::push_number;

/// The two files of one of the districts that tile their city exactly: a layer of one polygon, the
/// ring of the record of this number with all corners of the layer and the city that lie inside its
/// edges, begun at its least corner. Coordinates are in millimetres, whatever the unit that was
/// read. Read again they are a city, with exactly the ring that tiled. So many threads share the load of the layer at
/// the most; what is written is the same for any number.
///
/// # Errors
///
/// The first fault of the city's files and ring, then of the districts' files and rings, which is
/// reported as the parcels'; then [`ToolFault::NoParcel`] where no polygon has this record number; and
/// [`ToolFault::NoMemory`].
pub fn part<'h, R: Threads + Sync, H: Allocator + Send + Sync, A: Allocator>(
    rt: &R,
    workers: usize,
    heap: &'h H,
    city: &Source<A>,
    districts: &Source<A>,
    unit: Unit,
    id: u64,
) -> Result<Exported<&'h H>, ToolFault<'static>>
    ensures ok { IfOk result (λ part.
        IsPart (files_of city.now) (files_of districts.now) unit id part.main.items part.index.items part.lines.items) }
    ensures fault { IfErr result (λ fault.
        IsPartFault (files_of city.now) (files_of districts.now) unit id fault ⊎ (fault ≡ ToolFault.NoMemory)) }
    ensures refuses { (fault : ToolFaultValue) → IsPartFault (files_of city.now) (files_of districts.now) unit id fault
        → IsErrAnd result (λ told. (told ≡ fault) ⊎ (told ≡ ToolFault.NoMemory)) }
{
    let layer = load_tiles_by(rt, workers, heap, city, districts, unit)?;
    layer.use_invariant();
    match layer.ring(id) {
        Some(ring) => Ok(part_of(heap, id, ring)?),
        None => Err(ToolFault::NoParcel(id)),
    }
}

/// The two files of each of the districts that tile their city exactly, by ascending number of their records: each as
/// [`part`] gives it, beside the number. The layer is loaded once.
///
/// # Errors
///
/// The first fault of the city's files and ring, then of the districts' files and rings, which is
/// reported as the parcels'; and [`ToolFault::NoMemory`].
pub fn parts<'h, R: Threads + Sync, H: Allocator + Send + Sync, A: Allocator>(
    rt: &R,
    workers: usize,
    heap: &'h H,
    city: &Source<A>,
    districts: &Source<A>,
    unit: Unit,
) -> Result<Vec<(u64, Exported<&'h H>), &'h H>, ToolFault<'static>>
    ensures ok { IfOk result (λ parts. AreAllParts (files_of city.now) (files_of districts.now) unit parts.items) }
    ensures fault { IfErr result (λ fault.
        IsTilesFault (files_of city.now) (files_of districts.now) unit fault ⊎ (fault ≡ ToolFault.NoMemory)) }
    ensures refuses { (fault : ToolFaultValue) → IsTilesFault (files_of city.now) (files_of districts.now) unit fault
        → IsErrAnd result (λ told. (told ≡ fault) ⊎ (told ≡ ToolFault.NoMemory)) }
{
    let layer = load_tiles_by(rt, workers, heap, city, districts, unit)?;
    layer.use_invariant();
    let parts = parts_of(heap, layer.shapes())?;
    Ok(parts)
}

/// The files of each shape's ring alone, and its line.
fn parts_of<'h, H: Allocator>(
    heap: &'h H,
    shapes: Shapes<'_, &'h H>,
) -> Result<Vec<(u64, Exported<&'h H>), &'h H>, AllocError>
    requires { AllByRecursion (λ shape. length shape.1.ring.corners ≤ RING_CORNERS) shapes }
    ensures { IfOk result (λ parts.
        AllZip (λ shape part. IsWrittenPart (numbered shape.0 shape.1.ring.corners) part) shapes.entry parts.items) }
{
    let mut parts = Vec::with_capacity(heap, shapes.len())?;
    for district in shapes {
        let (id, shape) = district;
        parts.push((id, part_of(heap, id, &shape.ring)?))?;
    }
    Ok(parts)
}

/// The files of a ring alone, and the line of it under a number.
fn part_of<'h, H: Allocator>(
    heap: &'h H,
    id: u64,
    ring: &Ring<&'h H>,
) -> Result<Exported<&'h H>, AllocError>
    requires { length ring.now.corners ≤ RING_CORNERS }
    ensures main { IfOk result (λ part. part.main.items ≡ written_main (ring.now.corners ∷ [])) }
    ensures index { IfOk result (λ part. part.index.items ≡ written_index (ring.now.corners ∷ [])) }
    ensures read_back { IfOk result (λ part.
        IsLayerFile part.main.items (Some part.index.items) Mm (numbered 1 ring.now.corners ∷ [])) }
    ensures lines { IfOk result (λ part. part.lines.items ≡ part_line (numbered id ring.now.corners)) }
{
    let rings = [ring_to_write(1, ring)?];
    let (main, index) = write_layer(heap, &rings)?;
    let mut lines = Vec::new(heap);
    push_part(
        &mut lines,
        id,
        area2(ring.corners.as_slice()).unsigned_abs(),
    )?;
    Ok(Exported { main, index, lines })
}

/// Adds the line of a part: its number, and twice its area.
fn push_part<A: Allocator>(text: &mut Vec<u8, A>, id: u64, area2: u128) -> Result<(), AllocError>
    ensures { OnOk result (text.new.items ≡ text.old.items
        ++ (codes "part " ++ decimal id ++ codes " " ++ decimal area2 ++ codes "\n")) }
{
    text.extend_from_slice(b"part ")?;
    push_number(text, id)?;
    text.push(b' ')?;
    push_number(text, area2)?;
    text.push(b'\n')?;
    Ok(())
}
