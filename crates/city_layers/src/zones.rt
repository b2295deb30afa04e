//! The layers of parcels and of zones that tile one city, from the files of all three.

ghost use Rattle.std.specs.Prelude.{◌≡◌, ◌⊎◌, IfOk, IfErr, IsErrAnd};
ghost use Rattle.fabric_core.specs.Rows.{Tiles};
ghost use Rattle.city_layers.specs.declared.fault.ToolFault.{ToolFault as ToolFaultValue};
ghost use Rattle.city_layers.specs.TilingFiles.{files_of};
ghost use Rattle.city_layers.specs.ZonedFiles.{AreZoned, IsLayersFault};

use crate::beside::read_both;
use crate::fault::{Role, ToolFault};
use crate::sources::Source;
use crate::tiles::{read_city, read_tiles};
use fabric_core::Layer;
use geo_exact::Unit;
use std::alloc::Allocator;
use std::thread::Threads;

/// Parcels and zones that tile one city.
#[derive(Drop)]
pub struct Layers<'h, H: Allocator> {
    /// The parcels.
    pub parcels: Layer<'h, H>,
    /// The zones.
    pub zones: Layer<'h, H>,
}

/// The layers of the parcels' files and of the zones' files, which both tile the city of the city's files.
///
/// # Errors
///
/// The first fault of the city's files and ring, then of the parcels' files and rings, then of the zones'; and
/// [`ToolFault::NoMemory`].
pub fn load_layers<'h, H: Allocator, A: Allocator>(
    heap: &'h H,
    city: &Source<A>,
    parcels: &Source<A>,
    zones: &Source<A>,
    unit: Unit,
) -> Result<Layers<'h, H>, ToolFault<'static>>
    ensures layers { IfOk result (λ layers.
        AreZoned (files_of city.now) (files_of parcels.now) (files_of zones.now) unit layers.parcels layers.zones) }
    ensures fault { IfErr result (λ fault.
        IsLayersFault (files_of city.now) (files_of parcels.now) (files_of zones.now) unit fault
        ⊎ (fault ≡ ToolFault.NoMemory)) }
    // Files that tile their city are loaded, unless memory runs out.
    ensures loads { (tiles regions : Tiles)
        → AreZoned (files_of city.now) (files_of parcels.now) (files_of zones.now) unit tiles regions
        → IfErr result (λ fault. fault ≡ ToolFault.NoMemory) }
    ensures refuses { (fault : ToolFaultValue)
        → IsLayersFault (files_of city.now) (files_of parcels.now) (files_of zones.now) unit fault
        → IsErrAnd result (λ told. (told ≡ fault) ⊎ (told ≡ ToolFault.NoMemory)) }
{
    let city = read_city(heap, city, unit)?;
    let parcels = read_tiles(heap, &city, Role::Parcels, parcels, unit)?;
    let zones = read_tiles(heap, &city, Role::Zones, zones, unit)?;
    Ok(Layers { parcels, zones })
}

/// As [`load_layers`], by so many threads at the most, as in [`load_tiles_by`](crate::load_tiles_by). From two on, the
/// zones are read beside the parcels.
///
/// # Errors
///
/// Those of [`load_layers`].
pub fn load_layers_by<'h, R: Threads + Sync, H: Allocator + Send + Sync, A: Allocator + Sync>(
    rt: &R,
    workers: usize,
    heap: &'h H,
    city: &Source<A>,
    parcels: &Source<A>,
    zones: &Source<A>,
    unit: Unit,
) -> Result<Layers<'h, H>, ToolFault<'static>>
    ensures layers { IfOk result (λ layers.
        AreZoned (files_of city.now) (files_of parcels.now) (files_of zones.now) unit layers.parcels layers.zones) }
    ensures fault { IfErr result (λ fault.
        IsLayersFault (files_of city.now) (files_of parcels.now) (files_of zones.now) unit fault
        ⊎ (fault ≡ ToolFault.NoMemory)) }
    // Files that tile their city are loaded, unless memory runs out.
    ensures loads { (tiles regions : Tiles)
        → AreZoned (files_of city.now) (files_of parcels.now) (files_of zones.now) unit tiles regions
        → IfErr result (λ fault. fault ≡ ToolFault.NoMemory) }
    ensures refuses { (fault : ToolFaultValue)
        → IsLayersFault (files_of city.now) (files_of parcels.now) (files_of zones.now) unit fault
        → IsErrAnd result (λ told. (told ≡ fault) ⊎ (told ≡ ToolFault.NoMemory)) }
{
    if workers < 2 {
        return load_layers(heap, city, parcels, zones, unit);
    }
    let city = read_city(heap, city, unit)?;
    let (parcels, zones) = read_both(rt, workers, heap, &city, parcels, zones, unit);
    let parcels = parcels?;
    let zones = zones?;
    Ok(Layers { parcels, zones })
}
