//! The layer of parcels that tiles its city, from the files of both.

ghost use Rattle.std.specs.Prelude.{◌≡◌, ◌⊎◌, List, IfOk, IfErr, IsErrAnd, MatchResult};
ghost use Rattle.geo_exact.specs.declared.corner.Corner.{Corner};
ghost use Rattle.fabric_core.specs.Rows.{Tiles};
ghost use Rattle.city_layers.specs.declared.fault.ToolFault.{ToolFault as ToolFaultValue};
ghost use Rattle.city_layers.specs.TilingFiles.{told_of_city};
ghost use Rattle.city_layers.specs.TilingFiles.{files_of, IsCityOf, IsFaultOfCity, IsTiledBy, IsFaultOfLayer, AreTiles};
ghost use Rattle.city_layers.specs.TilingFiles.{IsTilesFault};

use crate::all_tiles::{load_told, load_told_by, read_told, read_told_by};
use crate::fault::{Role, ToolFault};
use crate::layers::layer_rings;
use crate::sources::Source;
use fabric_core::{Asked, City, CityFault, Layer};
use geo_exact::Unit;
use std::alloc::Allocator;
use std::thread::Threads;

impl<'a> From<CityFault> for ToolFault<'a> {
    ghost from_gives = { λ fault told. told ≡ told_of_city fault };

    fn from(fault: CityFault) -> ToolFault<'a> {
        match fault {
            CityFault::NoMemory => ToolFault::NoMemory,
            CityFault::Ring(_) | CityFault::Folded(_, _) => ToolFault::CityRing(fault),
        }
    }
}

/// The city of a city's files: their one ring.
pub fn read_city<'h, H: Allocator, A: Allocator>(
    heap: &'h H,
    files: &Source<A>,
    unit: Unit,
) -> Result<City<'h, H>, ToolFault<'static>>
    ensures city { IfOk result (λ city. IsCityOf (files_of files.now) unit city.ring.corners) }
    ensures fault { IfErr result (λ fault. IsFaultOfCity (files_of files.now) unit fault
        ⊎ (fault ≡ ToolFault.NoMemory)) }
    ensures reads { (corners : List Corner) → IsCityOf (files_of files.now) unit corners
        → MatchResult result (λ city. city.ring.corners ≡ corners) (λ fault. fault ≡ ToolFault.NoMemory) }
    ensures refuses { (fault : ToolFaultValue) → IsFaultOfCity (files_of files.now) unit fault
        → IsErrAnd result (λ told. (told ≡ fault) ⊎ (told ≡ ToolFault.NoMemory)) }
{
    let mut rings = layer_rings(
        heap,
        Role::City,
        files.main.as_slice(),
        files.index_bytes(),
        unit,
    )?;
    let count = rings.len();
    if count != 1 {
        return Err(ToolFault::CityCount(count));
    }
    let Some(ring) = rings.pop() else {
        unreachable!()
    };
    match City::new(heap, ring) {
        Ok(city) => Ok(city),
        Err(fault) => Err(ToolFault::from(fault)),
    }
}

/// The layer of these files in the city; the layer has this role in the run.
pub fn read_tiles<'h, H: Allocator, A: Allocator>(
    heap: &'h H,
    city: &City<'h, H>,
    role: Role,
    files: &Source<A>,
    unit: Unit,
) -> Result<Layer<'h, H>, ToolFault<'static>>
    ensures layer { IfOk result (λ layer. IsTiledBy (files_of files.now) unit city.now.ring.corners layer) }
    ensures fault { IfErr result (λ fault. IsFaultOfLayer role (files_of files.now) unit city.now.ring.corners fault
        ⊎ (fault ≡ ToolFault.NoMemory)) }
    // Files whose rings tile the city are loaded, unless memory runs out.
    ensures loads { (tiles : Tiles) → IsTiledBy (files_of files.now) unit city.now.ring.corners tiles
        → IfErr result (λ fault. fault ≡ ToolFault.NoMemory) }
    ensures refuses { (fault : ToolFaultValue)
        → IsFaultOfLayer role (files_of files.now) unit city.now.ring.corners fault
        → IsErrAnd result (λ told. (told ≡ fault) ⊎ (told ≡ ToolFault.NoMemory)) }
{
    match read_told(heap, city, role, files, unit, Asked::First) {
        Ok(layer) => Ok(layer),
        Err(refusal) => Err(refusal.fault),
    }
}

/// As [`read_tiles`], by so many threads at the most.
pub fn read_tiles_by<'h, R: Threads + Sync, H: Allocator + Send + Sync, A: Allocator>(
    rt: &R,
    workers: usize,
    heap: &'h H,
    city: &City<'h, H>,
    role: Role,
    files: &Source<A>,
    unit: Unit,
) -> Result<Layer<'h, H>, ToolFault<'static>>
    ensures layer { IfOk result (λ layer. IsTiledBy (files_of files.now) unit city.now.ring.corners layer) }
    ensures fault { IfErr result (λ fault. IsFaultOfLayer role (files_of files.now) unit city.now.ring.corners fault
        ⊎ (fault ≡ ToolFault.NoMemory)) }
    // Files whose rings tile the city are loaded, unless memory runs out.
    ensures loads { (tiles : Tiles) → IsTiledBy (files_of files.now) unit city.now.ring.corners tiles
        → IfErr result (λ fault. fault ≡ ToolFault.NoMemory) }
    ensures refuses { (fault : ToolFaultValue)
        → IsFaultOfLayer role (files_of files.now) unit city.now.ring.corners fault
        → IsErrAnd result (λ told. (told ≡ fault) ⊎ (told ≡ ToolFault.NoMemory)) }
{
    match read_told_by(rt, workers, heap, city, role, files, unit, Asked::First) {
        Ok(layer) => Ok(layer),
        Err(refusal) => Err(refusal.fault),
    }
}

/// The layer of the parcels' files, which tiles the city of the city's files.
///
/// # Errors
///
/// The first fault of the city's files, the number of their rings, or the ring's fault; then the
/// first fault of the parcels' files, or of their rings as a layer; and [`ToolFault::NoMemory`].
pub fn load_tiles<'h, H: Allocator, A: Allocator>(
    heap: &'h H,
    city: &Source<A>,
    parcels: &Source<A>,
    unit: Unit,
) -> Result<Layer<'h, H>, ToolFault<'static>>
    ensures tiles { IfOk result (AreTiles (files_of city.now) (files_of parcels.now) unit) }
    ensures fault { IfErr result (λ fault. IsTilesFault (files_of city.now) (files_of parcels.now) unit fault
        ⊎ (fault ≡ ToolFault.NoMemory)) }
    // Files that tile their city are loaded, unless memory runs out.
    ensures loads { (tiles : Tiles) → AreTiles (files_of city.now) (files_of parcels.now) unit tiles
        → IfErr result (λ fault. fault ≡ ToolFault.NoMemory) }
    ensures refuses { (fault : ToolFaultValue) → IsTilesFault (files_of city.now) (files_of parcels.now) unit fault
        → IsErrAnd result (λ told. (told ≡ fault) ⊎ (told ≡ ToolFault.NoMemory)) }
{
    match load_told(heap, city, parcels, unit, Asked::First) {
        Ok(layer) => Ok(layer),
        Err(refusal) => Err(refusal.fault),
    }
}

/// As [`load_tiles`], by so many threads at the most.
///
/// What comes out is that of `load_tiles`, whatever the number is and however the threads take turns. What the system
/// refuses a thread is done by the caller.
///
/// # Errors
///
/// Those of [`load_tiles`].
pub fn load_tiles_by<'h, R: Threads + Sync, H: Allocator + Send + Sync, A: Allocator>(
    rt: &R,
    workers: usize,
    heap: &'h H,
    city: &Source<A>,
    parcels: &Source<A>,
    unit: Unit,
) -> Result<Layer<'h, H>, ToolFault<'static>>
    ensures tiles { IfOk result (AreTiles (files_of city.now) (files_of parcels.now) unit) }
    ensures fault { IfErr result (λ fault. IsTilesFault (files_of city.now) (files_of parcels.now) unit fault
        ⊎ (fault ≡ ToolFault.NoMemory)) }
    // Files that tile their city are loaded, unless memory runs out.
    ensures loads { (tiles : Tiles) → AreTiles (files_of city.now) (files_of parcels.now) unit tiles
        → IfErr result (λ fault. fault ≡ ToolFault.NoMemory) }
    ensures refuses { (fault : ToolFaultValue) → IsTilesFault (files_of city.now) (files_of parcels.now) unit fault
        → IsErrAnd result (λ told. (told ≡ fault) ⊎ (told ≡ ToolFault.NoMemory)) }
{
    match load_told_by(rt, workers, heap, city, parcels, unit, Asked::First) {
        Ok(layer) => Ok(layer),
        Err(refusal) => Err(refusal.fault),
    }
}
