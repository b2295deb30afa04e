//! The layer of parcels that tiles its city, or the faults of those that do not: the first, or all of its kind.

ghost use Rattle.std.specs.Prelude.{◌≡◌, ◌⊎◌, [], IfOk, IfErr, IsErrAnd, None};
ghost use Rattle.city_layers.specs.declared.fault.ToolFault.{ToolFault as ToolFaultValue};
ghost use Rattle.city_layers.specs.FaultLines.{AreLinesBefore, text_or_none, fault_lines as fault_lines_of};
ghost use Rattle.city_layers.specs.TilingFiles.{Files, files_of, told_of_load, IsCityOf};
ghost use Rattle.city_layers.specs.TilingFiles.{IsTiledBy, IsFaultOfLayer, AreTiles, IsTilesFault};
ghost use Rattle.fabric_core.specs.Rows.{Tiles};

use crate::fault::{Role, ToolFault};
use crate::fault_lines::fault_lines;
use crate::layers::layer_rings;
use crate::sources::Source;
use crate::tiles::read_city;
use fabric_core::{Asked, City, Layer, LoadFault, LoadRefusal};
use geo_exact::Unit;
use shp_files::a_layer_file_is_within_the_limits;
use std::alloc::Allocator;
use std::thread::Threads;

// The layer has this role in the run.
impl<'a> From<(Role, LoadFault)> for ToolFault<'a> {
    ghost from_gives = { λ refused told. told ≡ told_of_load refused.0 refused.1 };

    fn from(refused: (Role, LoadFault)) -> ToolFault<'a> {
        let (role, fault) = refused;
        match fault {
            LoadFault::NoMemory => ToolFault::NoMemory,
            LoadFault::TooMany(_) | LoadFault::Ring(_, _) | LoadFault::Gap(_, _, _) => {
                ToolFault::NoTiling(role, fault)
            }
        }
    }
}

/// A fault that ends a run, and the lines of all faults of its kind that come before it, where there may be some.
#[derive(Debug)]
pub struct LayerRefusal<A: Allocator> {
    /// The fault: the first of its kind.
    pub fault: ToolFault<'static>,
    /// The lines of all faults of that kind; none where the fault is not of a layer's rings.
    pub lines: Option<Vec<u8, A>>,
}

// Not derived: whoever drops it makes one call, and what that does is proved once, here.
impl<A: Allocator> Drop for LayerRefusal<A> {
    fn drop(self) {
        let LayerRefusal { fault: _, lines: _ } = self;
    }
}

impl<A: Allocator> From<ToolFault<'static>> for LayerRefusal<A> {
    ghost from_gives = { λ fault refusal. (refusal.fault ≡ fault) × (refusal.lines ≡ None) };

    fn from(fault: ToolFault<'static>) -> LayerRefusal<A> {
        LayerRefusal { fault, lines: None }
    }
}

impl<A: Allocator> LayerRefusal<A> {
    /// The lines; none where there is no text.
    pub fn lines(&self) -> &[u8]
        ensures { result.now ≡ text_or_none self.now.lines }
    {
        match &self.lines {
            Some(lines) => lines.as_slice(),
            None => &[],
        }
    }
}

/// The layer of these files in the city, or its first fault, with the lines of all faults of its kind
/// where they are asked for; the layer has this role in the run.
pub(crate) fn read_told<'h, H: Allocator, A: Allocator>(
    heap: &'h H,
    city: &City<'h, H>,
    role: Role,
    files: &Source<A>,
    unit: Unit,
    asked: Asked,
) -> Result<Layer<'h, H>, LayerRefusal<&'h H>>
    ensures layer { IfOk result (λ layer. IsTiledBy (files_of files.now) unit city.now.ring.corners layer) }
    ensures fault { IfErr result (λ refusal. (IsFaultOfLayer role (files_of files.now) unit
        city.now.ring.corners refusal.fault
        × (asked ≡ Asked.All → (of_city : Files) → IsCityOf of_city unit city.now.ring.corners
        → AreLinesBefore of_city (files_of files.now) unit refusal.fault (text_or_none refusal.lines)))
        ⊎ ((refusal.fault ≡ ToolFault.NoMemory) × (text_or_none refusal.lines ≡ []))) }
    // Files whose rings tile the city are loaded, unless memory runs out.
    ensures loads { (tiles : Tiles) → IsTiledBy (files_of files.now) unit city.now.ring.corners tiles
        → IfErr result (λ refusal. refusal.fault ≡ ToolFault.NoMemory) }
    ensures refuses { (fault : ToolFaultValue)
        → IsFaultOfLayer role (files_of files.now) unit city.now.ring.corners fault
        → IsErrAnd result (λ refusal. (refusal.fault ≡ fault) ⊎ (refusal.fault ≡ ToolFault.NoMemory)) }
{
    let records = layer_rings(heap, role, files.main.as_slice(), files.index_bytes(), unit)?;
    a_layer_file_is_within_the_limits();
    match Layer::load_or_all(heap, city, records, asked) {
        Ok(layer) => Ok(layer),
        Err(refusal) => Err(refusal_of(heap, role, &refusal)),
    }
}

/// As [`read_told`], by so many threads at the most.
pub(crate) fn read_told_by<'h, R: Threads + Sync, H: Allocator + Send + Sync, A: Allocator>(
    rt: &R,
    workers: usize,
    heap: &'h H,
    city: &City<'h, H>,
    role: Role,
    files: &Source<A>,
    unit: Unit,
    asked: Asked,
) -> Result<Layer<'h, H>, LayerRefusal<&'h H>>
    ensures layer { IfOk result (λ layer. IsTiledBy (files_of files.now) unit city.now.ring.corners layer) }
    ensures fault { IfErr result (λ refusal. (IsFaultOfLayer role (files_of files.now) unit
        city.now.ring.corners refusal.fault
        × (asked ≡ Asked.All → (of_city : Files) → IsCityOf of_city unit city.now.ring.corners
        → AreLinesBefore of_city (files_of files.now) unit refusal.fault (text_or_none refusal.lines)))
        ⊎ ((refusal.fault ≡ ToolFault.NoMemory) × (text_or_none refusal.lines ≡ []))) }
    // Files whose rings tile the city are loaded, unless memory runs out.
    ensures loads { (tiles : Tiles) → IsTiledBy (files_of files.now) unit city.now.ring.corners tiles
        → IfErr result (λ refusal. refusal.fault ≡ ToolFault.NoMemory) }
    ensures refuses { (fault : ToolFaultValue)
        → IsFaultOfLayer role (files_of files.now) unit city.now.ring.corners fault
        → IsErrAnd result (λ refusal. (refusal.fault ≡ fault) ⊎ (refusal.fault ≡ ToolFault.NoMemory)) }
{
    let records = layer_rings(heap, role, files.main.as_slice(), files.index_bytes(), unit)?;
    a_layer_file_is_within_the_limits();
    match Layer::load_or_all_by(rt, workers, heap, city, records, asked) {
        Ok(layer) => Ok(layer),
        Err(refusal) => Err(refusal_of(heap, role, &refusal)),
    }
}

/// What the refusal of a layer's rings is to the user; the layer has this role in the run.
fn refusal_of<A: Allocator, B: Allocator>(
    alloc: A,
    role: Role,
    refusal: &LoadRefusal<B>,
) -> LayerRefusal<A>
    ensures { ((result.fault ≡ told_of_load role refusal.now.first)
        × (text_or_none result.lines ≡ fault_lines_of refusal.now.all))
        ⊎ ((result.fault ≡ ToolFault.NoMemory) × (text_or_none result.lines ≡ [])) }
{
    match fault_lines(alloc, &refusal.all) {
        Ok(lines) => LayerRefusal {
            fault: ToolFault::from((role, refusal.first)),
            lines: Some(lines),
        },
        Err(_) => LayerRefusal::from(ToolFault::NoMemory),
    }
}

/// The layer of the parcels' files, which tiles the city of the city's files, or the first fault of
/// both, with the lines of all faults of its kind where they are asked for.
pub(crate) fn load_told<'h, H: Allocator, A: Allocator>(
    heap: &'h H,
    city: &Source<A>,
    parcels: &Source<A>,
    unit: Unit,
    asked: Asked,
) -> Result<Layer<'h, H>, LayerRefusal<&'h H>>
    ensures tiles { IfOk result (AreTiles (files_of city.now) (files_of parcels.now) unit) }
    ensures fault { IfErr result (λ refusal. (IsTilesFault (files_of city.now) (files_of parcels.now) unit refusal.fault
        × (asked ≡ Asked.All
        → AreLinesBefore (files_of city.now) (files_of parcels.now) unit refusal.fault (text_or_none refusal.lines)))
        ⊎ ((refusal.fault ≡ ToolFault.NoMemory) × (text_or_none refusal.lines ≡ []))) }
    // Files that tile their city are loaded, unless memory runs out.
    ensures loads { (tiles : Tiles) → AreTiles (files_of city.now) (files_of parcels.now) unit tiles
        → IfErr result (λ refusal. refusal.fault ≡ ToolFault.NoMemory) }
    ensures refuses { (fault : ToolFaultValue) → IsTilesFault (files_of city.now) (files_of parcels.now) unit fault
        → IsErrAnd result (λ refusal. (refusal.fault ≡ fault) ⊎ (refusal.fault ≡ ToolFault.NoMemory)) }
{
    let city = read_city(heap, city, unit)?;
    read_told(heap, &city, Role::Parcels, parcels, unit, asked)
}

/// As [`load_told`], by so many threads at the most.
pub(crate) fn load_told_by<'h, R: Threads + Sync, H: Allocator + Send + Sync, A: Allocator>(
    rt: &R,
    workers: usize,
    heap: &'h H,
    city: &Source<A>,
    parcels: &Source<A>,
    unit: Unit,
    asked: Asked,
) -> Result<Layer<'h, H>, LayerRefusal<&'h H>>
    ensures tiles { IfOk result (AreTiles (files_of city.now) (files_of parcels.now) unit) }
    ensures fault { IfErr result (λ refusal. (IsTilesFault (files_of city.now) (files_of parcels.now) unit refusal.fault
        × (asked ≡ Asked.All
        → AreLinesBefore (files_of city.now) (files_of parcels.now) unit refusal.fault (text_or_none refusal.lines)))
        ⊎ ((refusal.fault ≡ ToolFault.NoMemory) × (text_or_none refusal.lines ≡ []))) }
    // Files that tile their city are loaded, unless memory runs out.
    ensures loads { (tiles : Tiles) → AreTiles (files_of city.now) (files_of parcels.now) unit tiles
        → IfErr result (λ refusal. refusal.fault ≡ ToolFault.NoMemory) }
    ensures refuses { (fault : ToolFaultValue) → IsTilesFault (files_of city.now) (files_of parcels.now) unit fault
        → IsErrAnd result (λ refusal. (refusal.fault ≡ fault) ⊎ (refusal.fault ≡ ToolFault.NoMemory)) }
{
    let city = read_city(heap, city, unit)?;
    read_told_by(
        rt,
        workers,
        heap,
        &city,
        Role::Parcels,
        parcels,
        unit,
        asked,
    )
}

/// The layer of the parcels' files, which tiles the city of the city's files, or all faults of the
/// parcels of the first's kind.
///
/// # Errors
///
/// Those of [`load_tiles`](crate::load_tiles), each with the lines that come before it.
pub fn load_tiles_or_lines<'h, H: Allocator, A: Allocator>(
    heap: &'h H,
    city: &Source<A>,
    parcels: &Source<A>,
    unit: Unit,
) -> Result<Layer<'h, H>, LayerRefusal<&'h H>>
    ensures tiles { IfOk result (AreTiles (files_of city.now) (files_of parcels.now) unit) }
    ensures fault { IfErr result (λ refusal. (IsTilesFault (files_of city.now) (files_of parcels.now) unit refusal.fault
        × AreLinesBefore (files_of city.now) (files_of parcels.now) unit refusal.fault (text_or_none refusal.lines))
        ⊎ ((refusal.fault ≡ ToolFault.NoMemory) × (text_or_none refusal.lines ≡ []))) }
    // Files that tile their city are loaded, unless memory runs out.
    ensures loads { (tiles : Tiles) → AreTiles (files_of city.now) (files_of parcels.now) unit tiles
        → IfErr result (λ refusal. refusal.fault ≡ ToolFault.NoMemory) }
    ensures refuses { (fault : ToolFaultValue) → IsTilesFault (files_of city.now) (files_of parcels.now) unit fault
        → IsErrAnd result (λ refusal. (refusal.fault ≡ fault) ⊎ (refusal.fault ≡ ToolFault.NoMemory)) }
{
    load_told(heap, city, parcels, unit, Asked::All)
}

/// As [`load_tiles_or_lines`], by so many threads at the most, as in [`load_tiles_by`](crate::load_tiles_by).
///
/// # Errors
///
/// Those of [`load_tiles_or_lines`].
pub fn load_tiles_or_lines_by<'h, R: Threads + Sync, H: Allocator + Send + Sync, A: Allocator>(
    rt: &R,
    workers: usize,
    heap: &'h H,
    city: &Source<A>,
    parcels: &Source<A>,
    unit: Unit,
) -> Result<Layer<'h, H>, LayerRefusal<&'h H>>
    ensures tiles { IfOk result (AreTiles (files_of city.now) (files_of parcels.now) unit) }
    ensures fault { IfErr result (λ refusal. (IsTilesFault (files_of city.now) (files_of parcels.now) unit refusal.fault
        × AreLinesBefore (files_of city.now) (files_of parcels.now) unit refusal.fault (text_or_none refusal.lines))
        ⊎ ((refusal.fault ≡ ToolFault.NoMemory) × (text_or_none refusal.lines ≡ []))) }
    // Files that tile their city are loaded, unless memory runs out.
    ensures loads { (tiles : Tiles) → AreTiles (files_of city.now) (files_of parcels.now) unit tiles
        → IfErr result (λ refusal. refusal.fault ≡ ToolFault.NoMemory) }
    ensures refuses { (fault : ToolFaultValue) → IsTilesFault (files_of city.now) (files_of parcels.now) unit fault
        → IsErrAnd result (λ refusal. (refusal.fault ≡ fault) ⊎ (refusal.fault ≡ ToolFault.NoMemory)) }
{
    load_told_by(rt, workers, heap, city, parcels, unit, Asked::All)
}
