//! The parcels of a run before its clerks' edits, and its zones where it has any, from the files of all.

ghost use Rattle.std.specs.Prelude.{◌≡◌, ◌⊎◌, ◌<◌, ◌≤◌, length, IfOk, IfErr, IsErrAnd, IsErrOf, Option};
ghost use Rattle.std.specs.Option.{option_copied};
ghost use Rattle.fabric_core.specs.Rows.{Tiles};
ghost use Rattle.city_layers.specs.declared.fault.ToolFault.{ToolFault as ToolFaultValue};
ghost use Rattle.city_layers.specs.TilingFiles.{files_of, AreTiles};
ghost use Rattle.clerk_runs.specs.ClerkFiles.{texts_of, AreClerkFiles};
ghost use Rattle.parcel_runs.specs.RunFiles.{parcel_run_of};
ghost use Rattle.parcel_runs.specs.RunInputs.{files_of_zones, AreRegions, IsInputFault};
ghost use Rattle.parcel_runs.specs.own.LayerFaults.{IsLayersFaultOf};
ghost use Rattle.desk_lock.specs.declared.opening.TheConstants.{MOST_PLACES};

use crate::clerks::{read_clerk_files, refuse_many_clerks};
use crate::run_files::RunFiles;
use city_layers::{Layers, Source, ToolFault, load_layers_by, load_tiles_by};
use clerk_runs::ClerkEdits;
use fabric_core::Layer;
use std::alloc::Allocator;
use std::thread::Threads;

/// What a run loads before its edits.
#[derive(Drop)]
pub struct RunInputs<'h, H: Allocator> {
    /// The parcels that were read.
    pub layer: Layer<'h, H>,
    /// The edits of each clerk, which are still to be made.
    pub clerks: Vec<ClerkEdits<&'h H>, &'h H>,
    /// The zones of the parcels' city, where the run has zones' files.
    pub zones: Option<Layer<'h, H>>,
}

/// The layer of the parcels' files, which tiles the city of the city's files, that of the zones' files, where there are
/// any, and the edits of clerks' files. So many threads load the layers at the most.
///
/// # Errors
///
/// [`ToolFault::ClerkCount`] for more clerks' files than [`MOST_PLACES`]; the first fault of the city's files,
/// the number of their rings, or the ring's fault; then the first fault of the parcels' files, or
/// of their rings as a layer, and then of the zones'; then the first bad line of the clerks' files; and
/// [`ToolFault::NoMemory`].
pub fn load_inputs<'h, 'f, R: Threads + Sync, H: Allocator + Send + Sync, A: Allocator + Sync>(
    rt: &R,
    workers: usize,
    heap: &'h H,
    files: &'f RunFiles<A>,
    zones: Option<&'f Source<A>>,
) -> Result<RunInputs<'h, H>, ToolFault<'static>>
    ensures tiles { IfOk result (λ inputs.
        AreTiles (files_of files.now.city) (files_of files.now.parcels) files.now.unit inputs.layer) }
    ensures zones { IfOk result (λ inputs.
        AreRegions (files_of_zones (option_copied zones.entry)) files.now.unit inputs.layer.city inputs.zones) }
    ensures edits { IfOk result (λ inputs. AreClerkFiles (texts_of files.now.clerks.items) inputs.clerks.items) }
    ensures few { IfOk result (λ inputs. length inputs.clerks.items ≤ MOST_PLACES) }
    ensures fault { IfErr result (λ fault.
        IsInputFault (parcel_run_of files.now) (files_of_zones (option_copied zones.entry)) fault
        ⊎ (fault ≡ ToolFault.NoMemory)) }
    ensures refuses { (fault : ToolFaultValue)
        → IsInputFault (parcel_run_of files.now) (files_of_zones (option_copied zones.entry)) fault
        → IsErrAnd result (λ told. (told ≡ fault) ⊎ (told ≡ ToolFault.NoMemory)) }
    // Too many clerks' files are told before any memory is asked for.
    ensures many { MOST_PLACES < length files.now.clerks.items
        → IsErrOf result (ToolFault.ClerkCount (length files.now.clerks.items)) }
{
    refuse_many_clerks(files.clerks.len())?;
    let (layer, zones) = load_run_layers(rt, workers, heap, files, zones)?;
    let clerks = read_clerk_files(heap, files)?;
    Ok(RunInputs {
        layer,
        clerks,
        zones,
    })
}

/// The parcels of a city, and its zones where there are zones' files.
fn load_run_layers<'h, R: Threads + Sync, H: Allocator + Send + Sync, A: Allocator + Sync>(
    rt: &R,
    workers: usize,
    heap: &'h H,
    files: &RunFiles<A>,
    zones: Option<&Source<A>>,
) -> Result<(Layer<'h, H>, Option<Layer<'h, H>>), ToolFault<'static>>
    ensures tiles { IfOk result (λ read.
        AreTiles (files_of files.now.city) (files_of files.now.parcels) files.now.unit read.0) }
    ensures zones { IfOk result (λ read.
        AreRegions (files_of_zones (option_copied zones.entry)) files.now.unit read.0.city read.1) }
    ensures fault { IfErr result (λ fault.
        IsLayersFaultOf (parcel_run_of files.now) (files_of_zones (option_copied zones.entry)) fault
        ⊎ (fault ≡ ToolFault.NoMemory)) }
    // Layers that tile the city are loaded, unless memory runs out.
    ensures loads { (tiles : Tiles) (regions : Option Tiles)
        → AreTiles (files_of files.now.city) (files_of files.now.parcels) files.now.unit tiles
        → AreRegions (files_of_zones (option_copied zones.entry)) files.now.unit tiles.city regions
        → IfErr result (λ fault. fault ≡ ToolFault.NoMemory) }
    ensures refuses { (fault : ToolFaultValue)
        → IsLayersFaultOf (parcel_run_of files.now) (files_of_zones (option_copied zones.entry)) fault
        → IsErrAnd result (λ told. (told ≡ fault) ⊎ (told ≡ ToolFault.NoMemory)) }
{
    let (city, parcels, unit) = (&files.city, &files.parcels, files.unit);
    match zones {
        None => match load_tiles_by(rt, workers, heap, city, parcels, unit) {
            Ok(layer) => Ok((layer, None)),
            Err(fault) => Err(fault),
        },
        Some(zones) => match load_layers_by(rt, workers, heap, city, parcels, zones, unit) {
            Ok(Layers { parcels, zones }) => Ok((parcels, Some(zones))),
            Err(fault) => Err(fault),
        },
    }
}
