//! The rings of a layer, read from its files.

ghost use Rattle.std.specs.Prelude.{◌≡◌, ◌⊎◌, List, IfOk, IfErr, IsErrAnd, MatchResult};
ghost use Rattle.std.specs.Option.{option_copied};
ghost use Rattle.shp_files.specs.LayerFile.{IsLayerFile, NumberedRing, rings_of};
ghost use Rattle.shp_files.specs.FirstFault.{IsFirstFault};
ghost use Rattle.shp_files.specs.declared.fault.FileFault.{FileFault};
ghost use Rattle.city_layers.specs.own.LayerFaults.{IsLayerFault, layer_fault};

use crate::fault::{Role, ToolFault};
use geo_exact::{RawRing, Unit};
use shp_files::{LayerFault, read_layer};
use std::alloc::Allocator;

// The layer that was not read has this role in the run.
impl<'a> From<(Role, LayerFault)> for ToolFault<'a> {
    ghost from_gives = { λ unread told. told ≡ layer_fault unread.0 unread.1 };

    fn from(unread: (Role, LayerFault)) -> ToolFault<'a> {
        match unread {
            (role, LayerFault::File(fault)) => ToolFault::File(role, fault),
            (_, LayerFault::NoMemory) => ToolFault::NoMemory,
        }
    }
}

/// The rings of a layer's main file, with its index where there is one. The layer has this role in the run.
pub fn layer_rings<A: Allocator + Copy>(
    alloc: A,
    role: Role,
    main: &[u8],
    index: Option<&[u8]>,
    unit: Unit,
) -> Result<Vec<RawRing<A>, A>, ToolFault<'static>>
    ensures ok { IfOk result (λ rings. IsLayerFile main.now (option_copied index.entry) unit (rings_of rings.items)) }
    ensures err { IfErr result (IsLayerFault role main.now (option_copied index.entry) unit) }
    // A layer is read, unless memory runs out.
    ensures reads { (rings : List NumberedRing) → IsLayerFile main.now (option_copied index.entry) unit rings
        → MatchResult result (λ found. rings_of found.items ≡ rings) (λ fault. fault ≡ ToolFault.NoMemory) }
    // Its first fault is told, unless memory runs out.
    ensures refuses { (fault : FileFault) → IsFirstFault main.now (option_copied index.entry) unit fault
        → IsErrAnd result (λ told. (told ≡ ToolFault.File role fault) ⊎ (told ≡ ToolFault.NoMemory)) }
{
    match read_layer(alloc, main, index, unit) {
        Ok(rings) => Ok(rings),
        Err(fault) => Err(ToolFault::from((role, fault))),
    }
}
