//! Two layers of one city, which are read beside one another.

ghost use Rattle.std.specs.Prelude.{◌≡◌, ◌<◌, ◌≤◌};
ghost use denote.Param.Send.{IsSend, IsSync, Frees};
ghost use Rattle.city_layers.specs.TilingFiles.{files_of};
ghost use Rattle.city_layers.specs.own.Told.{IsToldOfLayer};

use crate::fault::{Role, ToolFault};
use crate::sources::Source;
use crate::tiles::read_tiles_by;
use fabric_core::{City, Layer};
use geo_exact::Unit;
use std::alloc::Allocator;
use std::thread;
use std::thread::Threads;

/// A layer's files that are to be read in a city, by so many threads at the most; the layer has this role in the run.
#[derive(Drop)]
struct Reading<'s, 'h, R: Threads, H: Allocator, A: Allocator> {
    rt: &'s R,
    workers: usize,
    heap: &'h H,
    city: &'s City<'h, H>,
    role: Role,
    files: &'s Source<A>,
    unit: Unit,
}

/// What [`read_tiles_by`] tells of a layer's files. The `requires` asks of callers what the bounds ask, which a thread
/// that is handed the function by name learns in no other way.
fn told_of<'s, 'h, R: Threads + Sync, H: Allocator + Send + Sync, A: Allocator>(
    reading: Reading<'s, 'h, R, H, A>,
) -> Result<Layer<'h, H>, ToolFault<'static>>
    requires { IsSync R.row × IsSend H.row × IsSync H.row × Frees H.Allocator H.dealloc_token }
    ensures { IsToldOfLayer reading.entry.role (files_of reading.entry.files.now) reading.entry.unit
        reading.entry.city.now.ring.corners result }
{
    let Reading {
        rt,
        workers,
        heap,
        city,
        role,
        files,
        unit,
    } = reading;
    read_tiles_by(rt, workers, heap, city, role, files, unit)
}

/// What a function tells of two things: of the first in a thread of its own. Where the system refuses that thread, this
/// one does it last. The function has a name, since the borrow checker covers no closure whose answer names a lifetime.
fn both<R: Threads, X: Send + Drop, Y: Send + Drop, F: FnOnce(X) -> Y + Copy + Send>(
    rt: &R,
    tell: F,
    first: X,
    second: X,
) -> (Y, Y)
    requires first { F.pre tell first }
    requires second { F.pre tell second }
    ensures first { F.post tell first result.0 }
    ensures second { F.post tell second result.1 }
{
    thread::join(
        rt,
        move || -> Y
            requires { F.pre tell first }
            ensures { F.post tell first result }
        { tell(first) },
        move || -> Y
            requires { F.pre tell second }
            ensures { F.post tell second result }
        { tell(second) },
    )
}

/// How many of so many threads read the zones: by their share of the bytes, and at least one. What is left, and that is
/// one at least, too, reads the parcels.
fn threads_for_zones(workers: usize, parcels: usize, zones: usize) -> usize
    ensures { 2 ≤ workers → (0 < result) × (result < workers) }
{
    let all = parcels.saturating_add(zones).max(1);
    let share = zones.saturating_mul(workers) / all;
    share.max(1).min(workers.saturating_sub(1))
}

/// What is told of the parcels' files and of the zones' in a city, by so many threads at the most: the zones are read
/// beside the parcels, or behind them where the system refuses the thread.
pub(crate) fn read_both<'h, R: Threads + Sync, H: Allocator + Send + Sync, A: Allocator + Sync>(
    rt: &R,
    workers: usize,
    heap: &'h H,
    city: &City<'h, H>,
    parcels: &Source<A>,
    zones: &Source<A>,
    unit: Unit,
) -> (
    Result<Layer<'h, H>, ToolFault<'static>>,
    Result<Layer<'h, H>, ToolFault<'static>>,
)
    ensures parcels { IsToldOfLayer Role.Parcels (files_of parcels.now) unit city.now.ring.corners result.0 }
    ensures zones { IsToldOfLayer Role.Zones (files_of zones.now) unit city.now.ring.corners result.1 }
{
    let for_zones = threads_for_zones(workers, parcels.main.len(), zones.main.len());
    let of_zones = Reading {
        rt,
        workers: for_zones,
        heap,
        city,
        role: Role::Zones,
        files: zones,
        unit,
    };
    let of_parcels = Reading {
        rt,
        workers: workers.saturating_sub(for_zones),
        heap,
        city,
        role: Role::Parcels,
        files: parcels,
        unit,
    };
    let (zones, parcels) = both(rt, told_of, of_zones, of_parcels);
    (parcels, zones)
}
