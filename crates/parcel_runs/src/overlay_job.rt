//! Which parcels of a sheet and which zones overlap, as workers find it.

ghost use Rattle.std.specs.Prelude.{◌≡◌, ◌⊎◌, ℕ, ◌<◌, ◌≤◌, length, IfOk, IfErr};
ghost use Rattle.std.specs.List.{AllByRecursion};
ghost use Rattle.overlay_work.specs.Rounds.{AreHandsOf};
ghost use Rattle.overlay_work.specs.declared.round.TheConstants.{MOST_HANDS};
ghost use Rattle.zone_tables.specs.Overlap.{IsOverlapTable};
ghost use Rattle.parcel_runs.specs.OverlayReport.{IsOverlayWant};

use crate::dealing::deal;
use city_layers::ToolFault;
use fabric_core::{Layer, Sheet};
use overlay_work::{CloseFault, Gate, Hand, MOST_HANDS, Round, RoundFault, Table, run_round};
use std::alloc::Allocator;
use std::sync::Wait;
use std::thread::Threads;

/// Holds nobody.
struct OpenGate;

impl Gate for OpenGate {
    fn pass(&self, _hand: usize) {}
}

/// The table of a sheet's parcels and the zones of its city, which so many workers find.
pub fn overlay_table<'t, 'h, R: Threads + Wait + Sync, H: Allocator + Send + Sync>(
    rt: &R,
    heap: &'h H,
    sheet: &'t Sheet<'h, H>,
    zones: &'t Layer<'h, H>,
    workers: usize,
) -> Result<Table<'t, 'h, H, &'h H>, ToolFault<'static>>
    requires some { 0 < workers }
    requires few { workers ≤ MOST_HANDS }
    requires city { zones.now.city ≡ sheet.now.city }
    ensures rows { IfOk result (λ table. table.rows ≡ sheet.now.now.rows) }
    ensures zones { IfOk result (λ table. table.zones ≡ zones.now.rows) }
    ensures entries { IfOk result (λ table. table.entries ≡ length sheet.now.journal) }
    ensures table { IfOk result (λ table. IsOverlapTable table.rows table.zones table.pairs) }
    ensures fault { IfErr result (IsOverlayWant 0 workers) }
{
    let (round, hands) = begin(heap, sheet, zones, workers)?;
    match run_round(rt, round, hands, &OpenGate) {
        Ok(table) => Ok(table),
        Err(back) => match back.fault {
            CloseFault::NoThread(hand) => Err(ToolFault::NoThread(hand)),
            CloseFault::NoMemory => Err(ToolFault::NoMemory),
            // All hands were handed in, and each that works comes to its end or wants memory.
            CloseFault::HandsMissing(_, _) | CloseFault::Holding(_) | CloseFault::NotDone => {
                unreachable!()
            }
        },
    }
}

/// A round of a sheet's parcels and the zones of its city, and its hands, one for each worker.
fn begin<'t, 'h, H: Allocator>(
    heap: &'h H,
    sheet: &'t Sheet<'h, H>,
    zones: &'t Layer<'h, H>,
    workers: usize,
) -> Result<(Round<'t, 'h, H>, Vec<Hand<'t, 'h, H>, &'h H>), ToolFault<'static>>
    requires some { 0 < workers }
    requires few { workers ≤ MOST_HANDS }
    requires city { zones.now.city ≡ sheet.now.city }
    ensures rows { IfOk result (λ made. made.0.rows ≡ sheet.now.now.rows) }
    ensures zones { IfOk result (λ made. made.0.zones ≡ zones.now.rows) }
    ensures entries { IfOk result (λ made. made.0.entries ≡ length sheet.now.journal) }
    ensures hands { IfOk result (λ made. AreHandsOf made.0 made.1.items) }
    ensures all { IfOk result (λ made. length made.1.items ≡ length made.0.lists) }
    ensures numbers { IfOk result (λ made. AllByRecursion (λ hand. hand.number < workers) made.1.items) }
    ensures fault { IfErr result (λ fault. fault ≡ ToolFault.NoMemory) }
{
    let lists = deal(heap, sheet.ids(), workers)?;
    match Round::new(heap, sheet, zones, lists) {
        Ok(begun) => Ok(begun),
        Err(fault) => match fault {
            RoundFault::NoMemory => Err(ToolFault::NoMemory),
            // The lists share the sheet's ids, there are as many as hands may be, and both layers tile one city.
            RoundFault::HandCount(_) | RoundFault::OtherCity | RoundFault::NotASharing(_) => {
                unreachable!()
            }
        },
    }
}
