//! The reports that the operator asks for.

ghost use Rattle.std.specs.Prelude.{◌≡◌, ◌≢◌, ◌⊎◌, ℕ, List, [], ◌∷◌, ⊤, true, false, map, length, Option, Result};
ghost use Rattle.std.specs.Prelude.{IfOk, IfErr, IsSome, OnOk, string_bytes};
ghost use Rattle.std.specs.List.Sorted.{IsStrictlyIncreasing};
ghost use Rattle.std.specs.Option.{option_map};
ghost use Rattle.fabric_core.specs.Rows.{numbers};
ghost use Rattle.overlay_work.specs.Rounds.{IsAtEnd};
ghost use Rattle.overlay_work.specs.declared.round.RoundFault.TheVariants.{OtherCity, NoMemory as NoRoom};
ghost use Rattle.zone_tables.specs.Overlap.{IsOverlapTable};
ghost use Rattle.session_lines.specs.declared.faults.SessionFault.TheVariants.{NoMemory, NoZones};
ghost use Rattle.session_rooms.specs.DeskAnswers.{GoesOnBy};
ghost use Rattle.register_sessions.specs.own.Overlays.{WritesTable, IsWantOfMemory};
ghost use Rattle.register_sessions.specs.own.Operators.{IsOverlayReport, check_report};
ghost use Rattle.register_sessions.specs.own.Exports.{IsExported, IsLineOfFault};

use crate::post::{Trouble, write_out};
use area_shares::{AreaLine, area_lines, write_areas};
use city_layers::{ToolFault, push_fault};
use desk_lock::Naming;
use fabric_core::{Layer, Sheet};
use geo_exact::{ByteOut, Failed};
use overlay_work::{CloseFault, Hand, Round, RoundFault, Step, Table};
use parcel_runs::sheets::{export_sheet, push_sheet_tiling};
use session_lines::{SessionFault, push_end, push_error};
use std::alloc::{AllocError, Allocator};
use std::marker::PhantomData;
use std::sync::Wait;
use text_pieces::{Sink, put_all};
use zone_tables::write_report;

/// Adds the line of a sheet's tiling.
pub(crate) fn report_check<'h, H: Allocator>(
    sheet: Sheet<'h, H>,
    text: &mut Vec<u8, &'h H>,
) -> Result<(), AllocError>
    ensures { OnOk result (GoesOnBy (λ report. report ≡ check_report sheet.entry) text.old.items text.new.items) }
{
    sheet.use_invariant();
    push_sheet_tiling(text, sheet)?;
    push_end(text)
}

/// Writes what was collected, and then which parcels and zones overlap, with areas or without them.
pub(crate) fn report_zones<'h, R: Wait, H: Allocator, W: ByteOut>(
    rt: &R,
    heap: &'h H,
    sheet: &Sheet<'h, H>,
    zones: &Layer<'h, H>,
    has_areas: bool,
    text: &mut Vec<u8, &'h H>,
    out: &mut W,
) -> Result<(), Trouble>
    ensures answered { OnOk result (IsOverlayReport W.written has_areas sheet.now zones.now
        (record { text = text.old.items; out = out.old }) (record { text = text.new.items; out = out.new })) }
    ensures unwritten { IfErr result (λ trouble. trouble ≡ Trouble.NoMemory → out.new ≡ out.old) }
{
    if has_areas {
        report_areas(rt, heap, sheet, zones, text, out)
    } else {
        report_overlay(rt, heap, sheet, zones, text, out)
    }
}

/// Writes what was collected, and then which parcels and zones overlap. They are found in this thread, so that desks
/// keep the other processors.
fn report_overlay<'h, R: Wait, H: Allocator, W: ByteOut>(
    rt: &R,
    heap: &'h H,
    sheet: &Sheet<'h, H>,
    zones: &Layer<'h, H>,
    text: &mut Vec<u8, &'h H>,
    out: &mut W,
) -> Result<(), Trouble>
    ensures answered { OnOk result (IsOverlayReport W.written false sheet.now zones.now
        (record { text = text.old.items; out = out.old }) (record { text = text.new.items; out = out.new })) }
    ensures unwritten { IfErr result (λ trouble. trouble ≡ Trouble.NoMemory → out.new ≡ out.old) }
{
    match table_of(rt, heap, sheet, zones) {
        Ok(table) => Ok(write_overlay(&table, &[], text, out)?),
        Err(SessionFault::NoMemory) => Err(Trouble::NoMemory),
        Err(fault) => Ok(push_error(text, fault)?),
    }
}

/// The same, and behind it a line for each pair: how much of the parcel lies in the zone.
fn report_areas<'h, R: Wait, H: Allocator, W: ByteOut>(
    rt: &R,
    heap: &'h H,
    sheet: &Sheet<'h, H>,
    zones: &Layer<'h, H>,
    text: &mut Vec<u8, &'h H>,
    out: &mut W,
) -> Result<(), Trouble>
    ensures answered { OnOk result (IsOverlayReport W.written true sheet.now zones.now
        (record { text = text.old.items; out = out.old }) (record { text = text.new.items; out = out.new })) }
    ensures unwritten { IfErr result (λ trouble. trouble ≡ Trouble.NoMemory → out.new ≡ out.old) }
{
    match table_of(rt, heap, sheet, zones) {
        Ok(table) => {
            let areas = area_lines(heap, sheet, zones, table.pairs())?;
            Ok(write_overlay(&table, areas.as_slice(), text, out)?)
        }
        Err(SessionFault::NoMemory) => Err(Trouble::NoMemory),
        Err(fault) => Ok(push_error(text, fault)?),
    }
}

/// Writes what was collected, the report of a table, lines of areas, and the end. It takes no memory.
fn write_overlay<'t, 'h, H: Allocator, W: ByteOut>(
    table: &Table<'t, 'h, H, &'h H>,
    areas: &[AreaLine],
    text: &mut Vec<u8, &'h H>,
    out: &mut W,
) -> Result<(), Failed>
    ensures { OnOk result
        (WritesTable table.now areas.now text.old.items text.new.items (W.written out.old) (W.written out.new)) }
{
    write_out(text, out)?;
    write_report(table, out)?;
    write_areas(areas, out)?;
    put_all(b".\n", out)
}

/// The table of a sheet's parcels and the zones of its city, as one hand finds it.
fn table_of<'t, 'h, R: Wait, H: Allocator>(
    rt: &R,
    heap: &'h H,
    sheet: &'t Sheet<'h, H>,
    zones: &'t Layer<'h, H>,
) -> Result<Table<'t, 'h, H, &'h H>, SessionFault>
    ensures table { IfOk result (λ table. IsOverlapTable table.rows table.zones table.pairs) }
    ensures rows { IfOk result (λ table. (table.rows ≡ sheet.now.now.rows) × (table.zones ≡ zones.now.rows)) }
    ensures entries { IfOk result (λ table. table.entries ≡ length sheet.now.journal) }
    ensures city { OnOk result (zones.now.city ≡ sheet.now.city) }
    ensures fault { IfErr result (λ fault.
        ((fault ≡ NoZones) × (zones.now.city ≢ sheet.now.city)) ⊎ (fault ≡ NoMemory)) }
{
    let Ok(sharing) = whole_list(heap, sheet) else {
        return Err(SessionFault::NoMemory);
    };
    let (round, mut hands) = match Round::new(heap, sheet, zones, sharing) {
        Ok(begun) => begun,
        Err(fault) => return Err(fault_of_round(fault)),
    };
    step_until_done(rt, &mut hands[0]);
    match round.close(hands) {
        Ok(table) => Ok(table),
        Err(back) => Err(fault_of_close(back.fault)),
    }
}

/// Steps a hand until it is done, or holds a parcel for want of memory. It comes to that, since each other step does a
/// parcel.
fn step_until_done<'t, 'h, R: Wait, H: Allocator>(rt: &R, hand: &mut Hand<'t, 'h, H>)
    ensures task { hand.new.task ≡ hand.old.task }
    ensures stops { IsAtEnd hand.new ⊎ IsSome hand.new.holds }
{
    for _ in rt.forever() {
        match hand.step() {
            Step::Did(_) => {}
            Step::Done | Step::NoMemory => return,
        }
    }
}

/// What is told of a round that could not begin.
fn fault_of_round(fault: RoundFault) -> SessionFault
    requires { (fault ≡ OtherCity) ⊎ (fault ≡ NoRoom) }
    ensures { ((fault ≡ OtherCity) × (result ≡ NoZones)) ⊎ ((fault ≡ NoRoom) × (result ≡ NoMemory)) }
{
    match fault {
        RoundFault::OtherCity => SessionFault::NoZones,
        RoundFault::NoMemory => SessionFault::NoMemory,
        // There is one list, which has the sheet's ids.
        RoundFault::HandCount(_) | RoundFault::NotASharing(_) => unreachable!(),
    }
}

/// What is told of a round that could not be closed though its hand was stepped until it was done, or held a parcel:
/// memory ran out.
fn fault_of_close(fault: CloseFault) -> SessionFault
    requires { IsWantOfMemory fault }
    ensures { result ≡ NoMemory }
{
    match fault {
        CloseFault::Holding(_) | CloseFault::NoMemory => SessionFault::NoMemory,
        CloseFault::NotDone | CloseFault::NoThread(_) | CloseFault::HandsMissing(_, _) => {
            unreachable!()
        }
    }
}

/// All parcels of a sheet as the one list of a round.
fn whole_list<'h, H: Allocator>(
    heap: &'h H,
    sheet: &Sheet<'h, H>,
) -> Result<Vec<Vec<u64, &'h H>, &'h H>, AllocError>
    ensures whole { IfOk result (λ lists. map (λ list. list.items) lists.items ≡ numbers sheet.now.now.rows ∷ []) }
    ensures rise { OnOk result (IsStrictlyIncreasing (numbers sheet.now.now.rows)) }
{
    let mut ids = Vec::new(heap);
    for id in sheet.ids() {
        ids.push(id)?;
    }
    let mut sharing = Vec::new(heap);
    sharing.push(ids)?;
    Ok(sharing)
}

/// Where exports are written.
pub trait Exports {
    ghost use Rattle.city_layers.specs.declared.fault.ToolFault.{ToolFault as Fault};

    // What may be found in the way at a base, as the operator is told it; a place that says nothing leaves it out.
    ghost finds: { Self → List ℕ → Option (List ℕ) → Type 0 } = { λ _ _ _. ⊤ };

    // What replacing the layer at a base by a main file and an index may give; a place that says nothing leaves it out.
    ghost replace_gives: { Self → List ℕ → List ℕ → List ℕ → Result (Unit {0}) Fault → Type 0 } = { λ _ _ _ _ _. ⊤ };

    /// Why no layer is written at BASE, as the operator is told it; `None` where nothing is in the way.
    ///
    /// # Errors
    ///
    /// [`AllocError`] where an allocation fails.
    fn obstacle<A: Allocator + Copy>(
        &self,
        alloc: A,
        base: &str,
    ) -> Result<Option<String<A>>, AllocError>
        ensures { IfOk result (λ why. finds self.now base.now (option_map string_bytes why)) };

    /// Replaces the layer at BASE by two files: the bytes of its main file and of its index.
    ///
    /// # Errors
    ///
    /// As [`replace_layer`](city_layers::replace_layer).
    fn replace<A: Allocator + Copy>(
        &self,
        alloc: A,
        base: &str,
        main: &[u8],
        index: &[u8],
    ) -> Result<(), ToolFault<'static>>
        ensures { replace_gives self.now base.now main.now index.now result };
}

/// Replaces the layer at BASE by a sheet's parcels, and adds how many there are.
pub(crate) fn report_export<'h, X: Exports, H: Allocator>(
    exports: &X,
    heap: &'h H,
    sheet: Sheet<'h, H>,
    base: &str,
    text: &mut Vec<u8, &'h H>,
) -> Result<(), AllocError>
    ensures { OnOk result (GoesOnBy (IsExported X.replace_gives exports.now base.now sheet.entry.now.rows)
        text.old.items text.new.items) }
{
    sheet.use_invariant();
    let exported = export_sheet(heap, sheet)?;
    match exports.replace(
        heap,
        base,
        exported.main.as_slice(),
        exported.index.as_slice(),
    ) {
        Ok(()) => {
            text.extend_from_slice(exported.lines.as_slice())?;
            push_end(text)
        }
        Err(fault) => push_tool_fault(text, fault),
    }
}

/// Adds why a report fails, in the words in which the program tells it elsewhere.
fn push_tool_fault<A: Allocator>(
    text: &mut Vec<u8, A>,
    fault: ToolFault<'static>,
) -> Result<(), AllocError>
    ensures { OnOk result (GoesOnBy (IsLineOfFault fault.entry) text.old.items text.new.items) }
{
    text.push_piece("error: ")?;
    push_fault(text, fault)?;
    text.push_piece("\n")
}
