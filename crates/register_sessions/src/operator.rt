//! The operator's desk.

ghost use Rattle.std.specs.Prelude.{◌≡◌, Some, OnOk, IfOk, IfErr};
ghost use Rattle.register_sessions.specs.own.Operators.{IsCheckAnswer, IsPublishAnswer, IsOverlayAnswer, IsZonesAnswer};
ghost use Rattle.register_sessions.specs.own.Operators.{IsExportAnswer, IsFreeExport};
ghost use Rattle.register_sessions.specs.own.Operators.{IsOperatorAnswer, IsOperatorAnswerOf, next_of};
ghost use Rattle.session_rooms.specs.DeskAnswers.{GoesOnBy, HasWindowLearnt};

use crate::journal_file::{DiskFile, Machine};
use crate::own_files::OwnFiles;
use crate::post::{Attendant, Next, Served, Trouble, serve_lines};
use crate::reports::{Exports, report_check, report_export, report_zones};
use desk_lock::{Naming, Notice, Window};
use fabric_core::Layer;
use geo_exact::ByteOut;
use session_lines::{Line, SessionFault, push_error, push_failure, push_published};
use session_rooms::{Asked, Came, Chair, Clocked, Room, answer_asked, read_asked};
use std::alloc::{AllocError, Allocator};
use std::io::{BufReader, Read};
use std::sync::Wait;

/// The operator's desk: who sits there, and what reports need beside the office's sheet.
#[derive(Drop)]
pub(crate) struct Operator<'h, H: Allocator, J: Naming<H>> {
    pub(crate) chair: Chair<'h, H, J>,
    /// The zones of the city, where there are some.
    pub(crate) zones: Option<Layer<'h, H>>,
    /// The files that no export replaces.
    pub(crate) own_files: OwnFiles<&'h H>,
}

/// Answers the operator's lines until no further one is taken.
pub(crate) fn serve_operator<
    'h,
    P: Exports + Machine,
    H: Allocator,
    J: Naming<H>,
    R: Wait,
    K: Clocked,
    F: Read,
    W: ByteOut,
>(
    room: &Room<'_, 'h, H, J, R, DiskFile, K>,
    disk: &P,
    operator: &mut Operator<'h, H, J>,
    reader: &mut BufReader<F, &'h H>,
    out: &mut W,
) -> Served {
    let mut attendant = OperatorAttendant {
        room,
        disk,
        operator,
    };
    serve_lines(room.heap, &room.door, reader, out, &mut attendant)
}

/// Who answers at the operator's desk.
#[derive(Drop)]
struct OperatorAttendant<'s, 'r, 'h, P, H: Allocator, J: Naming<H>, R: Wait, K: Clocked> {
    room: &'s Room<'r, 'h, H, J, R, DiskFile, K>,
    disk: &'s P,
    operator: &'s mut Operator<'h, H, J>,
}

impl<
    's,
    'r,
    'h,
    P: Exports + Machine,
    H: Allocator,
    J: Naming<H>,
    R: Wait,
    K: Clocked,
    W: ByteOut,
> Attendant<&'h H, W> for OperatorAttendant<'s, 'r, 'h, P, H, J, R, K> {
    ghost use Rattle.register_sessions.specs.own.Operators.{IsOperatorAnswerOf};

    ghost answers = { λ old came line before next new after.
        IsOperatorAnswerOf P.tells P.finds P.replace_gives W.written J.office old.room.now.journal old.disk.now
        old.operator.now.own_files old.operator.now.zones
        old.operator.now.chair new.operator.now.chair came line before next after };

    fn answer(
        &mut self,
        came: Came,
        line: &[u8],
        text: &mut Vec<u8, &'h H>,
        out: &mut W,
    ) -> Result<Next, Trouble> {
        answer_operator(self.room, self.disk, self.operator, came, line, text, out)
    }
}

/// Adds the answer to what came at the operator's desk to a text, or writes the text and then the answer.
fn answer_operator<
    'h,
    P: Exports + Machine,
    H: Allocator,
    J: Naming<H>,
    R: Wait,
    K: Clocked,
    W: ByteOut,
>(
    room: &Room<'_, 'h, H, J, R, DiskFile, K>,
    disk: &P,
    operator: &mut Operator<'h, H, J>,
    came: Came,
    line: &[u8],
    text: &mut Vec<u8, &'h H>,
    out: &mut W,
) -> Result<Next, Trouble>
    ensures answered { IfOk result (λ next. IsOperatorAnswerOf P.tells P.finds P.replace_gives W.written J.office
        room.now.journal disk.now operator.old.own_files operator.old.zones
        operator.old.chair operator.new.chair came line.now (record { text = text.old.items; out = out.old })
        next (record { text = text.new.items; out = out.new })) }
    ensures unwritten { IfErr result (λ trouble. trouble ≡ Trouble.NoMemory → out.new ≡ out.old) }
{
    match read_asked(room.heap, came, line) {
        Ok(asked) => {
            let next = next_of(&asked.line);
            answer_line(room, disk, operator, asked, text, out)?;
            Ok(next)
        }
        Err(fault) => {
            push_error(text, fault)?;
            Ok(Next::Line)
        }
    }
}

/// What follows a line.
fn next_of<A: Allocator>(line: &Line<'_, A>) -> Next
    ensures { result ≡ next_of line.now }
{
    match line {
        Line::Close => Next::End,
        _ => Next::Line,
    }
}

/// Answers a line. `close` is answered once all desks have ended.
fn answer_line<
    'h,
    P: Exports + Machine,
    H: Allocator,
    J: Naming<H>,
    R: Wait,
    K: Clocked,
    W: ByteOut,
>(
    room: &Room<'_, 'h, H, J, R, DiskFile, K>,
    disk: &P,
    operator: &mut Operator<'h, H, J>,
    asked: Asked<'_, &'h H>,
    text: &mut Vec<u8, &'h H>,
    out: &mut W,
) -> Result<(), Trouble>
    ensures answered { OnOk result (IsOperatorAnswer P.tells P.finds P.replace_gives W.written J.office
        room.now.journal disk.now operator.old.own_files operator.old.zones
        operator.old.chair operator.new.chair asked.entry.line (record { text = text.old.items; out = out.old })
        (record { text = text.new.items; out = out.new })) }
    ensures unwritten { IfErr result (λ trouble. trouble ≡ Trouble.NoMemory → out.new ≡ out.old) }
{
    let Operator {
        chair,
        zones,
        own_files,
    } = operator;
    let Asked { who, line } = asked;
    match line {
        Line::Check => Ok(answer_check(room, text)?),
        Line::Overlay => answer_overlay(room, zones, false, text, out),
        Line::OverlayAreas => answer_overlay(room, zones, true, text, out),
        Line::Export(base) => Ok(answer_export(room, disk, own_files, base, text)?),
        Line::Publish => Ok(answer_publish(room, &mut chair.window, text)?),
        Line::Close => Ok(()),
        line => {
            answer_asked(room, chair, Asked { who, line }, text)?;
            Ok(())
        }
    }
}

/// Adds whether the parcels tile the city.
fn answer_check<'h, H: Allocator, J: Naming<H>, R: Wait, K: Clocked>(
    room: &Room<'_, 'h, H, J, R, DiskFile, K>,
    text: &mut Vec<u8, &'h H>,
) -> Result<(), AllocError>
    ensures { OnOk result (GoesOnBy (IsCheckAnswer J.office room.now.journal) text.old.items text.new.items) }
{
    match room.sheet() {
        Ok(drawn) => report_check(drawn.sheet, text),
        Err(fault) => push_error(text, fault),
    }
}

/// Writes which parcels and zones overlap, where there are zones, and with areas how much of each parcel lies in each
/// zone.
fn answer_overlay<'h, H: Allocator, J: Naming<H>, R: Wait, K: Clocked, W: ByteOut>(
    room: &Room<'_, 'h, H, J, R, DiskFile, K>,
    zones: &Option<Layer<'h, H>>,
    has_areas: bool,
    text: &mut Vec<u8, &'h H>,
    out: &mut W,
) -> Result<(), Trouble>
    ensures answered { OnOk result (IsOverlayAnswer W.written has_areas J.office room.now.journal zones.now
        (record { text = text.old.items; out = out.old }) (record { text = text.new.items; out = out.new })) }
    ensures unwritten { IfErr result (λ trouble. trouble ≡ Trouble.NoMemory → out.new ≡ out.old) }
{
    match zones {
        Some(zones) => answer_zones(room, zones, has_areas, text, out),
        None => Ok(push_error(text, SessionFault::NoZones)?),
    }
}

/// Writes which parcels overlap these zones.
fn answer_zones<'h, H: Allocator, J: Naming<H>, R: Wait, K: Clocked, W: ByteOut>(
    room: &Room<'_, 'h, H, J, R, DiskFile, K>,
    zones: &Layer<'h, H>,
    has_areas: bool,
    text: &mut Vec<u8, &'h H>,
    out: &mut W,
) -> Result<(), Trouble>
    ensures answered { OnOk result (IsZonesAnswer W.written has_areas J.office room.now.journal zones.now
        (record { text = text.old.items; out = out.old }) (record { text = text.new.items; out = out.new })) }
    ensures unwritten { IfErr result (λ trouble. trouble ≡ Trouble.NoMemory → out.new ≡ out.old) }
{
    match room.sheet() {
        Ok(drawn) => report_zones(
            room.rt,
            room.heap,
            &drawn.sheet,
            zones,
            has_areas,
            text,
            out,
        ),
        Err(fault) => Ok(push_error(text, fault)?),
    }
}

/// Replaces the layer at BASE by the parcels, unless that would replace one of the session's own files, or something is
/// in the way.
fn answer_export<'h, P: Exports + Machine, H: Allocator, J: Naming<H>, R: Wait, K: Clocked>(
    room: &Room<'_, 'h, H, J, R, DiskFile, K>,
    disk: &P,
    own_files: &OwnFiles<&'h H>,
    base: &str,
    text: &mut Vec<u8, &'h H>,
) -> Result<(), AllocError>
    ensures { OnOk result (GoesOnBy (IsExportAnswer P.tells P.finds P.replace_gives J.office room.now.journal disk.now
        own_files.now base.now) text.old.items text.new.items) }
{
    match own_files.find_in_export(disk, room.heap, base)? {
        Some(path) => {
            let why = format!(in room.heap; "S5 {path}")?;
            push_failure(text, why.as_str())
        }
        None => answer_free_export(room, disk, base, text),
    }
}

/// The same where it would replace none of them.
fn answer_free_export<'h, P: Exports, H: Allocator, J: Naming<H>, R: Wait, K: Clocked>(
    room: &Room<'_, 'h, H, J, R, DiskFile, K>,
    disk: &P,
    base: &str,
    text: &mut Vec<u8, &'h H>,
) -> Result<(), AllocError>
    ensures { OnOk result (GoesOnBy (IsFreeExport P.finds P.replace_gives J.office room.now.journal disk.now base.now)
        text.old.items text.new.items) }
{
    match disk.obstacle(room.heap, base)? {
        Some(why) => push_failure(text, why.as_str()),
        None => match room.sheet() {
            Ok(drawn) => report_export(disk, room.heap, drawn.sheet, base, text),
            Err(fault) => push_error(text, fault),
        },
    }
}

/// Publishes all entries, and adds how many they are. The operator's window knows them then.
fn answer_publish<'h, H: Allocator, J: Naming<H>, R: Wait, K: Clocked>(
    room: &Room<'_, 'h, H, J, R, DiskFile, K>,
    window: &mut Option<Window<'h, H, J>>,
    text: &mut Vec<u8, &'h H>,
) -> Result<(), AllocError>
    ensures { OnOk result (GoesOnBy (IsPublishAnswer J.office room.now.journal window.old window.new)
        text.old.items text.new.items) }
{
    match room.publish() {
        Ok(notice) => {
            learn(window, &notice);
            push_published(text, notice.number())
        }
        Err(fault) => push_error(text, fault),
    }
}

/// Tells a window what was shown, where there is one.
fn learn<'h, H: Allocator, J: Naming<H>>(
    window: &mut Option<Window<'h, H, J>>,
    notice: &Notice<'h, H, J>,
)
    ensures { HasWindowLearnt window.old (Some notice.now) window.new }
{
    if let Some(window) = window {
        window.learn_notice(notice);
    }
}
