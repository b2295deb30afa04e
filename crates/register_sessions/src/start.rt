//! How a session starts.

ghost use Rattle.std.specs.Prelude.{◌≡◌, max, length, IfOk};
ghost use Rattle.std.specs.Borrow.{Bor};
ghost use Rattle.desk_lock.specs.Offices.{origin_of};
ghost use Rattle.session_rooms.specs.Starts.{IsBehind, IsMarked};
ghost use Rattle.register_sessions.specs.StartFaults.{IsToldOf, IsToldRefused};

use crate::found_journal::{
    FoundJournal, find_journal, make_next, remove_next, set_aside, take_place,
};
use crate::journal_file::{DiskFile, DiskSynchroniser, Machine};
use crate::offices::{clerks_of, seat_all, windows_of};
use crate::operator::Operator;
use crate::own_files::OwnFiles;
use crate::pipes::{Paths, Pipes, find_pipes, let_go};
use crate::reports::Exports;
use crate::serving::{Reception, serve};
use crate::start_fault::StartFault;
use city_layers::{Disk, ToolFault, read_source, read_text};
use clerk_runs::push_refusal;
use desk_lock::{Name, Naming, Office};
use fabric_core::{Entry, Fabric, Layer, Refusal};
use geo_exact::{Counted, Unit};
use journal_records::{JournalFault, Seal};
use journal_replays::{ReplayFault, Replayed};
use journal_writers::{JournalWriter, sync};
use line_files::read_clerk;
use parcel_runs::refuse_many_clerks;
use session_rooms::{
    BeginFault, Begun, Clocked, EDITS_CLERK, EditsFault, Journal, Room, Sources, add_entries,
    begin_register, begin_writer, make_edits, ready_text, time_of,
};
use std::alloc::Allocator;
use std::fs::{File, OpenOptions};
use std::io;
use std::io::{BufReader, Input};
use std::marker::Brand;
use std::rt::Files;
use std::sync::Wait;
use std::thread::Threads;

/// What a session is of.
#[derive(Debug, Drop)]
pub struct Plan<'a> {
    /// The path of the main file of the city's layer.
    pub city: &'a str,
    /// The path of the main file of the parcels' layer.
    pub parcels: &'a str,
    /// The path of the main file of the zones' layer, where overlays are asked for.
    pub zones: Option<&'a str>,
    /// The unit of the coordinates of all three.
    pub unit: Unit,
    /// The path of the journal, where there is one.
    pub journal: Option<&'a str>,
    /// The path of a clerk's file whose edits come first, where there is one. The journal begins with them.
    pub clerk: Option<&'a str>,
    /// The names of the desks: each has the pipes NAME.in and NAME.out.
    pub desks: Vec<&'a str>,
    /// How many threads share the load of the layers.
    pub workers: usize,
}

/// Starts a session, serves its desks, and returns once it is closed. Its pipes and its exports are of the disk, which
/// is that of the same runtime.
///
/// # Errors
///
/// [`StartFault`], before any line is taken; and S2 where the operator's desk could not be told of the end.
pub fn serve_session<
    'a,
    'h,
    R: Files<File = File> + Input + Print + Eprint + Threads + Wait + Sync,
    P: Pipes + Exports + Machine + Sync,
    H: Allocator + Send + Sync,
>(rt: &R, disk: &'a P, heap: &'h H, plan: &Plan<'a>) -> Result<(), StartFault<'a, &'h H>> {
    // Held to the end: no file of the session gets the number of one of the three that was closed at its start.
    let standard = (open_null(rt), open_null(rt), open_null(rt));
    refuse_many_clerks(plan.desks.len())?;
    let paths = find_pipes(rt, heap, plan.desks.as_slice())?;
    let served = serve_at(rt, disk, heap, plan, paths.as_slice());
    let_go(rt, paths.as_slice());
    drop(standard);
    served
}

/// What reads as empty, and takes all that is written: it gets the lowest number that is free.
fn open_null<F: Files<File = File>>(files: &F) -> io::Result<File> {
    OpenOptions::new()
        .read(true)
        .write(true)
        .open(files, "/dev/null")
}

/// The same at these pipes.
fn serve_at<
    'a,
    'h,
    R: Files<File = File> + Input + Print + Eprint + Threads + Wait + Sync,
    P: Pipes + Exports + Machine + Sync,
    H: Allocator + Send + Sync,
>(
    rt: &R,
    disk: &'a P,
    heap: &'h H,
    plan: &Plan<'a>,
    paths: &[Paths<&'h H>],
) -> Result<(), StartFault<'a, &'h H>> {
    let own_files = OwnFiles::of_plan(heap, plan)?;
    let register = open_register(rt, disk, heap, plan)?;
    let name = Name::new(heap)?;
    at_office::<R, P, H, DiskSynchroniser<'a, P>, Brand>(
        rt, disk, heap, name, register, own_files, paths,
    )
}

/// A register that is ready to be edited: the parcels behind the edits of the journal, the zones, and the journal.
#[derive(Drop)]
struct Register<'h, H: Allocator, K: Clocked> {
    fabric: Fabric<'h, H>,
    zones: Option<Layer<'h, H>>,
    journal: Option<Journal<DiskFile, &'h H, K>>,
}

/// Reads and loads a register's files. All are read before the first is looked at.
fn open_register<
    'a,
    'h,
    R: Files<File = File> + Eprint + Threads + Sync,
    P: Machine,
    H: Allocator + Send + Sync,
>(
    rt: &R,
    disk: &'a P,
    heap: &'h H,
    plan: &Plan<'a>,
) -> Result<Register<'h, H, DiskSynchroniser<'a, P>>, StartFault<'a, &'h H>> {
    let sources = read_sources(rt, heap, plan)?;
    let edits = match plan.clerk {
        Some(path) => Some((path, read_text(&Disk(rt), heap, path)?)),
        None => None,
    };
    let Some(path) = plan.journal else {
        let begun = begin(rt, heap, plan, &sources, "", &[])?;
        let Begun { fabric, zones, .. } = begun;
        return Ok(Register {
            fabric: edited(heap, fabric, &edits)?,
            zones,
            journal: None,
        });
    };
    let found = find_journal(rt, heap, path)?;
    if edits.is_some() && !found.text.is_empty() {
        return Err(StartFault::JournalBegun(path));
    }
    let begun = match begin(rt, heap, plan, &sources, path, found.text.as_slice()) {
        Ok(begun) => begun,
        Err(fault) => {
            tell_old(rt, heap, found.text.as_slice(), &fault);
            return Err(fault);
        }
    };
    let Begun {
        fabric,
        zones,
        layer,
        replayed,
    } = begun;
    let fabric = edited(heap, fabric, &edits)?;
    let journal = begin_journal(rt, disk, heap, &fabric, &layer, &replayed, found)?;
    Ok(Register {
        fabric,
        zones,
        journal: Some(journal),
    })
}

/// Where a file is no journal, and is lines of edits, as a journal was in version 1.0, says how to go on with it.
fn tell_old<'h, R: Eprint, H: Allocator>(
    rt: &R,
    heap: &'h H,
    text: &[u8],
    fault: &StartFault<'_, &'h H>,
) {
    let StartFault::NoJournal(path) = fault else {
        return;
    };
    if has_edits(heap, text) {
        // Where standard error fails there is nobody left to tell.
        let _ = eprintln!(rt;
            "note: {path}: lines of edits, as a journal of version 1.0; --clerk {path} --journal NEW begins with them"
        );
    }
}

/// Whether a text is lines of edits, of at least one.
fn has_edits<A: Allocator + Copy>(alloc: A, text: &[u8]) -> bool {
    match read_clerk(alloc, text) {
        Ok(edits) => !edits.is_empty(),
        Err(_) => false,
    }
}

/// Reads the files of a register's layers.
fn read_sources<'a, F: Files, A: Allocator + Copy>(
    files: &F,
    alloc: A,
    plan: &Plan<'a>,
) -> Result<Sources<A>, ToolFault<'a>> {
    let city = read_source(&Disk(files), alloc, plan.city)?;
    let parcels = read_source(&Disk(files), alloc, plan.parcels)?;
    let zones = match plan.zones {
        Some(path) => Some(read_source(&Disk(files), alloc, path)?),
        None => None,
    };
    Ok(Sources {
        city,
        parcels,
        zones,
    })
}

/// The register that the files give behind the journal at a path, which has this text.
fn begin<'a, 'h, R: Threads + Sync, H: Allocator + Send + Sync, A: Allocator + Sync>(
    rt: &R,
    heap: &'h H,
    plan: &Plan<'a>,
    sources: &Sources<A>,
    path: &'a str,
    text: &[u8],
) -> Result<Begun<'h, H>, StartFault<'a, &'h H>>
    ensures behind { IfOk result (λ begun. IsBehind text.now begun.fabric begun.replayed begun.layer) }
{
    match begin_register(rt, plan.workers, heap, sources, plan.unit, text) {
        Ok(begun) => Ok(begun),
        Err(BeginFault::Load(fault)) => Err(StartFault::Run(fault)),
        Err(BeginFault::Journal(fault)) => Err(fault_of_replay(heap, path, fault)),
    }
}

/// A register behind the edits of a clerk's file, where there is one.
fn edited<'a, 'h, H: Allocator>(
    heap: &'h H,
    fabric: Fabric<'h, H>,
    edits: &Option<(&'a str, Vec<u8, &'h H>)>,
) -> Result<Fabric<'h, H>, StartFault<'a, &'h H>> {
    let mut fabric = fabric;
    let Some((path, text)) = edits else {
        return Ok(fabric);
    };
    match make_edits(heap, &mut fabric, text.as_slice()) {
        Ok(()) => Ok(fabric),
        Err(EditsFault::Line(line)) => {
            Err(StartFault::Run(ToolFault::ClerkLine(EDITS_CLERK, line)))
        }
        Err(EditsFault::Refused(line, refusal)) => Err(refused_in(heap, *path, line, refusal)),
        Err(EditsFault::NoMemory) => Err(StartFault::Run(ToolFault::NoMemory)),
    }
}

/// Has a journal ready to be written: a new file has all that is whole of it, and takes its place; the disk has that
/// then. So no page is trusted that another session could not write, and that was never read from the disk. What stands
/// behind the last whole record is set aside in a file of its own, and reported; entries of the register that the
/// journal has not yet are added.
fn begin_journal<'a, 'h, R: Files<File = File> + Eprint, P: Machine, H: Allocator>(
    rt: &R,
    machine: &'a P,
    heap: &'h H,
    fabric: &Fabric<'h, H>,
    layer: &Seal,
    replayed: &Replayed,
    found: FoundJournal<'a, &'h H>,
) -> Result<Journal<DiskFile, &'h H, DiskSynchroniser<'a, P>>, StartFault<'a, &'h H>>
    requires { IsMarked (Bor H) found.text.items replayed.now layer.now }
{
    let path = found.path;
    let entries = fabric.journal();
    let begun = match make_next(rt, heap, &found) {
        Ok(next) => fill_next(heap, next, entries, layer, replayed, machine, &found),
        Err(_) => return Err(StartFault::JournalUnreadable(path)),
    };
    let (writer, synchroniser) = match begun {
        Ok(begun) => begun,
        Err(fault) => {
            remove_next(rt, heap, &found);
            return Err(fault);
        }
    };
    if tell_torn(rt, heap, replayed, &found).is_err()
        || take_place(rt, heap, &found, writer.file().file()).is_err()
    {
        remove_next(rt, heap, &found);
        return Err(StartFault::JournalUnreadable(path));
    }
    match sync(&synchroniser, &writer.written()) {
        Ok(on_disk) => Ok(Journal::new(writer, synchroniser, on_disk)),
        Err(_) => Err(StartFault::JournalUnreadable(path)),
    }
}

/// Writes what is whole of a journal, and the entries that it has not yet, to the file that takes its place.
fn fill_next<'a, 'h, P: Machine, H: Allocator>(
    heap: &'h H,
    next: File,
    entries: &[Entry<&'h H>],
    layer: &Seal,
    replayed: &Replayed,
    machine: &'a P,
    found: &FoundJournal<'a, &'h H>,
) -> Result<(JournalWriter<DiskFile, &'h H>, DiskSynchroniser<'a, P>), StartFault<'a, &'h H>>
    requires { IsMarked (Bor H) found.now.text.items replayed.now layer.now }
{
    let path = found.path;
    let Ok(next) = DiskFile::new(next, machine.longest_file()) else {
        return Err(StartFault::JournalUnreadable(path));
    };
    let Ok(synchroniser) = DiskSynchroniser::new(machine, path, &next) else {
        return Err(StartFault::JournalUnreadable(path));
    };
    let begun = begin_writer(heap, next, found.text.as_slice(), layer, replayed);
    let Ok(mut writer) = begun else {
        return Err(StartFault::JournalUnreadable(path));
    };
    if writer.records() == 0 && !entries.is_empty() {
        let Some(time) = time_of(heap, &synchroniser)? else {
            return Err(StartFault::JournalUnreadable(path));
        };
        if add_entries(heap, &mut writer, time.as_bytes(), entries).is_err() {
            return Err(StartFault::JournalUnreadable(path));
        }
    }
    Ok((writer, synchroniser))
}

/// Sets aside what stands behind the last whole record of a journal, and says so, and where its last line feed was
/// missing.
fn tell_torn<'a, 'h, R: Files<File = File> + Eprint, H: Allocator>(
    rt: &R,
    heap: &'h H,
    replayed: &Replayed,
    found: &FoundJournal<'a, &'h H>,
) -> io::Result<()> {
    let path = found.path;
    let text = found.text.as_slice();
    let torn = replayed.torn;
    if torn > 0 && torn <= text.len() {
        let aside = set_aside(rt, heap, found, &text[text.len() - torn..])?;
        // Where standard error fails there is nobody left to tell.
        let _ = eprintln!(rt;
            "note: {path}: {torn} bytes after the last whole record are set aside as {aside}"
        );
    }
    if replayed.lacks_end {
        let _ = eprintln!(rt;
            "note: {path}: the end of the last line was missing, and is completed"
        );
    }
    Ok(())
}

/// The user-facing error for a journal whose edits are not made again.
fn fault_of_replay<'a, A: Allocator>(
    alloc: A,
    path: &'a str,
    fault: ReplayFault,
) -> StartFault<'a, A>
    ensures { IsToldOf path.entry fault result }
{
    match fault {
        ReplayFault::Journal(JournalFault::NoJournal) => StartFault::NoJournal(path),
        ReplayFault::Journal(JournalFault::OtherLayer) => StartFault::OtherLayer(path),
        ReplayFault::Journal(JournalFault::Changed(line)) => StartFault::JournalChanged(path, line),
        ReplayFault::Journal(JournalFault::NoMemory) => StartFault::Run(ToolFault::NoMemory),
        ReplayFault::Refused(number, refusal) => {
            // The header is line 1, and a record's edit its second line.
            let line = number.saturating_mul(2).saturating_add(1);
            refused_in(alloc, path, line, refusal)
        }
    }
}

/// The user-facing error for an edit in this line of the file at a path, which is refused.
fn refused_in<'a, A: Allocator>(
    alloc: A,
    path: &'a str,
    line: u64,
    refusal: Refusal,
) -> StartFault<'a, A>
    ensures { IsToldRefused path.entry line refusal result }
{
    let mut text = Vec::new(alloc);
    match push_refusal(&mut text, refusal) {
        Ok(()) => StartFault::EditRefused(path, line, text),
        Err(_) => StartFault::Run(ToolFault::NoMemory),
    }
}

/// Opens the office that the name names, and serves its desks.
fn at_office<
    'a,
    'h,
    R: Input + Print + Threads + Wait + Sync,
    P: Pipes + Exports + Machine + Sync,
    H: Allocator + Send + Sync,
    K: Clocked + Send + Sync,
    J: Naming<H> + Send + Sync,
>(
    rt: &R,
    disk: &P,
    heap: &'h H,
    name: Name<&'h H>,
    register: Register<'h, H, K>,
    own_files: OwnFiles<&'h H>,
    paths: &[Paths<&'h H>],
) -> Result<(), StartFault<'a, &'h H>>
    requires book { name.book ≡ J.book }
    requires office { J.office
        ≡ record { cards = name.cards; clerks = max (length paths.now) 1; origin = origin_of register.fabric } }
{
    let Register {
        fabric,
        zones,
        journal,
    } = register;
    let text = ready_text(heap, &fabric)?;
    let Ok(reader) = BufReader::new(heap, rt.reader()) else {
        return Err(StartFault::Run(ToolFault::NoMemory));
    };
    let (clerks, windows) = (clerks_of(paths.len()), windows_of(paths.len()));
    let opened = Office::<H, J, &R>::open(rt, heap, name, fabric, clerks, windows);
    let (office, cards, windows) = match opened {
        Ok(opened) => opened,
        Err((_, fault)) => return Err(StartFault::from(fault)),
    };
    let (desks, chair) = seat_all(heap, paths, cards, windows)?;
    let room = Room::new(office, journal, heap, rt);
    let reception = Reception {
        operator: Operator {
            chair,
            zones,
            own_files,
        },
        reader,
        text,
        out: Counted::new(io::writer(rt)),
    };
    serve(room, disk, paths, desks, reception)
}
