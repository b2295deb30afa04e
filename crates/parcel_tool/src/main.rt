//! `parcel_tool`: exact answers about the parcel layers of a land registry.
#![tactic(auto)]

ghost use Rattle.std.specs.Prelude.{◌≡◌, ◌<◌, ◌≤◌, IfSome};
ghost use Rattle.overlay_work.specs.declared.round.TheConstants.{MOST_HANDS};

mod doubles;
mod ended;
mod ends;
mod explain;
mod extents;
mod file_hints;
mod flaws;
mod hints;
mod known;
mod named;
mod outputs;
mod progress;
mod session_disk;
mod sizes;
mod texts;
mod unitless;
mod units;

use crate::ended::Ended;
use crate::ends::{
    FAULT, REFUSED, end_by_fault, end_by_folder, end_by_refusal, end_by_start, end_run, end_unread,
    tell_hint, tell_layers,
};
use crate::explain::{ExplainFault, explain};
use crate::hints::hint_of;
use crate::named::word_of;
use crate::outputs::{is_folder, write_layer};
use crate::progress::tell;
use crate::session_disk::SessionDisk;
use crate::texts::VERSION;
use crate::unitless::{why_no_unit, with_unit};
use crate::units::{Said, first_clear, first_other, length_of, said_beside};
use area_runs::overlay_areas;
use city_layers::area::area;
use city_layers::{Disk, StandardInput, ToolFault, read_source, read_text};
use clap::Error;
use clap::error::ErrorKind;
use geo_exact::{ByteOut, Counted, Unit};
use overlay_work::MOST_HANDS;
use parcel_runs::check::{check, check_all};
use parcel_runs::export::{Exported, export};
use parcel_runs::locate::{locate, locate_text};
use parcel_runs::overlay::overlay;
use parcel_runs::part::{part, parts};
use parcel_runs::{RunFiles, refuse_many_clerks};
use register_sessions::{Exports, Machine, Pipes, Plan, StartFault, serve_session};
use std::alloc::Global;
use std::fs::File;
use std::io::{Input, IsTerminal};
use std::process::ExitCode;
use std::rt::{Clock, Env, Files};
use std::sync::Wait;
use std::sync::atomic::{AtomicBool, Ordering};
use std::thread::{Scope, Threads};
use std::{env, io, thread};
use text_pieces::put_all;
use tool_arguments::{Districts, Inputs, Points, Request, Session, Wanted, Workers, wants_hints};

/// What is told beside the answers of a run, on standard error.
#[derive(Clone, Copy)]
struct Told {
    /// Hints.
    hints: bool,
    /// That a run goes on.
    progress: bool,
}

fn main(rt: HostRuntime) -> ExitCode {
    let words = match command_line(&rt) {
        Ok(words) => words,
        Err(error) => return end_unread(&rt, &error),
    };
    let progress = rt.stderr().is_terminal();
    let told = Told {
        hints: wants_hints(words.as_slice()) || progress,
        progress,
    };
    match tool_arguments::parse(rt.alloc(), VERSION, words.as_slice()) {
        Ok(request) => answer(&rt, &SessionDisk(&rt), &request, told),
        Err(error) if error.kind() == ErrorKind::MissingRequiredArgument => {
            answer_unitless(&rt, &SessionDisk(&rt), words.as_slice(), &error, told)
        }
        Err(error) => end_by_refusal(&rt, &error),
    }
}

/// The words of the command line, the program's own name first.
fn command_line<R: Env + AllocGlobal>(rt: &R) -> io::Result<Vec<String>> {
    let mut words = Vec::new(rt.alloc());
    for word in env::args(rt)? {
        words.push(word)?;
    }
    Ok(words)
}

/// Answers a command line in which a word is missing. Where that is the unit alone, it is what the projection beside a
/// layer says.
fn answer_unitless<
    R: Files<File = File> + Clock + Input + Print + Eprint + Threads + Wait + Sync + AllocGlobal,
    P: Pipes + Exports + Machine + Sync,
>(rt: &R, disk: &P, words: &[String], error: &Error, told: Told) -> ExitCode {
    let heap = rt.alloc();
    let Ok(metres) = with_unit(heap, words, word_of(Unit::M)) else {
        return end_by_fault(rt, &ToolFault::NoMemory, told.hints);
    };
    let Ok(request) = tool_arguments::parse(heap, VERSION, metres.as_slice()) else {
        return end_by_refusal(rt, error);
    };
    let Ok(said) = said_beside(rt, heap, &request) else {
        return end_by_fault(rt, &ToolFault::NoMemory, told.hints);
    };
    if let Some((first, other)) = find_differing(said.as_slice()) {
        let ended = Ended::Units(first, other);
        return end_run(rt, &request, &ended, told.hints);
    }
    if let Some((unit, first)) = find_unit(said.as_slice()) {
        if told.hints {
            let (word, stem, ending) = (word_of(unit), first.stem, first.ending);
            let _ = eprintln!(rt; "hint: --unit {word} is taken from {stem}{ending}");
        }
        return answer_in(rt, disk, words, unit, told);
    }
    let status = end_by_refusal(rt, error);
    if told.hints {
        tell_hint(rt, why_no_unit(heap, said.as_slice()));
    }
    status
}

/// Two layers whose projections say different units, where there are such.
fn find_differing<'a>(said: &[Said<'a>]) -> Option<(Said<'a>, Said<'a>)> {
    let first = first_clear(said)?;
    let other = first_other(said, first.stated)?;
    Some((first, other))
}

/// The unit that the first projection says that says one clearly, where layers may have it.
fn find_unit<'a>(said: &[Said<'a>]) -> Option<(Unit, Said<'a>)> {
    let first = first_clear(said)?;
    let unit = length_of(first.stated)?;
    Some((unit, first))
}

/// Answers a command line whose unit is this.
fn answer_in<
    R: Files<File = File> + Clock + Input + Print + Eprint + Threads + Wait + Sync + AllocGlobal,
    P: Pipes + Exports + Machine + Sync,
>(rt: &R, disk: &P, words: &[String], unit: Unit, told: Told) -> ExitCode {
    let heap = rt.alloc();
    let Ok(all) = with_unit(heap, words, word_of(unit)) else {
        return end_by_fault(rt, &ToolFault::NoMemory, told.hints);
    };
    match tool_arguments::parse(heap, VERSION, all.as_slice()) {
        Ok(request) => answer(rt, disk, &request, told),
        Err(error) => end_by_refusal(rt, &error),
    }
}

/// Does what the command line asks for. A session's pipes and exports are of the disk.
fn answer<
    R: Files<File = File> + Clock + Input + Print + Eprint + Threads + Wait + Sync + AllocGlobal,
    P: Pipes + Exports + Machine + Sync,
>(rt: &R, disk: &P, request: &Request<'_>, told: Told) -> ExitCode {
    match request {
        Request::Session(session) => answer_session(rt, disk, request, session, told.hints),
        Request::Explain { code } => answer_explain(rt, code.as_slice()),
        Request::Export { base, .. } | Request::Part { base, .. } if is_folder(rt, *base) => {
            end_by_folder(rt, *base)
        }
        Request::Part { districts, .. } if districts.wanted == Wanted::All => {
            // The lines of the districts tell that it goes on.
            answer_all_parts(rt, request, districts, told.hints)
        }
        _ => {
            let done = if told.progress {
                answer_told(rt, request)
            } else {
                answer_once(rt, request)
            };
            end_of(rt, request, done, told.hints)
        }
    }
}

/// Ends a run that was done, or not.
fn end_of<R: Eprint + Files + AllocGlobal>(
    rt: &R,
    request: &Request<'_>,
    done: Result<(), Ended<'_>>,
    hints: bool,
) -> ExitCode {
    if let Err(ended) = done {
        return end_run(rt, request, &ended, hints);
    }
    if hints {
        tell_layers(rt, request);
    }
    ExitCode::SUCCESS
}

/// Does a run that reads files and ends, and tells meanwhile that it goes on.
fn answer_told<'a, R: Files + Clock + Input + Print + Eprint + Threads + Wait + Sync + AllocGlobal>(
    rt: &R,
    request: &Request<'a>,
) -> Result<(), Ended<'a>> {
    let done = AtomicBool::new(false);
    let told = &done;
    thread::scope(thread::scope_env(), rt, move |scope| {
        answer_in_scope(scope, rt, told, request)
    })
}

/// The same in a scope. Where the system refuses a thread, nothing is told.
fn answer_in_scope<
    's,
    'a,
    E,
    R: Files + Clock + Input + Print + Eprint + Threads + Wait + Sync + AllocGlobal,
>(
    scope: &'s Scope<'s, E>,
    rt: &'s R,
    done: &'s AtomicBool,
    request: &Request<'a>,
) -> Result<(), Ended<'a>> {
    let teller = scope.spawn(move || tell(rt, done));
    let answer = answer_once(rt, request);
    done.store(true, Ordering::SeqCst);
    if let Ok(handle) = teller {
        handle.join(rt);
    }
    answer
}

/// Does a run that reads files and ends, and writes what it says to standard output.
fn answer_once<'a, R: Files + Input + Print + Threads + Wait + Sync + AllocGlobal>(
    rt: &R,
    request: &Request<'a>,
) -> Result<(), Ended<'a>> {
    let mut out = Counted::new(io::writer(rt));
    answer_run(rt, request, &mut out)
}

/// Does a run that reads files and ends.
fn answer_run<'a, R: Files + Input + Threads + Wait + Sync + AllocGlobal, W: ByteOut>(
    rt: &R,
    request: &Request<'a>,
    out: &mut W,
) -> Result<(), Ended<'a>> {
    match request {
        Request::Area { main, unit } => answer_area(rt, *main, *unit, out)?,
        Request::Check { inputs, all } => answer_check(rt, inputs, *all, out)?,
        Request::Export {
            inputs,
            base,
            force,
        } => answer_export(rt, inputs, (*base, *force), out)?,
        Request::Locate { inputs, points } => answer_locate(rt, inputs, points, out)?,
        Request::Overlay {
            inputs,
            zones,
            areas,
        } => answer_overlay(rt, inputs, *zones, *areas, out)?,
        Request::Part {
            districts,
            base,
            force,
        } => match districts.wanted {
            Wanted::One(id) => answer_part(rt, districts, id, (*base, *force), out)?,
            Wanted::All => {}
        },
        Request::Session(_) | Request::Explain { .. } => {}
    }
    Ok(())
}

/// Tells the areas of a layer's rings.
fn answer_area<'a, R: Files + AllocGlobal, W: ByteOut>(
    rt: &R,
    main: &'a str,
    unit: Unit,
    out: &mut W,
) -> Result<(), ToolFault<'a>> {
    let heap = rt.alloc();
    let source = read_source(&Disk(rt), heap, main)?;
    area(heap, &source, unit, out)
}

/// Tells whether parcels tile their city, or, where all is asked for, all faults.
fn answer_check<'a, R: Files + Threads + Wait + Sync + AllocGlobal, W: ByteOut>(
    rt: &R,
    inputs: &Inputs<'a>,
    all: bool,
    out: &mut W,
) -> Result<(), ToolFault<'a>> {
    let heap = rt.alloc();
    let files = read_inputs(rt, inputs)?;
    let workers = worker_count(rt, inputs.workers);
    if all {
        check_all(rt, workers, &heap, &files, out)
    } else {
        check(rt, workers, &heap, &files, out)
    }
}

/// Writes the parcels that tile their city anew.
fn answer_export<'a, R: Files + Threads + Wait + Sync + AllocGlobal, W: ByteOut>(
    rt: &R,
    inputs: &Inputs<'a>,
    written: (&'a str, bool),
    out: &mut W,
) -> Result<(), Ended<'a>> {
    let heap = rt.alloc();
    let (base, force) = written;
    let files = read_inputs(rt, inputs)?;
    let exported = export(rt, worker_count(rt, inputs.workers), &heap, &files)?;
    write_layer(rt, heap, base, force, (&exported.main, &exported.index))?;
    match put_all(&exported.lines, out) {
        Ok(()) => Ok(()),
        Err(failed) => Err(Ended::Fault(ToolFault::from(failed))),
    }
}

/// Keeps a register open until it is closed.
fn answer_session<
    'a,
    R: Files<File = File> + Input + Print + Eprint + Threads + Wait + Sync + AllocGlobal,
    P: Pipes + Exports + Machine + Sync,
>(rt: &R, disk: &P, request: &'a Request<'a>, session: &'a Session<'a>, hints: bool) -> ExitCode {
    let heap = rt.alloc();
    let Ok(desks) = Vec::from_slice(heap, session.desks.as_slice()) else {
        return end_by_fault(rt, &ToolFault::NoMemory, hints);
    };
    let plan = Plan {
        city: session.city,
        parcels: session.parcels,
        zones: session.zones,
        unit: session.unit,
        journal: session.journal,
        clerk: session.clerk,
        desks,
        workers: worker_count(rt, session.workers),
    };
    match serve_session(rt, disk, &heap, &plan) {
        Ok(()) => ExitCode::SUCCESS,
        Err(StartFault::Run(fault)) => end_run(rt, request, &Ended::Fault(fault), hints),
        Err(fault) => end_by_start(rt, session, &fault, hints),
    }
}

/// Tells where points lie.
fn answer_locate<'a, R: Files + Input + Threads + Wait + Sync + AllocGlobal, W: ByteOut>(
    rt: &R,
    inputs: &Inputs<'a>,
    points: &Points<'a>,
    out: &mut W,
) -> Result<(), ToolFault<'a>> {
    let heap = rt.alloc();
    let files = read_inputs(rt, inputs)?;
    let workers = worker_count(rt, inputs.workers);
    match points {
        Points::At(corners) => locate(rt, workers, &heap, &files, corners.as_slice(), out),
        Points::File(path) => {
            let text = read_points(rt, *path)?;
            locate_text(rt, workers, &heap, &files, &text, out)
        }
    }
}

/// Tells which parcels and which zones overlap.
fn answer_overlay<'a, R: Files + Threads + Wait + Sync + AllocGlobal, W: ByteOut>(
    rt: &R,
    inputs: &Inputs<'a>,
    zones: &'a str,
    areas: bool,
    out: &mut W,
) -> Result<(), ToolFault<'a>> {
    let heap = rt.alloc();
    refuse_many_clerks(inputs.clerks.len())?;
    let city = read_source(&Disk(rt), heap, inputs.city)?;
    let parcels = read_source(&Disk(rt), heap, inputs.parcels)?;
    let zones = read_source(&Disk(rt), heap, zones)?;
    let files = RunFiles {
        city,
        parcels,
        unit: inputs.unit,
        clerks: read_clerks(rt, inputs)?,
    };
    let workers = worker_count(rt, inputs.workers);
    if areas {
        overlay_areas(rt, workers, &heap, &files, &zones, out)
    } else {
        overlay(rt, workers, &heap, &files, &zones, out)
    }
}

/// Writes one district as a layer of its own.
fn answer_part<'a, R: Files + Threads + Sync + AllocGlobal, W: ByteOut>(
    rt: &R,
    asked: &Districts<'a>,
    id: u64,
    written: (&'a str, bool),
    out: &mut W,
) -> Result<(), Ended<'a>> {
    let heap = rt.alloc();
    let (base, force) = written;
    let city = read_source(&Disk(rt), heap, asked.city)?;
    let districts = read_source(&Disk(rt), heap, asked.districts)?;
    let workers = worker_count(rt, asked.workers);
    let done = part(rt, workers, &heap, &city, &districts, asked.unit, id)?;
    write_layer(rt, heap, base, force, (&done.main, &done.index))?;
    match put_all(&done.lines, out) {
        Ok(()) => Ok(()),
        Err(failed) => Err(Ended::Fault(ToolFault::from(failed))),
    }
}

/// Writes each district as a layer of its own, by ascending number, with its line once its files are there. The
/// first that can't be written ends the run, and is named.
fn answer_all_parts<'a, R: Files + Print + Eprint + Threads + Sync + AllocGlobal>(
    rt: &R,
    request: &Request<'a>,
    asked: &Districts<'a>,
    hints: bool,
) -> ExitCode {
    let heap = rt.alloc();
    let mut out = Counted::new(io::writer(rt));
    let parts = match all_parts(rt, &heap, asked) {
        Ok(parts) => parts,
        Err(fault) => return end_run(rt, request, &Ended::Fault(fault), hints),
    };
    for (id, part) in parts.as_slice() {
        if let Err(status) = write_part(rt, request, *id, part, hints) {
            return status;
        }
        if put_all(&part.lines, &mut out).is_err() {
            return end_run(rt, request, &Ended::Fault(ToolFault::Output), hints);
        }
    }
    ExitCode::SUCCESS
}

/// What is written of each district.
fn all_parts<'a, 'h, R: Files + Threads + Sync + AllocGlobal>(
    rt: &R,
    heap: &'h Global,
    asked: &Districts<'a>,
) -> Result<Vec<(u64, Exported<&'h Global>), &'h Global>, ToolFault<'a>> {
    let city = read_source(&Disk(rt), *heap, asked.city)?;
    let districts = read_source(&Disk(rt), *heap, asked.districts)?;
    let workers = worker_count(rt, asked.workers);
    parts(rt, workers, heap, &city, &districts, asked.unit)
}

/// Writes the files of one district of all, BASE-ID.shp and BASE-ID.shx. Where that fails it is told, and the status is
/// answered.
fn write_part<'h, R: Files + Eprint + AllocGlobal>(
    rt: &R,
    request: &Request<'_>,
    id: u64,
    part: &Exported<&'h Global>,
    hints: bool,
) -> Result<(), ExitCode> {
    let heap = rt.alloc();
    let Request::Part { base, force, .. } = request else {
        return Ok(());
    };
    let Ok(path) = format!(in heap; "{base}-{id}") else {
        let _ = eprintln!(rt; "error: no memory district {id}");
        return Err(ExitCode::from(FAULT));
    };
    let Err(ended) = write_layer(rt, heap, path.as_str(), *force, (&part.main, &part.index)) else {
        return Ok(());
    };
    let _ = eprintln!(rt; "error: {ended} district {id}");
    if hints {
        tell_hint(rt, hint_of(rt, heap, request, &ended));
    }
    Err(ExitCode::from(FAULT))
}

/// How many threads share the work: so many as were asked for, else one for each processor, at most 64.
fn worker_count(rt: &impl Threads, asked: Option<Workers>) -> usize
    ensures asked { IfSome asked (λ workers. result ≡ workers.count) }
    ensures some { 0 < result }
    ensures few { result ≤ MOST_HANDS }
{
    if let Some(workers) = asked {
        return workers.count;
    }
    match thread::available_parallelism(rt) {
        Ok(count) => count.get().min(MOST_HANDS),
        Err(_) => 1,
    }
}

/// Reads the files of a run about parcels: the city's, the parcels', and the clerks'. None is
/// opened where there are more clerks' files than a run takes.
fn read_inputs<'a, R: Files + AllocGlobal>(
    rt: &R,
    inputs: &Inputs<'a>,
) -> Result<RunFiles<Global>, ToolFault<'a>> {
    refuse_many_clerks(inputs.clerks.len())?;
    let alloc = rt.alloc();
    let city = read_source(&Disk(rt), alloc, inputs.city)?;
    let parcels = read_source(&Disk(rt), alloc, inputs.parcels)?;
    let clerks = read_clerks(rt, inputs)?;
    Ok(RunFiles {
        city,
        parcels,
        unit: inputs.unit,
        clerks,
    })
}

/// Reads the clerks' files, in their order.
fn read_clerks<'a, R: Files + AllocGlobal>(
    rt: &R,
    inputs: &Inputs<'a>,
) -> Result<Vec<Vec<u8>>, ToolFault<'a>> {
    let alloc = rt.alloc();
    let mut clerks = Vec::new(alloc);
    for path in inputs.clerks.as_slice() {
        clerks.push(read_text(&Disk(rt), alloc, *path)?)?;
    }
    Ok(clerks)
}

/// The text of points at a path; `-` is standard input.
fn read_points<'a, R: Files + Input + AllocGlobal>(
    rt: &R,
    path: &'a str,
) -> Result<Vec<u8>, ToolFault<'a>> {
    if path == "-" {
        read_text(&StandardInput(rt), rt.alloc(), path)
    } else {
        read_text(&Disk(rt), rt.alloc(), path)
    }
}

/// Says what a code means; without one, lists all.
fn answer_explain<R: Print + Eprint + AllocGlobal>(rt: &R, words: &[&str]) -> ExitCode {
    let mut out = Counted::new(io::writer(rt));
    match explain(rt.alloc(), words, &mut out) {
        Ok(()) => ExitCode::SUCCESS,
        Err(ExplainFault::Output) => end_by_fault(rt, &ToolFault::Output, false),
        Err(ExplainFault::Unknown) => {
            let _ = eprintln!(rt; "error: there is no such code; `parcel_tool explain` lists all");
            ExitCode::from(REFUSED)
        }
    }
}
