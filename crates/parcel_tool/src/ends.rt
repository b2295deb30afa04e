//! How a run ends: what is told on standard error, and the status.

use crate::ended::Ended;
use crate::hints::{hint_of, hint_of_fault, hint_of_start};
use crate::sizes::size_of;
use crate::unitless::other_unit;
use city_layers::{Disk, ToolFault, read_source};
use clap::Error;
use clap::error::ErrorKind;
use register_sessions::StartFault;
use std::alloc::Allocator;
use std::io;
use std::process::ExitCode;
use std::rt::Files;
use tool_arguments::{Request, Session};

/// The status of a run that a fault ended.
pub(crate) const FAULT: u8 = 1;

/// The status of a run whose command line was refused.
pub(crate) const REFUSED: u8 = 2;

/// Ends a run early, and says why; where hints are wanted, with what the files of the request tell of it.
pub(crate) fn end_run<R: Eprint + Files + AllocGlobal>(
    rt: &R,
    request: &Request<'_>,
    ended: &Ended<'_>,
    hints: bool,
) -> ExitCode {
    // Where standard error fails too there is nobody left to tell.
    let _ = eprintln!(rt; "error: {ended}");
    if hints {
        tell_hint(rt, hint_of(rt, rt.alloc(), request, ended));
        // Where the projections differ no unit was given.
        if !matches!(ended, Ended::Units(_, _)) {
            tell_hint(rt, other_unit(rt, rt.alloc(), request));
        }
    }
    ExitCode::from(FAULT)
}

/// Ends a run early, and says why; in words, too, where hints are wanted.
pub(crate) fn end_by_fault<R: Eprint + AllocGlobal>(
    rt: &R,
    fault: &ToolFault<'_>,
    hints: bool,
) -> ExitCode {
    let _ = eprintln!(rt; "error: {fault}");
    if hints {
        tell_hint(rt, hint_of_fault(rt.alloc(), fault));
    }
    ExitCode::from(FAULT)
}

/// Ends a session that did not start, and says why; in words, too, where hints are wanted.
pub(crate) fn end_by_start<R: Eprint + Files + AllocGlobal, A: Allocator>(
    rt: &R,
    session: &Session<'_>,
    fault: &StartFault<'_, A>,
    hints: bool,
) -> ExitCode {
    let _ = eprintln!(rt; "error: {fault}");
    if hints {
        tell_hint(rt, hint_of_start(rt, rt.alloc(), session, fault));
    }
    ExitCode::from(FAULT)
}

/// Tells what a run that was done says nothing of: the size of a city that was checked, and a unit that a projection
/// gainsays.
pub(crate) fn tell_layers<R: Eprint + Files + AllocGlobal>(rt: &R, request: &Request<'_>) {
    if let Request::Check { inputs, .. } = request {
        if let Ok(source) = read_source(&Disk(rt), rt.alloc(), inputs.city) {
            if let Ok(size) = size_of(rt.alloc(), &source, inputs.unit) {
                tell_hint(rt, size);
            }
        }
    }
    tell_hint(rt, other_unit(rt, rt.alloc(), request));
}

/// Prints a hint, where there is one.
pub(crate) fn tell_hint<R: Eprint>(rt: &R, hint: Option<String>) {
    if let Some(hint) = hint {
        let _ = eprintln!(rt; "hint: {hint}");
    }
}

/// Ends a run that would write beside a folder of the name that was given.
pub(crate) fn end_by_folder<R: Eprint>(rt: &R, base: &str) -> ExitCode {
    let _ = eprintln!(rt;
        "error: --out takes a path to which .shp and .shx are added, and {base} is a folder"
    );
    ExitCode::from(REFUSED)
}

/// Ends a run whose words ask for nothing to be done: prints the help or the version, or why the words are refused.
pub(crate) fn end_by_refusal<R: Print + Eprint + AllocGlobal>(rt: &R, error: &Error) -> ExitCode {
    if error.kind() == ErrorKind::OutOfMemory {
        return end_by_fault(rt, &ToolFault::NoMemory, false);
    }
    let printed = error.print(rt);
    if error.use_stderr() {
        ExitCode::from(REFUSED)
    } else if printed.is_ok() {
        ExitCode::SUCCESS
    } else {
        end_by_fault(rt, &ToolFault::Output, false)
    }
}

/// Ends a run whose words could not be read.
pub(crate) fn end_unread<R: Eprint + AllocGlobal>(rt: &R, error: &io::Error) -> ExitCode {
    if error.kind() == io::ErrorKind::OutOfMemory {
        return end_by_fault(rt, &ToolFault::NoMemory, false);
    }
    let _ = eprintln!(rt; "error: a word of the command line is not UTF-8 text");
    ExitCode::from(REFUSED)
}
