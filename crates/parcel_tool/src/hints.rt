//! Hints: what is known of why a run ended early, in a line of words.

use crate::ended::Ended;
use crate::explain::{words_in, words_of_code};
use crate::file_hints::{known_of_city, known_of_file};
use crate::flaws::{flaw_of, line_of, words_of_flaw};
use crate::known::{Known, cause, hint_with, mend};
use crate::named::{clerk_of, is_of_standard_input, path_of, points_of, unit_of};
use crate::outputs::{folder_of, is_regular, why_unwritten};
use crate::unitless::words_of_differing;
use city_layers::{Disk, ToolFault, read_text};
use geo_exact::FILE_BYTES;
use register_sessions::StartFault;
use std::alloc::{AllocError, Allocator, Global};
use std::fs::File;
use std::io::ErrorKind;
use std::rt::Files;
use tool_arguments::{Request, Session};

/// What to do about a file that is too long.
const SHORTER: &str = "give a file of at most 64 MiB";

/// What stands behind `hint: ` for a run that ended early; `None` where memory is refused. The files are read again.
pub(crate) fn hint_of<R: Files>(
    rt: &R,
    alloc: Global,
    request: &Request<'_>,
    ended: &Ended<'_>,
) -> Option<String> {
    let text = format!(in alloc; "{ended}").ok()?;
    let words = words_in(text.as_str())?;
    let known = known_of(rt, alloc, request, ended).ok()?;
    hint_with(alloc, &words, &known).ok()
}

/// The same for a fault of which nothing is read again.
pub(crate) fn hint_of_fault(alloc: Global, fault: &ToolFault<'_>) -> Option<String> {
    let text = format!(in alloc; "{fault}").ok()?;
    let words = words_in(text.as_str())?;
    hint_with(alloc, &words, &Known::Nothing).ok()
}

/// The same for a session that did not start.
pub(crate) fn hint_of_start<R: Files, A: Allocator>(
    rt: &R,
    alloc: Global,
    session: &Session<'_>,
    fault: &StartFault<'_, A>,
) -> Option<String> {
    let words = words_of_code(code_of_start(session, fault)?)?;
    let known = match fault {
        StartFault::JournalUnreadable(path) => state_of_journal(rt, alloc, *path).ok()?,
        _ => Known::Nothing,
    };
    hint_with(alloc, &words, &known).ok()
}

/// The code of why a session does not start. It is not looked for in the text, in which a path may be named as a code.
fn code_of_start<A: Allocator>(
    session: &Session<'_>,
    fault: &StartFault<'_, A>,
) -> Option<&'static str> {
    match fault {
        StartFault::Run(_) => None,
        StartFault::NoPipe(_, _) => Some("S4"),
        StartFault::JournalUnreadable(_) => Some("S1"),
        StartFault::JournalInUse(_) => Some("in use"),
        StartFault::NoJournal(_) => Some("no journal"),
        StartFault::OtherLayer(_) => Some("another layer"),
        StartFault::JournalChanged(_, _) => Some("changed"),
        StartFault::JournalBegun(_) => Some("not empty"),
        // The words of the code are those of a journal's edit.
        StartFault::EditRefused(path, _, _) if session.journal == Some(*path) => Some("refused"),
        StartFault::EditRefused(_, _, _) => None,
    }
}

/// What is known of why a run ended early, beside the words of its code.
fn known_of<R: Files>(
    rt: &R,
    alloc: Global,
    request: &Request<'_>,
    ended: &Ended<'_>,
) -> Result<Known, AllocError> {
    match ended {
        Ended::Unwritten(base, sizes) => why_unwritten(rt, alloc, *base, *sizes),
        Ended::Beside(base, ending) => {
            let known = format!(in alloc; "{base}{ending} stands there")?;
            Ok(Known::Cause(known))
        }
        Ended::Units(first, other) => {
            let known = words_of_differing(alloc, first, other)?;
            Ok(Known::Cause(known))
        }
        Ended::Fault(fault) => known_of_fault(rt, alloc, request, fault),
    }
}

/// What is known of a fault of a run.
fn known_of_fault<R: Files>(
    rt: &R,
    alloc: Global,
    request: &Request<'_>,
    fault: &ToolFault<'_>,
) -> Result<Known, AllocError> {
    match fault {
        ToolFault::Unreadable(path) => known_of_path(rt, alloc, request, *path),
        ToolFault::UnreadableIndex(stem) => {
            let path = format!(in alloc; "{stem}.shx")?;
            state_of(rt, alloc, path.as_str())
        }
        ToolFault::Output => cause(alloc, "standard output takes no more"),
        ToolFault::File(role, fault) => match path_of(request, *role) {
            Some(path) => known_of_file(rt, alloc, (path, unit_of(request)), fault),
            None => Ok(Known::Nothing),
        },
        ToolFault::CityCount(count) => known_of_city(rt, alloc, request, *count),
        ToolFault::ClerkLine(clerk, line) => {
            known_of_line(rt, alloc, clerk_of(request, *clerk), *line)
        }
        ToolFault::PointLine(line) => known_of_line(rt, alloc, points_of(request), *line as u64),
        _ => Ok(Known::Nothing),
    }
}

/// What is known of an input of this path that is not read.
fn known_of_path<R: Files>(
    rt: &R,
    alloc: Global,
    request: &Request<'_>,
    path: &str,
) -> Result<Known, AllocError> {
    if path == "-" && is_of_standard_input(request) {
        return mend(
            alloc,
            "it is standard input",
            "give at most 64 MiB there, or the path of a file",
        );
    }
    state_of(rt, alloc, path)
}

/// Why the file at a path is not read, as far as the system says.
fn state_of<R: Files>(rt: &R, alloc: Global, path: &str) -> Result<Known, AllocError> {
    match rt.metadata(path) {
        Ok(metadata) if metadata.is_dir() => cause(alloc, "it is a folder"),
        Ok(metadata) if !metadata.is_file() => mend(
            alloc,
            "it is a pipe, a socket or a device",
            "give a regular file of at most 64 MiB",
        ),
        Ok(metadata) if metadata.len() > FILE_BYTES as u64 => {
            mend(alloc, "it is longer than 64 MiB", SHORTER)
        }
        Ok(_) => match File::open(rt, path) {
            Err(error) if error.kind() == ErrorKind::PermissionDenied => {
                cause(alloc, "there is no right to read it")
            }
            _ => Ok(Known::NotUsual),
        },
        Err(error) => match error.kind() {
            ErrorKind::NotFound => cause(alloc, "there is no such file"),
            ErrorKind::NotADirectory => cause(alloc, "a folder in its path is a file"),
            ErrorKind::PermissionDenied => cause(alloc, "there is no right to enter its folder"),
            _ => Ok(Known::NotUsual),
        },
    }
}

/// Why the journal at a path is not read. Where none is there it is not made.
fn state_of_journal<R: Files>(rt: &R, alloc: Global, path: &str) -> Result<Known, AllocError> {
    match rt.symlink_metadata(path) {
        Err(error) if error.kind() == ErrorKind::NotFound => {}
        _ => return state_of(rt, alloc, path),
    }
    let folder = folder_of(path);
    match rt.metadata(folder) {
        Err(error) if error.kind() == ErrorKind::NotFound => {
            let known = format!(in alloc; "there is no folder {folder}")?;
            Ok(Known::Cause(known))
        }
        _ => Ok(Known::NotUsual),
    }
}

/// What is wrong in a line, from 1, of the file at a path. Where that can be read, and the line has none of the flaws
/// that are known, no usual cause is told.
fn known_of_line<R: Files>(
    rt: &R,
    alloc: Global,
    path: Option<&str>,
    line: u64,
) -> Result<Known, AllocError> {
    let Some(path) = path else {
        return Ok(Known::Nothing);
    };
    // A pipe has been read to its end, and is not opened once more.
    if !is_regular(rt, path) {
        return Ok(Known::Nothing);
    }
    let Ok(text) = read_text(&Disk(rt), alloc, path) else {
        return Ok(Known::Nothing);
    };
    let Some(found) = line_of(text.as_slice(), line) else {
        return Ok(Known::Nothing);
    };
    match flaw_of(found) {
        Some(flaw) => {
            let words = words_of_flaw(flaw);
            let known = format!(in alloc; "line {line} of {path} {words}")?;
            Ok(Known::Cause(known))
        }
        None => Ok(Known::NotUsual),
    }
}
