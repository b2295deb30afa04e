//! Why a session does not start, and the text that the user sees.

ghost use Rattle.std.specs.Prelude.{◌≡◌, ◌⊎◌, ℕ};
ghost use Rattle.city_layers.specs.declared.fault.ToolFault.TheVariants.{ClerkCount, NoMemory, NoWindow};
ghost use Rattle.desk_lock.specs.declared.opening.OpenFault.TheVariants.{Places, NoWindow as NoReader};
ghost use Rattle.desk_lock.specs.declared.opening.OpenFault.TheVariants.{NoMemory as NoRoom};
ghost use Rattle.register_sessions.specs.declared.start_fault.StartFault.TheVariants.{Run};

use city_layers::ToolFault;
use desk_lock::OpenFault;
use std::alloc::{AllocError, AllocFailed, Allocator};
use std::fmt;

/// Why a session does not start. Its `Display` is the text that the user sees after `error: `.
#[derive(Drop)]
pub enum StartFault<'a, A: Allocator> {
    /// As the other commands end: what cannot be loaded, K1 for more than 8 desks, K3, O7, or an
    /// allocation that failed.
    Run(ToolFault<'a>),
    /// S4: at the path that is this desk's name and this ending is no named pipe, or one that is another of the pipes
    /// or that every user can read or write; or the desk's lock is held by another session, or can't be made.
    NoPipe(&'a str, &'static str),
    /// S1: the journal at this path can't be opened, made or read, or is no regular file.
    JournalUnreadable(&'a str),
    /// Another session holds the journal at this path.
    JournalInUse(&'a str),
    /// The file at this path is not empty, and no journal. It is not touched.
    NoJournal(&'a str),
    /// The journal at this path was begun with another layer.
    OtherLayer(&'a str),
    /// Of the journal at this path the line of this number, from 1, or the one behind it, is not as it was written.
    JournalChanged(&'a str, u64),
    /// Of the journal, or of the clerk's file, at this path the edit in the line of this number, from 1, is refused,
    /// for what the text says.
    EditRefused(&'a str, u64, Vec<u8, A>),
    /// The journal at this path was to begin with a clerk's file, and is not empty.
    JournalBegun(&'a str),
}

impl<'a, A: Allocator> From<ToolFault<'a>> for StartFault<'a, A> {
    ghost from_gives = { λ fault start. start ≡ Run fault };

    fn from(fault: ToolFault<'a>) -> StartFault<'a, A> {
        StartFault::Run(fault)
    }
}

// A session has a clerk for each desk.
impl<'a, A: Allocator> From<OpenFault> for StartFault<'a, A> {
    ghost from_gives = { λ fault start.
        ((count : ℕ) × (fault ≡ Places count) × (start ≡ Run (ClerkCount count)))
        ⊎ ((window : ℕ) × (fault ≡ NoReader window) × (start ≡ Run (NoWindow window)))
        ⊎ ((fault ≡ NoRoom) × (start ≡ Run NoMemory)) };

    fn from(fault: OpenFault) -> StartFault<'a, A> {
        match fault {
            OpenFault::Places(count) => StartFault::Run(ToolFault::ClerkCount(count)),
            OpenFault::NoWindow(window) => StartFault::Run(ToolFault::NoWindow(window)),
            OpenFault::NoMemory => StartFault::Run(ToolFault::NoMemory),
        }
    }
}

impl<'a, A: Allocator> From<AllocError> for StartFault<'a, A> {
    ghost from_gives = { λ _ start. start ≡ Run NoMemory };

    fn from(_: AllocError) -> StartFault<'a, A> {
        StartFault::Run(ToolFault::NoMemory)
    }
}

impl<'a, A: Allocator, T: Drop> From<AllocFailed<T>> for StartFault<'a, A> {
    ghost from_gives = { λ _ start. start ≡ Run NoMemory };

    fn from(_: AllocFailed<T>) -> StartFault<'a, A> {
        StartFault::Run(ToolFault::NoMemory)
    }
}

impl<'a, A: Allocator> fmt::Display for StartFault<'a, A> {
    fn fmt<W: fmt::Write>(&self, f: &mut fmt::Formatter<W>) -> fmt::Result {
        match self {
            StartFault::Run(fault) => write!(f, "{fault}"),
            StartFault::NoPipe(name, ending) => write!(f, "S4 {name}{ending}"),
            StartFault::JournalUnreadable(path) => write!(f, "{path}: S1"),
            StartFault::JournalInUse(path) => write!(f, "{path}: in use"),
            StartFault::NoJournal(path) => write!(f, "{path}: no journal"),
            StartFault::OtherLayer(path) => write!(f, "{path}: another layer"),
            StartFault::JournalChanged(path, line) => write!(f, "{path} line {line}: changed"),
            StartFault::JournalBegun(path) => write!(f, "{path}: not empty"),
            StartFault::EditRefused(path, line, text) => {
                write!(f, "{path} line {line}: refused ")?;
                write_bytes(f, text.as_slice())
            }
        }
    }
}

/// Writes a text of ASCII bytes.
fn write_bytes<W: fmt::Write>(f: &mut fmt::Formatter<W>, text: &[u8]) -> fmt::Result {
    for byte in text {
        f.write_char(char::from(*byte))?;
    }
    Ok(())
}
