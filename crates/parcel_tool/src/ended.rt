//! Why a run ends early.

use crate::units::{Said, word_of_stated};
use city_layers::ToolFault;
use std::alloc::{AllocError, AllocFailed};
use std::fmt;

/// Why a run ends early. Its `Display` is the text that the user sees after `error: `.
#[derive(Drop)]
pub(crate) enum Ended<'a> {
    /// As the run itself says.
    Fault(ToolFault<'a>),
    /// S2: the files of the layer at this path, of so many bytes, were not written.
    Unwritten(&'a str, Sizes),
    /// S6: at the path that is this and this ending stands what goes with another layer.
    Beside(&'a str, &'static str),
    /// U1: the projections of these two layers say different units.
    Units(Said<'a>, Said<'a>),
}

/// How many bytes the files of a layer have.
#[derive(Clone, Copy)]
pub(crate) struct Sizes {
    /// The main file.
    pub(crate) main: usize,
    /// The index.
    pub(crate) index: usize,
}

impl<'a> From<ToolFault<'a>> for Ended<'a> {
    fn from(fault: ToolFault<'a>) -> Ended<'a> {
        Ended::Fault(fault)
    }
}

impl<'a> From<AllocError> for Ended<'a> {
    fn from(_: AllocError) -> Ended<'a> {
        Ended::Fault(ToolFault::NoMemory)
    }
}

impl<'a, T: Drop> From<AllocFailed<T>> for Ended<'a> {
    fn from(_: AllocFailed<T>) -> Ended<'a> {
        Ended::Fault(ToolFault::NoMemory)
    }
}

impl<'a> fmt::Display for Ended<'a> {
    fn fmt<W: fmt::Write>(&self, f: &mut fmt::Formatter<W>) -> fmt::Result {
        match self {
            Ended::Fault(fault) => write!(f, "{fault}"),
            Ended::Unwritten(_, _) => write!(f, "S2"),
            Ended::Beside(base, ending) => write!(f, "S6 {base}{ending}"),
            Ended::Units(first, other) => {
                let (role, stated) = (first.role, word_of_stated(first.stated));
                let (other_role, other_stated) = (other.role, word_of_stated(other.stated));
                write!(f, "U1 {role} {stated} {other_role} {other_stated}")
            }
        }
    }
}
