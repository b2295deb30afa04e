//! Sessions: a register that stays open. Clerks and readers sit at desks, which are pairs of named
//! pipes, each served by a thread of its own: it answers each line before it reads the next. What is
//! answered `ok` stands in the journal on the disk.
#![tactic(auto)]

mod desks;
mod ends;
mod found_journal;
mod journal_file;
mod lines_pipe;
mod offices;
mod operator;
mod own_files;
mod pipes;
mod post;
mod reports;
mod serving;
mod size_limit;
mod start;
mod start_fault;
mod threads;

pub use journal_file::{DiskSynchroniser, Machine};
pub use pipes::Pipes;
pub use reports::Exports;
pub use start::{Plan, serve_session};
pub use start_fault::StartFault;
