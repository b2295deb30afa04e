//! The core of a session: the room that its desks share, what is answered to their lines, and the register
//! and the journal with which it begins. It opens no file and starts no thread of a desk: the journal's file
//! is any [`JournalFile`](journal_writers::JournalFile), and lines come from any reader.
#![tactic(auto)]

mod answers;
mod begin;
mod clerk_edits;
mod door;
mod journal;
mod lines;
mod room;

pub use answers::{Asked, Chair, answer, answer_asked, read_asked};
pub use begin::{BeginFault, Begun, Sources, begin_register, begin_writer, ready_text};
pub use clerk_edits::{EDITS_CLERK, EditsFault, add_entries, make_edits};
pub use door::Door;
pub use journal::{Clocked, Journal, time_of};
pub use lines::{Came, LINE_BYTES, has_line, next_line};
pub use room::{Drawn, EditFault, Made, Room};
