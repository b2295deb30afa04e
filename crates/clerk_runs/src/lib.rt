//! The files of clerks' edits, which all clerks make at the same time on one fabric, each in a
//! thread of their own at one office.
#![tactic(auto)]

mod files;
mod job;
mod jobs;
mod laws;
mod lines;
mod locating;
mod place_texts;
mod runs;

pub use files::{ClerkEdits, FilesFault, read_clerks};
pub use laws::{with_one_clerk_a_refusal_is_due_after_his_entries, without_clerks_nothing_changes};
pub use lines::{push_refusal, refusal_pieces};
pub use place_texts::{place_pieces, push_place};
pub use runs::{Edited, RunFault, edit_by_clerks};
