//! The edits of a journal, made again.
#![tactic(auto)]

mod journal_edits;
mod sealed;

pub use journal_edits::{ReplayFault, Replayed, replay};
pub use sealed::seal_of_layer;
