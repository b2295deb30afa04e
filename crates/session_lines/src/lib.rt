//! The lines of a session as texts: what a line asks for, and what is answered to it.
//!
//! Each call that answers adds one line behind what the sink has taken, byte for byte as stated, or answers that the
//! sink failed; a beginning of the line may have been taken then.
#![tactic(auto)]

mod edits;
mod faults;
mod line;
mod questions;
mod states;

pub use edits::{push_accepted, push_refused};
pub use faults::{SessionFault, push_error, push_failure};
pub use line::{Line, read_line};
pub use questions::{push_entries, push_located, push_no_parcel, push_parcel};
pub use states::{push_closed, push_end, push_published, push_ready, push_skipped};
