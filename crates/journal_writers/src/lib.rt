//! A journal as it is written to its file: what a call adds is exactly a record, and a journal that could not be
//! written once is never written again.
#![tactic(auto)]

mod draft;
mod file;
mod file_id;
mod synced;
mod writer;

pub use draft::Draft;
pub use file::{FileFailed, JournalFile};
pub use file_id::FileId;
pub use synced::{DiskHas, OnDisk, Synced, Synchroniser, Written, sync};
pub use writer::JournalWriter;
