//! The journal of a register as a text: a header that names the layer, and two lines for each edit, chained by digests.
//! What is read of a journal is, byte for byte, what was written of these records.
#![tactic(auto)]

mod header;
mod outline;
mod parts;
mod read;
mod record;
mod seal;
mod tails;
mod word;

pub use header::push_header;
pub use outline::push_outline;
pub use read::{JournalFault, Journaled, read_journal};
pub use record::{Record, Stamp, push_record};
pub use seal::{SEAL_BYTES, Seal};
pub use tails::is_two_lines;
pub use word::{WORD_BYTES, split_word};
