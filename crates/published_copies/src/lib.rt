//! Copies of a value that follows a list of entries, published by one writer, and read without waiting.
#![tactic(auto)]

mod copies;
mod publisher;
mod shown;
mod version;

pub use publisher::Publisher;
pub use shown::Shown;
pub use version::{Enqueued, Follows, Version};
