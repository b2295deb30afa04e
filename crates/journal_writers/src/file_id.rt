//! Which file a journal is.

/// A file: its device, and its node there.
#[derive(Clone, Copy, Debug, PartialEq, Eq)]
pub struct FileId {
    /// The number of its device.
    pub device: u64,
    /// The number of its node.
    pub node: u64,
}
