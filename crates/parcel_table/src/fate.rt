//! What becomes of a table's parcels in an edit: which go, and which come.

/// What has become of an id. Where of two parcels 1 and 2 entry 1 of a fabric has made the parcel 3, the ids 1 and 2
/// are retired by 1, 3 is here, and 4 is unknown.
#[derive(Clone, Copy, Debug, PartialEq, Eq)]
pub enum Fate {
    /// No parcel has it, and none was retired under it.
    Unknown,
    /// Its parcel was retired, by this number.
    Retired(u64),
    /// Its parcel is here, under this key.
    Here(usize),
}
