//! Digests, as a journal writes them.

ghost use Rattle.std.specs.Prelude.{◌≡◌, ◌++◌, ◌↔◌, IsTrue, IfSome};
ghost use Rattle.journal_records.specs.Journals.{seal_text};

use hex::encode_to_slice;
use sha2::{Digest, Sha256};

/// How many bytes the text of a digest has.
pub const SEAL_BYTES: usize = 64;

/// A SHA-256 as a journal writes it: 64 hexadecimal digits, in lower case.
#[derive(Clone, Copy, Debug, PartialEq, Eq)]
pub struct Seal {
    digits: [u8; 64],
}

impl Seal {
    /// The digest of three texts, one behind the other.
    pub fn of(first: &[u8], second: &[u8], third: &[u8]) -> Seal
        ensures { result.digits ≡ seal_text (first.now ++ second.now ++ third.now) }
    {
        let mut hasher = Sha256::new();
        hasher.update(first);
        hasher.update(second);
        hasher.update(third);
        let digest: [u8; 32] = hasher.finalize();
        let mut digits = [b'0'; 64];
        let _ = encode_to_slice(digest, &mut digits);
        Seal { digits }
    }

    /// Its digits.
    pub fn as_bytes(&self) -> &[u8]
        ensures { result.now ≡ self.now.digits }
    {
        &self.digits
    }
}
