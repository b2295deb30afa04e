//! Streams of bytes that are read and written one by one.

ghost use Rattle.std.specs.Prelude.{◌≡◌, ℕ, ◌<◌, ◌≤◌, ⊤, List, length, None, Option, Result, IfOk};
ghost use Rattle.geo_exact.specs.Bytes.{Pulls, Puts, counted};

pub mod counted;
pub mod fail_at;

/// A reader or a writer failed.
#[derive(Clone, Copy, Debug, PartialEq, Eq)]
pub struct Failed;

/// A reader of bytes that counts its failures.
pub trait ByteIn {
    ghost use Rattle.geo_exact.specs.declared.bytes.Failed.{Failed};

    // The bytes that it still holds, where it tells them.
    ghost remaining: { Self → Option (List ℕ) } = { λ _. None };

    ghost failure_count: { Self → ℕ };

    // What a call may give: the reader and the buffer before it, the answer, the reader and the buffer
    // after it. A reader that says no more than the clauses of `pull` leaves it out.
    ghost pull_gives: { Self → List ℕ → Result ℕ Failed → Self → List ℕ → Type 0 } = { λ _ _ _ _ _. ⊤ };

    /// Fills the buffer's front with the next bytes, and answers their number: 0 only at the
    /// reader's end or for an empty buffer. A failure takes no byte.
    fn pull(&mut self, buffer: &mut [u8]) -> Result<usize, Failed>
        ensures bound { IfOk result (λ n. n ≤ length buffer.new) }
        ensures bytes { Pulls (remaining self.old) (remaining self.new) result buffer.new }
        ensures failures { failure_count self.new ≡ counted result (failure_count self.old) }
        ensures gives { pull_gives self.old buffer.old result self.new buffer.new };

    /// How many pulls failed; at the greatest number it stays.
    fn failures(&self) -> u64
        ensures { result ≡ failure_count self.now };
}

/// A writer of bytes that counts its failures.
pub trait ByteOut {
    ghost use Rattle.geo_exact.specs.declared.bytes.Failed.{Failed};

    // The bytes that were written, where it tells them.
    ghost written: { Self → Option (List ℕ) } = { λ _. None };

    ghost failure_count: { Self → ℕ };

    // What a call may give: the writer before it, the bytes, the answer, the writer after it. A writer
    // that says no more than the clauses of `put` leaves it out.
    ghost put_gives: { Self → List ℕ → Result ℕ Failed → Self → Type 0 } = { λ _ _ _ _. ⊤ };

    /// Writes the first of the bytes, and answers their number: 0 only for no bytes. A failure
    /// writes none.
    fn put(&mut self, bytes: &[u8]) -> Result<usize, Failed>
        ensures bound { IfOk result (λ n. n ≤ length bytes.now) }
        ensures progress { IfOk result (λ n. 0 < length bytes.now → 0 < n) }
        ensures bytes { Puts (written self.old) (written self.new) result bytes.now }
        ensures failures { failure_count self.new ≡ counted result (failure_count self.old) }
        ensures gives { put_gives self.old bytes.now result self.new };

    /// How many puts failed; at the greatest number it stays.
    fn failures(&self) -> u64
        ensures { result ≡ failure_count self.now };
}
