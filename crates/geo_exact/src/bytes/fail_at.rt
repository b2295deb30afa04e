//! A stream that fails at a chosen call.

ghost use Rattle.std.specs.Prelude.{◌≡◌, ◌≢◌, ◌↔◌, ◌-◌, ◌≤◌, ◌<◌, length, IfOk, IsTrue, if◌then◌else◌};
ghost use Rattle.geo_exact.specs.Bytes.{Pulls, Puts, FailsOrPassesOn, counted, raised, together};

use super::{ByteIn, ByteOut, Failed};

/// A reader or a writer that fails at one call, which it doesn't pass on, and passes on the others.
#[derive(Debug, Drop)]
pub struct FailAt<T> {
    inner: T,
    /// The number of the call that fails, from the next one on; 0: none.
    calls_left: u64,
    own_failures: u64,
}

impl<T> FailAt<T> {
    /// Fails at the call of this number, from 1; at none for 0.
    ///
    /// ```
    /// let mut reader = FailAt::new(bytes.as_slice(), 3); // the third pull fails
    /// ```
    pub fn new(inner: T, call: u64) -> FailAt<T>
        ensures inner { result.inner ≡ inner }
        ensures calls_left { result.calls_left ≡ call }
        ensures own_failures { result.own_failures ≡ 0 }
    {
        FailAt {
            inner,
            calls_left: call,
            own_failures: 0,
        }
    }

    /// The stream that calls were passed on to.
    pub fn into_inner(self) -> T
        ensures { result ≡ self.inner }
    {
        self.inner
    }

    /// The failures of the calls that were passed on, and its own.
    fn with_own(&self, passed_on: u64) -> u64
        ensures { result ≡ together passed_on self.now.own_failures }
    {
        passed_on.saturating_add(self.own_failures)
    }

    /// Whether this call fails.
    fn fails(&mut self) -> bool
        ensures value { IsTrue result ↔ (self.old.calls_left ≡ 1) }
        ensures inner { self.new.inner ≡ self.old.inner }
        ensures calls_left { self.new.calls_left ≡ self.old.calls_left - 1 }
        ensures own_failures { self.new.own_failures
            ≡ (if result then raised self.old.own_failures else self.old.own_failures) }
    {
        let fails = self.calls_left == 1;
        self.calls_left = self.calls_left.saturating_sub(1);
        if fails {
            self.own_failures = self.own_failures.saturating_add(1);
        }
        fails
    }
}

impl<T: ByteIn> ByteIn for FailAt<T> {
    ghost remaining = { λ stream. T.remaining stream.inner };

    ghost failure_count = { λ stream. together (T.failure_count stream.inner) stream.own_failures };

    ghost pull_gives = { λ old before answer new after. FailsOrPassesOn old.calls_left answer
        ((new.inner ≡ old.inner) × (after ≡ before)) (T.pull_gives old.inner before answer new.inner after) };

    fn pull(&mut self, buffer: &mut [u8]) -> Result<usize, Failed>
        ensures bound { IfOk result (λ n. n ≤ length buffer.new) }
        ensures bytes { Pulls (T.remaining self.old.inner) (T.remaining self.new.inner) result buffer.new }
        ensures failures { together (T.failure_count self.new.inner) self.new.own_failures
            ≡ counted result (together (T.failure_count self.old.inner) self.old.own_failures) }
        ensures calls_left { self.new.calls_left ≡ self.old.calls_left - 1 }
        // One call fails and leaves the stream and the buffer; another is the stream's own call, into the
        // same buffer and with the same answer.
        ensures gives { FailsOrPassesOn self.old.calls_left result
            ((self.new.inner ≡ self.old.inner) × (buffer.new ≡ buffer.old))
            (T.pull_gives self.old.inner buffer.old result self.new.inner buffer.new) }
        ensures inner_failures { self.old.calls_left ≢ 1
            → T.failure_count self.new.inner ≡ counted result (T.failure_count self.old.inner) }
    {
        if self.fails() {
            return Err(Failed);
        }
        self.inner.pull(buffer)
    }

    fn failures(&self) -> u64 {
        self.with_own(self.inner.failures())
    }
}

impl<T: ByteOut> ByteOut for FailAt<T> {
    ghost written = { λ stream. T.written stream.inner };

    ghost failure_count = { λ stream. together (T.failure_count stream.inner) stream.own_failures };

    ghost put_gives = { λ old bytes answer new. FailsOrPassesOn old.calls_left answer
        (new.inner ≡ old.inner) (T.put_gives old.inner bytes answer new.inner) };

    fn put(&mut self, bytes: &[u8]) -> Result<usize, Failed>
        ensures bound { IfOk result (λ n. n ≤ length bytes.now) }
        ensures progress { IfOk result (λ n. 0 < length bytes.now → 0 < n) }
        ensures bytes { Puts (T.written self.old.inner) (T.written self.new.inner) result bytes.now }
        ensures failures { together (T.failure_count self.new.inner) self.new.own_failures
            ≡ counted result (together (T.failure_count self.old.inner) self.old.own_failures) }
        ensures calls_left { self.new.calls_left ≡ self.old.calls_left - 1 }
        // One call fails and leaves the stream; another is the stream's own call, of the same bytes and
        // with the same answer.
        ensures gives { FailsOrPassesOn self.old.calls_left result (self.new.inner ≡ self.old.inner)
            (T.put_gives self.old.inner bytes.now result self.new.inner) }
        ensures inner_failures { self.old.calls_left ≢ 1
            → T.failure_count self.new.inner ≡ counted result (T.failure_count self.old.inner) }
    {
        if self.fails() {
            return Err(Failed);
        }
        self.inner.put(bytes)
    }

    fn failures(&self) -> u64 {
        self.with_own(self.inner.failures())
    }
}
