//! A stream that counts what it hands on.

ghost use Rattle.std.specs.Prelude.{◌≡◌};
ghost use Rattle.geo_exact.specs.Bytes.{raised};

use super::{ByteIn, ByteOut, Failed};
use std::io::{Read, Write};

/// A reader or a writer of std, with its failures counted: its error, or 0 bytes written of some, is a failure.
#[derive(Debug, Drop)]
pub struct Counted<T> {
    inner: T,
    failures: u64,
}

impl<T> Counted<T> {
    /// The stream, with no failure yet.
    ///
    /// ```
    /// let mut reader = Counted::new(File::open(rt, path)?);
    /// ```
    pub fn new(inner: T) -> Counted<T>
        ensures inner { result.inner ≡ inner }
        ensures failures { result.failures ≡ 0 }
    {
        Counted { inner, failures: 0 }
    }

    /// How many pulls and puts failed; at the greatest number it stays.
    pub fn failures(&self) -> u64
        ensures { result ≡ self.now.failures }
    {
        self.failures
    }

    /// The stream, without its count.
    pub fn into_inner(self) -> T
        ensures { result ≡ self.inner }
    {
        self.inner
    }

    fn failed(&mut self) -> Failed
        ensures inner { self.new.inner ≡ self.old.inner }
        ensures failures { self.new.failures ≡ raised self.old.failures }
    {
        self.failures = self.failures.saturating_add(1);
        Failed
    }
}

impl<T: Read> ByteIn for Counted<T> {
    ghost remaining = { λ counted. T.remaining counted.inner };

    ghost failure_count = { λ counted. counted.failures };

    fn pull(&mut self, buffer: &mut [u8]) -> Result<usize, Failed> {
        match self.inner.read(buffer) {
            Ok(count) => Ok(count),
            Err(_) => Err(self.failed()),
        }
    }

    fn failures(&self) -> u64 {
        Counted::failures(self)
    }
}

impl<T: Write> ByteOut for Counted<T> {
    ghost written = { λ counted. T.contents counted.inner };

    ghost failure_count = { λ counted. counted.failures };

    fn put(&mut self, bytes: &[u8]) -> Result<usize, Failed> {
        match self.inner.write(bytes) {
            Ok(count) if count > 0 || bytes.is_empty() => Ok(count),
            _ => Err(self.failed()),
        }
    }

    fn failures(&self) -> u64 {
        Counted::failures(self)
    }
}
