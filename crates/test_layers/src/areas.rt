//! Runs of `area` for tests, with what they print.

use city_layers::Source;
use city_layers::area::area;
use geo_exact::{Counted, Unit};
use std::alloc::{AllocError, Global};
use std::io;
use std::io::Write;

/// What a run over these files prints, on whichever stream.
pub fn run(alloc: Global, source: Source<Global>, unit: Unit) -> Result<String, AllocError> {
    let mut out = Counted::new(Vec::new(alloc));
    match area(alloc, &source, unit, &mut out) {
        Ok(()) => String::from_utf8_lossy(alloc, out.into_inner().as_slice()),
        Err(fault) => format!(in alloc; "error: {fault}"),
    }
}

/// A file with the bytes from a place on exchanged.
pub fn changed(
    alloc: Global,
    file: &[u8],
    place: usize,
    bytes: &[u8],
) -> Result<Vec<u8>, AllocError> {
    let mut out = Vec::new(alloc);
    for (i, byte) in file.iter().enumerate() {
        let new = i.checked_sub(place).and_then(|k| bytes.get(k)).copied();
        out.push(new.unwrap_or(*byte))?;
    }
    Ok(out)
}

/// A writer that takes one byte a call.
#[derive(Drop)]
pub struct ByteByByte(pub Vec<u8>);

impl Write for ByteByByte {
    fn write(&mut self, bytes: &[u8]) -> io::Result<usize> {
        match bytes.first() {
            Some(byte) => {
                self.0.push(*byte)?;
                Ok(1)
            }
            None => Ok(0),
        }
    }

    fn flush(&mut self) -> io::Result<()> {
        Ok(())
    }
}
