//! The pipe from which a desk's lines come.

use session_rooms::Door;
use std::fs::File;
use std::io;
use std::io::Read;
use std::sync::atomic::{AtomicBool, Ordering};

/// A pipe from which lines come. It says whether its desk waits for one, so that whoever closes the session knows which
/// desks to wake; once the session closes, nothing more comes from it.
#[derive(Drop)]
pub(crate) struct LinesPipe<'s> {
    pub(crate) pipe: &'s File,
    pub(crate) door: &'s Door,
    pub(crate) asks: &'s AtomicBool,
}

impl<'s> Read for LinesPipe<'s> {
    fn read(&mut self, buf: &mut [u8]) -> io::Result<usize> {
        // Said before the door is looked at: either this sees that the session closes, or whoever closes it sees this.
        self.asks.store(true, Ordering::SeqCst);
        let read = if self.door.is_closing() {
            Ok(0)
        } else {
            let mut pipe = self.pipe;
            pipe.read(buf)
        };
        self.asks.store(false, Ordering::SeqCst);
        read
    }
}
