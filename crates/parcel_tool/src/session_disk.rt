//! The disk of a session.

use crate::ended::Ended;
use crate::outputs::{find_beside, is_folder};
use city_layers::{Disk, ToolFault, replace_layer};
use register_sessions::{Exports, Machine, Pipes};
use std::alloc::{AllocError, Allocator};
use std::fs::File;
use std::io;
use std::rt::{Clock, Files};
use tool_arguments::is_refused_base;

/// The disk of this machine, as a session needs it. Its exports are refused where the command `export` is.
#[derive(Clone, Copy)]
pub(crate) struct SessionDisk<'a, R>(pub(crate) &'a R);

impl<'a, R: Files<File = File> + Clock> Exports for SessionDisk<'a, R> {
    fn obstacle<A: Allocator + Copy>(
        &self,
        alloc: A,
        base: &str,
    ) -> Result<Option<String<A>>, AllocError> {
        if is_refused_base(base) {
            let why = format!(in alloc; "no base {base}: .shp and .shx are added to it")?;
            return Ok(Some(why));
        }
        if is_folder(self.0, base) {
            return Ok(Some(format!(in alloc; "no base {base}: it is a folder")?));
        }
        match find_beside(self.0, alloc, base)? {
            Some(ending) => {
                let ended = Ended::Beside(base, ending);
                Ok(Some(format!(in alloc; "{ended}")?))
            }
            None => Ok(None),
        }
    }

    fn replace<A: Allocator + Copy>(
        &self,
        alloc: A,
        base: &str,
        main: &[u8],
        index: &[u8],
    ) -> Result<(), ToolFault<'static>> {
        // A write beyond it would end the session.
        let longest = self.longest_file();
        if main.len().max(index.len()) as u64 > longest {
            return Err(ToolFault::Output);
        }
        replace_layer(self.0, alloc, base, main, index)
    }
}

impl<'a, R: Files<File = File> + Clock> Pipes for SessionDisk<'a, R> {
    fn open_to_read(&self, path: &str) -> io::Result<File> {
        Disk(self.0).open_to_read(path)
    }

    fn open_to_write(&self, path: &str) -> io::Result<File> {
        Disk(self.0).open_to_write(path)
    }

    fn open_for_both(&self, path: &str) -> io::Result<File> {
        Disk(self.0).open_for_both(path)
    }

    fn pause(&self, milliseconds: u64) {
        Disk(self.0).pause(milliseconds);
    }
}

impl<'a, R: Files<File = File> + Clock> Machine for SessionDisk<'a, R> {
    fn node(&self, path: &str) -> io::Result<(u64, u64)> {
        Disk(self.0).node(path)
    }

    fn seconds(&self) -> io::Result<i64> {
        Disk(self.0).seconds()
    }

    fn longest_file(&self) -> u64 {
        Disk(self.0).longest_file()
    }
}
