//! Layers that replace earlier ones, and what a failure leaves behind.

use city_layers::{ToolFault, replace_layer};
use std::alloc::Allocator;
use std::cell::Cell;
use std::fs::{Metadata, OpenFile, OpenOptions};
use std::io::{Read, Seek, SeekFrom, Write};
use std::rc::Rc;
use std::rt::Files;
use std::test::Fail;
use std::{fs, io};

/// How many calls are left up to the one that fails; 0: it lies behind. Where a device is gone,
/// each call from that one on fails.
#[derive(Drop)]
struct Calls {
    left: Rc<Cell<u64>>,
    is_gone: bool,
}

impl Calls {
    /// Counts a call, and fails where it is the one.
    fn count(&self) -> io::Result<()> {
        let left = self.left.get();
        if left == 1 && self.is_gone {
            return Err(io::Error::from(io::ErrorKind::Other));
        }
        self.left.set(left.saturating_sub(1));
        if left == 1 {
            return Err(io::Error::from(io::ErrorKind::Other));
        }
        Ok(())
    }

    /// The same count, for a file.
    fn share(&self) -> io::Result<Calls> {
        let left = self.left.clone()?;
        Ok(Calls {
            left,
            is_gone: self.is_gone,
        })
    }
}

/// Files of which a call fails, to the system or to an opened file. The other calls are passed on.
#[derive(Drop)]
struct Failing<F> {
    files: F,
    calls: Calls,
}

/// A file of such a system.
#[derive(Drop)]
struct FailingFile<F> {
    file: F,
    calls: Calls,
}

impl<F: Files> Files for Failing<F> {
    type File = FailingFile<F::File>;

    type Dir = F::Dir;

    fn open_file(&self, how: &OpenOptions, path: &str) -> io::Result<FailingFile<F::File>> {
        self.calls.count()?;
        let calls = self.calls.share()?;
        let file = self.files.open_file(how, path)?;
        Ok(FailingFile { file, calls })
    }

    fn open_dir(&self, path: &str) -> io::Result<F::Dir> {
        self.calls.count()?;
        self.files.open_dir(path)
    }

    fn metadata(&self, path: &str) -> io::Result<Metadata> {
        self.calls.count()?;
        self.files.metadata(path)
    }

    fn symlink_metadata(&self, path: &str) -> io::Result<Metadata> {
        self.calls.count()?;
        self.files.symlink_metadata(path)
    }

    fn copy(&self, from: &str, to: &str) -> io::Result<u64> {
        self.calls.count()?;
        self.files.copy(from, to)
    }

    fn rename(&self, from: &str, to: &str) -> io::Result<()> {
        self.calls.count()?;
        self.files.rename(from, to)
    }

    fn remove_file(&self, path: &str) -> io::Result<()> {
        self.calls.count()?;
        self.files.remove_file(path)
    }

    fn create_dir(&self, path: &str) -> io::Result<()> {
        self.calls.count()?;
        self.files.create_dir(path)
    }

    fn remove_dir(&self, path: &str) -> io::Result<()> {
        self.calls.count()?;
        self.files.remove_dir(path)
    }

    fn remove_dir_all<B: Allocator>(&self, alloc: B, path: &str) -> io::Result<()> {
        self.calls.count()?;
        self.files.remove_dir_all(alloc, path)
    }
}

impl<F: Read> Read for FailingFile<F> {
    fn read(&mut self, buffer: &mut [u8]) -> io::Result<usize> {
        self.calls.count()?;
        self.file.read(buffer)
    }
}

impl<F: Write> Write for FailingFile<F> {
    fn write(&mut self, bytes: &[u8]) -> io::Result<usize> {
        self.calls.count()?;
        self.file.write(bytes)
    }

    fn flush(&mut self) -> io::Result<()> {
        self.calls.count()?;
        self.file.flush()
    }
}

impl<F: Seek> Seek for FailingFile<F> {
    fn seek(&mut self, to: SeekFrom) -> io::Result<u64> {
        self.calls.count()?;
        self.file.seek(to)
    }
}

impl<F: OpenFile> OpenFile for FailingFile<F> {
    fn metadata(&self) -> io::Result<Metadata> {
        self.calls.count()?;
        self.file.metadata()
    }

    fn set_len(&self, size: u64) -> io::Result<()> {
        self.calls.count()?;
        self.file.set_len(size)
    }

    fn sync_all(&self) -> io::Result<()> {
        self.calls.count()?;
        self.file.sync_all()
    }

    fn sync_data(&self) -> io::Result<()> {
        self.calls.count()?;
        self.file.sync_data()
    }
}

/// The number of calls of a replacement: two look for folders, four each write a file aside, and two rename.
const CALLS: u64 = 12;

/// What stands at a path.
fn stands(rt: &HostRuntime, path: &str) -> Result<String, Fail> {
    match fs::read_to_string(rt, path) {
        Ok(text) => Ok(text),
        Err(_) => Ok(format!(in rt.alloc(); "nothing")?),
    }
}

#[test]
fn keeps_what_stood_where_a_call_fails(rt: HostRuntime) -> Result<(), Fail> {
    for call in 1..=CALLS + 1 {
        fs::write(&rt, "kept.shp", "old main")?;
        fs::write(&rt, "kept.shx", "old index")?;
        let calls = Calls {
            left: Rc::new(rt.alloc(), Cell::new(call))?,
            is_gone: false,
        };
        let files = Failing { files: &rt, calls };
        let answer = replace_layer(&files, rt.alloc(), "kept", b"new main", b"new index");
        let want = if call <= CALLS {
            Err(ToolFault::Output)
        } else {
            Ok(())
        };
        assert_eq!(rt; answer, want, "at call {call}");
        let main = if call < CALLS { "old main" } else { "new main" };
        let index = if call <= CALLS {
            "old index"
        } else {
            "new index"
        };
        assert_eq!(rt; stands(&rt, "kept.shp")?.as_str(), main, "at call {call}");
        assert_eq!(rt; stands(&rt, "kept.shx")?.as_str(), index, "at call {call}");
        assert_eq!(rt;
            stands(&rt, "kept.shp.0.new")?.as_str(),
            "nothing",
            "at call {call}"
        );
        assert_eq!(rt;
            stands(&rt, "kept.shx.0.new")?.as_str(),
            "nothing",
            "at call {call}"
        );
    }
    Ok(())
}

#[test]
fn keeps_what_stood_where_the_device_goes(rt: HostRuntime) -> Result<(), Fail> {
    for call in 1..CALLS {
        fs::write(&rt, "gone.shp", "old main")?;
        fs::write(&rt, "gone.shx", "old index")?;
        let calls = Calls {
            left: Rc::new(rt.alloc(), Cell::new(call))?,
            is_gone: true,
        };
        let files = Failing { files: &rt, calls };
        let answer = replace_layer(&files, rt.alloc(), "gone", b"new main", b"new index");
        assert_eq!(rt; answer, Err(ToolFault::Output), "at call {call}");
        assert_eq!(rt;
            stands(&rt, "gone.shp")?.as_str(),
            "old main",
            "at call {call}"
        );
        assert_eq!(rt;
            stands(&rt, "gone.shx")?.as_str(),
            "old index",
            "at call {call}"
        );
        for left_over in ["gone.shp.0.new", "gone.shx.0.new"] {
            let _ = fs::remove_file(&rt, left_over);
        }
    }
    Ok(())
}

#[test]
fn makes_files_that_were_not_there(rt: HostRuntime) -> Result<(), Fail> {
    let answer = replace_layer(&rt, rt.alloc(), "fresh", b"new main", b"new index");
    assert_eq!(rt; answer, Ok(()));
    assert_eq!(rt; stands(&rt, "fresh.shp")?.as_str(), "new main");
    assert_eq!(rt; stands(&rt, "fresh.shx")?.as_str(), "new index");
    Ok(())
}

#[test]
fn takes_a_name_that_is_free(rt: HostRuntime) -> Result<(), Fail> {
    fs::write(&rt, "taken.shp.0.new", "another's")?;
    fs::create_dir(&rt, "taken.shx.0.new")?;
    let answer = replace_layer(&rt, rt.alloc(), "taken", b"new main", b"new index");
    assert_eq!(rt; answer, Ok(()));
    assert_eq!(rt; stands(&rt, "taken.shp")?.as_str(), "new main");
    assert_eq!(rt; stands(&rt, "taken.shx")?.as_str(), "new index");
    assert_eq!(rt; stands(&rt, "taken.shp.0.new")?.as_str(), "another's");
    assert_eq!(rt; stands(&rt, "taken.shp.1.new")?.as_str(), "nothing");
    Ok(())
}

#[test]
fn takes_a_name_behind_many(rt: HostRuntime) -> Result<(), Fail> {
    for number in 0..200u32 {
        let left_over = format!(in rt.alloc(); "killed.shp.{number}.new")?;
        fs::write(&rt, left_over.as_str(), "a beginning")?;
    }
    let answer = replace_layer(&rt, rt.alloc(), "killed", b"new main", b"new index");
    assert_eq!(rt; answer, Ok(()));
    assert_eq!(rt; stands(&rt, "killed.shp")?.as_str(), "new main");
    assert_eq!(rt; stands(&rt, "killed.shx")?.as_str(), "new index");
    assert_eq!(rt; stands(&rt, "killed.shp.199.new")?.as_str(), "a beginning");
    assert_eq!(rt; stands(&rt, "killed.shp.200.new")?.as_str(), "nothing");
    Ok(())
}

#[test]
fn writes_nothing_where_a_folder_stands_or_none(rt: HostRuntime) -> Result<(), Fail> {
    fs::create_dir(&rt, "main_folder.shp")?;
    fs::create_dir(&rt, "index_folder.shx")?;
    for base in ["main_folder", "index_folder", "no_folder/base"] {
        let answer = replace_layer(&rt, rt.alloc(), base, b"new main", b"new index");
        assert_eq!(rt; answer, Err(ToolFault::Output), "at {base}");
        for ending in ["shp", "shx", "shp.0.new", "shx.0.new"] {
            let path = format!(in rt.alloc(); "{base}.{ending}")?;
            assert_eq!(rt;
                stands(&rt, path.as_str())?.as_str(),
                "nothing",
                "at {path}"
            );
        }
    }
    Ok(())
}
