//! How long a file of this process may become.

use std::fs::File;
use std::io::Read;
use std::rt::Files;

/// Where the system says the limits of the process that asks (proc(5)).
const LIMITS: &str = "/proc/self/limits";

/// How the line of the size of files begins, whose next word is what holds now.
const SIZE: &str = "Max file size";

/// How many bytes of the limits are looked at: they have some 1,300, and the size is their second line.
const LIMITS_BYTES: usize = 4096;

/// How many bytes a file may have that this process writes (`ulimit -f`): a write beyond it would end the process by a
/// signal. As many as a number can say, where the system sets no limit, or does not say.
pub(crate) fn longest_file<F: Files<File = File>>(files: &F) -> u64 {
    let mut limits = [0; LIMITS_BYTES];
    let Ok(file) = File::open(files, LIMITS) else {
        return u64::MAX;
    };
    let Ok(length) = (&file).read(&mut limits) else {
        return u64::MAX;
    };
    match limits.get(..length).map(size_in) {
        Some(Some(size)) => size,
        _ => u64::MAX,
    }
}

/// The size of files in the text of limits; `None` where there is no limit, and no such line.
fn size_in(limits: &[u8]) -> Option<u64> {
    let text = str::from_utf8(limits).ok()?;
    let line = text.lines().find(|line| line.starts_with(SIZE))?;
    let size = line.strip_prefix(SIZE)?.split_whitespace().next()?;
    size.parse().ok()
}
