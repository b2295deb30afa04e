//! Progress of a run that takes long.

use std::rt::Clock;
use std::sync::atomic::{AtomicBool, Ordering};
use std::thread;
use std::time::Duration;

/// How long it is from one look whether the run has ended to the next, in milliseconds. A run that is done waits for
/// the next look, so it is short.
const LOOK: u64 = 20;

/// How many looks are a second.
const SECOND: u64 = 50;

/// Tells that a run goes on, until it is done: after two seconds, and then every ten.
pub(crate) fn tell<R: Clock + Eprint>(rt: &R, done: &AtomicBool) {
    // No run takes so many looks.
    for look in 1..u64::MAX {
        thread::sleep(rt, Duration::from_millis(LOOK));
        if done.load(Ordering::SeqCst) {
            return;
        }
        if look == 2 * SECOND || look % (10 * SECOND) == 0 {
            let seconds = look / SECOND;
            let _ = eprintln!(rt; "progress: {seconds} s");
        }
    }
}
