//! The door of a session: whether it closes, and who stands in it.

use std::sync::atomic::{AtomicBool, Ordering};
use std::sync::{Condvar, Mutex, Wait};

/// The door of a session. A desk stands in it while it opens its pipes, which waits for a client.
/// Once the session closes, no desk goes in any more, and none takes a further line.
#[derive(Drop)]
pub struct Door {
    /// Whether the session closes: set only while `standing` is locked, so nobody steps in behind it.
    closing: AtomicBool,
    /// How many stand in the door.
    standing: Mutex<usize>,
    passed: Condvar,
}

impl Door {
    /// An open door, in which nobody stands.
    pub fn new() -> Door {
        Door {
            closing: AtomicBool::new(false),
            standing: Mutex::new(0),
            passed: Condvar::new(),
        }
    }

    /// Whether the session closes.
    pub fn is_closing(&self) -> bool {
        self.closing.load(Ordering::SeqCst)
    }

    /// Steps into the door; `false` where the session closes.
    pub fn step_in<R: Wait>(&self, rt: &R) -> bool {
        let mut standing = self.standing.lock(rt);
        if self.is_closing() {
            return false;
        }
        *standing = standing.wrapping_add(1);
        true
    }

    /// Leaves the door, in which one stood.
    pub fn pass<R: Wait>(&self, rt: &R) {
        let mut standing = self.standing.lock(rt);
        *standing = standing.wrapping_sub(1);
        drop(standing);
        self.passed.notify_all();
    }

    /// Closes the session.
    pub fn close<R: Wait>(&self, rt: &R) {
        let standing = self.standing.lock(rt);
        self.closing.store(true, Ordering::SeqCst);
        drop(standing);
    }

    /// Waits until nobody stands in the door.
    pub fn wait_for_all<R: Wait>(&self, rt: &R) {
        let standing = self
            .passed
            .wait_while(rt, self.standing.lock(rt), |standing| *standing != 0);
        drop(standing);
    }
}
