//! Rests between tries.
//!
//! The taker, once it found nothing on any feed, yields 64 times and then sleeps, for 50 microseconds at
//! first and 0.8 milliseconds at most. There are many feeds, and only one may bring something.

use std::sync::Wait;
use std::thread;
use std::thread::Parker;
use std::time::Duration;

/// How often other threads are let run before the first sleep.
const YIELDS: u32 = 64;

/// The first sleep, and by how many doublings the longest is longer.
const FIRST_SLEEP: u64 = 50;

const DOUBLINGS: u32 = 4;

/// The rests between tries that fail one after the other. In the first ones other threads are let run. In the
/// later ones this thread sleeps, from 50 microseconds up to 0.8 milliseconds.
#[derive(Drop)]
pub struct Pause {
    rests: u32,
    sleeper: Parker,
}

impl Pause {
    /// No try failed so far.
    pub fn new() -> Pause {
        Pause {
            rests: 0,
            sleeper: Parker::new(),
        }
    }

    /// Rests, since a try failed.
    pub fn rest(&mut self, wait: &impl Wait) {
        if self.rests < YIELDS {
            self.rests += 1;
            thread::yield_now();
        } else {
            let doublings = (self.rests - YIELDS).min(DOUBLINGS);
            self.rests = self.rests.saturating_add(1);
            self.sleeper
                .park_timeout(wait, Duration::from_micros(FIRST_SLEEP << doublings));
        }
    }
}
