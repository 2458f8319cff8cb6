//! A bell by which the taker of a feed wakes the thread that waits for room.
//!
//! A thread whose feed is full yields four times, asks to be woken, looks once more, and sleeps until it is
//! woken or a millisecond is over. Nothing is promised of a bell: who isn't woken looks again.

use std::alloc::{AllocError, Global};
use std::sync::atomic::{AtomicU64, Ordering};
use std::sync::{Arc, Wait};
use std::thread;
use std::time::Duration;

/// How often other threads are let run before the first sleep.
const YIELDS: u32 = 4;

/// The longest sleep where no bell rings, in microseconds.
const LONGEST_SLEEP: u64 = 1_000;

/// What is in the word while some thread wants to be woken.
const WANTED: u64 = 1;

/// One end's hold of a bell. Nothing is promised of it: a thread that isn't woken looks again by itself.
#[derive(Drop)]
pub(crate) struct Bell {
    word: Arc<AtomicU64>,
}

impl Bell {
    /// A bell, for two ends.
    pub(crate) fn pair(alloc: Global) -> Result<(Bell, Bell), AllocError> {
        let word = Arc::new(alloc, AtomicU64::new(0))?;
        let other = word.clone()?;
        Ok((Bell { word }, Bell { word: other }))
    }

    /// Wakes the other end, if it wants to be woken.
    pub(crate) fn ring(&self) {
        if self.word.load(Ordering::SeqCst) == WANTED {
            self.word.store(0, Ordering::SeqCst);
            self.word.wake_one();
        }
    }

    /// Rests after a look in vain, which others came before: lets other threads run at first, then asks to
    /// be woken and has its caller look once more, then sleeps until the bell rings or a millisecond is over.
    pub(crate) fn rest(&self, looks: u32, wait: &impl Wait) {
        if looks < YIELDS {
            thread::yield_now();
        } else if self.word.swap(WANTED, Ordering::SeqCst) == WANTED {
            self.word
                .park_timeout(wait, WANTED as u32, Duration::from_micros(LONGEST_SLEEP));
        }
    }
}
