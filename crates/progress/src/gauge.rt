//! What the thread that checks and the one that shows share, besides the stands.

ghost use Rattle.std.specs.Prelude.{◌≤◌, IfSome};
ghost use Rattle.mpigroup.specs.declared.limits.TheConstants.{MOST_RANKS};

use mpigroup::limits::MOST_RANKS;
use std::sync::Wait;
use std::sync::atomic::{AtomicBool, AtomicU64, Ordering};
use std::thread::Parker;
use std::time::Duration;

/// How many ranks a run has and how much of its files was read, as far as that is known, and whether the check has
/// ended.
#[derive(Drop)]
pub struct Gauge {
    ranks: AtomicU64,
    read: AtomicU64,
    size: AtomicU64,
    has_ended: AtomicBool,
    sleeper: Parker,
}

impl Gauge {
    /// Nothing is known so far.
    pub fn new() -> Gauge {
        Gauge {
            ranks: AtomicU64::new(0),
            read: AtomicU64::new(0),
            size: AtomicU64::new(0),
            has_ended: AtomicBool::new(false),
            sleeper: Parker::new(),
        }
    }

    /// The run has so many ranks.
    pub fn set_ranks(&self, ranks: u16) {
        self.ranks.store(u64::from(ranks), Ordering::SeqCst);
    }

    /// The number of ranks; 0 where it isn't known.
    pub fn ranks(&self) -> u16
        ensures { result ≤ MOST_RANKS }
    {
        self.ranks.load(Ordering::SeqCst).min(u64::from(MOST_RANKS)) as u16
    }

    /// The files have so many bytes together.
    pub fn set_size(&self, size: u64) {
        self.size.store(size, Ordering::SeqCst);
    }

    /// So many more bytes were read.
    pub fn add_read(&self, count: usize) {
        self.read.fetch_add(count as u64, Ordering::SeqCst);
    }

    /// How much of the files was read, in percent; None where their size isn't known.
    pub fn percent(&self) -> Option<u64>
        ensures { IfSome result (λ percent. percent ≤ 100) }
    {
        let read = u128::from(self.read.load(Ordering::SeqCst));
        match u128::from(self.size.load(Ordering::SeqCst)) {
            0 => None,
            size => Some((read * 100 / size).min(100) as u64),
        }
    }

    /// The check has ended.
    pub fn end(&self) {
        self.has_ended.store(true, Ordering::SeqCst);
        self.sleeper.unpark();
    }

    /// Rests for so long, or until the check has ended; says whether it has.
    pub fn rest(&self, pause: Duration, wait: &impl Wait) -> bool {
        if !self.has_ended.load(Ordering::SeqCst) {
            self.sleeper.park_timeout(wait, pause);
        }
        self.has_ended.load(Ordering::SeqCst)
    }
}
