//! The stands of a check, published while it goes on.

ghost use Rattle.std.specs.Prelude.{◌≡◌, true, false};
ghost use Rattle.watches.specs.Publications.{Publishes};
ghost use Rattle.watches.specs.Publishers.{book_published, published_by};
ghost use Rattle.progress.specs.inner.Stands.{stands_at};

use crate::gauge::Gauge;
use crate::tracker::Tracker;
use moves::analyser::Analyser;
use std::sync::{Mutex, Wait};
use std::time::{Clock, Duration, Instant};
use watches::publisher::Publisher;
use watches::stands::Stands;

/// How many records are taken between two publications, at least.
const RECORDS: u64 = 65_536;

/// And how long that lasts, at least.
const SECONDS: u64 = 1;

/// What publishes, how many records were taken since the last publication, and when that was.
#[derive(Drop)]
struct Pace {
    publisher: Publisher,
    taken: u64,
    last: Option<Instant>,
}

impl Pace {
    /// Whether stands are published at this time. Where the clock can't be read they are.
    fn is_due(&self, now: Option<Instant>) -> bool {
        match (self.last, now) {
            (Some(last), Some(now)) => now.duration_since(last) >= Duration::from_secs(SECONDS),
            _ => true,
        }
    }

    /// Publishes where the ranks stand, if enough was taken since the last time; says whether it did.
    fn note(&mut self, analyser: &Analyser, taken: u64, rt: &(impl Wait + Clock)) -> bool
        ensures published { result ≡ true → Publishes (stands_at analyser.now) (published_by self.old.publisher) (published_by self.new.publisher) }
        ensures kept { result ≡ false → published_by self.new.publisher ≡ published_by self.old.publisher }
        ensures list { book_published self.new.publisher ≡ book_published self.old.publisher }
    {
        self.taken = self.taken.saturating_add(taken);
        if self.taken < RECORDS {
            return false;
        }
        let now = Instant::now(rt).ok();
        if !self.is_due(now) {
            return false;
        }
        self.taken = 0;
        self.last = now;
        let mut stands = Stands::at_start();
        stands.set(analyser);
        self.publisher.publish(&stands, rt).is_ok()
    }
}

/// Publishes where the ranks stand each 65,536 records or second, whichever is later.
pub struct Publishing<'r, 'g, R> {
    rt: &'r R,
    gauge: &'g Gauge,
    pace: Mutex<Pace>,
}

impl<'r, 'g, R: Wait + Clock> Publishing<'r, 'g, R> {
    /// Publishes by this publisher.
    pub fn new(publisher: Publisher, gauge: &'g Gauge, rt: &'r R) -> Publishing<'r, 'g, R> {
        let pace = Pace {
            publisher,
            taken: 0,
            last: Instant::now(rt).ok(),
        };
        Publishing {
            rt,
            gauge,
            pace: Mutex::new(pace),
        }
    }

    /// Takes down what watches read.
    pub fn end(self) {
        let Publishing { rt, gauge: _, pace } = self;
        let mut pace = pace.into_inner();
        pace.publisher.withdraw(rt);
    }
}

impl<R: Wait + Clock> Tracker for Publishing<'_, '_, R> {
    fn note(&self, analyser: &Analyser, taken: u64) {
        if self.pace.lock(self.rt).note(analyser, taken, self.rt) {
            self.gauge.set_ranks(analyser.head().ranks());
        }
    }
}
