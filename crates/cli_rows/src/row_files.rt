//! The files of a row.

ghost use Rattle.std.specs.Prelude.{◌≡◌, None};

use crate::row::{Rest, Row, StoredFile};
use cli::opener::{Maker, Opener, path_in};
use judging::close::{FileName, Folder};
use mpicall::counted::Counted;
use mpicall::fails_at::FailsAt;
use std::alloc::{AllocError, Global};
use std::sync::atomic::{AtomicBool, AtomicU64, Ordering};
use std::time::{Clock, Duration};
use std::{io, thread};

/// How often a first read looks whether the other one was asked for as well, a millisecond apart: a busy machine may
/// let the other thread wait for long.
const MOST_LOOKS: u32 = 2_000;

/// Which of two files were read.
#[derive(Drop)]
pub struct Meeting {
    first: AtomicBool,
    second: AtomicBool,
}

impl Meeting {
    /// Neither was.
    pub fn new() -> Meeting {
        Meeting {
            first: AtomicBool::new(false),
            second: AtomicBool::new(false),
        }
    }
}

/// A file's own mark in a meeting, and the one that it waits for.
#[derive(Clone, Copy)]
pub struct Waits<'a> {
    own: &'a AtomicBool,
    other: &'a AtomicBool,
}

impl Waits<'_> {
    /// Whether the other file is read as well, before so many looks.
    fn meet(self, clock: &impl Clock) -> bool {
        self.own.store(true, Ordering::SeqCst);
        for _ in 0..MOST_LOOKS {
            if self.other.load(Ordering::SeqCst) {
                return true;
            }
            thread::sleep(clock, Duration::from_millis(1));
        }
        false
    }
}

/// The rests before reads of the file with a path.
pub struct Rests<'a, R> {
    path: &'a str,
    all: &'a [Rest],
    clock: &'a R,
}

impl<R: Clock> Rests<'_, R> {
    /// Rests before this read, if it is to.
    fn rest(&self, read: u64) {
        for one in self.all {
            if one.read == read && one.path.as_str() == self.path {
                thread::sleep(self.clock, Duration::from_millis(one.millis));
            }
        }
    }
}

/// A reader that gives at most so many bytes a read. Where it waits for another one, a first read fails that
/// doesn't meet it.
pub struct Pieces<'a, R> {
    left: &'a [u8],
    most: usize,
    waits: Option<Waits<'a>>,
    rests: Rests<'a, R>,
    reads: u64,
}

impl<R> Drop for Rests<'_, R> {
    fn drop(self) {
        let Rests {
            path: _,
            all: _,
            clock: _,
        } = self;
    }
}

impl<R> Drop for Pieces<'_, R> {
    fn drop(self) {
        let Pieces {
            left: _,
            most: _,
            waits: _,
            rests: _,
            reads: _,
        } = self;
    }
}

impl<'a, R: Clock> io::Read for Pieces<'a, R> {
    fn read(&mut self, buf: &mut [u8]) -> io::Result<usize> {
        self.rests.rest(self.reads);
        self.reads = self.reads.saturating_add(1);
        if let Some(waits) = self.waits.take() {
            if !waits.meet(self.rests.clock) {
                return Err(io::Error::from(io::ErrorKind::TimedOut));
            }
        }
        let count = self.left.len().min(buf.len()).min(self.most);
        let (given, left) = self.left.split_at(count);
        buf[..count].copy_from_slice(given);
        self.left = left;
        Ok(count)
    }
}

/// What was made: how many files, how many bytes of them are as wanted, and whether any is another one.
#[derive(Drop)]
pub struct Made {
    files: AtomicU64,
    bytes: AtomicU64,
    has_other: AtomicBool,
}

impl Made {
    /// Nothing was.
    pub fn new() -> Made {
        Made {
            files: AtomicU64::new(0),
            bytes: AtomicU64::new(0),
            has_other: AtomicBool::new(false),
        }
    }

    /// Whether these files were made, and nothing else.
    pub fn is_all(&self, files: &[StoredFile]) -> bool {
        let mut bytes = 0u64;
        for file in files {
            bytes = bytes.saturating_add(file.text.len() as u64);
        }
        self.files.load(Ordering::SeqCst) == files.len() as u64
            && self.bytes.load(Ordering::SeqCst) == bytes
            && !self.has_other.load(Ordering::SeqCst)
    }
}

fn add_to(sum: &AtomicU64, count: usize) {
    let before = sum.load(Ordering::SeqCst);
    sum.store(before.saturating_add(count as u64), Ordering::SeqCst);
}

/// A file that is made, which has what is wanted of it as long as that comes.
#[derive(Drop)]
pub struct MadeFile<'a> {
    left: &'a [u8],
    made: &'a Made,
}

impl<'a> io::Write for MadeFile<'a> {
    fn write(&mut self, buf: &[u8]) -> io::Result<usize> {
        let count = self.left.len().min(buf.len());
        let (wanted, left) = self.left.split_at(count);
        if wanted == buf {
            self.left = left;
            add_to(&self.made.bytes, count);
        } else {
            self.made.has_other.store(true, Ordering::SeqCst);
        }
        Ok(buf.len())
    }

    fn flush(&mut self) -> io::Result<()> {
        Ok(())
    }
}

/// The files of a row, and the meeting of two of them.
#[derive(Drop)]
pub struct RowFiles<'a, R> {
    pub row: &'a Row,
    pub meeting: &'a Meeting,
    pub clock: &'a R,
}

impl<'a, R> RowFiles<'a, R> {
    /// The text of the file that a path names.
    fn text(&self, path: &str) -> Option<&'a [u8]> {
        let row = self.row;
        for file in &row.files {
            if file.path.as_str() == path {
                return Some(file.text.as_bytes());
            }
        }
        None
    }

    /// The rests before reads of the file that a path names.
    fn rests_of(&self, path: &str) -> Option<Rests<'a, R>> {
        let row = self.row;
        for file in &row.files {
            if file.path.as_str() == path {
                return Some(Rests {
                    path: file.path.as_str(),
                    all: row.devices.rests.as_slice(),
                    clock: self.clock,
                });
            }
        }
        None
    }

    /// Whom the file with a path waits for.
    fn waits_of(&self, path: &str) -> Option<Waits<'a>> {
        let (first, second) = &self.row.devices.meeting;
        let meeting = self.meeting;
        if path == first.as_str() {
            return Some(Waits {
                own: &meeting.first,
                other: &meeting.second,
            });
        }
        if path == second.as_str() {
            return Some(Waits {
                own: &meeting.second,
                other: &meeting.first,
            });
        }
        None
    }
}

impl<'a, R: Clock + Sync> Opener for RowFiles<'a, R> {
    type In = FailsAt<Counted<Pieces<'a, R>>>;

    ghost told = { λ _ _. None };

    ghost named = { λ _ _. None };

    fn open_input(&self, path: &str) -> Option<FailsAt<Counted<Pieces<'a, R>>>> {
        let left = self.text(path)?;
        let devices = &self.row.devices;
        let most = devices.most_read;
        let at = if path == devices.failing.as_str() {
            devices.failing_read
        } else {
            u64::MAX
        };
        let waits = self.waits_of(path);
        let rests = self.rests_of(path)?;
        let pieces = Pieces {
            left,
            most,
            waits,
            rests,
            reads: 0,
        };
        Some(FailsAt::new(Counted::new(pieces), at))
    }

    fn waits(&self, _path: &str) -> bool {
        self.row.devices.in_threads
    }

    fn size(&self, path: &str) -> Option<u64> {
        Some(self.text(path)?.len() as u64)
    }

    /// A folder is what comes before a slash in the path of some file.
    fn is_folder(&self, path: &str) -> bool {
        self.row.files.iter().any(|file| {
            let own = file.path.as_str();
            own.starts_with(path) && own.as_bytes().get(path.len()) == Some(&b'/')
        })
    }

    fn is_there(&self, path: &str) -> bool {
        self.text(path).is_some()
    }

    fn is_named(&self, path: &str) -> bool {
        self.text(path).is_some()
    }
}

/// The folder of a recording. It is made where a row wants files made, and those alone can be.
#[derive(Drop)]
pub struct RowFolder<'a> {
    row: &'a Row,
    made: &'a Made,
    alloc: Global,
    path: String,
}

impl<'a> Folder for RowFolder<'a> {
    type Out = Counted<MadeFile<'a>>;

    ghost empty = { λ _. None };

    ghost text = { λ _ _. None };

    fn make(&mut self) -> bool {
        !self.row.wanted.made.is_empty()
    }

    fn create(&mut self, name: FileName) -> Result<Option<Counted<MadeFile<'a>>>, AllocError> {
        let path = path_in(self.alloc, self.path.as_str(), name)?;
        let (row, made) = (self.row, self.made);
        for file in &row.wanted.made {
            if file.path == path {
                add_to(&made.files, 1);
                let left = file.text.as_bytes();
                return Ok(Some(Counted::new(MadeFile { left, made })));
            }
        }
        made.has_other.store(true, Ordering::SeqCst);
        Ok(None)
    }

    fn take_back(
        &mut self,
        _name: FileName,
        _out: Counted<MadeFile<'a>>,
    ) -> Result<(), AllocError> {
        Ok(())
    }
}

/// What makes the folder of a row.
#[derive(Drop)]
pub struct RowMaker<'a> {
    pub row: &'a Row,
    pub made: &'a Made,
}

impl<'a> Maker for RowMaker<'a> {
    type Made = RowFolder<'a>;

    ghost empty = { λ _. None };

    ghost text = { λ _ _ _. None };

    fn begin(&self, alloc: Global, path: &str) -> Result<RowFolder<'a>, AllocError> {
        Ok(RowFolder {
            row: self.row,
            made: self.made,
            alloc,
            path: String::from_str(alloc, path)?,
        })
    }

    fn keep(
        &mut self,
        _alloc: Global,
        _path: &str,
        _made: RowFolder<'a>,
    ) -> Result<(), AllocError> {
        Ok(())
    }
}
