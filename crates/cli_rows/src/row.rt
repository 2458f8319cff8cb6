//! Rows: what is asked and given, and what must be answered.

use std::alloc::Global;

/// What a row's words are put to.
#[derive(Clone, Copy)]
pub enum Asked {
    /// The program.
    Program,
    /// The words of the program, for how many records of a rank may wait.
    Capacity,
    /// The number that the one word spells.
    Number,
    /// The text and the status of a fault, by its code and its place.
    Fault,
}

/// A file that the program may open, or that it is to make.
#[derive(Drop)]
pub struct StoredFile {
    pub path: String,
    pub text: String,
}

/// A read of a file that comes after a rest.
#[derive(Drop)]
pub struct Rest {
    pub path: String,
    pub read: u64,
    pub millis: u64,
}

/// How files are read, and which read or write fails, counted from 0.
#[derive(Drop)]
pub struct Devices {
    /// The file of which a read fails; no file has the empty path.
    pub failing: String,
    pub failing_read: u64,
    /// The most bytes that a read gives.
    pub most_read: usize,
    /// The reads that come after a rest.
    pub rests: Vec<Rest>,
    /// Whether each file is read by a thread of its own.
    pub in_threads: bool,
    /// Two files whose first reads wait for each other; no file has the empty path.
    pub meeting: (String, String),
    /// The write that fails on standard output, and the most bytes that one takes.
    pub failing_output: u64,
    pub most_written: usize,
    /// The write that fails on standard error.
    pub failing_error: u64,
    /// Whether a terminal shows how far a check is, and the write that fails there.
    pub is_terminal: bool,
    pub failing_screen: u64,
}

impl Devices {
    /// Devices of which none fails.
    fn new(alloc: Global) -> Devices {
        Devices {
            failing: String::new(alloc),
            failing_read: u64::MAX,
            most_read: usize::MAX,
            rests: Vec::new(alloc),
            in_threads: false,
            meeting: (String::new(alloc), String::new(alloc)),
            failing_output: u64::MAX,
            most_written: usize::MAX,
            failing_error: u64::MAX,
            is_terminal: false,
            failing_screen: u64::MAX,
        }
    }
}

/// What must be answered.
#[derive(Drop)]
pub struct Wanted {
    pub status: Option<u8>,
    /// The text on standard output.
    pub out: String,
    /// The text on standard error.
    pub err: String,
    /// Whether a text that isn't empty is only how the answer's begins.
    pub begins: bool,
    /// What is somewhere on standard output; where there is any, `out` isn't asked for.
    pub parts: Vec<String>,
    /// The files that are made; where there are none, no folder can be.
    pub made: Vec<StoredFile>,
    /// What is somewhere among the updates that show how far a check is; where there is none, nothing is shown.
    pub shown: Vec<String>,
}

impl Wanted {
    /// Nothing on both outputs, and no status yet.
    fn new(alloc: Global) -> Wanted {
        Wanted {
            status: None,
            out: String::new(alloc),
            err: String::new(alloc),
            begins: false,
            parts: Vec::new(alloc),
            made: Vec::new(alloc),
            shown: Vec::new(alloc),
        }
    }
}

/// A row.
#[derive(Drop)]
pub struct Row {
    pub name: String,
    pub asked: Option<Asked>,
    pub words: Vec<Vec<u8>>,
    pub files: Vec<StoredFile>,
    pub devices: Devices,
    pub wanted: Wanted,
}

impl Row {
    /// A row that asks for nothing.
    pub fn new(alloc: Global) -> Row {
        Row {
            name: String::new(alloc),
            asked: None,
            words: Vec::new(alloc),
            files: Vec::new(alloc),
            devices: Devices::new(alloc),
            wanted: Wanted::new(alloc),
        }
    }

    /// Begins another row, which has the words and the files of this one.
    pub fn follow(&mut self, alloc: Global, name: String) {
        self.name = name;
        self.devices = Devices::new(alloc);
        self.wanted = Wanted::new(alloc);
    }

    /// Whether there is a file with this path.
    pub fn has_file(&self, path: &str) -> bool {
        self.files.iter().any(|file| file.path.as_str() == path)
    }
}
