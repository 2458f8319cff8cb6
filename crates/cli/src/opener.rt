//! Opening the files that the command line names, and making those of a recording.

ghost use Rattle.std.specs.Prelude.{◌≡◌, ℕ, Bool, true, false, ⊤, Option, None, List, IfNone, IfOk, IfSome, OnOk};
ghost use Rattle.mpicall.specs.Devices.{counted_failures};
ghost use Rattle.judging.specs.declared.close.FileName.{FileName as Name};

use judging::close::{FileName, Folder};
use mpicall::counted::Counted;
use mpicall::device::{DeviceFault, Input};
use std::alloc::{AllocError, Global};
use std::fs;
use std::fs::OpenOptions;
use std::io::Read;
use std::rt::Files;

/// What opens the inputs that paths name: `told` is the text of the file with a path, where the opener
/// knows it, `named` whether there is such a file, where that is known, `may_give` what it may answer where a path
/// is to be opened, and `never_waits` what is so of a path of whose file `waits` says that no read waits for
/// another program.
pub trait Opener {
    type In: Input + Drop + Send;

    ghost told: { Self → List ℕ → Option (List ℕ) };

    ghost named: { Self → List ℕ → Option Bool };

    /// Without a word of its own an opener says nothing, here and below.
    ghost may_give: { Self → List ℕ → Option Self.In → Type 0 } = { λ opener path answer. ⊤ };

    ghost never_waits: { Self → List ℕ → Type 0 } = { λ opener path. ⊤ };

    /// The input that a path names, from its first byte on; None where it can't be opened. A file whose text is
    /// known can be.
    fn open_input(&self, path: &str) -> Option<Self::In>
        ensures told { IfSome result (λ input. Self.In.left input ≡ told self.now path.now) }
        ensures untold { IfNone result (told self.now path.now ≡ None) }
        ensures answer { may_give self.now path.now result };

    /// Whether a read of the file with a path may wait for another program, as one of a pipe does. The answer
    /// decides how files are read, and nothing of what is said of them.
    fn waits(&self, path: &str) -> bool
        ensures { result ≡ false → never_waits self.now path.now };

    /// How many bytes a file has; None where that isn't known. It is shown while files are read, and nothing of
    /// what is said of them depends on it.
    fn size(&self, _path: &str) -> Option<u64> {
        None
    }

    /// Whether the path names a folder. Without a word of its own an opener has none.
    fn is_folder(&self, _path: &str) -> bool {
        false
    }

    /// Whether a file of a folder exists.
    fn is_there(&self, _path: &str) -> bool {
        false
    }

    /// Whether a path names something, a link that leads nowhere too. A file whose text is known has its path.
    fn is_named(&self, path: &str) -> bool
        ensures told { IfSome (told self.now path.now) (λ text. result ≡ true) }
        ensures named { IfSome (named self.now path.now) (λ is. result ≡ is) };
}

/// Where the folders of recordings are made: `empty` is what a file of such a folder says of its text when it was made, that
/// it has none or nothing, and `text` what the file with a name says in the folder with a path, once that was kept.
pub trait Maker {
    type Made: Folder + Drop;

    ghost empty: { Self → Option (List ℕ) };

    ghost text: { Self → List ℕ → Name → Option (List ℕ) };

    /// The folder with a path, which isn't made yet.
    fn begin(&self, alloc: Global, path: &str) -> Result<Self::Made, AllocError>
        ensures { IfOk result (λ made. Self.Made.empty made ≡ empty self.now) };

    /// Keeps a folder that was made.
    fn keep(&mut self, alloc: Global, path: &str, made: Self::Made) -> Result<(), AllocError>
        ensures { OnOk result ((name : Name) → text self.new path.now name ≡ Self.Made.text made name) };
}

/// The path of a file in the folder of a recording: `head`, or of each rank `r` with its number.
pub fn path_in(alloc: Global, folder: &str, name: FileName) -> Result<String, AllocError> {
    let path = match name {
        FileName::Head => format!(in alloc; "{folder}/head")?,
        FileName::Trace(rank) => format!(in alloc; "{folder}/r{rank}")?,
    };
    Ok(path)
}

/// A file of the machine, of which it isn't known what it holds.
#[derive(Drop)]
pub struct Untold<F> {
    file: Counted<F>,
}

impl<F: Read> Input for Untold<F> {
    ghost left = { λ _. None };

    ghost failures = { λ untold. counted_failures untold.file };

    fn read_some(&mut self, into: &mut [u8]) -> Result<usize, DeviceFault> {
        self.file.read_some(into)
    }
}

/// The files of the machine. What they hold isn't known, nor which there are.
#[derive(Drop)]
pub struct Disk<'a, R>(pub &'a R);

impl<R: Files> Opener for Disk<'_, R>
where
    R::File: Send,
{
    type In = Untold<R::File>;

    ghost told = { λ _ _. None };

    ghost named = { λ _ _. None };

    fn open_input(&self, path: &str) -> Option<Untold<R::File>> {
        match fs::open(self.0, path) {
            Ok(file) => Some(Untold {
                file: Counted::new(file),
            }),
            Err(_) => None,
        }
    }

    /// Reads of regular files don't.
    fn waits(&self, path: &str) -> bool {
        match fs::metadata(self.0, path) {
            Ok(metadata) => !metadata.is_file(),
            Err(_) => true,
        }
    }

    fn size(&self, path: &str) -> Option<u64> {
        match fs::metadata(self.0, path) {
            Ok(metadata) if metadata.is_file() => Some(metadata.len()),
            _ => None,
        }
    }

    fn is_folder(&self, path: &str) -> bool {
        match fs::metadata(self.0, path) {
            Ok(metadata) => metadata.is_dir(),
            Err(_) => false,
        }
    }

    fn is_there(&self, path: &str) -> bool {
        fs::metadata(self.0, path).is_ok()
    }

    fn is_named(&self, path: &str) -> bool {
        fs::symlink_metadata(self.0, path).is_ok()
    }
}

/// A folder of the machine that is made, where nothing is under its path. What its files hold isn't known.
#[derive(Drop)]
pub struct DiskFolder<'a, R> {
    files: &'a R,
    alloc: Global,
    path: String,
}

impl<R: Files> Folder for DiskFolder<'_, R> {
    type Out = Counted<R::File>;

    ghost empty = { λ _. None };

    ghost text = { λ _ _. None };

    fn make(&mut self) -> bool {
        fs::create_dir(self.files, self.path.as_str()).is_ok()
    }

    fn create(&mut self, name: FileName) -> Result<Option<Counted<R::File>>, AllocError> {
        let path = path_in(self.alloc, self.path.as_str(), name)?;
        let mut options = OpenOptions::new();
        options.write(true).create_new(true);
        match options.open(self.files, path.as_str()) {
            Ok(file) => Ok(Some(Counted::new(file))),
            Err(_) => Ok(None),
        }
    }

    fn take_back(&mut self, _name: FileName, _out: Counted<R::File>) -> Result<(), AllocError> {
        Ok(())
    }
}

impl<'a, R: Files> Maker for Disk<'a, R> {
    type Made = DiskFolder<'a, R>;

    ghost empty = { λ _. None };

    ghost text = { λ _ _ _. None };

    fn begin(&self, alloc: Global, path: &str) -> Result<DiskFolder<'a, R>, AllocError> {
        Ok(DiskFolder {
            files: self.0,
            alloc,
            path: String::from_str(alloc, path)?,
        })
    }

    fn keep(
        &mut self,
        _alloc: Global,
        _path: &str,
        _made: DiskFolder<'a, R>,
    ) -> Result<(), AllocError> {
        Ok(())
    }
}
