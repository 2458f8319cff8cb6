//! Files in memory, whose texts are known, and folders that are made there.

ghost use Rattle.std.specs.Prelude.{◌≡◌, [], Some, None, is_some, option_map};
ghost use Rattle.std.specs.Option.{option_copied};
ghost use Rattle.mpicall.specs.Devices.{bytes_left};
ghost use Rattle.cli_memory.specs.MemoryFiles.{text_at, text_in, text_on};

use cli::opener::{Maker, Opener};
use judging::close::{FileName, Folder};
use mpicall::memory::{MemoryInput, MemoryOutput};
use std::alloc::{AllocError, Global};

/// A file in memory.
#[derive(Clone, Copy)]
pub struct MemoryFile<'a> {
    pub path: &'a str,
    pub text: &'a [u8],
}

/// Files in memory. Of those with one path the first is found.
#[derive(Clone, Copy)]
pub struct MemoryFiles<'a> {
    pub files: &'a [MemoryFile<'a>],
}

impl<'a> MemoryFiles<'a> {
    /// The text of the file that a path names.
    fn text(&self, path: &str) -> Option<&'a [u8]>
        ensures { option_copied result ≡ text_on self.now.files.now path.now }
    {
        for file in self.files {
            if file.path == path {
                return Some(file.text);
            }
        }
        None
    }
}

impl<'a> Opener for MemoryFiles<'a> {
    type In = MemoryInput<'a>;

    ghost told = { λ opener path. text_on opener.files.now path };

    ghost named = { λ opener path. Some (is_some (text_on opener.files.now path)) };

    ghost may_give = { λ opener path answer. option_map bytes_left answer ≡ text_on opener.files.now path };

    fn open_input(&self, path: &str) -> Option<MemoryInput<'a>> {
        match self.text(path) {
            Some(text) => Some(MemoryInput::new(text)),
            None => None,
        }
    }

    fn waits(&self, _path: &str) -> bool {
        false
    }

    fn is_named(&self, path: &str) -> bool {
        self.text(path).is_some()
    }
}

/// A file of a folder that is made in memory.
#[derive(Drop)]
pub struct MadeFile {
    pub name: FileName,
    pub output: MemoryOutput,
}

/// A folder that is made in memory. Of files with one name the first is found, which was made last.
#[derive(Drop)]
pub struct MadeFolder {
    alloc: Global,
    pub files: Vec<MadeFile>,
}

impl Folder for MadeFolder {
    type Out = MemoryOutput;

    ghost empty = { λ _. Some [] };

    ghost text = { λ folder name. text_in folder.files.items name };

    fn make(&mut self) -> bool {
        true
    }

    fn create(&mut self, _name: FileName) -> Result<Option<MemoryOutput>, AllocError> {
        Ok(Some(MemoryOutput::new(self.alloc)))
    }

    #[tactic(auto, using(crate::proofs::MadeLemmas::added_own, crate::proofs::MadeLemmas::added_other))]
    fn take_back(&mut self, name: FileName, out: MemoryOutput) -> Result<(), AllocError> {
        self.files.insert(0, MadeFile { name, output: out })?;
        Ok(())
    }
}

/// A folder that was made under a path.
#[derive(Drop)]
pub struct KeptFolder {
    pub path: String,
    pub folder: MadeFolder,
}

/// What makes folders in memory, and keeps the last one.
#[derive(Drop)]
pub struct MemoryMaker {
    pub kept: Option<KeptFolder>,
}

impl MemoryMaker {
    /// It has no folder.
    pub fn new() -> MemoryMaker
        ensures { result.kept ≡ None }
    {
        MemoryMaker { kept: None }
    }
}

impl Maker for MemoryMaker {
    type Made = MadeFolder;

    ghost empty = { λ _. Some [] };

    ghost text = { λ maker path name. text_at maker.kept path name };

    fn begin(&self, alloc: Global, _path: &str) -> Result<MadeFolder, AllocError> {
        Ok(MadeFolder {
            alloc,
            files: Vec::new(alloc),
        })
    }

    #[tactic(auto, using(crate::proofs::MadeLemmas::kept_text))]
    fn keep(&mut self, alloc: Global, path: &str, made: MadeFolder) -> Result<(), AllocError> {
        let path = String::from_str(alloc, path)?;
        self.kept = Some(KeptFolder { path, folder: made });
        Ok(())
    }
}
