//! The journals of a run in a folder, and the folder of their recording.

ghost use Rattle.std.specs.Prelude.{◌≡◌, string_bytes, IfErr, IfOk, OnOk};
ghost use Rattle.closing.specs.Recordings.{choice_in};
ghost use Rattle.judging.specs.Closing.{IsFaultOfClose, IsWritten};
ghost use Rattle.cli.specs.JournalFolders.{journal_path, known_in};

use crate::measured::Measured;
use crate::opener::{Maker, Opener};
use closing::choice::Choice;
use judging::close::{CloseFault, close};
use judging::read::Journals;
use progress::gauge::Gauge;
use std::alloc::{AllocError, Global};
use std::sync::Wait;

/// The journals in a folder: of each rank the file `journal` with its number.
#[derive(Drop)]
pub(crate) struct JournalFolder<'p, 'a, P> {
    pub alloc: Global,
    pub opener: &'p P,
    pub path: &'a str,
}

impl<'p, 'a, P> JournalFolder<'p, 'a, P> {
    pub(crate) fn new(alloc: Global, opener: &'p P, path: &'a str) -> JournalFolder<'p, 'a, P>
        ensures path { result.path ≡ path.entry }
        ensures opener { result.opener ≡ opener.entry }
    {
        JournalFolder {
            alloc,
            opener,
            path,
        }
    }

    pub(crate) fn path_of(&self, rank: u16) -> Result<String, AllocError>
        ensures { IfOk result (λ path. string_bytes path ≡ journal_path self.now.path.now rank) }
    {
        let folder = self.path;
        let path = format!(in self.alloc; "{folder}/journal{rank}")?;
        Ok(path)
    }
}

impl<P: Opener> Journals for JournalFolder<'_, '_, P> {
    type In = P::In;

    ghost known = { λ folder. known_in (P.told folder.opener.now) (P.named folder.opener.now) folder.path.now };

    #[tactic(auto, using(crate::proofs::FolderLemmas::found_in))]
    fn is_there(&self, rank: u16) -> Result<bool, AllocError> {
        let path = self.path_of(rank)?;
        Ok(self.opener.is_named(path.as_str()))
    }

    #[tactic(auto, using(crate::proofs::FolderLemmas::opened_in, crate::proofs::FolderLemmas::unopened_in))]
    fn open(&self, rank: u16) -> Result<Option<P::In>, AllocError> {
        let path = self.path_of(rank)?;
        Ok(self.opener.open_input(path.as_str()))
    }
}

/// As `close`, into the folder with a path.
#[tactic(auto, using(crate::proofs::FolderLemmas::files_moved))]
fn close_into<J: Journals, M: Maker>(
    alloc: Global,
    journals: &J,
    choice: Choice,
    maker: &mut M,
    path: &str,
    wait: &impl Wait,
) -> Result<(), CloseFault>
    ensures written { OnOk result (IsWritten (J.known journals.now) (choice_in choice) (M.empty maker.old) (M.text maker.new path.now)) }
    ensures fault { IfErr result (IsFaultOfClose (J.known journals.now)) }
{
    let mut made = maker.begin(alloc, path)?;
    match close(alloc, journals, choice, &mut made, wait) {
        Ok(()) => {}
        Err(fault) => return Err(fault),
    }
    maker.keep(alloc, path, made)?;
    Ok(())
}

/// As `close`, of the journals in a folder and into the folder with a path. Each command reads files of one type, so
/// that what reads their lines is compiled once, and inlined.
pub(crate) fn close_folder<P: Opener, M: Maker>(
    journals: &JournalFolder<'_, '_, P>,
    choice: Choice,
    maker: &mut M,
    path: &str,
    wait: &impl Wait,
) -> Result<(), CloseFault>
    ensures written { let known = known_in (P.told journals.now.opener.now) (P.named journals.now.opener.now) journals.now.path.now in
        OnOk result (IsWritten known (choice_in choice) (M.empty maker.old) (M.text maker.new path.now)) }
    ensures fault { IfErr result (IsFaultOfClose (known_in (P.told journals.now.opener.now) (P.named journals.now.opener.now) journals.now.path.now)) }
{
    let gauge = Gauge::new();
    let opener = Measured {
        opener: journals.opener,
        gauge: &gauge,
    };
    let measured = JournalFolder {
        alloc: journals.alloc,
        opener: &opener,
        path: journals.path,
    };
    close_into(journals.alloc, &measured, choice, maker, path, wait)
}
