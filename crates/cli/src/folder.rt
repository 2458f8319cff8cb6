//! A folder in the place of the head and the traces of a run.

ghost use Rattle.std.specs.Prelude.{◌<◌, length, IfSome};

use crate::check::open_head;
use crate::fault::Fault;
use crate::opener::Opener;
use crate::options::takes_value;
use mpigroup::limits::MOST_RANKS;
use std::alloc::{AllocError, Global};

/// Whether a word after `check` is no path: an option, or the number of the option before it.
fn is_option(before: &str, word: &str) -> bool {
    let begins = word.as_bytes().first() == Some(&b'-');
    begins && word.len() > 1 || takes_value(before)
}

/// The index of the one path after the first word; None where there is none, or a second one. All words after
/// `--` are paths.
fn lone_path(words: &[String]) -> Option<usize>
    ensures { IfSome result (λ place. place < length words.now) }
{
    let mut found = None;
    let mut are_paths = false;
    for place in 1..words.len() {
        let word = words[place].as_str();
        if !are_paths && is_option(words[place - 1].as_str(), word) {
            are_paths = word == "--";
            continue;
        }
        if found.is_some() {
            return None;
        }
        found = Some(place);
    }
    found
}

/// How many traces a folder wants: as many as its head has ranks, and one if that can't be read. A head that
/// comes through a pipe can be read only once, so it isn't asked.
fn ranks_in<P: Opener>(alloc: Global, opener: &P, head: &str) -> Result<u16, AllocError> {
    if opener.waits(head) {
        return Ok(1);
    }
    match open_head(alloc, opener, head) {
        Ok(head) => Ok(head.ranks()),
        Err(Fault::Memory) => Err(AllocError),
        Err(_) => Ok(1),
    }
}

/// Adds the head of a folder and its traces `r0`, `r1` and so on: those of all ranks, and those after them that
/// exist, for the program to say which is missing, or how many there are.
fn push_files<P: Opener>(
    alloc: Global,
    opener: &P,
    folder: &str,
    words: &mut Vec<String>,
) -> Result<(), AllocError> {
    let head = format!(in alloc; "{folder}/head")?;
    let ranks = ranks_in(alloc, opener, head.as_str())?;
    words.push(head)?;
    for rank in 0..MOST_RANKS + 1 {
        let trace = format!(in alloc; "{folder}/r{rank}")?;
        if rank >= ranks && !opener.is_there(trace.as_str()) {
            return Ok(());
        }
        words.push(trace)?;
    }
    Ok(())
}

/// The words. Where the one path of a check is a folder, its files replace it; a folder alone is a check of it.
pub(crate) fn with_files<P: Opener>(
    alloc: Global,
    opener: &P,
    mut words: Vec<String>,
) -> Result<Vec<String>, AllocError> {
    if words.len() == 1 && opener.is_folder(words[0].as_str()) {
        words.insert(0, String::from_str(alloc, "check")?)?;
    }
    let Some(place) = lone_path(words.as_slice()) else {
        return Ok(words);
    };
    if words[0].as_str() == "check" && opener.is_folder(words[place].as_str()) {
        let folder = words.remove(place);
        push_files(alloc, opener, folder.as_str(), &mut words)?;
    }
    Ok(words)
}
