//! The journals of all ranks, read one by one.

ghost use Rattle.std.specs.Prelude.{◌≡◌, ℕ, Option, List, is_some, option_map, IfErr, IfNone, IfOk, IfSome};
ghost use Rattle.std.specs.Option.{option_copied};
ghost use Rattle.journals.specs.JournalAnswers.{heading_in};
ghost use Rattle.judging.specs.JournalTexts.{AreOfFiles, IsFaultOfFiles, bytes_in};
ghost use Rattle.judging.specs.declared.read.ReadFault.TheVariants.{Memory};
ghost use Rattle.judging.specs.inner.OneJournal.{AnswersOne, fault_as, first_heading, ranks_by};

use journals::fault::JournalFault;
use journals::journal::{Header, Journal, JournalError, read_journal};
use journals::limits::MOST_RANKS;
use journals::room::Room;
use journals::text::TextInput;
use mpicall::device::Input;
use std::alloc::{AllocError, AllocFailed, Global};
use std::sync::Wait;

/// Where the journals of a run are: `known` is what is known of a rank's file, that there is none, or its bytes.
pub trait Journals {
    type In: Input + Drop;

    ghost known: { Self → ℕ → Option (Option (List ℕ)) };

    /// Whether a rank has a journal.
    fn is_there(&self, rank: u16) -> Result<bool, AllocError>
        ensures { IfOk result (λ there. IfSome (known self.now rank) (λ bytes. there ≡ is_some bytes)) };

    /// The journal of a rank, from its first byte on; None where it can't be opened. One whose bytes are known
    /// can be.
    fn open(&self, rank: u16) -> Result<Option<Self::In>, AllocError>
        ensures opened { IfOk result (λ opened. IfSome opened (λ input. Self.In.left input ≡ bytes_in (known self.now rank))) }
        ensures unopened { IfOk result (λ opened. IfNone opened (bytes_in (known self.now rank) ≡ None)) };
}

/// Why the journals of a run weren't read: what is wrong with that of the lowest rank that has something
/// wrong.
#[derive(Clone, Copy, Debug, PartialEq, Eq)]
pub enum ReadFault {
    /// It can't be opened.
    Open(u16),
    Refused { rank: u16, fault: JournalFault },
    /// A read failed, at the line with this number.
    ReadFailed { rank: u16, line: u64 },
    Memory,
}

impl From<AllocError> for ReadFault {
    ghost from_gives = { λ _ fault. fault ≡ Memory };

    fn from(_fault: AllocError) -> ReadFault {
        ReadFault::Memory
    }
}

impl<T: Drop> From<AllocFailed<T>> for ReadFault {
    ghost from_gives = { λ _ fault. fault ≡ Memory };

    fn from(_fault: AllocFailed<T>) -> ReadFault {
        ReadFault::Memory
    }
}

fn fault_of(rank: u16, error: JournalError) -> ReadFault
    ensures { result ≡ fault_as rank error }
{
    match error {
        JournalError::Fault(fault) => ReadFault::Refused { rank, fault },
        JournalError::ReadFailed { line } => ReadFault::ReadFailed { rank, line },
        JournalError::Memory => ReadFault::Memory,
    }
}

/// The journal of a rank; None where there is none. That of rank 0 has to be there.
fn read_of<J: Journals>(
    room: &mut Room,
    journals: &J,
    rank: u16,
    first: Option<&Header>,
    wait: &impl Wait,
) -> Result<Option<Journal>, ReadFault>
    ensures { AnswersOne (J.known journals.now rank) rank (option_map heading_in (option_copied first.entry)) result }
{
    if rank > 0 && !journals.is_there(rank)? {
        return Ok(None);
    }
    let Some(input) = journals.open(rank)? else {
        return Err(ReadFault::Open(rank));
    };
    let mut text = TextInput::new(input);
    match read_journal(room, u32::from(rank), first, &mut text, wait) {
        Ok(journal) => Ok(Some(journal)),
        Err(error) => Err(fault_of(rank, error)),
    }
}

/// The header of the first journal.
fn first_header(journals: &[Option<Journal>]) -> Option<&Header>
    ensures { option_map heading_in (option_copied result) ≡ first_heading journals.now }
{
    match journals.first() {
        Some(Some(journal)) => Some(&journal.header),
        _ => None,
    }
}

/// How many ranks the run has, by the header of its first journal.
fn ranks_of(journals: &[Option<Journal>]) -> u16
    ensures { result ≡ ranks_by (first_heading journals.now) }
{
    match first_header(journals) {
        Some(header) => header.ranks().min(MOST_RANKS) as u16,
        None => 1,
    }
}

/// The journals of all ranks, in their order; rank 0's says how many there are.
pub fn read_journals<J: Journals>(
    alloc: Global,
    journals: &J,
    wait: &impl Wait,
) -> Result<Vec<Option<Journal>>, ReadFault>
    ensures run { IfOk result (λ all. AreOfFiles (J.known journals.now) all.items) }
    ensures fault { IfErr result (IsFaultOfFiles (J.known journals.now)) }
{
    let mut room = Room::new(alloc);
    let mut all = Vec::new(alloc);
    all.push(read_of(&mut room, journals, 0, None, wait)?)?;
    for rank in 1..ranks_of(all.as_slice()) {
        let journal = read_of(
            &mut room,
            journals,
            rank,
            first_header(all.as_slice()),
            wait,
        )?;
        all.push(journal)?;
    }
    Ok(all)
}
