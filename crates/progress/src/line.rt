//! The line that shows how far a check is: a text of some stands.

ghost use Rattle.std.specs.Prelude.{◌≡◌, ◌<◌, ◌≤◌, Some, IfOk, string_bytes};
ghost use Rattle.mpigroup.specs.declared.limits.TheConstants.{MOST_RANKS};
ghost use Rattle.progress.specs.Lines.{IsEarliest, IsPositionOf, framed, words_of_earliest, words_of_read, words_of};

use std::alloc::{AllocError, Global};
use std::fmt;
use watches::stands::Stands;

/// A rank, and where it stands.
#[derive(Clone, Copy, Debug, PartialEq, Eq)]
pub struct Earliest {
    pub rank: u16,
    pub place: u32,
}

impl Earliest {
    /// The first of the ranks that stand earliest.
    #[tactic(auto, using(crate::proofs::EarliestLemmas::begins, crate::proofs::EarliestLemmas::stays, crate::proofs::EarliestLemmas::comes))]
    pub fn of(stands: &Stands, ranks: u16) -> Earliest
        requires some { 0 < ranks }
        requires few { ranks ≤ MOST_RANKS }
        ensures { IsEarliest ranks stands.now.places result.rank result.place }
    {
        let mut earliest = Earliest {
            rank: 0,
            place: stands.of(0),
        };
        for rank in 1..ranks {
            let place = stands.of(rank);
            if place < earliest.place {
                earliest = Earliest { rank, place };
            }
        }
        earliest
    }
}

/// The words for the rank that stands earliest, where the ranks are known.
#[derive(Clone, Copy)]
struct EarliestWords(Option<Earliest>);

impl fmt::Display for EarliestWords {
    ghost output = { λ words. Some (words_of_earliest words.0) };

    fn fmt<W: fmt::Write>(&self, f: &mut fmt::Formatter<W>) -> fmt::Result {
        match self.0 {
            Some(Earliest { rank, place }) => {
                write!(f, "; rank {rank} stands earliest, at its call {place}")
            }
            None => write!(f, ""),
        }
    }
}

/// The words for how much was read, where that is known.
#[derive(Clone, Copy)]
struct ReadWords(Option<u64>);

impl fmt::Display for ReadWords {
    ghost output = { λ words. Some (words_of_read words.0) };

    fn fmt<W: fmt::Write>(&self, f: &mut fmt::Formatter<W>) -> fmt::Result {
        match self.0 {
            Some(percent) => write!(f, "; {percent}% of the files read"),
            None => write!(f, ""),
        }
    }
}

/// How far a check is: how many calls the ranks have completed together, the first of those that stand earliest, and
/// how much of the files was read, in percent.
#[derive(Clone, Copy, Debug, PartialEq, Eq)]
pub struct Position {
    pub calls: u64,
    pub earliest: Option<Earliest>,
    pub percent: Option<u64>,
}

impl fmt::Display for Position {
    ghost output = { λ position. Some (words_of position) };

    fn fmt<W: fmt::Write>(&self, f: &mut fmt::Formatter<W>) -> fmt::Result {
        let earliest = EarliestWords(self.earliest);
        let read = ReadWords(self.percent);
        write!(f, "mpiwait: {} calls taken{earliest}{read}", self.calls)
    }
}

impl Position {
    /// The position of these stands. Where no ranks are known none of them is named.
    pub fn of(stands: &Stands, ranks: u16, percent: Option<u64>) -> Position
        requires { ranks ≤ MOST_RANKS }
        ensures { IsPositionOf ranks stands.now percent result }
    {
        let earliest = if ranks == 0 {
            None
        } else {
            Some(Earliest::of(stands, ranks))
        };
        Position {
            calls: stands.completed(),
            earliest,
            percent,
        }
    }

    /// The text of an update: on a terminal it takes the place of the last one, and else it is a line.
    pub fn framed(self, alloc: Global, is_terminal: bool) -> Result<String, AllocError>
        ensures { IfOk result (λ text. string_bytes text ≡ framed is_terminal (words_of self)) }
    {
        let text = if is_terminal {
            format!(in alloc; "\r{self}\x1b[K")?
        } else {
            format!(in alloc; "{self}\n")?
        };
        Ok(text)
    }
}
