//! Questions that a number, two or three follow, and that one value answers.

use crate::answer::Answer;
use crate::fault::Fault;
use crate::words::{Numbers, short};
use moves::analyser::Analyser;
use pairing::pairs::Pairs;

/// What is answered.
#[derive(Clone, Copy)]
pub enum Told {
    /// There is no such question.
    Unasked,
    YesOrNo(bool),
    Short(Option<u16>),
    Number(Option<u32>),
    Count(u64),
    /// A rank and a place, or a communicator and a wave.
    Pair(Option<(u16, u32)>),
    Within,
}

/// A run: the calls of its analyser, and those of its pairs.
#[derive(Clone, Copy)]
pub struct Calls<'a> {
    pub run: &'a Analyser,
    pub pairs: &'a Pairs,
}

fn told_of_all(calls: Calls<'_>, asked: &str) -> Told {
    match asked {
        "ranks" => Told::Short(Some(calls.run.head().ranks())),
        "comms" => Told::Short(Some(calls.run.head().comms())),
        "closed" => Told::YesOrNo(calls.run.is_closed()),
        "work" => Told::Count(calls.pairs.work()),
        _ => Told::Unasked,
    }
}

fn told_of_one(calls: Calls<'_>, asked: &str, first: u16) -> Told {
    match asked {
        "size" => Told::Short(calls.run.head().size(first)),
        "ended" => Told::YesOrNo(calls.run.is_ended(first)),
        "accepted" => Told::Number(calls.run.accepted(first)),
        "over" => Told::YesOrNo(calls.pairs.is_ended(first)),
        "added" => Told::Number(calls.pairs.accepted(first)),
        _ => Told::Unasked,
    }
}

/// Whether the touches are so many at least and at most, and else how many they are.
fn told_of_touches(touches: u64, least: u32, most: u32) -> Told {
    if u64::from(least) <= touches && touches <= u64::from(most) {
        Told::Within
    } else {
        Told::Count(touches)
    }
}

fn told_of_two(calls: Calls<'_>, asked: &str, first: u32, second: u32) -> Told {
    let rank = short(first);
    match asked {
        "grouprank" => Told::Short(calls.run.head().group_rank(rank, short(second))),
        "worldrank" => Told::Short(calls.run.head().world_rank(rank, short(second))),
        "joins" => Told::Pair(calls.run.pairs().wave_of(rank, second)),
        "touches" => told_of_touches(calls.run.touches(), first, second),
        "wave" => Told::Pair(calls.pairs.wave_of(rank, second)),
        "probed" => Told::Pair(calls.pairs.probed(rank, second)),
        _ => Told::Unasked,
    }
}

fn told_of_three(pairs: &Pairs, asked: &str, first: u16, second: u32, third: u32) -> Told {
    match asked {
        "member" => Told::Number(pairs.member(first, second, short(third))),
        "started" => Told::Number(pairs.started(first, second, third)),
        "completed" => Told::Number(pairs.completed(first, second, third as usize)),
        _ => Told::Unasked,
    }
}

fn told_of(calls: Calls<'_>, asked: &str, numbers: Numbers) -> Told {
    match numbers {
        Numbers::None => told_of_all(calls, asked),
        Numbers::One(first) => told_of_one(calls, asked, short(first)),
        Numbers::Two(first, second) => told_of_two(calls, asked, first, second),
        Numbers::Three(first, second, third) => {
            told_of_three(calls.pairs, asked, short(first), second, third)
        }
    }
}

/// Answers a question with these numbers.
pub fn tell_numbers(answer: &mut Answer, calls: Calls<'_>, asked: &str, numbers: Numbers) {
    match told_of(calls, asked, numbers) {
        Told::Unasked => answer.fail(Fault::Unread),
        Told::YesOrNo(is_so) => answer.yes_or_no(is_so),
        Told::Short(Some(number)) => answer.value("", &number),
        Told::Number(Some(number)) => answer.number("", number),
        Told::Count(number) => answer.value("", &number),
        Told::Pair(Some((first, second))) => answer.pair("", first, second),
        Told::Within => answer.put("within"),
        Told::Short(None) | Told::Number(None) | Told::Pair(None) => {}
    }
}
