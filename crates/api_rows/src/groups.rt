//! What is answered of the groups of splits.

use crate::answer::Answer;
use crate::fault::Fault;
use crate::words::{first_word, number_in};
use mpigroup::split::split_groups;
use std::alloc::Global;

/// The most members that a line may ask for.
const MOST: usize = 1000;

/// The colour and the key of a member.
fn choice_in(text: &str) -> Option<(Option<u32>, i32)> {
    let (word, key) = first_word(text);
    let key = key.parse::<i32>().ok()?;
    if word == "undefined" {
        return Some((None, key));
    }
    Some((Some(number_in(word)?), key))
}

fn choices_in(alloc: Global, text: &str) -> Result<Vec<(Option<u32>, i32)>, Fault> {
    let mut choices = Vec::new(alloc);
    for member in text.split(" / ") {
        let choice = choice_in(member).ok_or(Fault::Unread)?;
        if choices.push(choice).is_err() {
            return Err(Fault::Memory);
        }
    }
    Ok(choices)
}

fn tell_groups(answer: &mut Answer, choices: &[(Option<u32>, i32)]) {
    if choices.len() > MOST {
        answer.fail(Fault::Unread);
        return;
    }
    match split_groups(answer.alloc(), choices) {
        Ok(groups) => tell_each(answer, &groups),
        Err(_) => answer.fail(Fault::Memory),
    }
}

fn tell_each(answer: &mut Answer, groups: &[Vec<u16>]) {
    for group in groups {
        answer.separate(" / ");
        answer.numbers(group);
    }
}

/// The groups that a split makes of these colours and keys.
pub fn tell_split(answer: &mut Answer, text: &str) {
    match choices_in(answer.alloc(), text) {
        Ok(choices) => tell_groups(answer, &choices),
        Err(fault) => answer.fail(fault),
    }
}
