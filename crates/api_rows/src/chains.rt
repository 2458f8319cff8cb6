//! Lists of numbers in an arena.

ghost use Rattle.std.specs.Prelude.{◌<◌, length, IfSome};
ghost use Rattle.arenalist.specs.Arena.{IsLinked};

use crate::answer::Answer;
use crate::fault::Fault;
use crate::words::{Numbers, numbers_in};
use arenalist::lists::Lists;
use arenalist::node::{ListId, Node};

/// The list of a number, if there is one.
fn list_in(lists: &Lists<u32>, number: u32) -> Option<ListId>
    ensures { IfSome result (λ list. list < length lists.now.lists) }
{
    let number = number as usize;
    if number < lists.list_count() {
        Some(lists.list(number))
    } else {
        None
    }
}

/// The node after one, if that is in a list.
fn behind(lists: &Lists<u32>, node: Node) -> Option<Node> {
    if lists.list_of(node).is_none() {
        return None;
    }
    lists.next(node)
}

/// The node at a place of a list.
fn node_at(lists: &Lists<u32>, list: u32, place: u32) -> Option<Node>
    ensures { IfSome result (λ node. IsLinked lists.now.lists node) }
{
    let mut node = lists.first(list_in(lists, list)?)?;
    for _ in 0..place {
        node = behind(lists, node)?;
    }
    if lists.list_of(node).is_some() {
        Some(node)
    } else {
        None
    }
}

/// Adds the values of a list.
pub fn tell_list(answer: &mut Answer, lists: &Lists<u32>, list: u32) {
    for place in 0..u32::MAX {
        let Some(node) = node_at(lists, list, place) else {
            return;
        };
        answer.separate(" ");
        answer.value("", lists.get(node));
    }
}

fn push(lists: &mut Lists<u32>, text: &str) -> bool {
    let Some(Numbers::Two(list, value)) = numbers_in(text) else {
        return false;
    };
    match list_in(lists, list) {
        Some(list) => lists.push_back(list, value).is_ok(),
        None => false,
    }
}

fn move_back(lists: &mut Lists<u32>, text: &str) -> bool {
    let Some(Numbers::Three(list, place, to)) = numbers_in(text) else {
        return false;
    };
    match (node_at(lists, list, place), list_in(lists, to)) {
        (Some(node), Some(to)) => {
            lists.move_back(node, to);
            true
        }
        _ => false,
    }
}

fn append(lists: &mut Lists<u32>, text: &str) -> bool {
    let Some(Numbers::Two(to, from)) = numbers_in(text) else {
        return false;
    };
    let (Some(to), Some(from)) = (list_in(lists, to), list_in(lists, from)) else {
        return false;
    };
    if to == from {
        return false;
    }
    lists.append(to, from);
    true
}

/// Does what a line says, if it changes the lists and answers nothing.
pub fn set_lists(answer: &mut Answer, lists: &mut Lists<u32>, word: &str, text: &str) -> bool {
    let is_done = match word {
        "newlist" => text.is_empty() && lists.new_list().is_ok(),
        "push" => push(lists, text),
        "move" => move_back(lists, text),
        "append" => append(lists, text),
        _ => return false,
    };
    if !is_done {
        answer.fail(Fault::Missing);
    }
    true
}

fn pop(lists: &mut Lists<u32>, list: u32) -> Option<u32> {
    let list = list_in(lists, list)?;
    lists.pop_front(list)
}

fn unlink(lists: &mut Lists<u32>, list: u32, place: u32) -> Option<u32> {
    let node = node_at(lists, list, place)?;
    Some(lists.unlink(node))
}

/// Takes a value out of a list, if a line says so.
pub fn take_of_lists(answer: &mut Answer, lists: &mut Lists<u32>, word: &str, text: &str) -> bool {
    let taken = match (word, numbers_in(text)) {
        ("pop", Some(Numbers::One(list))) => pop(lists, list),
        ("unlink", Some(Numbers::Two(list, place))) => unlink(lists, list, place),
        _ => return false,
    };
    if let Some(value) = taken {
        answer.number("", value);
    }
    true
}
