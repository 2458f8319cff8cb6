ghost use Rattle.std.specs.Prelude.{◌<◌, length, IsTrue};

use arenalist::lists::Lists;
use arenalist::node::ListId;
use std::test::Fail;

fn has_list(lists: &Lists<u32>, list: ListId) -> bool
    ensures { IsTrue result → list < length lists.now.lists }
{
    (list.number() as usize) < lists.list_count()
}

#[test]
fn room_that_was_made_takes_values(rt: HostRuntime) -> Result<(), Fail> {
    let mut lists = Lists::new(rt.alloc());
    let list = lists.new_list()?;
    lists.reserve(2)?;
    let node = lists.push_reserved(list, 5);
    let has_room = lists.spare() >= 1;
    *lists.get_mut(node) = 7;
    let is_set = *lists.get(node) == 7;
    let is_out = (lists.pop_front(list) == Some(7)) & (lists.work() == 2);
    assert!(rt; has_room & is_set & is_out);
    Ok(())
}

/// Makes a list, again where memory is refused.
fn new_list(lists: &mut Lists<u32>) -> Option<ListId> {
    match lists.new_list() {
        Ok(list) => Some(list),
        Err(_) => lists.new_list().ok(),
    }
}

/// Puts a value at the back of a list, again where memory is refused, which gives it back.
fn push(lists: &mut Lists<u32>, list: ListId, value: u32) -> bool {
    if !has_list(lists, list) {
        return false;
    }
    match lists.push_back(list, value) {
        Ok(_) => true,
        Err(refused) => lists.push_back(list, refused.value).is_ok(),
    }
}

/// Puts 40 values into a list. Whether each was put.
fn pushes(lists: &mut Lists<u32>, list: ListId) -> bool {
    let mut is_so = true;
    for value in 0..40u32 {
        is_so &= push(lists, list, value);
    }
    is_so
}

/// Takes them out again. Whether each came in its turn.
fn pops(lists: &mut Lists<u32>, list: ListId) -> bool {
    let mut is_so = true;
    for value in 0..40u32 {
        is_so &= has_list(lists, list) && lists.pop_front(list) == Some(value);
    }
    is_so
}

/// The sweep of `bench/refuse` runs this with each request for memory refused in turn. The last call here is
/// refused always.
#[test]
fn a_refused_call_is_made_again(rt: HostRuntime) -> Result<(), Fail> {
    let mut lists = Lists::new(rt.alloc());
    let (first, second) = (new_list(&mut lists), new_list(&mut lists));
    let first = first.ok_or("the first list")?;
    let second = second.ok_or("the second list")?;
    let are_put = pushes(&mut lists, first) & pushes(&mut lists, second);
    let has_room = lists.reserve(100).is_ok() || lists.reserve(100).is_ok();
    let is_refused = lists.reserve(usize::MAX).is_err();
    let are_taken = pops(&mut lists, first) & pops(&mut lists, second);
    assert!(rt; are_put & has_room & is_refused & are_taken);
    Ok(())
}
