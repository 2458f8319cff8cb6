use arenaqueue::queues::Queues;
use std::test::Fail;

#[test]
fn values_come_out_as_they_went_in(rt: HostRuntime) -> Result<(), Fail> {
    let mut queues = Queues::new(rt.alloc());
    let first = queues.new_list()?;
    let second = queues.new_list()?;
    queues.reserve(3)?;
    queues.push_reserved(first, 5u16);
    queues.push_reserved(second, 6);
    queues.push_reserved(second, 7);
    queues.append(first, second);
    let is_in = (queues.front(first) == Some(5)) & queues.front(second).is_none();
    let is_out = (queues.pop_front(first) == Some(5)) & (queues.pop_front(first) == Some(6));
    let is_counted = (queues.spare() == 2) & (queues.work() == 9);
    assert!(rt; is_in & is_out & is_counted);
    Ok(())
}

/// Makes a list, again where memory is refused. Whether there is one more.
fn new_list(queues: &mut Queues<u32>) -> bool {
    queues.new_list().is_ok() || queues.new_list().is_ok()
}

/// Puts 40 values into list 0. Whether each was put.
fn pushes(queues: &mut Queues<u32>) -> bool {
    for value in 0..40u32 {
        let has_room = queues.reserve(1).is_ok() || queues.reserve(1).is_ok();
        if !has_room || queues.spare() == 0 || queues.list_count() == 0 {
            return false;
        }
        queues.push_reserved(0, value);
    }
    true
}

/// Takes them out again. Whether each came in its turn.
fn pops(queues: &mut Queues<u32>) -> bool {
    let mut is_so = true;
    for value in 0..40u32 {
        is_so &= queues.list_count() > 0 && queues.pop_front(0) == Some(value);
    }
    is_so
}

/// The sweep of `bench/refuse` runs this with each request for memory refused in turn. The last call here is
/// refused always.
#[test]
fn a_refused_call_is_made_again(rt: HostRuntime) -> Result<(), Fail> {
    let mut queues = Queues::new(rt.alloc());
    let are_made = new_list(&mut queues) & new_list(&mut queues);
    let are_put = pushes(&mut queues);
    let is_refused = queues.reserve(usize::MAX).is_err();
    let are_taken = pops(&mut queues);
    assert!(rt; are_made & are_put & is_refused & are_taken);
    Ok(())
}
