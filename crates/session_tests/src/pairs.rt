//! Pairs to which calls are added again where memory is refused.

use crate::kept::Kept;
use crate::opened::head_again;
use callstore::envelope::Half;
use mpicall::line::read_line;
use mpicall::record::Record;
use pairing::added::{Added, PairFault};
use pairing::pairs::Pairs;
use std::alloc::Global;
use std::test::Fail;

/// Adds the rank's next call.
fn add(pairs: &mut Pairs, rank: u16, call: &Record) -> Result<Result<Added, PairFault>, Fail> {
    if rank >= pairs.head().ranks() {
        return Err("no such rank".into());
    }
    let place = pairs.accepted(rank).unwrap_or(0);
    Ok(pairs.add(rank, place, call))
}

/// Pairs of a head, made again where memory is refused.
fn pairs_again(alloc: Global, head: &[u8]) -> Result<Kept<Pairs>, Fail> {
    match Pairs::new(alloc, head_again(alloc, head)?) {
        Ok(pairs) => Ok(Kept(pairs)),
        Err(_) => Ok(Kept(Pairs::new(alloc, head_again(alloc, head)?)?)),
    }
}

/// The call of a rank at a place, if there is one.
fn record_at(pairs: &Pairs, rank: u16, place: u32) -> Option<Record> {
    match pairs.call(rank, place) {
        Some(call) => Some(call.record()),
        None => None,
    }
}

/// Whether both answer the same of the requests of a call.
fn have_same_requests(one: &Pairs, other: &Pairs, rank: u16, place: u32) -> bool {
    for req in 0..4u32 {
        let index = req as usize;
        if one.started(rank, place, req) != other.started(rank, place, req)
            || one.completed(rank, place, index) != other.completed(rank, place, index)
        {
            return false;
        }
    }
    true
}

/// Whether both answer the same of a call.
fn have_same_call(one: &Pairs, other: &Pairs, rank: u16, place: u32) -> bool {
    record_at(one, rank, place) == record_at(other, rank, place)
        && one.partner(rank, place, Half::Send) == other.partner(rank, place, Half::Send)
        && one.partner(rank, place, Half::Recv) == other.partner(rank, place, Half::Recv)
        && one.wave_of(rank, place) == other.wave_of(rank, place)
        && have_same_requests(one, other, rank, place)
}

/// Whether both answer the same of a rank's calls, and of a communicator with the rank's number.
fn have_same_rank(one: &Pairs, other: &Pairs, rank: u16) -> bool {
    for place in 0..8u32 {
        if !have_same_call(one, other, rank, place)
            || one.member(rank, place, 0) != other.member(rank, place, 0)
            || one.member(rank, place, 1) != other.member(rank, place, 1)
        {
            return false;
        }
    }
    one.accepted(rank) == other.accepted(rank) && one.is_ended(rank) == other.is_ended(rank)
}

/// Adds the rank's next call, again where memory is refused.
fn add_again(pairs: &mut Pairs, rank: u16, call: &Record) -> Result<Added, Fail> {
    match add(pairs, rank, call)? {
        Ok(added) => Ok(added),
        Err(PairFault::Memory) => Ok(add(pairs, rank, call)??),
        Err(fault) => Err(fault.into()),
    }
}

/// Calls, each after its rank.
const CALLS: &str = "0 dup 0 1
0 sendrecv 0 1 5 1 6
0 irecv 2 1 0 5
1 dup 0 1
0 isend 3 0 1 7
1 sendrecv 0 0 6 0 5
0 waitall 3 2
1 ibarrier 1 1
1 recv 0 0 7
1 waitany 0 1
0 barrier 1
0 finalize
1 finalize
";

/// The sweep of `bench/refuse` runs this with each request for memory refused in turn.
#[test]
fn a_refused_call_is_added_again(rt: HostRuntime) -> Result<(), Fail> {
    let mut one = pairs_again(rt.alloc(), b"ranks 2\ncomm 1 0\n")?;
    let mut other = pairs_again(rt.alloc(), b"ranks 2\ncomm 1 0\n")?;
    for line in CALLS.split_inclusive('\n') {
        let (rank, line) = line.split_once(' ').ok_or("a rank")?;
        let rank = if rank == "0" { 0 } else { 1 };
        let call = read_line(line.as_bytes())?;
        let added = add_again(&mut one.0, rank, &call)?;
        assert!(rt;
            add_again(&mut other.0, rank, &call)? == added,
            "of {line:?}"
        );
    }
    assert!(rt; have_same_rank(&one.0, &other.0, 0) && have_same_rank(&one.0, &other.0, 1));
    Ok(())
}
