//! An analyser whose calls are offered again where memory is refused.

use crate::kept::Kept;
use crate::opened::head_again;
use moves::analyser::{Analyser, OfferFault};
use moves::reading::Reading;
use mpicall::line::read_line;
use std::alloc::Global;
use std::test::Fail;

/// Offers the call of a line, and answers why it is refused, if it is.
fn refusal(analyser: &mut Analyser, rank: u16, line: &str) -> Result<Option<OfferFault>, Fail> {
    let call = read_line(line.as_bytes())?;
    if rank >= analyser.head().ranks() {
        return Err("no such rank".into());
    }
    Ok(analyser.offer(rank, &call).err())
}

/// An analyser of a head, made again where memory is refused.
fn run_again(alloc: Global, head: &[u8]) -> Result<Kept<Analyser>, Fail> {
    match Analyser::new(alloc, head_again(alloc, head)?, Reading::Strict) {
        Ok(run) => Ok(Kept(run)),
        Err(_) => {
            let head = head_again(alloc, head)?;
            Ok(Kept(Analyser::new(alloc, head, Reading::Strict)?))
        }
    }
}

/// Offers the call of a line, again where memory is refused.
fn offer_again(analyser: &mut Analyser, rank: u16, line: &str) -> Result<(), Fail> {
    let before = (analyser.accepted(rank), analyser.touches());
    match refusal(analyser, rank, line)? {
        None => return Ok(()),
        Some(OfferFault::Memory) if before == (analyser.accepted(rank), analyser.touches()) => {}
        Some(fault) => return Err(fault.into()),
    }
    match refusal(analyser, rank, line)? {
        None => Ok(()),
        Some(fault) => Err(fault.into()),
    }
}

/// The sweep of `bench/refuse` runs this with each request for memory refused in turn.
#[test]
fn a_barrier_of_many_ranks(rt: HostRuntime) -> Result<(), Fail> {
    let mut run = run_again(rt.alloc(), b"ranks 64\n")?;
    for rank in (0..64).rev() {
        offer_again(&mut run.0, rank, "barrier 0\n")?;
        offer_again(&mut run.0, rank, "finalize\n")?;
    }
    for rank in 0..64 {
        assert_eq!(rt; run.0.stand(rank), Some(1));
        assert!(rt; run.0.is_ended(rank));
    }
    Ok(())
}
