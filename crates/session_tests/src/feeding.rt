use crate::whole_runs::StopsAt;
use gather::feed::feed;
use gather::gate::Gate;
use mpicall::fault::SourceFault;
use mpicall::line::read_line;
use mpicall::memory::MemoryInput;
use mpicall::source::Source;
use rankfeed::{Feed, Took};
use std::alloc::{AllocError, Global};
use std::cell::Cell;
use std::process::Abort;
use std::sync::Wait;
use std::test::Fail;

// A gate that writes down the rank and the line of each question, as two digits.
#[derive(Drop)]
struct Digits(Cell<u64>);

impl Gate for Digits {
    fn ask(&self, rank: u16, line: u32) -> bool {
        let digits = u64::from(rank) * 10 + u64::from(line);
        self.0
            .set(self.0.get().saturating_mul(100).saturating_add(digits));
        true
    }
}

// What the taker of rank 7 is given by three lines.
fn taken(alloc: Global, gate: &impl Gate, wait: &impl Wait) -> Result<[Took; 4], AllocError> {
    let (feed_end, mut taker) = Feed::open(alloc, 7, 4)?;
    let mut source = Source::new(MemoryInput::new(b"send 0 1 5\nrecv 0 1 5\nfinalize\n"));
    if let Ok(receipt) = feed(7, &mut source, feed_end, gate, wait) {
        taker.meet(receipt);
    }
    Ok([
        taker.try_take(),
        taker.try_take(),
        taker.try_take(),
        taker.try_take(),
    ])
}

fn record(rt: &impl Abort, line: &[u8]) -> Took {
    Took::Record(read_line(line).expect(rt, "a record's line"))
}

// A question comes before each call of the source, and one that is answered no ends the feed.
#[test]
fn a_gate_is_asked_before_each_call_of_the_source(rt: HostRuntime) -> Result<(), Fail> {
    let send = record(&rt, b"send 0 1 5\n");
    let gate = Digits(Cell::new(0));
    let took = taken(rt.alloc(), &gate, &rt)?;
    assert!(rt; took[0] == send && took[1] == record(&rt, b"recv 0 1 5\n"));
    assert!(rt; took[2] == record(&rt, b"finalize\n") && took[3] == Took::Sealed);
    assert!(rt; gate.0.get() == 70_717_273);
    let took = taken(rt.alloc(), &StopsAt(7, 1), &rt)?;
    assert!(rt; took[0] == send && took[1] == Took::Torn(SourceFault::GateStopped));
    Ok(())
}
