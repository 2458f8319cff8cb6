use mpicall::call::{Call, Peer};
use mpicall::counted::Counted;
use mpicall::device::{DeviceFault, Input, Output};
use mpicall::fault::SourceFault;
use mpicall::line::read_line;
use mpicall::record::Record;
use mpicall::source::Source;
use mpicall::spelling::write_line;
use std::alloc::Global;
use std::io;

/// A trace. What `read_line` makes of its first and last line is tried by rows of `api_rows`.
const TRACE: &str = "send 0 1 5\nrecv 255 63 2147483647\nfinalize\n";

/// Whether its second line is read as it should be.
fn is_second_read() -> bool {
    let call = Call::Recv {
        comm: 255,
        source: Peer::Rank(63),
        tag: 2147483647,
    };
    read_line(b"recv 255 63 2147483647\n").ok() == Record::new(call)
}

/// Whether a source gives the calls of these lines, and then this end, twice.
fn gives<I: Input>(
    source: &mut Source<I>,
    lines: &str,
    end: Result<Option<Record>, SourceFault>,
) -> bool {
    let mut is_so = true;
    for line in lines.split_inclusive('\n') {
        let call = read_line(line.as_bytes()).ok();
        is_so &= (source.next() == Ok(call)) & call.is_some();
    }
    is_so & (source.next() == end) & (source.next() == end)
}

/// A reader that gives so many bytes a read, and fails at one call.
#[derive(Drop)]
struct Reader<'a> {
    left: &'a [u8],
    most: usize,
    before: usize,
}

impl<'a> io::Read for Reader<'a> {
    fn read(&mut self, buf: &mut [u8]) -> io::Result<usize> {
        if self.before == 0 {
            return Err(io::Error::from(io::ErrorKind::TimedOut));
        }
        self.before -= 1;
        let count = self.left.len().min(buf.len()).min(self.most);
        let (given, left) = self.left.split_at(count);
        buf[..count].copy_from_slice(given);
        self.left = left;
        Ok(count)
    }
}

/// A writer that takes so many bytes a write, and fails at one call.
#[derive(Drop)]
struct Writer<'a> {
    taken: &'a mut Vec<u8>,
    most: usize,
    before: usize,
}

impl<'a> io::Write for Writer<'a> {
    fn write(&mut self, buf: &[u8]) -> io::Result<usize> {
        if self.before == 0 {
            return Err(io::Error::from(io::ErrorKind::TimedOut));
        }
        self.before -= 1;
        let count = buf.len().min(self.most);
        match self.taken.extend_from_slice(&buf[..count]) {
            Ok(()) => Ok(count),
            Err(_) => Err(io::Error::from(io::ErrorKind::OutOfMemory)),
        }
    }

    fn flush(&mut self) -> io::Result<()> {
        Ok(())
    }
}

/// A reader of the trace.
fn trace_reader(most: usize, before: usize) -> Reader<'static> {
    Reader {
        left: TRACE.as_bytes(),
        most,
        before,
    }
}

/// Whether a source over such a reader gives the calls of these lines, and then this end.
fn reads(
    most: usize,
    before: usize,
    lines: &str,
    end: Result<Option<Record>, SourceFault>,
) -> bool {
    gives(
        &mut Source::new(Counted::new(trace_reader(most, before))),
        lines,
        end,
    )
}

/// Whether a read that fails is reported and counted.
fn counts_a_failed_read() -> bool {
    let mut input = Counted::new(trace_reader(11, 1));
    let mut space = [0; 20];
    let is_read = (input.read_some(&mut space) == Ok(11)) & (input.failures() == 0);
    let is_told = (input.read_some(&mut space) == Err(DeviceFault)) & (input.failures() == 1);
    is_read & is_told
}

#[test]
fn a_reader_of_std_is_an_input(rt: HostRuntime) {
    assert!(rt; reads(1, 100, TRACE, Ok(None)), "one byte a read");
    assert!(rt;
        reads(11, 1, "send 0 1 5\n", Err(SourceFault::ReadFailed)),
        "the second read fails"
    );
    assert!(rt;
        reads(1000, 1, TRACE, Err(SourceFault::ReadFailed)),
        "the read behind the end fails"
    );
    assert!(rt; reads(0, 100, "", Err(SourceFault::NoFinalize)), "no bytes");
    assert!(rt; is_second_read() & counts_a_failed_read());
}

/// Whether a line that is written to such a writer leaves these bytes, with so many failures counted, and an empty
/// write fails as it should then.
fn writes(alloc: Global, most: usize, before: usize, want: &[u8], failures: u64) -> bool {
    let mut taken = Vec::new(alloc);
    let mut output = Counted::new(Writer {
        taken: &mut taken,
        most,
        before,
    });
    let is_told = write_line(&Record::finalize(), &mut output).is_err() == (failures > 0);
    let is_counted = output.failures() == failures;
    let is_over = output.write_some(b"").is_err() == (before < 100);
    drop(output);
    is_told & is_counted & is_over & (taken.as_slice() == want)
}

#[test]
fn a_writer_of_std_is_an_output(rt: HostRuntime) {
    assert!(rt;
        writes(rt.alloc(), 1, 100, b"finalize\n", 0),
        "one byte a write"
    );
    assert!(rt; writes(rt.alloc(), 100, 1, b"finalize\n", 0), "one write");
    assert!(rt;
        writes(rt.alloc(), 4, 1, b"fina", 1),
        "the second write fails"
    );
    assert!(rt; writes(rt.alloc(), 0, 100, b"", 1), "no byte is taken");
}
