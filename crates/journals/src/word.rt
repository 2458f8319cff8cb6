//! The words of a journal's lines.
//!
//! They are looked up in two tables, of call lines and of reports, in which words that come often are first.

ghost use Rattle.std.specs.Prelude.{◌≡◌, map};
ghost use Rattle.std.specs.Str.{bytes_eq};
ghost use Rattle.journals.specs.Words.{word_in, call_word_of, report_word_of, word_of};
ghost use Rattle.journals.specs.inner.Places.{begins_report};

/// The word of a call line: what the rank called.
#[derive(Clone, Copy, PartialEq, Eq)]
pub enum CallWord {
    Init,
    Finalize,
    Abort,
    /// The program ended without MPI_Finalize.
    Exit,
    /// The recorder writes no more call lines.
    Full,
    /// What the rank does from here on isn't known.
    Stopped,
    /// The journal ends here, where nothing is under way; the rank goes on in another.
    Cut,
    Send,
    Ssend,
    Bsend,
    Rsend,
    Isend,
    Issend,
    Ibsend,
    Irsend,
    Recv,
    Irecv,
    Sendrecv,
    Isendrecv,
    Probe,
    Mprobe,
    Iprobe,
    Improbe,
    Mrecv,
    Imrecv,
    Wait,
    Test,
    Waitany,
    Waitsome,
    Cancel,
    RequestFree,
    Barrier,
    Bcast,
    Gather,
    Scatter,
    Reduce,
    Allgather,
    Alltoall,
    Allreduce,
    Scan,
    Exscan,
    Ibarrier,
    Ibcast,
    Igather,
    Iscatter,
    Ireduce,
    Iallgather,
    Ialltoall,
    Iallreduce,
    Iscan,
    Iexscan,
    CommDup,
    CommSplit,
    /// Any other call by which all members of a communicator make new ones.
    CommMake,
    CommIdup,
    CommCreateGroup,
    CommFree,
}

/// The word of a reported line: what is known of the call line before it, or of an earlier request.
#[derive(Clone, Copy, PartialEq, Eq)]
pub enum ReportWord {
    /// The source and the tag of the message that a receive took or a probe saw.
    Got,
    /// The requests that a wait for any or some of several completed.
    Chose,
    /// The message with which the request of a receive with a wildcard completed.
    Done,
    /// The request was cancelled.
    Gone,
    /// The request that a cancel named completed all the same.
    Kept,
    /// The receive of the request goes on in the journal after this one.
    Moved,
    /// The communicator that the call made, with its group.
    Comm,
    /// That which the nonblocking duplicate made that started the request.
    Idup,
    /// The call gave this rank no communicator.
    NoComm,
    /// A communicator that the rank got by what no call line says.
    Apart,
    /// The call answered with an error.
    Failed,
}

/// A word that a line may begin with.
#[derive(Clone, Copy, PartialEq, Eq)]
pub enum Word {
    Call(CallWord),
    Report(ReportWord),
}

/// The texts of the call words, those that come often first.
const CALLS: [(&str, CallWord); 57] = [
    ("isend", CallWord::Isend),
    ("irecv", CallWord::Irecv),
    ("wait", CallWord::Wait),
    ("recv", CallWord::Recv),
    ("send", CallWord::Send),
    ("allreduce", CallWord::Allreduce),
    ("barrier", CallWord::Barrier),
    ("bcast", CallWord::Bcast),
    ("sendrecv", CallWord::Sendrecv),
    ("waitany", CallWord::Waitany),
    ("waitsome", CallWord::Waitsome),
    ("test", CallWord::Test),
    ("reduce", CallWord::Reduce),
    ("gather", CallWord::Gather),
    ("scatter", CallWord::Scatter),
    ("allgather", CallWord::Allgather),
    ("alltoall", CallWord::Alltoall),
    ("probe", CallWord::Probe),
    ("iprobe", CallWord::Iprobe),
    ("ssend", CallWord::Ssend),
    ("bsend", CallWord::Bsend),
    ("rsend", CallWord::Rsend),
    ("issend", CallWord::Issend),
    ("ibsend", CallWord::Ibsend),
    ("irsend", CallWord::Irsend),
    ("isendrecv", CallWord::Isendrecv),
    ("mprobe", CallWord::Mprobe),
    ("improbe", CallWord::Improbe),
    ("mrecv", CallWord::Mrecv),
    ("imrecv", CallWord::Imrecv),
    ("cancel", CallWord::Cancel),
    ("request_free", CallWord::RequestFree),
    ("scan", CallWord::Scan),
    ("exscan", CallWord::Exscan),
    ("ibarrier", CallWord::Ibarrier),
    ("ibcast", CallWord::Ibcast),
    ("igather", CallWord::Igather),
    ("iscatter", CallWord::Iscatter),
    ("ireduce", CallWord::Ireduce),
    ("iallgather", CallWord::Iallgather),
    ("ialltoall", CallWord::Ialltoall),
    ("iallreduce", CallWord::Iallreduce),
    ("iscan", CallWord::Iscan),
    ("iexscan", CallWord::Iexscan),
    ("comm_dup", CallWord::CommDup),
    ("comm_split", CallWord::CommSplit),
    ("comm_make", CallWord::CommMake),
    ("comm_idup", CallWord::CommIdup),
    ("comm_create_group", CallWord::CommCreateGroup),
    ("comm_free", CallWord::CommFree),
    ("init", CallWord::Init),
    ("finalize", CallWord::Finalize),
    ("abort", CallWord::Abort),
    ("exit", CallWord::Exit),
    ("full", CallWord::Full),
    ("stopped", CallWord::Stopped),
    ("cut", CallWord::Cut),
];

/// The texts of the report words.
const REPORTS: [(&str, ReportWord); 11] = [
    ("=got", ReportWord::Got),
    ("=chose", ReportWord::Chose),
    ("=done", ReportWord::Done),
    ("=gone", ReportWord::Gone),
    ("=kept", ReportWord::Kept),
    ("=comm", ReportWord::Comm),
    ("=idup", ReportWord::Idup),
    ("=none", ReportWord::NoComm),
    ("=apart", ReportWord::Apart),
    ("=failed", ReportWord::Failed),
    ("=moved", ReportWord::Moved),
];

/// Whether two texts are the same. Words are short, so they are compared byte by byte.
#[inline(always)]
pub(crate) fn are_same(mut one: &[u8], mut other: &[u8]) -> bool
    ensures { result ≡ bytes_eq one.entry.now other.entry.now }
{
    while let [byte, rest @ ..] = one {
        let [its, its_rest @ ..] = other else {
            return false;
        };
        if *byte != *its {
            return false;
        }
        one = rest;
        other = its_rest;
    }
    other.is_empty()
}

/// The call word of a table that a field spells, if there is one.
fn call_in(mut table: &[(&str, CallWord)], field: &[u8]) -> Option<CallWord>
    ensures { result ≡ word_in (map (λ row. (row.0.now, row.1)) table.entry.now) field.now }
{
    while let [row, rest @ ..] = table {
        if are_same(field, row.0.as_bytes()) {
            return Some(row.1);
        }
        table = rest;
    }
    None
}

/// The report word of a table that a field spells, if there is one.
fn report_in(mut table: &[(&str, ReportWord)], field: &[u8]) -> Option<ReportWord>
    ensures { result ≡ word_in (map (λ row. (row.0.now, row.1)) table.entry.now) field.now }
{
    while let [row, rest @ ..] = table {
        if are_same(field, row.0.as_bytes()) {
            return Some(row.1);
        }
        table = rest;
    }
    None
}

/// The call word that a field spells, if there is one. Those that come most often are found without a search.
fn call_word_of(field: &[u8]) -> Option<CallWord>
    ensures { result ≡ call_word_of field.now }
{
    if are_same(field, b"isend".as_slice()) {
        return Some(CallWord::Isend);
    }
    if are_same(field, b"irecv".as_slice()) {
        return Some(CallWord::Irecv);
    }
    if are_same(field, b"wait".as_slice()) {
        return Some(CallWord::Wait);
    }
    call_in(&CALLS, field)
}

fn report_word_of(field: &[u8]) -> Option<ReportWord>
    ensures { result ≡ report_word_of field.now }
{
    report_in(&REPORTS, field)
}

/// Whether a field begins as the text of a report word does, and that of no call word.
fn begins_report(field: &[u8]) -> bool
    ensures { result ≡ begins_report field.now }
{
    match field {
        [first, ..] => *first == b'=',
        [] => false,
    }
}

/// The word that a field spells, if there is one.
#[tactic(auto, using(crate::proofs::WordLemmas::report_alone, crate::proofs::WordLemmas::call_alone))]
pub fn word_of(field: &[u8]) -> Option<Word>
    ensures { result ≡ word_of field.now }
{
    if begins_report(field) {
        return match report_word_of(field) {
            Some(word) => Some(Word::Report(word)),
            None => None,
        };
    }
    match call_word_of(field) {
        Some(word) => Some(Word::Call(word)),
        None => None,
    }
}
