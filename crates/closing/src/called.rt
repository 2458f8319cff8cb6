//! What a call line says, by its word: each field by what it is.

ghost use Rattle.std.specs.Prelude.{◌≡◌, true, length};
ghost use Rattle.closing.specs.Called.{awaits, awaited, bytes_in, called, comm_of, exchanges, naturals_in, one_number, rooted, sends, sent, splits, starts_awaiting, starts_exchange, starts_rooted, starts_send, starts_unrooted, two_numbers, unrooted, wave_comm};
ghost use Rattle.closing.specs.Called as say;
ghost use Rattle.closing.specs.Fit.{AreNumbers};
ghost use Rattle.closing.specs.RankComms.{makes_comm};
ghost use Rattle.mpicall.specs.declared.call.Mode.{Mode as ModeSaid};
ghost use Rattle.closing.specs.Made.{may_give};
ghost use Rattle.closing.specs.inner.Views.{awaited_view, called_view, sent_view};
ghost use Rattle.closing.specs.inner.Walked.{AreRequests};
ghost use Rattle.closing.specs.inner.Words.{by_collective, by_comm, by_message, counts, is_bare, is_plain};

use journals::field::Field;
use journals::word::CallWord;
use mpicall::call::Mode;
use mpicall::word::Collective;

/// A message that is sent.
#[derive(Clone, Copy)]
pub(crate) struct Sent {
    pub comm: u32,
    pub dest: Field,
    pub tag: Field,
    pub bytes: Option<u32>,
}

/// A message that is received or probed for.
#[derive(Clone, Copy)]
pub(crate) struct Awaited {
    pub comm: u32,
    pub source: Field,
    pub tag: Field,
}

/// What a rank called. Requests, messages and communicators have the rank's own numbers; those of requests
/// and messages come first.
#[derive(Clone, Copy)]
pub(crate) enum Called<'a> {
    Sends(Mode, Sent),
    StartsSend(u32, Mode, Sent),
    Receives(Awaited),
    StartsReceive(u32, Awaited),
    Exchanges(Sent, Awaited),
    /// With the requests of its send and of its receive.
    StartsExchange(u32, u32, Sent, Awaited),
    Probes(Awaited),
    /// A matching probe, and a receive of the message that one took; with a request of its own where it is
    /// started.
    ProbesMatching(u32, Awaited),
    ReceivesMatched(u32),
    StartsMatched(u32, u32),
    Waits(&'a [Field]),
    Tests(&'a [Field]),
    WaitsAny(&'a [Field]),
    WaitsSome(&'a [Field]),
    Cancels(u32),
    FreesRequest(u32),
    Collects(Collective, u32, Option<i32>),
    StartsCollective(u32, Collective, u32, Option<i32>),
    Duplicates(u32),
    StartsDuplicate(u32, u32),
    /// By colour and key; no colour stands for `undefined`.
    Splits(u32, Option<i32>, i32),
    Makes(u32),
    MakesOfGroup(&'a [Field]),
    FreesComm(u32),
    Nothing,
    Finalizes,
    Exits,
    Aborts,
    Fills,
    Stops,
    Cuts,
}

// ---- Fields that aren't those of a word, as no line of a journal has them, say nothing ----

#[inline(always)]
fn bytes_in(fields: &[Field]) -> Option<u32>
    ensures { result ≡ bytes_in fields.now }
{
    match fields {
        [Field::Natural(bytes)] => Some(bytes.get()),
        _ => None,
    }
}

#[inline(always)]
fn make_sent(comm: u32, dest: Field, tag: Field, bytes: &[Field]) -> Sent
    ensures { sent_view result ≡ sent comm dest tag bytes.now }
{
    Sent {
        comm,
        dest,
        tag,
        bytes: bytes_in(bytes),
    }
}

#[inline(always)]
fn make_awaited(comm: u32, source: Field, tag: Field) -> Awaited
    ensures { awaited_view result ≡ awaited comm source tag }
{
    Awaited { comm, source, tag }
}

fn sends<'a>(mode: Mode, fields: &[Field]) -> Called<'a>
    ensures { called_view result ≡ sends mode fields.now }
{
    match fields {
        [Field::Natural(comm), dest, tag, bytes @ ..] => {
            Called::Sends(mode, make_sent(comm.get(), *dest, *tag, bytes))
        }
        _ => Called::Nothing,
    }
}

#[inline(always)]
pub(crate) fn starts_send<'a>(mode: Mode, fields: &[Field]) -> Called<'a>
    ensures { called_view result ≡ starts_send mode fields.now }
{
    match fields {
        [
            Field::Natural(request),
            Field::Natural(comm),
            dest,
            tag,
            bytes @ ..,
        ] => {
            Called::StartsSend(
                request.get(),
                mode,
                make_sent(comm.get(), *dest, *tag, bytes),
            )
        }
        _ => Called::Nothing,
    }
}

#[inline(always)]
pub(crate) fn receives<'a>(fields: &[Field]) -> Called<'a>
    ensures { called_view result ≡ awaits say.Receives fields.now }
{
    match fields {
        [Field::Natural(comm), source, tag] => Called::Receives(make_awaited(
            comm.get(),
            *source,
            *tag,
        )),
        _ => Called::Nothing,
    }
}

#[inline(always)]
pub(crate) fn starts_receive<'a>(fields: &[Field]) -> Called<'a>
    ensures { called_view result ≡ starts_awaiting say.StartsReceive fields.now }
{
    match fields {
        [Field::Natural(number), Field::Natural(comm), source, tag] => Called::StartsReceive(
            number.get(),
            make_awaited(comm.get(), *source, *tag),
        ),
        _ => Called::Nothing,
    }
}

fn probes<'a>(fields: &[Field]) -> Called<'a>
    ensures { called_view result ≡ awaits say.Probes fields.now }
{
    match fields {
        [Field::Natural(comm), source, tag] => Called::Probes(make_awaited(
            comm.get(),
            *source,
            *tag,
        )),
        _ => Called::Nothing,
    }
}

fn probes_matching<'a>(fields: &[Field]) -> Called<'a>
    ensures { called_view result ≡ starts_awaiting say.ProbesMatching fields.now }
{
    match fields {
        [Field::Natural(number), Field::Natural(comm), source, tag] => Called::ProbesMatching(
            number.get(),
            make_awaited(comm.get(), *source, *tag),
        ),
        _ => Called::Nothing,
    }
}

fn exchanges<'a>(fields: &[Field]) -> Called<'a>
    ensures { called_view result ≡ exchanges fields.now }
{
    match fields {
        [Field::Natural(comm), dest, tag, source, other, bytes @ ..] => Called::Exchanges(
            make_sent(comm.get(), *dest, *tag, bytes),
            make_awaited(comm.get(), *source, *other),
        ),
        _ => Called::Nothing,
    }
}

fn starts_exchange<'a>(fields: &[Field]) -> Called<'a>
    ensures { called_view result ≡ starts_exchange fields.now }
{
    match fields {
        [
            Field::Natural(request),
            Field::Natural(received),
            Field::Natural(comm),
            dest,
            tag,
            source,
            other,
            bytes @ ..,
        ] => Called::StartsExchange(
            request.get(),
            received.get(),
            make_sent(comm.get(), *dest, *tag, bytes),
            make_awaited(comm.get(), *source, *other),
        ),
        _ => Called::Nothing,
    }
}

fn rooted<'a>(collective: Collective, fields: &[Field]) -> Called<'a>
    ensures { called_view result ≡ rooted collective fields.now }
{
    match fields {
        [Field::Natural(comm), Field::Signed(root)] => {
            Called::Collects(collective, comm.get(), Some(root.get()))
        }
        _ => Called::Nothing,
    }
}

fn starts_rooted<'a>(collective: Collective, fields: &[Field]) -> Called<'a>
    ensures { called_view result ≡ starts_rooted collective fields.now }
{
    match fields {
        [
            Field::Natural(request),
            Field::Natural(comm),
            Field::Signed(root),
        ] => { Called::StartsCollective(request.get(), collective, comm.get(), Some(root.get())) }
        _ => Called::Nothing,
    }
}

fn unrooted<'a>(collective: Collective, fields: &[Field]) -> Called<'a>
    ensures { called_view result ≡ unrooted collective fields.now }
{
    match fields {
        [Field::Natural(comm)] => Called::Collects(collective, comm.get(), None),
        _ => Called::Nothing,
    }
}

fn starts_unrooted<'a>(collective: Collective, fields: &[Field]) -> Called<'a>
    ensures { called_view result ≡ starts_unrooted collective fields.now }
{
    match fields {
        [Field::Natural(request), Field::Natural(comm)] => {
            Called::StartsCollective(request.get(), collective, comm.get(), None)
        }
        _ => Called::Nothing,
    }
}

fn splits<'a>(fields: &[Field]) -> Called<'a>
    ensures { called_view result ≡ splits fields.now }
{
    match fields {
        [
            Field::Natural(comm),
            Field::Signed(colour),
            Field::Signed(key),
        ] => { Called::Splits(comm.get(), Some(colour.get()), key.get()) }
        [Field::Natural(comm), Field::Undefined, Field::Signed(key)] => {
            Called::Splits(comm.get(), None, key.get())
        }
        _ => Called::Nothing,
    }
}

fn receives_matched<'a>(fields: &[Field]) -> Called<'a>
    ensures { called_view result ≡ one_number say.ReceivesMatched fields.now }
{
    match fields {
        [Field::Natural(number)] => Called::ReceivesMatched(number.get()),
        _ => Called::Nothing,
    }
}

fn starts_matched<'a>(fields: &[Field]) -> Called<'a>
    ensures { called_view result ≡ two_numbers say.StartsMatched fields.now }
{
    match fields {
        [Field::Natural(first), Field::Natural(second)] => Called::StartsMatched(
            first.get(),
            second.get(),
        ),
        _ => Called::Nothing,
    }
}

fn cancels<'a>(fields: &[Field]) -> Called<'a>
    ensures { called_view result ≡ one_number say.Cancels fields.now }
{
    match fields {
        [Field::Natural(number)] => Called::Cancels(number.get()),
        _ => Called::Nothing,
    }
}

fn frees_request<'a>(fields: &[Field]) -> Called<'a>
    ensures { called_view result ≡ one_number say.FreesRequest fields.now }
{
    match fields {
        [Field::Natural(number)] => Called::FreesRequest(number.get()),
        _ => Called::Nothing,
    }
}

fn duplicates<'a>(fields: &[Field]) -> Called<'a>
    ensures { called_view result ≡ one_number say.Duplicates fields.now }
{
    match fields {
        [Field::Natural(number)] => Called::Duplicates(number.get()),
        _ => Called::Nothing,
    }
}

fn starts_duplicate<'a>(fields: &[Field]) -> Called<'a>
    ensures { called_view result ≡ two_numbers say.StartsDuplicate fields.now }
{
    match fields {
        [Field::Natural(first), Field::Natural(second)] => Called::StartsDuplicate(
            first.get(),
            second.get(),
        ),
        _ => Called::Nothing,
    }
}

fn makes<'a>(fields: &[Field]) -> Called<'a>
    ensures { called_view result ≡ one_number say.Makes fields.now }
{
    match fields {
        [Field::Natural(number)] => Called::Makes(number.get()),
        _ => Called::Nothing,
    }
}

fn frees_comm<'a>(fields: &[Field]) -> Called<'a>
    ensures { called_view result ≡ one_number say.FreesComm fields.now }
{
    match fields {
        [Field::Natural(number)] => Called::FreesComm(number.get()),
        _ => Called::Nothing,
    }
}

// ---- By the word ----

/// What a call of a collective says; nothing of other words.
fn collects(word: CallWord, fields: &[Field]) -> Called<'_>
    ensures { called_view result ≡ by_collective word fields.now }
{
    match word {
        CallWord::Barrier => unrooted(Collective::Barrier, fields),
        CallWord::Bcast => rooted(Collective::Bcast, fields),
        CallWord::Gather => rooted(Collective::Gather, fields),
        CallWord::Scatter => rooted(Collective::Scatter, fields),
        CallWord::Reduce => rooted(Collective::Reduce, fields),
        CallWord::Allgather => unrooted(Collective::Allgather, fields),
        CallWord::Alltoall => unrooted(Collective::Alltoall, fields),
        CallWord::Allreduce => unrooted(Collective::Allreduce, fields),
        CallWord::Scan => unrooted(Collective::Scan, fields),
        CallWord::Exscan => unrooted(Collective::Exscan, fields),
        CallWord::Ibarrier => starts_unrooted(Collective::Barrier, fields),
        CallWord::Ibcast => starts_rooted(Collective::Bcast, fields),
        CallWord::Igather => starts_rooted(Collective::Gather, fields),
        CallWord::Iscatter => starts_rooted(Collective::Scatter, fields),
        CallWord::Ireduce => starts_rooted(Collective::Reduce, fields),
        CallWord::Iallgather => starts_unrooted(Collective::Allgather, fields),
        CallWord::Ialltoall => starts_unrooted(Collective::Alltoall, fields),
        CallWord::Iallreduce => starts_unrooted(Collective::Allreduce, fields),
        CallWord::Iscan => starts_unrooted(Collective::Scan, fields),
        CallWord::Iexscan => starts_unrooted(Collective::Exscan, fields),
        _ => Called::Nothing,
    }
}

/// What a call that makes or frees communicators says; else one of a collective.
fn of_comms(word: CallWord, fields: &[Field]) -> Called<'_>
    ensures { called_view result ≡ by_comm word fields.now }
{
    match word {
        CallWord::CommDup => duplicates(fields),
        CallWord::CommIdup => starts_duplicate(fields),
        CallWord::CommSplit => splits(fields),
        CallWord::CommMake => makes(fields),
        CallWord::CommCreateGroup => Called::MakesOfGroup(fields),
        CallWord::CommFree => frees_comm(fields),
        _ => collects(word, fields),
    }
}

/// What a call that sends, receives or probes says; else one of another kind.
fn meets(word: CallWord, fields: &[Field]) -> Called<'_>
    ensures { called_view result ≡ by_message word fields.now }
{
    match word {
        CallWord::Send | CallWord::Rsend => sends(Mode::Standard, fields),
        CallWord::Ssend => sends(Mode::Synchronous, fields),
        CallWord::Bsend => sends(Mode::Buffered, fields),
        CallWord::Isend | CallWord::Irsend => starts_send(Mode::Standard, fields),
        CallWord::Issend => starts_send(Mode::Synchronous, fields),
        CallWord::Ibsend => starts_send(Mode::Buffered, fields),
        CallWord::Recv => receives(fields),
        CallWord::Irecv => starts_receive(fields),
        CallWord::Sendrecv => exchanges(fields),
        CallWord::Isendrecv => starts_exchange(fields),
        CallWord::Probe | CallWord::Iprobe => probes(fields),
        CallWord::Mprobe | CallWord::Improbe => probes_matching(fields),
        CallWord::Mrecv => receives_matched(fields),
        CallWord::Imrecv => starts_matched(fields),
        _ => of_comms(word, fields),
    }
}

/// What a call line says, by its word.
pub(crate) fn read_call(word: CallWord, fields: &[Field]) -> Called<'_>
    ensures says { called_view result ≡ called word fields.now }
    ensures requests { AreNumbers word (length (naturals_in fields.now)) (length fields.now) → AreRequests result }
{
    match word {
        CallWord::Finalize => Called::Finalizes,
        CallWord::Exit => Called::Exits,
        CallWord::Abort => Called::Aborts,
        CallWord::Full => Called::Fills,
        CallWord::Stopped => Called::Stops,
        CallWord::Cut => Called::Cuts,
        CallWord::Wait => Called::Waits(fields),
        CallWord::Test => Called::Tests(fields),
        CallWord::Waitany => Called::WaitsAny(fields),
        CallWord::Waitsome => Called::WaitsSome(fields),
        CallWord::Cancel => cancels(fields),
        CallWord::RequestFree => frees_request(fields),
        _ => meets(word, fields),
    }
}

// ---- The communicator of a call that counts nowhere, without the rest ----

/// Whether such a call neither counts among those on a communicator nor makes one.
pub(crate) fn is_plain(word: CallWord) -> bool
    ensures { result ≡ is_plain word }
{
    matches!(
        word,
        CallWord::Send
            | CallWord::Ssend
            | CallWord::Bsend
            | CallWord::Rsend
            | CallWord::Isend
            | CallWord::Issend
            | CallWord::Ibsend
            | CallWord::Irsend
            | CallWord::Recv
            | CallWord::Irecv
            | CallWord::Sendrecv
            | CallWord::Isendrecv
            | CallWord::Probe
            | CallWord::Iprobe
            | CallWord::Mprobe
            | CallWord::Improbe
            | CallWord::Wait
            | CallWord::Test
            | CallWord::Waitany
            | CallWord::Waitsome
    )
}

/// Whether such a call names nothing.
pub(crate) fn is_bare(word: CallWord) -> bool
    ensures { result ≡ is_bare word }
{
    matches!(
        word,
        CallWord::Init
            | CallWord::Finalize
            | CallWord::Abort
            | CallWord::Exit
            | CallWord::Full
            | CallWord::Stopped
            | CallWord::Cut
    )
}

fn sent_on(fields: &[Field]) -> Option<u32>
    ensures { (mode : ModeSaid) → result ≡ comm_of (sends mode fields.now) }
{
    match fields {
        [Field::Natural(comm), _, _, ..] => Some(comm.get()),
        _ => None,
    }
}

fn started_send_on(fields: &[Field]) -> Option<u32>
    ensures { (mode : ModeSaid) → result ≡ comm_of (starts_send mode fields.now) }
{
    match fields {
        [Field::Natural(_), Field::Natural(comm), _, _, ..] => Some(comm.get()),
        _ => None,
    }
}

fn awaited_on(fields: &[Field]) -> Option<u32>
    ensures received { result ≡ comm_of (awaits say.Receives fields.now) }
    ensures probed { result ≡ comm_of (awaits say.Probes fields.now) }
{
    match fields {
        [Field::Natural(comm), _, _] => Some(comm.get()),
        _ => None,
    }
}

fn started_awaiting_on(fields: &[Field]) -> Option<u32>
    ensures received { result ≡ comm_of (starts_awaiting say.StartsReceive fields.now) }
    ensures probed { result ≡ comm_of (starts_awaiting say.ProbesMatching fields.now) }
{
    match fields {
        [Field::Natural(_), Field::Natural(comm), _, _] => Some(comm.get()),
        _ => None,
    }
}

fn exchanged_on(fields: &[Field]) -> Option<u32>
    ensures { result ≡ comm_of (exchanges fields.now) }
{
    match fields {
        [Field::Natural(comm), _, _, _, _, ..] => Some(comm.get()),
        _ => None,
    }
}

fn started_exchange_on(fields: &[Field]) -> Option<u32>
    ensures { result ≡ comm_of (starts_exchange fields.now) }
{
    match fields {
        [
            Field::Natural(_),
            Field::Natural(_),
            Field::Natural(comm),
            _,
            _,
            _,
            _,
            ..
        ] => Some(comm.get()),
        _ => None,
    }
}

/// The rank's own number of the communicator that a plain call is on.
#[inline(always)]
pub(crate) fn comm_in(word: CallWord, fields: &[Field]) -> Option<u32>
    requires { is_plain word ≡ true }
    ensures { result ≡ comm_of (called word fields.now) }
{
    match word {
        CallWord::Send | CallWord::Ssend | CallWord::Bsend | CallWord::Rsend => sent_on(fields),
        CallWord::Isend | CallWord::Issend | CallWord::Ibsend | CallWord::Irsend => {
            started_send_on(fields)
        }
        CallWord::Recv | CallWord::Probe | CallWord::Iprobe => awaited_on(fields),
        CallWord::Irecv | CallWord::Mprobe | CallWord::Improbe => started_awaiting_on(fields),
        CallWord::Sendrecv => exchanged_on(fields),
        CallWord::Isendrecv => started_exchange_on(fields),
        _ => None,
    }
}

impl Called<'_> {
    /// The rank's own number of the communicator of a call that all its members make, each one of a wave.
    #[inline(always)]
    pub(crate) fn wave_comm(&self) -> Option<u32>
        ensures { result ≡ wave_comm (called_view self.now) }
    {
        match self {
            Called::Collects(_, comm, _)
            | Called::StartsCollective(_, _, comm, _)
            | Called::Duplicates(comm)
            | Called::StartsDuplicate(_, comm)
            | Called::Splits(comm, _, _)
            | Called::Makes(comm) => Some(*comm),
            _ => None,
        }
    }

    /// That of the communicator that the call is on.
    #[inline(always)]
    pub(crate) fn comm(&self) -> Option<u32>
        ensures { result ≡ comm_of (called_view self.now) }
    {
        match self {
            Called::Sends(_, sent)
            | Called::StartsSend(_, _, sent)
            | Called::Exchanges(sent, _)
            | Called::StartsExchange(_, _, sent, _) => Some(sent.comm),
            Called::Receives(awaited)
            | Called::StartsReceive(_, awaited)
            | Called::Probes(awaited)
            | Called::ProbesMatching(_, awaited) => Some(awaited.comm),
            _ => self.wave_comm(),
        }
    }

    /// Whether it counts among those on a communicator, or makes one of a group.
    #[inline(always)]
    pub(crate) fn counts(&self) -> bool
        ensures { result ≡ counts (called_view self.now) }
    {
        matches!(
            self,
            Called::Collects(..)
                | Called::StartsCollective(..)
                | Called::Duplicates(_)
                | Called::StartsDuplicate(..)
                | Called::Splits(..)
                | Called::Makes(_)
                | Called::MakesOfGroup(_)
        )
    }

    /// Whether all members of a communicator make such a call, which may give some of them one.
    #[inline(always)]
    pub(crate) fn makes_comm(&self) -> bool
        ensures { result ≡ makes_comm (called_view self.now) }
    {
        matches!(
            self,
            Called::Duplicates(_) | Called::Splits(..) | Called::Makes(_)
        )
    }

    /// Whether it may give this rank one.
    #[inline(always)]
    pub(crate) fn may_give(&self) -> bool
        ensures { result ≡ may_give (called_view self.now) }
    {
        match self {
            Called::Splits(_, colour, _) => colour.is_some(),
            _ => self.makes_comm(),
        }
    }
}
