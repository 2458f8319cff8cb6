//! Entries that send, receive or probe.

ghost use Rattle.std.specs.Prelude.{◌≡◌, ◌&&◌, true, [], IsTrue, IfSome, option_map};
ghost use Rattle.closing.specs.Entry.{exchange, probe, receive, send, start_receive, start_send};
ghost use Rattle.closing.specs.inner.Lists.{start_call};
ghost use Rattle.closing.specs.Reported.{message_can_be, message_of as message_said, peer_can_be, tag_can_be};
ghost use Rattle.closing.specs.inner.Views.{awaited_view, message_view, sent_view};
ghost use Rattle.closing.specs.inner.Walked.{AwaitedOr, IsAt, Takes, known_or, number_at as number_of_at, number_or, size_at};
ghost use Rattle.closing.specs.inner.Walks.{Spot, does_at, exchanges_at, exchanges_on, probes_at, probes_matching_on, probes_on, receives_after, receives_on, sends_on, starts_at, starts_exchange_on, starts_receive_on, starts_send_on};
ghost use Rattle.closing.specs.Sinks.{GoesOn};
ghost use Rattle.closing.specs.inner.RequestReports.{Tells};
ghost use Rattle.closing.specs.Endings.{awaited_can_be as awaited_may_be, sent_can_be as sent_may_be};

use super::{At, Walk};
use crate::called::{Awaited, Sent};
use crate::list::Start;
use crate::message::{Message, awaited_can_be, message_of, rank_of, sent_can_be, tag_of};
use crate::stop::Stop;
use crate::why::Why;
use journals::lines::Lines;
use mpicall::call::{Call, Mode};

/// An exchange that is started: the requests of its send and of its receive, and both.
#[derive(Clone, Copy)]
pub(super) struct Halves {
    pub own: u32,
    pub other: u32,
    pub sent: Sent,
    pub awaited: Awaited,
}

/// The start of a send.
#[inline(always)]
pub(super) fn start_of_send(mode: Mode, comm: u16, sent: &Sent) -> Start
    ensures { IsTrue (peer_can_be 1024 sent.now.dest) → start_call result ≡ start_send mode comm (sent_view sent.now) }
{
    Start::Send {
        mode,
        comm,
        dest: rank_of(sent.dest),
        tag: tag_of(sent.tag),
        bytes: sent.bytes,
    }
}

/// The start of the receive of a message.
#[inline(always)]
fn start_of_receive(comm: u16, message: &Message) -> Start
    ensures { IsTrue (peer_can_be 1024 message.now.source) → start_call result ≡ start_receive comm (message_view message.now) }
{
    Start::Receive {
        comm,
        source: rank_of(message.source),
        tag: tag_of(message.tag),
    }
}

#[inline(always)]
fn send_line(mode: Mode, comm: u16, sent: &Sent) -> Call
    ensures { IsTrue (peer_can_be 1024 sent.now.dest) → result ≡ send mode comm (sent_view sent.now) }
{
    Call::Send {
        mode,
        comm,
        dest: rank_of(sent.dest),
        tag: tag_of(sent.tag),
        bytes: sent.bytes,
    }
}

#[inline(always)]
fn receive_line(comm: u16, message: &Message) -> Call
    ensures { IsTrue (peer_can_be 1024 message.now.source) → result ≡ receive comm (message_view message.now) }
{
    Call::Recv {
        comm,
        source: rank_of(message.source),
        tag: tag_of(message.tag),
    }
}

fn exchange_line(comm: u16, sent: &Sent, message: &Message) -> Call
    ensures { IsTrue (peer_can_be 1024 sent.now.dest) → IsTrue (peer_can_be 1024 message.now.source) → result ≡ exchange comm (sent_view sent.now) (message_view message.now) }
{
    Call::Sendrecv {
        comm,
        dest: rank_of(sent.dest),
        send_tag: tag_of(sent.tag),
        source: rank_of(message.source),
        recv_tag: tag_of(message.tag),
        bytes: sent.bytes,
    }
}

fn probe_line(comm: u16, message: &Message) -> Call
    ensures { IsTrue (peer_can_be 1024 message.now.source) → result ≡ probe comm (message_view message.now) }
{
    Call::Probe {
        comm,
        source: rank_of(message.source),
        tag: tag_of(message.tag),
    }
}

/// Whether what an exchange names can be.
fn exchange_can_be(size: u32, sent: &Sent, awaited: &Awaited, message: Option<Message>) -> bool
    ensures { result ≡ (sent_may_be size (sent_view sent.now) && (peer_can_be size awaited.now.source && (tag_can_be awaited.now.tag && message_can_be size (option_map message_view message)))) }
{
    sent_can_be(size, sent) && awaited_can_be(size, awaited, message)
}

/// The message, where it is known; else the call never came back.
fn known(message: Option<Message>) -> Result<Message, Stop>
    ensures { result ≡ known_or message }
{
    match message {
        Some(message) => Ok(message),
        None => Err(Stop::Left(Why::NeverCameBack)),
    }
}

impl Walk {
    #[inline(never)]
    pub(super) fn sends(&mut self, at: &At<'_>, mode: Mode, sent: &Sent) -> Result<(), Stop>
        ensures same { self.new ≡ record self.old { list = self.new.list } }
        ensures takes { (spot : Spot) → IsAt spot at.now → Takes spot (sends_on spot mode (sent_view sent.now)) result self.old.list self.new.list }
    {
        let comm = at.number_if(sent_can_be(at.size(), sent))?;
        if at.is_past {
            return self.list.starts_unnamed(start_of_send(mode, comm, sent));
        }
        self.list.does(&send_line(mode, comm, sent))
    }

    /// Inlined, as is what receives and waits do first: of where the call stands this needs the communicator alone.
    #[inline(always)]
    pub(super) fn starts_send(
        &mut self,
        at: &At<'_>,
        own: u32,
        mode: Mode,
        sent: &Sent,
    ) -> Result<(), Stop>
        ensures same { self.new ≡ record self.old { list = self.new.list } }
        ensures takes { (spot : Spot) → IsAt spot at.now → Tells spot.lines self.old.requests.outcomes →
            Takes spot (starts_send_on spot own mode (sent_view sent.now)) result self.old.list self.new.list }
    {
        let comm = at.number_if(sent_can_be(at.size(), sent))?;
        let sent = *sent;
        self.starts_sent(own, mode, comm, &sent)
    }

    /// Puts a line that starts a send, unless that was cancelled.
    #[inline(never)]
    fn starts_sent(&mut self, own: u32, mode: Mode, comm: u16, sent: &Sent) -> Result<(), Stop>
        ensures same { self.new ≡ record self.old { list = self.new.list } }
        ensures takes { (spot : Spot) → Tells spot.lines self.old.requests.outcomes → IsTrue (peer_can_be 1024 sent.now.dest) →
            Takes spot (GoesOn (starts_at spot own (start_send mode comm (sent_view sent.now)))) result self.old.list self.new.list }
    {
        self.starts_unless_gone(own, start_of_send(mode, comm, sent))
    }

    /// Puts a line that starts a request, unless that was cancelled.
    #[inline(always)]
    pub(super) fn starts_unless_gone(&mut self, own: u32, start: Start) -> Result<(), Stop>
        ensures same { self.new ≡ record self.old { list = self.new.list } }
        ensures takes { (spot : Spot) → Tells spot.lines self.old.requests.outcomes →
            Takes spot (GoesOn (starts_at spot own (start_call start))) result self.old.list self.new.list }
    {
        if self.requests.is_gone(own) {
            return Ok(());
        }
        self.list.starts(own, start)
    }

    /// The number of the communicator and the message of a receive or probe that blocks.
    #[inline(always)]
    fn awaited(&self, at: &At<'_>, awaited: &Awaited) -> Result<(u16, Message), Stop>
        ensures { AwaitedOr result (number_or (awaited_may_be (size_at at.now) (awaited_view awaited.now, option_map message_view at.now.got)) (number_of_at at.now))
            (message_said (awaited_view awaited.now) (option_map message_view at.now.got)) }
    {
        let message = message_of(awaited, at.got);
        let found = &message;
        let comm = at.number_if(awaited_can_be(at.size(), awaited, *found))?;
        Ok((comm, known(*found)?))
    }

    /// Puts the receive of a message; its start, where the entry stands for what it started alone.
    #[inline(never)]
    fn receives_message(&mut self, is_past: bool, comm: u16, message: &Message) -> Result<(), Stop>
        ensures same { self.new ≡ record self.old { list = self.new.list } }
        ensures takes { (spot : Spot) → spot.is_past ≡ is_past → IsTrue (peer_can_be 1024 message.now.source) →
            Takes spot (GoesOn (does_at spot (receive comm (message_view message.now)) (start_receive comm (message_view message.now)))) result self.old.list self.new.list }
    {
        if is_past {
            return self.list.starts_unnamed(start_of_receive(comm, message));
        }
        self.list.does(&receive_line(comm, message))
    }

    #[inline(always)]
    pub(super) fn receives(&mut self, at: &At<'_>, awaited: &Awaited) -> Result<(), Stop>
        ensures same { self.new ≡ record self.old { list = self.new.list } }
        ensures takes { (spot : Spot) → IsAt spot at.now → Takes spot (receives_on spot (awaited_view awaited.now)) result self.old.list self.new.list }
    {
        match self.awaited(at, awaited) {
            Ok((comm, message)) => self.receives_message(at.is_past, comm, &message),
            Err(stop) => Err(stop),
        }
    }

    #[inline(always)]
    pub(super) fn starts_receive(
        &mut self,
        lines: &Lines,
        at: &At<'_>,
        own: u32,
        awaited: &Awaited,
    ) -> Result<(), Stop>
        ensures same { self.new ≡ record self.old { list = self.new.list } }
        ensures takes { (spot : Spot) → IsAt spot at.now → spot.lines ≡ lines.now → Tells spot.lines self.old.requests.outcomes →
            Takes spot (starts_receive_on spot own (awaited_view awaited.now)) result self.old.list self.new.list }
    {
        let message = message_of(awaited, self.requests.message(lines, own));
        let found = &message;
        let comm = at.number_if(awaited_can_be(at.size(), awaited, *found))?;
        self.starts_receive_of(comm, own, *found)
    }

    /// Puts the line that starts a receive, unless that was cancelled or its message was never reported.
    #[inline(never)]
    fn starts_receive_of(
        &mut self,
        comm: u16,
        own: u32,
        message: Option<Message>,
    ) -> Result<(), Stop>
        ensures same { self.new ≡ record self.old { list = self.new.list } }
        ensures takes { (spot : Spot) → Tells spot.lines self.old.requests.outcomes → IfSome message (λ it. IsTrue (peer_can_be 1024 it.source)) →
            Takes spot (receives_after [] spot comm own (option_map message_view message)) result self.old.list self.new.list }
    {
        if self.requests.is_gone(own) {
            return Ok(());
        }
        match message {
            Some(message) => self.list.starts(own, start_of_receive(comm, &message)),
            None => Err(Stop::Left(Why::NeverReported)),
        }
    }

    /// Puts the lines that start both halves of an exchange which came back.
    fn starts_halves(&mut self, comm: u16, sent: &Sent, message: &Message) -> Result<(), Stop>
        ensures same { self.new ≡ record self.old { list = self.new.list } }
        ensures takes { (spot : Spot) → spot.is_past ≡ true → IsTrue (peer_can_be 1024 sent.now.dest) → IsTrue (peer_can_be 1024 message.now.source) →
            Takes spot (GoesOn (exchanges_at spot comm (sent_view sent.now) (message_view message.now))) result self.old.list self.new.list }
    {
        self.list
            .starts_unnamed(start_of_send(Mode::Standard, comm, sent))?;
        self.list.starts_unnamed(start_of_receive(comm, message))
    }

    #[inline(never)]
    pub(super) fn exchanges(
        &mut self,
        at: &At<'_>,
        sent: &Sent,
        awaited: &Awaited,
    ) -> Result<(), Stop>
        ensures same { self.new ≡ record self.old { list = self.new.list } }
        ensures takes { (spot : Spot) → IsAt spot at.now →
            Takes spot (exchanges_on spot (sent_view sent.now) (awaited_view awaited.now)) result self.old.list self.new.list }
    {
        let found = message_of(awaited, at.got);
        let reported = &found;
        let comm = at.number_if(exchange_can_be(at.size(), sent, awaited, *reported))?;
        match known(*reported) {
            Ok(message) => {
                if at.is_past {
                    return self.starts_halves(comm, sent, &message);
                }
                self.list.does(&exchange_line(comm, sent, &message))
            }
            Err(stop) => Err(stop),
        }
    }

    #[inline(never)]
    pub(super) fn starts_exchange(
        &mut self,
        lines: &Lines,
        at: &At<'_>,
        it: &Halves,
    ) -> Result<(), Stop>
        ensures same { self.new ≡ record self.old { list = self.new.list } }
        ensures takes { (spot : Spot) → IsAt spot at.now → spot.lines ≡ lines.now → Tells spot.lines self.old.requests.outcomes →
            Takes spot (starts_exchange_on spot it.now.own it.now.other (sent_view it.now.sent) (awaited_view it.now.awaited)) result self.old.list self.new.list }
    {
        let message = message_of(&it.awaited, self.requests.message(lines, it.other));
        let found = &message;
        let can_be = exchange_can_be(at.size(), &it.sent, &it.awaited, *found);
        let comm = at.number_if(can_be)?;
        self.starts_unless_gone(it.own, start_of_send(Mode::Standard, comm, &it.sent))?;
        self.starts_receive_of(comm, it.other, *found)
    }

    /// Puts a probe, unless it stands for nothing since it came back.
    fn probes_for(&mut self, at: &At<'_>, comm: u16, message: &Message) -> Result<(), Stop>
        ensures same { self.new ≡ record self.old { list = self.new.list } }
        ensures takes { (spot : Spot) → IsAt spot at.now → IsTrue (peer_can_be 1024 message.now.source) →
            Takes spot (GoesOn (probes_at spot comm (message_view message.now))) result self.old.list self.new.list }
    {
        if at.is_past {
            return Ok(());
        }
        self.list.does(&probe_line(comm, message))
    }

    #[inline(never)]
    pub(super) fn probes(&mut self, at: &At<'_>, awaited: &Awaited) -> Result<(), Stop>
        ensures same { self.new ≡ record self.old { list = self.new.list } }
        ensures takes { (spot : Spot) → IsAt spot at.now → Takes spot (probes_on spot (awaited_view awaited.now)) result self.old.list self.new.list }
    {
        match self.awaited(at, awaited) {
            Ok((comm, message)) => self.probes_for(at, comm, &message),
            Err(stop) => Err(stop),
        }
    }

    /// A matching probe takes its message here.
    #[inline(never)]
    pub(super) fn probes_matching(
        &mut self,
        at: &At<'_>,
        own: u32,
        awaited: &Awaited,
    ) -> Result<(), Stop>
        ensures same { self.new ≡ record self.old { list = self.new.list } }
        ensures takes { (spot : Spot) → IsAt spot at.now → Takes spot (probes_matching_on spot own (awaited_view awaited.now)) result self.old.list self.new.list }
    {
        match self.awaited(at, awaited) {
            Ok((comm, message)) => {
                self.probes_for(at, comm, &message)?;
                self.list.starts(own, start_of_receive(comm, &message))
            }
            Err(stop) => Err(stop),
        }
    }
}
