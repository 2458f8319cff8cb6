//! Laws of what probes see (MPI 4.0, section 3.8).

ghost use Rattle.pairing.specs.Probed.{TheNextReceiveTakesIt, ElseTheFirstPendingIsSeen, ProbedSendsStay};

/// The next receive of its envelope after a probe takes the send that the probe sees: both see the same
/// partner, or none yet.
pub fn the_next_receive_takes_it()
    ensures { TheNextReceiveTakesIt }
{}

/// Where no receive of its envelope follows a probe, it sees the first send of the envelope that no
/// receive has taken; none where there is no such send. A probe takes nothing itself.
pub fn else_the_first_pending_is_seen()
    ensures { ElseTheFirstPendingIsSeen }
{}

/// Once a probe sees a send, it sees the same one however the recording goes on.
pub fn probed_sends_stay()
    ensures { ProbedSendsStay }
{}
