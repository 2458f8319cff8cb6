//! A call seen in its place, with what it means for the others.

ghost use Rattle.std.specs.Prelude.{◌≡◌};
ghost use Rattle.pairing.specs.Seen.{call_seen, partner_seen, wave_seen, start_seen};

use callstore::call_ref::CallRef;
use callstore::envelope::Half;
use callstore::note::Note;
use mpigroup::head::Head;

/// A call of a rank, seen in its place. What it means for the others is looked up where it is asked for, and the call
/// itself no more than once.
#[derive(Drop)]
pub struct CallAt<'a> {
    pub(crate) head: &'a Head,
    pub(crate) note: Note<'a>,
}

impl<'a> CallAt<'a> {
    /// The call.
    #[inline(always)]
    pub fn call(&self) -> CallRef<'a>
        ensures { result ≡ call_seen self.now }
    {
        self.note.call()
    }

    /// The rank and place of the partner of a half of the call; None where the call has no such half, and where its
    /// message has no other half yet.
    #[inline(always)]
    pub fn partner(&self, half: Half) -> Option<(u16, u32)>
        ensures { result ≡ partner_seen self.now half }
    {
        let there = self.note.partner(half)?;
        let message = self.call().message(half)?;
        let other = self.head.world_rank(message.comm, message.peer)?;
        Some((other, there))
    }

    /// The communicator and the number of the wave that the call joins; None where it joins none.
    #[inline(always)]
    pub fn wave(&self) -> Option<(u16, u32)>
        ensures { result ≡ wave_seen self.now }
    {
        let comm = self.call().joins()?;
        Some((comm, self.note.joined()))
    }

    /// The place that started the request with that index, from 0, among those that the call completes.
    #[inline(always)]
    pub fn completed(&self, index: usize) -> Option<u32>
        ensures { result ≡ start_seen self.now index }
    {
        self.note.completed_start(index)
    }
}
