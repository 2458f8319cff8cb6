//! Entries that call or start collectives.

ghost use Rattle.std.specs.Prelude.{◌≡◌, IsTrue};
ghost use Rattle.closing.specs.Entry.{kind_of};
ghost use Rattle.closing.specs.Sinks.{GoesOn};
ghost use Rattle.closing.specs.Reported.{root_can_be};
ghost use Rattle.closing.specs.inner.RequestReports.{Tells};
ghost use Rattle.closing.specs.inner.Walked.{IsAt, Takes};
ghost use Rattle.closing.specs.inner.Walks.{Spot, collects_at, collects_on, makes_of_group_on, starts_collective_on, starts_duplicate_on};

use super::{At, Walk};
use crate::list::Start;
use crate::message::{root_can_be, root_of};
use crate::stop::Stop;
use mpicall::call::{Call, Kind};
use mpicall::word::Collective;

/// What a collective is in the trace.
fn kind_of(collective: Collective, root: Option<i32>) -> Kind
    ensures { IsTrue (root_can_be 1024 collective root) → result ≡ kind_of collective root }
{
    match collective {
        Collective::Barrier => Kind::Barrier,
        Collective::Bcast => Kind::Bcast(root_of(root)),
        Collective::Gather => Kind::Gather(root_of(root)),
        Collective::Scatter => Kind::Scatter(root_of(root)),
        Collective::Reduce => Kind::Reduce(root_of(root)),
        Collective::Allgather => Kind::Allgather,
        Collective::Alltoall => Kind::Alltoall,
        Collective::Allreduce => Kind::Allreduce,
        Collective::Scan => Kind::Scan,
        Collective::Exscan => Kind::Exscan,
    }
}

impl Walk {
    /// Puts a collective, or its start where it came back and stands for that.
    fn collects_as(&mut self, at: &At<'_>, comm: u16, kind: Kind) -> Result<(), Stop>
        ensures same { self.new ≡ record self.old { list = self.new.list } }
        ensures takes { (spot : Spot) → IsAt spot at.now → Takes spot (GoesOn (collects_at spot kind comm)) result self.old.list self.new.list }
    {
        if at.is_past {
            return self.list.starts_unnamed(Start::Collective { comm, kind });
        }
        self.list.does(&Call::Coll { comm, kind })
    }

    #[inline(never)]
    pub(super) fn collects(
        &mut self,
        at: &At<'_>,
        collective: Collective,
        root: Option<i32>,
    ) -> Result<(), Stop>
        ensures same { self.new ≡ record self.old { list = self.new.list } }
        ensures takes { (spot : Spot) → IsAt spot at.now → Takes spot (collects_on spot collective root) result self.old.list self.new.list }
    {
        let comm = at.number_if(root_can_be(at.size(), collective, root))?;
        self.collects_as(at, comm, kind_of(collective, root))
    }

    #[inline(never)]
    pub(super) fn starts_collective(
        &mut self,
        at: &At<'_>,
        own: u32,
        collective: Collective,
        root: Option<i32>,
    ) -> Result<(), Stop>
        ensures same { self.new ≡ record self.old { list = self.new.list } }
        ensures takes { (spot : Spot) → IsAt spot at.now → Tells spot.lines self.old.requests.outcomes →
            Takes spot (starts_collective_on spot own collective root) result self.old.list self.new.list }
    {
        let comm = at.number_if(root_can_be(at.size(), collective, root))?;
        self.starts_unless_gone(
            own,
            Start::Collective {
                comm,
                kind: kind_of(collective, root),
            },
        )
    }

    #[inline(never)]
    pub(super) fn starts_duplicate(&mut self, at: &At<'_>, own: u32) -> Result<(), Stop>
        ensures same { self.new ≡ record self.old { list = self.new.list } }
        ensures takes { (spot : Spot) → IsAt spot at.now → Tells spot.lines self.old.requests.outcomes →
            Takes spot (starts_duplicate_on spot own) result self.old.list self.new.list }
    {
        let comm = at.number_if(true)?;
        self.starts_unless_gone(
            own,
            Start::Collective {
                comm,
                kind: Kind::Barrier,
            },
        )
    }

    #[inline(never)]
    pub(super) fn makes_of_group(&mut self, at: &At<'_>) -> Result<(), Stop>
        ensures same { self.new ≡ record self.old { list = self.new.list } }
        ensures takes { (spot : Spot) → IsAt spot at.now → Takes spot (makes_of_group_on spot) result self.old.list self.new.list }
    {
        let comm = at.number_if(true)?;
        self.collects_as(at, comm, Kind::Barrier)
    }
}
