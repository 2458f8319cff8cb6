//! Where a rank stands, as a report has it, and how many ranks there are.

ghost use Rattle.std.specs.Prelude.{◌≡◌, length, slice_index};
ghost use Rattle.moves.specs.Stands.{stands_of};

use moves::analyser::Analyser;

/// Where a rank stands; 0 where there is no such rank.
pub(crate) fn stand_of(analyser: &Analyser, rank: u16) -> u32
    ensures { result ≡ slice_index (stands_of analyser.now.reading analyser.now.groups analyser.now.recording) rank }
{
    analyser.stands_are_the_end();
    analyser.stand(rank).unwrap_or(0)
}

/// How many ranks the run has.
pub(crate) fn ranks_of(analyser: &Analyser) -> u16
    ensures { result ≡ length analyser.now.recording }
{
    analyser.head().ranks()
}
