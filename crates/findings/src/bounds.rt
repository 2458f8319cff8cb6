//! How many calls, members and waves findings go over.

ghost use Rattle.std.specs.Prelude.{◌≡◌, ◌≤◌, length};
ghost use Rattle.std.specs.Option.{option_map_or};
ghost use Rattle.mpigroup.specs.Groups.{group_of, world_rank_of};
ghost use Rattle.callstore.specs.Limits.{most_calls};
ghost use Rattle.callstore.specs.Recordings.{calls_of};
ghost use Rattle.findings.specs.Findings.{waves_in};

use pairing::pairs::Pairs;

/// How many ranks the run has.
pub(crate) fn ranks(pairs: &Pairs) -> u16
    ensures { result ≡ length pairs.now.recording }
{
    pairs.head().ranks()
}

/// How many communicators the run has.
pub(crate) fn comms(pairs: &Pairs) -> u16
    ensures { result ≡ length pairs.now.groups }
{
    pairs.head().comms()
}

/// How many members a communicator has.
pub(crate) fn members(pairs: &Pairs, comm: u16) -> u16
    ensures { result ≡ length (group_of pairs.now.groups comm) }
{
    pairs.head().size(comm).unwrap_or(0)
}

/// How many calls a rank has.
pub(crate) fn calls(pairs: &Pairs, rank: u16) -> u32
    ensures value { result ≡ length (calls_of pairs.now.recording rank) }
    ensures most { result ≤ most_calls }
{
    pairs.accepted(rank).unwrap_or(0)
}

/// How many calls the first member of a communicator has, in all.
fn first_calls(pairs: &Pairs, comm: u16) -> u32
    ensures value { result ≡ option_map_or (λ rank. length (calls_of pairs.now.recording rank)) (world_rank_of pairs.now.groups comm 0) 0 }
    ensures most { result ≤ most_calls }
{
    match pairs.head().world_rank(comm, 0) {
        Some(rank) => calls(pairs, rank),
        None => 0,
    }
}

/// How many waves of a communicator its first member has a call in.
#[tactic(auto, using(crate::proofs::WaveLemmas::most_waves))]
pub(crate) fn waves(pairs: &Pairs, comm: u16) -> u32
    ensures value { result ≡ waves_in pairs.now.groups pairs.now.recording comm }
    ensures most { result ≤ most_calls }
{
    let most = first_calls(pairs, comm);
    for wave in 0..most {
        if pairs.member(comm, wave, 0).is_none() {
            return wave;
        }
    }
    most
}
