//! The communicators that waves make.

ghost use Rattle.std.specs.Prelude.{◌≡◌, false};
ghost use Rattle.std.specs.Option.{option_map_or};
ghost use Rattle.mpigroup.specs.Groups.{Groups};
ghost use Rattle.callstore.specs.Recordings.{Lists};
ghost use Rattle.findings.specs.Findings.{is_wrong_group};
ghost use Rattle.findings.specs.inner.Makings.{making_call, is_wrong_making};

use mpicall::call::Call;

/// A communicator that a wave makes, and of a split the colour of those who get it.
#[derive(Clone, Copy, PartialEq, Eq, Hash)]
pub(crate) struct Making {
    pub(crate) comm: u16,
    pub(crate) wave: u32,
    pub(crate) colour: Option<u32>,
    pub(crate) new: u16,
}

/// What the call makes in the wave, if it makes something.
pub(crate) fn making_of(comm: u16, wave: u32, call: &Call) -> Option<Making>
    ensures { (groups : Groups) (recording : Lists) →
        is_wrong_group groups recording call.now (comm, wave) ≡ option_map_or (is_wrong_making groups recording) result false }
{
    match *call {
        Call::Dup { new, .. } => Some(Making {
            comm,
            wave,
            colour: None,
            new,
        }),
        Call::Split {
            colour: Some(colour),
            new: Some(new),
            ..
        } => Some(Making {
            comm,
            wave,
            colour: Some(colour),
            new,
        }),
        _ => None,
    }
}

/// A call that makes it.
pub(crate) fn making_call(making: &Making) -> Call
    ensures { result ≡ making_call making.now }
{
    let Making {
        comm,
        colour,
        new,
        ..
    } = *making;
    match colour {
        Some(colour) => Call::Split {
            comm,
            colour: Some(colour),
            key: 0,
            new: Some(new),
        },
        None => Call::Dup { comm, new },
    }
}
