//! A group with a table that finds its members.
//!
//! The table has the place of each member by its rank of the world, in 2 bytes a rank, so no look-up
//! searches the group. It is filled while the line is read, and answers whether a rank already stood there.
//! A place is below 1,024, so 65535 means 'no member'.

ghost use Rattle.std.specs.Prelude.{◌≡◌, ◌==◌, length, position, slice_get};
ghost use Rattle.mpigroup.specs.inner.Places.{told_place};

use std::marker::Model;

/// What the table has for a rank that is no member; no place is so great.
pub(crate) const NO_PLACE: u16 = u16::MAX;

/// The group of a communicator; contracts see the list of its members, which are ranks of the world.
pub(crate) struct Group {
    pub(crate) members: Vec<u16>,
    /// By rank of the world, the place of each member.
    pub(crate) places: Vec<u16>,
}

// By hand: a derived drop is proved again at each exit of a function that owns one.
impl Drop for Group {
    fn drop(self) {
        let Group {
            members: _,
            places: _,
        } = self;
    }
}

impl Model for Group {
    ghost use Rattle.std.specs.Prelude.{ℕ, List};
    ghost use Rattle.mpigroup.specs.inner.Places.{IsPlaced};

    ghost Value = { List ℕ };

    ghost view = { λ g. g.members.items };

    ghost invariant = { λ g. IsPlaced g.members.items g.places.items };
}

impl Group {
    /// How many members the group has.
    pub(crate) fn len(&self) -> u16
        ensures { result ≡ length self.now }
    {
        self.members.len() as u16
    }

    /// The member with this rank in the group.
    pub(crate) fn member(&self, g: u16) -> Option<u16>
        ensures { result ≡ slice_get self.now g }
    {
        self.members.get(usize::from(g)).copied()
    }

    /// The rank in the group of a rank of the world.
    pub(crate) fn rank_of(&self, world: u16) -> Option<u16>
        ensures { result ≡ position (λ member. member == world) self.now }
    {
        told_place(self.places.get(usize::from(world)).copied())
    }
}

/// The place that an entry of a table has, if there is such an entry and it has one.
fn told_place(entry: Option<u16>) -> Option<u16>
    ensures { result ≡ told_place entry }
{
    match entry {
        Some(place) if place != NO_PLACE => Some(place),
        _ => None,
    }
}
