//! The groups that a split of a communicator makes (MPI 4.0, section 7.4.2).
//!
//! The members are sorted once, by colour, key and old rank, and the sorted list is cut where the colour
//! changes.

ghost use Rattle.std.specs.Prelude.{◌≡◌, ◌≤◌, ◌==◌, not, length, map, position, IfOk};
ghost use Rattle.std.specs.List.{position_or_len};
ghost use Rattle.std.specs.List.Sorted.{IsStrictlySortedBy};
ghost use Rattle.mpigroup.specs.Splits.{members_from, members_in_order, member_cmp, ranks_with, colours_of, colour_group, split_of};

use std::alloc::{AllocError, Global};

/// A member of the old group that gives a colour. Members are in the order of these fields.
#[derive(Clone, Copy, PartialEq, Eq, PartialOrd, Ord)]
struct Member {
    colour: u32,
    key: i32,
    rank: u16,
}

/// The members that give a colour, by their ranks in the old group.
fn members_of(alloc: Global, choices: &[(Option<u32>, i32)]) -> Result<Vec<Member>, AllocError>
    requires { length choices.now ≤ 65536 }
    ensures { IfOk result (λ members. members.items ≡ members_from 0 choices.now) }
{
    let mut members = Vec::new(alloc);
    for (rank, (colour, key)) in choices.iter().enumerate() {
        if let Some(colour) = *colour {
            members.push(Member {
                colour,
                key: *key,
                rank: rank as u16,
            })?;
        }
    }
    Ok(members)
}

/// The members that give a colour, in their order.
fn members_in_order(
    alloc: Global,
    choices: &[(Option<u32>, i32)],
) -> Result<Vec<Member>, AllocError>
    requires { length choices.now ≤ 65536 }
    ensures value { IfOk result (λ members. members.items ≡ members_in_order choices.now) }
    ensures order { IfOk result (λ members. IsStrictlySortedBy member_cmp members.items) }
{
    let mut members = members_of(alloc, choices)?;
    members.sort_unstable();
    Ok(members)
}

/// Where the first member with another colour is, if there is one.
fn other_colour_at(members: &[Member], colour: u32) -> Option<usize>
    ensures { result ≡ position (λ member. not (member.colour == colour)) members.now }
{
    members.iter().position(|member| member.colour != colour)
}

/// How many members at the front give this colour.
fn run_length(members: &[Member], colour: u32) -> usize
    ensures { result ≡ position_or_len (λ member. not (member.colour == colour)) members.now }
{
    other_colour_at(members, colour).unwrap_or(members.len())
}

/// The ranks that the members have in the old group.
fn ranks_of(alloc: Global, members: &[Member]) -> Result<Vec<u16>, AllocError>
    ensures { IfOk result (λ ranks. ranks.items ≡ map (λ member. member.rank) members.now) }
{
    members.iter().map(|member| member.rank).collect(alloc)
}

/// The ranks of the members of each colour.
fn groups_of(alloc: Global, members: &[Member]) -> Result<Vec<Vec<u16>>, AllocError>
    requires { IsStrictlySortedBy member_cmp members.now }
    ensures { IfOk result (λ groups.
        map (λ group. group.items) groups.items
        ≡ map (λ colour. ranks_with colour members.now) (colours_of members.now)) }
{
    let mut groups = Vec::new(alloc);
    let mut rest = members;
    while let Some(first) = rest.first() {
        let (group, others) = rest.split_at(run_length(rest, first.colour));
        groups.push(ranks_of(alloc, group)?)?;
        rest = others;
    }
    Ok(groups)
}

/// The new groups of a split, of the colours and keys that the members of the old group give, by
/// their ranks there. Each new group is a list of such ranks; the groups come in rising order of their
/// colours. A member without a colour is in none.
pub fn split_groups(
    alloc: Global,
    choices: &[(Option<u32>, i32)],
) -> Result<Vec<Vec<u16>>, AllocError>
    requires { length choices.now ≤ 65536 }
    ensures { IfOk result (λ groups. map (λ group. group.items) groups.items ≡ split_of choices.now) }
{
    let members = members_in_order(alloc, choices)?;
    groups_of(alloc, &members)
}

/// The new group of one colour, of the colours and keys that the members of the old group give, as ranks
/// in the old group; empty where no member gives the colour.
pub fn colour_group(
    alloc: Global,
    choices: &[(Option<u32>, i32)],
    colour: u32,
) -> Result<Vec<u16>, AllocError>
    requires { length choices.now ≤ 65536 }
    ensures { IfOk result (λ group. group.items ≡ colour_group choices.now colour) }
{
    let members = members_in_order(alloc, choices)?;
    members
        .iter()
        .filter(|member| member.colour == colour)
        .map(|member| member.rank)
        .collect(alloc)
}
