//! The head of a run: how many ranks it has, and which of them belong to each communicator; and the
//! groups that a split of a communicator makes.
//!
//! A head is a text. Its first line is `ranks P`; each further line is `comm` and the ordered group of
//! communicator 1, 2 and so on, as ranks of the world. Communicator 0 is the world itself.
//!
//! What the crate promises:
//!
//! - [`head::Head::read`] answers the groups that the text gives by the definition `read_head` of
//!   `specs/HeadText.antt`, or the fault of the first line that has one, or lack of memory in place of
//!   either. So many bytes as [`limits::DECIDING_BYTES`]
//!   decide what a text says.
//! - The look-ups answer by these groups, as `specs/Groups.antt` defines them.
//! - [`head::Head::groups_are_sound`] says of every head that each group names ranks of the run, one at
//!   least and none twice.
//! - [`split::split_groups`] answers the groups of `specs/Splits.antt`, or lack of memory.
//!
//! What only proofs and private contracts cite is in `specs/inner/`, and nobody has to believe it.
//!
//! In the code alone it is seen that no look-up searches a group or takes memory.
//!
//! ```text
//! let head = Head::read(alloc, b"ranks 3\ncomm 2 0\n")?;
//! head.world_rank(1, 0)    // Some(2): the first member of communicator 1
//! head.group_rank(1, 1)    // None: rank 1 is no member
//! head.size(2)             // None: there is no communicator 2
//! ```
#![tactic(auto)]

pub mod fault;
mod group;
pub mod head;
pub mod limits;
mod line;
pub mod split;
