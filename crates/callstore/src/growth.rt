//! How lists grow that may become long.
//!
//! Such lists make room for 128 KB at their 65th element. Lists that grow together then leave few small
//! blocks that nobody uses again. The C library gives a block of that size pages of its own, as long as no
//! larger block was given back before.

ghost use Rattle.std.specs.Prelude.{◌≡◌, ◌<◌, ◌≤◌, vec_len, vec_capacity, OnOk};

use std::alloc::AllocError;

/// For how many more elements room is made in a list of so many, where this many fill a block. A list of more than
/// a few has room for that many at once: they are in pages of their own, of which those that are written alone take
/// memory, and from then on it grows without a copy.
fn more_room(count: usize, block: usize) -> usize
    requires { 1 ≤ block }
    ensures { 1 ≤ result }
{
    if count == 64 { block } else { 1 }
}

/// Makes room for one more element in a list, where this many fill a block.
#[inline(always)]
pub(crate) fn make_room<T>(list: &mut Vec<T>, block: usize) -> Result<(), AllocError>
    requires { 1 ≤ block }
    ensures items { list.new.items ≡ list.old.items }
    ensures ok { OnOk result (vec_len list.new < vec_capacity list.new) }
{
    if list.len() < list.capacity() {
        return Ok(());
    }
    list.reserve(more_room(list.len(), block))
}
