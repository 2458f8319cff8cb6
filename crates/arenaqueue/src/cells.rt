//! Cells with values, each with the number of the next cell of its list, and the first and the last cell
//! of each list.

ghost use Rattle.std.specs.Prelude.{◌≡◌, ◌≢◌, ◌+◌, ◌<◌, ◌≤◌, ◌^◌, [], ◌∷◌, ◌++◌, length, slice_index, slice_index_or, slice_set, Some, None};
ghost use Rattle.std.specs.Vec.{vec_len, vec_capacity};
ghost use Rattle.arenaqueue.specs.inner.Cells.{firsts_of, lasts_of, nexts_of, values_of};
ghost use Rattle.arenaqueue.specs.inner.Chains.{no_cell, firsts_joined, nexts_joined, walked, LeadsOut};

/// No cell has this number.
pub(crate) const NO_CELL: u32 = u32::MAX;

/// A value, and the next cell of its list.
#[derive(Drop)]
pub(crate) struct Cell<T> {
    pub next: u32,
    pub value: T,
}

/// The first and the last cell of a list. Of an empty list the first is `NO_CELL`.
#[derive(Clone, Copy)]
pub(crate) struct Ends {
    pub first: u32,
    pub last: u32,
}

#[inline(always)]
pub(crate) fn first(ends: &Vec<Ends>, list: usize) -> u32
    requires { list < length ends.now.items }
    ensures { result ≡ slice_index (firsts_of ends.now.items) list }
{
    ends[list].first
}

#[inline(always)]
pub(crate) fn last(ends: &Vec<Ends>, list: usize) -> u32
    requires { list < length ends.now.items }
    ensures { result ≡ slice_index (lasts_of ends.now.items) list }
{
    ends[list].last
}

#[inline(always)]
pub(crate) fn set_first(ends: &mut Vec<Ends>, list: usize, cell: u32)
    requires { list < length ends.old.items }
    ensures firsts { firsts_of ends.new.items ≡ slice_set (firsts_of ends.old.items) list cell }
    ensures lasts { lasts_of ends.new.items ≡ lasts_of ends.old.items }
{
    ends[list].first = cell;
}

#[inline(always)]
pub(crate) fn set_last(ends: &mut Vec<Ends>, list: usize, cell: u32)
    requires { list < length ends.old.items }
    ensures firsts { firsts_of ends.new.items ≡ firsts_of ends.old.items }
    ensures lasts { lasts_of ends.new.items ≡ slice_set (lasts_of ends.old.items) list cell }
{
    ends[list].last = cell;
}

#[inline(always)]
pub(crate) fn next<T>(cells: &Vec<Cell<T>>, cell: u32) -> u32
    requires { cell < length cells.now.items }
    ensures { result ≡ slice_index (nexts_of cells.now.items) cell }
{
    cells[cell as usize].next
}

#[inline(always)]
pub(crate) fn value<T: Copy>(cells: &Vec<Cell<T>>, cell: u32) -> T
    requires { cell < length cells.now.items }
    ensures { slice_index_or (values_of cells.now.items) cell None ≡ Some result }
{
    cells[cell as usize].value
}

#[inline(always)]
pub(crate) fn set_next<T>(cells: &mut Vec<Cell<T>>, cell: u32, next: u32)
    requires { cell < length cells.old.items }
    ensures nexts { nexts_of cells.new.items ≡ slice_set (nexts_of cells.old.items) cell next }
    ensures values { values_of cells.new.items ≡ values_of cells.old.items }
{
    cells[cell as usize].next = next;
}

/// Puts a value into a cell, which has no next one then.
#[inline(always)]
pub(crate) fn put<T: Copy>(cells: &mut Vec<Cell<T>>, cell: u32, value: T)
    requires { cell < length cells.old.items }
    ensures nexts { nexts_of cells.new.items ≡ slice_set (nexts_of cells.old.items) cell no_cell }
    ensures values { values_of cells.new.items ≡ slice_set (values_of cells.old.items) cell (Some value) }
{
    let slot = &mut cells[cell as usize];
    slot.next = NO_CELL;
    slot.value = value;
}

/// Makes a cell after the others, where there is room.
#[inline(always)]
pub(crate) fn add<T>(cells: &mut Vec<Cell<T>>, next: u32, value: T)
    requires { vec_len cells.old < vec_capacity cells.old }
    ensures nexts { nexts_of cells.new.items ≡ nexts_of cells.old.items ++ next ∷ [] }
    ensures values { values_of cells.new.items ≡ values_of cells.old.items ++ Some value ∷ [] }
    ensures room { vec_capacity cells.new ≡ vec_capacity cells.old }
{
    cells.push_reserved(Cell { next, value });
}

/// Puts a chain of cells, from its first to its last, at the back of a list.
#[inline(always)]
pub(crate) fn join<T>(
    ends: &mut Vec<Ends>,
    cells: &mut Vec<Cell<T>>,
    list: usize,
    chain: (u32, u32),
)
    requires list { list < length ends.old.items }
    requires last { slice_index (firsts_of ends.old.items) list ≢ no_cell →
        slice_index (lasts_of ends.old.items) list < length cells.old.items }
    ensures firsts { firsts_of ends.new.items ≡ firsts_joined (firsts_of ends.old.items) list chain.0 }
    ensures lasts { lasts_of ends.new.items ≡ slice_set (lasts_of ends.old.items) list chain.1 }
    ensures nexts { nexts_of cells.new.items ≡
        nexts_joined (firsts_of ends.old.items) (lasts_of ends.old.items) (nexts_of cells.old.items) list chain.0 }
    ensures values { values_of cells.new.items ≡ values_of cells.old.items }
{
    let (first_cell, last_cell) = chain;
    if first(ends, list) == NO_CELL {
        set_first(ends, list, first_cell);
    } else {
        set_next(cells, last(ends, list), first_cell);
    }
    set_last(ends, list, last_cell);
}

/// How many cells there are from one on.
pub(crate) fn count<T>(cells: &Vec<Cell<T>>, from: u32) -> u64
    requires { LeadsOut (nexts_of cells.now.items) from }
    ensures { result ≡ length (walked (nexts_of cells.now.items) from) }
{
    let mut counted = 0;
    let mut cell = from;
    while cell != NO_CELL {
        counted += 1;
        cell = next(cells, cell);
    }
    counted
}
