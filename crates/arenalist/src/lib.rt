//! Many lists in one arena, doubly linked.
//!
//! A `Lists<T>` is a map from list numbers to lists of nodes, each with a value. A value keeps its
//! node while it is in the lists, also where it is moved from one list to another, and a node
//! is taken out of the middle of a list without a search.
//!
//! What the crate promises, by the definitions of `specs/Arena.antt`:
//!
//! - Each call's contract gives the whole new map, so every list that the call does not name stays.
//!   No node is in two lists, or in one twice. Where memory is refused nothing changes.
//! - `new_list` answers a number that was never used before, and a push a node that is in no
//!   list. A node that is taken out is spare, and a later push uses it again.
//! - `work` counts what was done: 1 for a push, an unlink and a pop that finds something, 2 for a
//!   move, and 2 for each node that `append` moves. It stays at the greatest `u64`.
//! - With a spare node `push_back` can't be refused.
//!
//! Those who do not want nodes read the map by `contents`, which gives each list's values
//! (`proofs/ContentsLemmas.antt` says what each call does to them). What only proofs and private contracts
//! cite is in `specs/inner/`, and nobody has to believe it.
//!
//! ```text
//! let mut lists = Lists::new(alloc);
//! let (a, b) = (lists.new_list()?, lists.new_list()?);
//! let ten = lists.push_back(a, 10)?;
//! lists.push_back(a, 20)?;      // a: 10 20
//! lists.move_back(ten, b);      // a: 20      b: 10
//! lists.append(a, b);           // a: 20 10   b:
//! lists.list_of(ten)            // Some(a)
//! lists.list(0)                 // a, by its number
//! lists.pop_front(a)            // Some(20)
//! lists.unlink(ten)             // 10, and both nodes are spare
//! lists.work()                  // 8
//! ```
#![tactic(auto)]

mod links;
pub mod lists;
pub mod node;
