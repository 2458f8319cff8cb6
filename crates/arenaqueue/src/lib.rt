//! Many queues in one arena, singly linked.
//!
//! A `Queues<T>` is a map from list numbers to lists of values, which come in at the back and go out at the
//! front. It takes 8 bytes a list, 8 bytes a node with a number of 32 bits, and a few instructions a call.
//! Its contracts are over the values alone (`specs/Queued.antt`): each call gives the whole new map, so every list
//! that it doesn't name stays, and nothing changes where memory is refused. `work` counts 1 for a push and for a pop
//! that finds something, and 2 for each node that `append` moves. It stays at the greatest `u64`.
//!
//! The crate `arenalist` has lists that are linked in both directions. What only proofs and private contracts cite
//! is in `specs/inner/`, and nobody has to believe it.
//!
//! ```text
//! let mut queues = Queues::new(alloc);
//! let (a, b) = (queues.new_list()?, queues.new_list()?);
//! queues.reserve(2)?;
//! queues.push_reserved(a, 10);
//! queues.push_reserved(b, 20);
//! queues.append(a, b);          // a: 10 20   b:
//! queues.front(a)               // Some(10)
//! queues.pop_front(a)           // Some(10), and its node is spare
//! queues.spare()                // 1
//! queues.work()                 // 5
//! ```
#![tactic(auto)]

mod cells;
pub mod queues;
