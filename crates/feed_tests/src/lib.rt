//! Tests of the crates at the base, through their public calls, of what no row of text can say: devices that fail,
//! lists in an arena, and feeds.
//!
//! They are in a crate of their own, so that those crates are proved once, and not again with their tests.
#![tactic(auto)]

#[cfg(test)]
mod channels;
#[cfg(test)]
mod feeds;
#[cfg(test)]
mod linked_lists;
#[cfg(test)]
mod queues;
#[cfg(test)]
mod rings;
#[cfg(test)]
mod std_devices;
