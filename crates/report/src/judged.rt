//! What the report of the recording of journals says in addition: some of its findings, where lists ended before
//! their ends, and the lines of calls.

use findings::finding::Finding;

/// At which line of its journal, and why, the list of a rank ended before its end.
#[derive(Clone, Copy)]
pub struct LeftAt {
    pub rank: u16,
    pub line: u32,
    pub why: &'static str,
}

/// The line of a rank's journal of which the call at a place of its list comes.
#[derive(Clone, Copy)]
pub struct LineAt {
    pub rank: u16,
    pub place: u32,
    pub line: u32,
}

/// A call: its rank, and its place in the rank's list.
#[derive(Clone, Copy)]
pub struct CallOf {
    pub rank: u16,
    pub place: u32,
}

/// What a JSON report says where it is asked which ranks are held: these, and the calls of each finding, in their order.
#[derive(Clone, Copy)]
pub struct HeldRanks<'a> {
    pub ranks: &'a [u16],
    pub finding_calls: &'a [Vec<CallOf>],
}

/// The most bytes of the words for why a list ended.
pub const MOST_WORDS: usize = 64;

/// What the report says in addition to who waits for whom, and why.
#[derive(Clone, Copy)]
pub struct Judged<'a> {
    pub findings: &'a [Finding],
    pub left: &'a [LeftAt],
    pub lines: &'a [LineAt],
    pub held: Option<HeldRanks<'a>>,
}
