//! What a user may choose of how journals are closed.

/// What a test that completed a send stands for.
#[derive(Clone, Copy, Debug, PartialEq, Eq)]
pub enum Tests {
    /// A wait.
    Wait,
    /// Nothing: the rank waits for all such sends together right before its end.
    Pass,
}

/// What a call that came back stands for.
#[derive(Clone, Copy, Debug, PartialEq, Eq)]
pub enum Calls {
    /// Itself.
    Strict,
    /// What it started alone, as it went: it holds nobody any more.
    Went,
}

/// What a started receive stands for of which it was never reported what it took.
#[derive(Clone, Copy, Debug, PartialEq, Eq)]
pub enum Unreported {
    /// The end of its list.
    Ends,
    /// A start that no message meets; the list goes on as far as it is known what stands for its entries.
    Sinks,
}

/// How journals are closed: what the user chose, and what a receive stands for whose message isn't known.
#[derive(Clone, Copy, Debug, PartialEq, Eq)]
pub struct Choice {
    pub tests: Tests,
    pub calls: Calls,
    pub unreported: Unreported,
}
