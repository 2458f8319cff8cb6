//! The exit statuses of the program.

ghost use Rattle.std.specs.Prelude.{◌≡◌};
ghost use Rattle.cli.specs.Statuses.{code_of};

/// How the program ended.
#[derive(Clone, Copy, Debug, PartialEq, Eq)]
pub enum Status {
    /// The run can't hang, the trace is in its format, or help or the version was asked for.
    Free = 0,
    /// The run can hang.
    Hang = 1,
    /// The head or a trace was refused.
    Refused = 2,
    /// The words, or the number of files, are wrong.
    Usage = 3,
    /// A file, the memory or the output failed.
    Fault = 4,
    /// No rank is held, and some trace was left open.
    Unfinished = 5,
}

impl Status {
    /// The number with which the process ends.
    pub fn code(self) -> u8
        ensures { result ≡ code_of self }
    {
        self as u8
    }
}
