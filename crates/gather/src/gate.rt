//! What is asked before each record is read, and may stop the reading.

ghost use Rattle.std.specs.Prelude.{◌≡◌, ℕ, Bool, true, ⊤};

/// Lets records be read or stops the reading. All that read ask one gate.
pub trait Gate {
    /// Which answers it may give at a rank and a line: true lets the record there be read. Without a word of its own
    /// a gate says nothing.
    ghost may_answer: { Self → ℕ → ℕ → Bool → Type 0 } = { λ gate rank line answer. ⊤ };

    /// Whether the rank's record at `line` may be read, counted from 0.
    fn ask(&self, rank: u16, line: u32) -> bool
        ensures { may_answer self.now rank line result };
}

/// A gate that never stops the reading.
#[derive(Clone, Copy, Debug)]
pub struct OpenGate;

impl Gate for OpenGate {
    ghost may_answer = { λ gate rank line answer. answer ≡ true };

    fn ask(&self, _rank: u16, _line: u32) -> bool {
        true
    }
}
