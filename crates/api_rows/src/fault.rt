//! Why a line got no answer.

/// Why a line got no answer.
#[derive(Clone, Copy)]
pub enum Fault {
    Unread,
    Missing,
    Memory,
}

impl Fault {
    /// The fault in words, after `answered`.
    pub fn text(self) -> &'static str {
        match self {
            Fault::Unread => "nothing: it can't be read",
            Fault::Missing => "nothing: it names what isn't there",
            Fault::Memory => "nothing: there is no memory",
        }
    }
}
