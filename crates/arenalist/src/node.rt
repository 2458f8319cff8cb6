//! The numbers of lists and nodes.

ghost use Rattle.std.specs.Prelude.{◌≡◌, ℕ};

use std::marker::Model;

/// A list of an arena, by its number.
#[derive(Clone, Copy, Debug, PartialEq, Eq)]
pub struct ListId(u32);

impl Model for ListId {
    ghost Value = { ℕ };

    ghost view = { λ id. id.0 };

    ghost inverse = { λ n. record { 0 = n } };
}

impl ListId {
    pub(crate) fn new(number: u32) -> ListId
        ensures { result ≡ number }
    {
        ListId(number)
    }

    /// The first list of an arena has number 0, the next one 1, and so on.
    pub fn number(self) -> u32
        ensures { result ≡ self }
    {
        self.0
    }
}

/// A node of an arena, by its number.
#[derive(Clone, Copy, Debug, PartialEq, Eq)]
pub struct Node(u32);

impl Model for Node {
    ghost Value = { ℕ };

    ghost view = { λ node. node.0 };

    ghost inverse = { λ n. record { 0 = n } };
}

impl Node {
    pub(crate) fn new(number: u32) -> Node
        ensures { result ≡ number }
    {
        Node(number)
    }

    /// A number that no other node in use has. Once the node is spare, a later push may give it again.
    pub fn number(self) -> u32
        ensures { result ≡ self }
    {
        self.0
    }
}
