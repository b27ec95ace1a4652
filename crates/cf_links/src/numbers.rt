//! The numbers of lists and of nodes.
ghost use Rattle.std.specs.Prelude.{ℕ};

use std::marker::Model;

/// The number of a list, in the order in which the lists were made, from 0 on.
#[derive(Clone, Copy, PartialEq, Eq)]
pub struct ListId(pub usize);

impl Model for ListId {
    ghost Value = { ℕ };

    ghost view = { λ l. l.0 };

    ghost inverse = { λ l. record { 0 = l } };
}

/// The number of a node. It is given out again only after the node was freed.
#[derive(Clone, Copy, PartialEq, Eq)]
pub struct Node(pub usize);

impl Model for Node {
    ghost Value = { ℕ };

    ghost view = { λ n. n.0 };

    ghost inverse = { λ n. record { 0 = n } };
}
