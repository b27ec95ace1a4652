//! Lists that are linked by numbers: each node names its neighbours by their numbers, so that a
//! node comes into a list and leaves it with no walk through the list and with no memory.
#![tactic(auto)]

mod joins;
mod links;
mod numbers;

pub use links::Links;
pub use numbers::{ListId, Node};
pub use std::alloc::AllocError as NoMemory;
