//! Growing lists of elements, after the arrays of the Collections guide: room is made by `reserve`,
//! and edits within that room take no memory.
#![tactic(auto)]

mod array;

pub use array::{Array, Range};
pub use std::alloc::AllocError as NoMemory;
