//! Tables of rows with distinct keys, which stand in the order in which they were added; whether two
//! keys are equal is for the table's callbacks to say. A row is found by its key's hash.
#![tactic(auto)]

mod index;
mod places;
mod rows;

pub use rows::Rows;
pub use std::alloc::AllocError as NoMemory;
