//! The external numbers of counts: a number for each object, with all memory taken when the table is made.
#![tactic(auto)]

mod table;

pub use std::alloc::AllocError as NoMemory;
pub use table::Extern;
