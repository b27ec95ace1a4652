//! Sets and bags after the Collections guide: lists of members no two of which are equal, in a bag each
//! with the number of equal ones that were added.
#![tactic(auto)]

mod bag;
mod rows;
mod set;

pub use bag::{Bag, BagAdd, BagRemove};
pub use set::Set;
pub use std::alloc::AllocError as NoMemory;
