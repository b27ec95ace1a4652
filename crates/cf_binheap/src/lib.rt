//! Binary heaps after the Collections guide, which give the least element first, of equal ones the one
//! that was added first.
#![tactic(auto)]

mod heap;
mod sift;

pub use heap::Heap;
pub use std::alloc::AllocError as NoMemory;
