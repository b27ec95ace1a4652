//! Sets, bags and heaps of objects, as the contents of objects are defined: which elements are equal, and which is
//! less, is decided by what they are compared by, or in a plain one by identity.
#![tactic(auto)]

mod bag;
mod callbacks;
mod heap;
mod set;

pub use bag::MemberBag;
pub use heap::ElementHeap;
pub use set::MemberSet;
pub use std::alloc::AllocError as NoMemory;
