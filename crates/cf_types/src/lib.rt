//! Leaves of objects and how collections compare, hash and order them, and the registry of classes.
#![tactic(auto)]

mod callbacks;
mod cells;
mod classes;
mod forms;
mod hashing;
mod leaves;
mod registry;

pub use callbacks::CellCallbacks;
pub use cells::Cell;
pub use classes::{BUILT_IN_NAMES, Class, Equality, built_in_name};
pub use forms::Form;
pub use hashing::{hash_of_empty, hash_of_hi};
pub use leaves::Leaf;
pub use registry::{RegisterFault, Registry};
pub use std::alloc::AllocError as NoMemory;
