//! Dictionaries after the Collections guide: lists of pairs with distinct keys.
#![tactic(auto)]

mod dictionary;

pub use dictionary::{Dict, DictSet};
pub use std::alloc::AllocError as NoMemory;
