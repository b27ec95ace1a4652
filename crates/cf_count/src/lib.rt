//! The count word of an object, as tables: what a retain and a release make of its byte, and what a word has.
#![tactic(auto)]

mod changes;
mod laws;
mod words;

pub use changes::{ROLLED, Released, Retained, after_release, after_retain, composite, unrolled};
pub use laws::{counts_of_changes, parts_of_words};
pub use words::{State, byte_of, changes_of, state_of};
