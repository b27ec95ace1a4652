//! What objects contain, what each form of statement does to contents, and how they are described: the
//! definitions that a journal's legality and the store both cite.
#![tactic(auto)]

mod examples;
mod laws;

pub use examples::{
    answers_of_edits, descriptions_of_objects, edits_of_members, edits_of_sets_bags_and_heaps,
};
pub use laws::changes_keep_keys;
