//! Whether two actions, and two answers, are the same.
#![tactic(auto)]

mod action;
mod answer;
mod site;

pub use action::is_same_action;
pub use answer::is_same_answer;
pub use site::used_of;
