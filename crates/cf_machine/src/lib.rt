//! A journal judged by a second implementation: the definitions in code, over plain lists.
#![tactic(auto)]

mod coming;
mod enter;
mod judge;
mod left;
mod uses;

pub use judge::replays;
