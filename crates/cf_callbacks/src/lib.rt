//! How a collection compares, hashes and orders its elements, after the callbacks of the Collections
//! guide, and a counter of comparisons.
#![tactic(auto)]

mod callbacks;
mod steps;

pub use callbacks::Callbacks;
pub use steps::Steps;
