//! Tests of sources in a store: what is done to them, what a loop collects of them, and what is told of them.
#![tactic(auto)]

#[cfg(test)]
mod bodies;
#[cfg(test)]
mod calls;
mod sample;
#[cfg(test)]
mod told;

pub use sample::{fill, object};
