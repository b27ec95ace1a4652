//! The graph of references: who holds what, and what a step does to it.
#![tactic(auto)]

mod degree;
mod edge;
mod laws;
mod reach;

pub use degree::{in_degree, owners};
pub use edge::{Edge, Owner};
pub use laws::{counts_of_flows, references_of_flows};
pub use reach::reached;
pub use std::alloc::AllocError as NoMemory;
