//! The bodies of objects, by number, and what statements do to them.
#![tactic(auto)]

mod bodies;
mod content_plans;
mod heap_plans;
mod index;
mod items;
mod making;
mod member_plans;
mod pair_plans;
mod place_plans;
mod plan;
mod plans;
mod seen;
mod store;

pub use plan::Origin;
pub use std::alloc::AllocError as NoMemory;
pub use store::{Edited, Store};
