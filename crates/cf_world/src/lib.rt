//! The world of a run: where its threads stand, and what they stand on, by the definitions of the model.
#![tactic(auto)]

mod applying;
mod begun;
mod counts;
mod edges;
mod found;
mod ground;
mod leading;
mod looking;
mod loops;
mod next;
mod parcels;
mod running;
mod statements;
mod turning;
mod world;

pub use next::{LeadNext, Next};
pub use world::World;
