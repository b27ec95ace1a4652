//! What a thread does next, from where it stands and from facts of the world: the actions, and the definitions of
//! frames, of what they demand and of how an entry moves them on.
#![tactic(auto)]

mod action;
mod advance;
mod calling;
mod facts;
mod finding;
mod frames;
mod held;
mod lines;
mod object;
mod parts;
mod rows;
mod stack;
mod step;
mod turn;
mod work;

pub use action::Action;
pub use facts::Facts;
pub use frames::Frames;
pub use object::{MaybeObject, Used};
pub use parts::Callee;
pub use step::Step;
