//! The body of one object: what it contains, how that is described and compared, how it is changed, and how a
//! finalised one gives up its slots.
#![tactic(auto)]

mod body;
mod change;
mod classes;
mod collection_edits;
mod description;
mod edits;
mod item;
mod keys;
mod members;
mod pairs;
mod slots;

pub use body::{Body, Instance, Kind};
pub use change::{BodyChange, Moved};
pub use classes::{class_line, class_name};
pub use description::describe;
pub use item::{ItemState, LoopItem};
pub use keys::key_of;
pub use pairs::Pairs;
pub use std::alloc::AllocError as NoMemory;
