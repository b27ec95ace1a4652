//! The state of a run over plain lists: objects, references, flags, registrations, and where each thread stands.
#![tactic(auto)]

mod dates;
mod known;
mod matching;
mod parts;
mod stands;
mod state;
mod thing;
mod update;

pub use dates::{earlier, has_come};
pub use known::{Known, is_empty_mode, items_held};
pub use matching::{is_forgotten, takes_name, takes_object};
pub use parts::{Common, Flags, Parts, Sleep, flags_at, is_common};
pub use stands::Stands;
pub use state::{State, start};
pub use thing::Thing;
pub use update::Update;
