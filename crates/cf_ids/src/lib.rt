//! The numbers, answers and limits of which every layer speaks, and the list that stands inside
//! entries, answers and scripts.
#![tactic(auto)]

mod answer;
mod description;
mod limits;
mod numbers;
mod sequence;

pub use answer::{Answer, Ended};
pub use description::Description;
pub use limits::{
    DEFAULT_LIMIT, FIELDS, HANDLERS, LARGEST_LIMIT, MODES, NOTICES, OBJECT_NUMBERS, OBJECTS,
    SCRIPT_BYTES, THREADS, TYPE_NUMBERS, TYPES, VARIABLES,
};
pub use numbers::{HandlerId, Item, ItemKind, ModeId, NameId, ObjId, ThreadId, TypeId, VarId};
pub use sequence::Seq;
