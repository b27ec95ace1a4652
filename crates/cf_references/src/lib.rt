//! References and flows of references over a plain list: the definitions in code, without counts or an index.
#![tactic(auto)]

mod flow;
mod holder;
mod reference;
mod taking;

pub use flow::Flow;
pub use holder::Holder;
pub use reference::{Reference, copied, first_held, has, is_free};
pub use taking::{own_reference, own_references, present_of};
