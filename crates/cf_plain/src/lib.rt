//! What objects contain and what statements do to contents, over plain lists: the definitions in code, without indexes
//! or counts.
#![tactic(auto)]

mod change;
mod character;
mod class;
mod content;
mod content_deeds;
mod deed;
mod deeds;
mod description;
mod element;
mod heap;
mod item;
mod key;
mod list;
mod making;
mod moved;
mod pair_deeds;
mod place_deeds;
mod seen;
mod slot;

pub use change::{Change, Entered};
pub use content::{Content, Object};
pub use deed::{Deed, Origin};
pub use deeds::deed_by;
pub use element::{Element, Form};
pub use heap::Heap;
pub use item::Item;
pub use moved::{coming_in, going_out};
pub use seen::{Found, Seen, see};
