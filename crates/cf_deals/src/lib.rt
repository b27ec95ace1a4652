//! What a statement does that neither binds a variable nor counts its references, over plain lists.
#![tactic(auto)]

mod deal;
mod deals;
mod loops;
mod notices;
mod places;

pub use deal::{Deal, held_by_all, held_if};
pub use deals::{deal_of, deed_at, first_of, posts_of};
pub use loops::invalidate_deal;
