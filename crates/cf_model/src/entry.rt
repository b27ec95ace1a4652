//! An entry of a journal.
use cf_ids::{Answer, ThreadId};
use cf_next::Action;

/// An entry of a journal: one atomic step.
#[derive(Drop)]
pub struct Entry {
    pub thread: ThreadId,
    pub action: Action,
    pub answer: Answer,
}
