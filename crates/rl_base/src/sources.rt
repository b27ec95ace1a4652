//! What is kept of a source.
use cf_ids::ObjId;

/// A source of run loops (the Run Loops guide), as its two bits and its order.
#[derive(Clone, Copy)]
pub struct SourceState {
    /// Its number as an object.
    pub number: ObjId,
    /// Sources of a lower order are called first.
    pub order: i64,
    /// It is not invalidated.
    pub valid: bool,
    /// It is signalled, and its callout has not begun since.
    pub signalled: bool,
}
