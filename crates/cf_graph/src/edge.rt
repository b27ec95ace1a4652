//! An edge of the graph, as callers see it.
use cf_ids::{ModeId, ObjId, ThreadId};

/// What has a reference to an object.
#[derive(Clone, Copy)]
pub enum Owner {
    /// A thread.
    Thread(ThreadId),
    /// What setup has packed for a thread that has not claimed it yet.
    Parcel(ThreadId),
    /// A slot of an object's body.
    Slot(ObjId),
    /// A mode of a thread's run loop.
    Mode(ThreadId, ModeId),
    /// The common items of a thread's run loop.
    Common(ThreadId),
}

/// One reference: who has it, and to which object it leads.
#[derive(Clone, Copy)]
pub struct Edge {
    /// What has the reference.
    pub owner: Owner,
    /// The object to which it leads.
    pub object: ObjId,
}
