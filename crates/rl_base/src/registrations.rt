//! What a notification centre has of an observer.
ghost use Rattle.std.specs.Prelude.{ℕ};

use cf_ids::{HandlerId, NameId, ObjId};
use std::marker::Model;

/// The number of a registration: how many were made before it. It is never used again.
#[derive(Clone, Copy, Debug, PartialEq, Eq)]
pub struct RegId(pub u32);

impl Model for RegId {
    ghost Value = { ℕ };

    ghost view = { λ r. r.0 };

    ghost inverse = { λ n. record { 0 = n } };
}

/// A registration of an observer for notices. It retains neither its observer nor its filter object (this project's
/// own).
#[derive(Clone, Copy)]
pub struct Registration {
    /// The observer that is told.
    pub observer: ObjId,
    /// The handler that is called.
    pub handler: HandlerId,
    /// The name of the notices that are received, or `None` for any.
    pub name: Option<NameId>,
    /// The object of the notices that are received, or `None` for any, a notice without an object among them.
    pub filter: Option<ObjId>,
}
