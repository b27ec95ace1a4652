//! What a thread does next, kept from the room that is made for it to its entry.
use cf_ids::{HandlerId, ObjId, ThreadId, VarId};
use cf_model::Action;
use cf_next::{Callee, MaybeObject, Step, Used};
use rl_turn::Phase;

/// What a thread does next, as it is kept: what a `Step` has, but that a statement is named by its block and its number
/// there, and that those over run loops stand apart.
#[derive(Clone, Copy)]
pub(crate) enum Found {
    Begins,
    Claims {
        place: usize,
        variable: VarId,
    },
    Says {
        block: u16,
        number: u32,
        used: Used,
    },
    /// A statement over run loops.
    Deals {
        block: u16,
        number: u32,
        used: Used,
    },
    Packs {
        thread: ThreadId,
        place: usize,
        variable: Option<VarId>,
    },
    Ends,
    Returns,
    Owes {
        object: ObjId,
        left: usize,
    },
    Spends {
        item: ObjId,
        left: usize,
    },
    Drops {
        body: ObjId,
        place: u32,
        object: ObjId,
        left: usize,
    },
    Calls {
        callee: Callee,
        handler: HandlerId,
        info: MaybeObject,
        left: usize,
    },
    Enters(Phase),
    Closes,
}

/// What was found of a thread's next entry when room was made for it.
#[derive(Clone, Copy)]
pub(crate) struct Reserved {
    pub thread: ThreadId,
    pub found: Found,
    pub action: Action,
}

impl Reserved {
    /// What stands where nothing was found yet.
    pub fn blank() -> Reserved {
        Reserved {
            thread: ThreadId::SETUP,
            found: Found::Ends,
            action: Action::Done,
        }
    }
}
