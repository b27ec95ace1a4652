//! The parts of a thread's frames.
ghost use Rattle.std.specs.Prelude.{◌≡◌};
ghost use Rattle.cf_next.specs.Stands.{item_of};
ghost use Rattle.cf_next.specs.Views.{callee_of};

use crate::object::MaybeObject;
use cf_ids::{HandlerId, ModeId, ObjId, ThreadId, VarId};
use rl_turn::Phase;

/// What an entry collected to be called.
#[derive(Clone, Copy)]
pub enum Callee {
    /// An observer of a run loop.
    Observer(ObjId),
    /// A source.
    Source(ObjId),
    /// A timer.
    Timer(ObjId),
    /// A registration of an observer of notices, by its own number.
    Receiver(u32),
}

/// A run of a loop.
#[derive(Clone, Copy)]
pub(crate) struct Run {
    pub mode: ModeId,
    /// It ends when a source was called.
    pub once: bool,
    /// In ticks.
    pub deadline: Option<u64>,
    /// The phase of its last entry.
    pub last: Option<Phase>,
    /// A source was called since the turn began.
    pub handled: bool,
    /// It was told to stop.
    pub stopped: bool,
    /// The result of its last test, 1 to 4.
    pub result: Option<u8>,
}

/// What a frame is of.
#[derive(Clone, Copy)]
pub(crate) enum Kind {
    /// A thread's block.
    Block(ThreadId),
    /// A handler, with what was called.
    Handler { callee: Callee, handler: HandlerId },
    /// A run of a loop.
    Run(Run),
}

/// A frame, but for its variables and what it collected.
#[derive(Clone, Copy)]
pub(crate) struct Frame {
    pub kind: Kind,
    /// How many lines of its block are done.
    pub number: u32,
}

/// What a variable was bound to.
#[derive(Clone, Copy)]
pub(crate) struct Bound {
    pub variable: VarId,
    pub object: MaybeObject,
}

/// An item of work.
#[derive(Clone, Copy)]
pub(crate) enum Work {
    /// The release of an object that was given out.
    Release(ObjId),
    /// An item that is to be invalidated.
    Spend(ObjId),
    /// The slots of a finalised body from a place on.
    Slots { body: ObjId, place: u32 },
}

impl Callee {
    /// The item that is called; a notice's call has none.
    pub fn item(&self) -> Option<ObjId>
        ensures { result ≡ item_of (callee_of self.now) }
    {
        match self {
            Callee::Observer(item) | Callee::Source(item) | Callee::Timer(item) => Some(*item),
            Callee::Receiver(_) => None,
        }
    }
}
