//! What a thread does next, with what was looked up for it.
ghost use Rattle.std.specs.Prelude.{◌≡◌, ◌↔◌, true, false, option_to_list};
ghost use Rattle.cf_next.specs.Actions.{cut_of};
ghost use Rattle.cf_next.specs.Advancing.{Fits};
ghost use Rattle.cf_next.specs.Standing.{finals_in};
ghost use Rattle.cf_next.specs.Steps.{IsCutBy, cut_by, is_retain_step, says_retain, step_cut, step_posts};

use crate::action::Action;
use crate::advance::is_post;
use crate::object::{MaybeObject, Used};
use crate::parts::Callee;
use cf_ids::{Answer, HandlerId, ObjId, ThreadId, VarId};
use cf_syntax::Statement;
use rl_turn::Phase;

/// What a thread does next, with what was looked up for it, in at most 32 bytes: it can be handed on, so that nothing
/// is looked up again.
#[derive(Clone, Copy)]
pub enum Step<'s> {
    /// A handler has its info in variable 0.
    Begins,
    /// The thread claims a variable's object from a place of its parcel.
    Claims {
        place: usize,
        variable: VarId,
    },
    /// A statement, at this number of its block.
    Says {
        statement: &'s Statement,
        used: Used,
        number: u32,
    },
    /// A variable of setup is packed for a place of a thread's parcel.
    Packs {
        thread: ThreadId,
        place: usize,
        variable: Option<VarId>,
    },
    /// The thread's block is at its end.
    Ends,
    /// A handler's block is at its end.
    Returns,
    /// An object that was given out is released; so many items of work are left after it.
    Owes {
        object: ObjId,
        left: usize,
    },
    /// An item is invalidated; so many items of work are left after it.
    Spends {
        item: ObjId,
        left: usize,
    },
    /// A finalised body gives up the slot at a place of those that it had; so many items of work are left after it.
    Drops {
        body: ObjId,
        place: u32,
        object: ObjId,
        left: usize,
    },
    /// A handler is called; so many of those that were collected are left after it.
    Calls {
        callee: Callee,
        handler: HandlerId,
        info: MaybeObject,
        left: usize,
    },
    /// A run enters a phase.
    Enters(Phase),
    /// A run ends.
    Closes,
}

impl Step<'_> {
    /// Whether it is a `post`, whose list has registrations.
    pub(crate) fn is_post(&self) -> bool
        ensures { result ≡ step_posts self.now }
    {
        match self {
            Step::Says { statement, .. } => is_post(*statement),
            _ => false,
        }
    }

    /// Whether it is a retain.
    pub(crate) fn is_retain(&self) -> bool
        ensures { result ≡ is_retain_step self.now }
    {
        match self {
            Step::Says { statement, .. } => says_retain(*statement),
            _ => false,
        }
    }

    /// The object to which it takes a reference away.
    pub(crate) fn cut(&self) -> Option<ObjId>
        ensures { result ≡ step_cut self.now }
    {
        match self {
            Step::Says {
                statement,
                used,
                ..
            } => cut_by(*statement, used),
            Step::Owes { object, .. } | Step::Drops { object, .. } => Some(*object),
            _ => None,
        }
    }

    /// The object to which an action takes a reference away; a retain takes none away.
    pub(crate) fn cut_of(&self, action: &Action) -> Option<ObjId>
        ensures retain { IsCutBy self.now result }
        ensures other { is_retain_step self.now ≡ false → result ≡ cut_of action.now }
    {
        if self.is_retain() {
            None
        } else {
            action.cuts()
        }
    }

    /// Whether the numbers of a line more and of a slot more fit, where so many lines are done.
    pub(crate) fn fits(&self, number: u32) -> bool
        ensures { (result ≡ true) ↔ Fits self.now number }
    {
        match self {
            Step::Begins | Step::Claims { .. } | Step::Says { .. } | Step::Packs { .. } => {
                number < u32::MAX
            }
            Step::Drops { place, .. } => *place < u32::MAX,
            _ => true,
        }
    }
}

/// Whether a statement is a retain.
fn says_retain(statement: &Statement) -> bool
    ensures { result ≡ says_retain statement.now }
{
    matches!(statement, Statement::Retain { .. })
}

/// The object to which a statement takes a reference away, of those that it uses.
fn cut_by(statement: &Statement, used: &Used) -> Option<ObjId>
    ensures { result ≡ cut_by statement.now used.now }
{
    match statement {
        Statement::Release { .. } => used.first.object(),
        _ => None,
    }
}

/// The object that an entry finalised: that to which it takes the last reference away.
pub(crate) fn finalised(cut: Option<ObjId>, answer: &Answer) -> Option<ObjId>
    ensures { option_to_list result ≡ finals_in cut answer.now }
{
    match answer {
        Answer::Final(_) => cut,
        _ => None,
    }
}
