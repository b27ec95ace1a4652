//! The words of a statement that name something, and what a statement does to the count of a variable.
ghost use Rattle.std.specs.Prelude.{◌≡◌};
ghost use Rattle.cf_syntax.specs.Numbered.{mode_word, thread_word};

use cf_ids::{HandlerId, ModeId, ThreadId, TypeId, VarId};

/// The word THREAD: the thread that acts, or one that is named.
#[derive(Clone, Copy)]
pub enum ThreadWord {
    /// `self`: the thread that acts.
    Own,
    /// `setup`, or the name of a thread block; none if the script has no thread of that name.
    Named(Option<ThreadId>),
}

impl ThreadWord {
    /// The thread that is named by its name, where the script has it.
    pub(crate) fn by_name(&self) -> Option<ThreadId>
        ensures { result ≡ thread_word self.now }
    {
        match self {
            ThreadWord::Own => None,
            ThreadWord::Named(thread) => *thread,
        }
    }
}

/// The word MODE: a mode, or the common items of a run loop.
#[derive(Clone, Copy)]
pub enum ModeWord {
    /// `common`.
    Common,
    /// The name of a mode.
    Mode(ModeId),
}

impl ModeWord {
    /// The mode that is named by its name.
    pub(crate) fn by_name(&self) -> Option<ModeId>
        ensures { result ≡ mode_word self.now }
    {
        match self {
            ModeWord::Common => None,
            ModeWord::Mode(mode) => Some(*mode),
        }
    }
}

/// A word of a line that names something, which the owner check looks at.
#[derive(Clone, Copy)]
pub enum Mention {
    /// A variable of the block that the line binds.
    Binds(VarId),
    /// A variable of the block that the line uses.
    Uses(VarId),
    /// A class; none if the script has no class of that name.
    Class(Option<TypeId>),
    /// A handler.
    Handler(HandlerId),
    /// A thread; none if the script has no thread of that name.
    Thread(Option<ThreadId>),
    /// A word after `uses` that is no variable of setup.
    Unknown,
}

/// What a line does to the number of references that a variable of its block owns.
#[derive(Clone, Copy)]
pub enum Ownership {
    /// Nothing.
    Keeps,
    /// It binds the variable, which then owns one where an object was found.
    Binds(VarId),
    /// One more.
    Retains(VarId),
    /// One less.
    Releases(VarId),
}
