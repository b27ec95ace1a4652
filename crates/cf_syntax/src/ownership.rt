//! What a statement names, uses, makes and does to the counts of variables.
ghost use Rattle.std.specs.Prelude.{◌≡◌, ◌↔◌, true};
ghost use Rattle.cf_syntax.specs.Mentions.{mentions_of, thread_mention, info_mention, used, present, ownership_of, used_by, makes_object, pad};
ghost use Rattle.cf_syntax.specs.Numbered.{NamesMode, NamesThread, mode_in, thread_in};

use crate::mention::{Mention, Ownership, ThreadWord};
use crate::statement::Statement;
use cf_ids::{ModeId, ThreadId, VarId};

/// What a word THREAD names.
fn thread_mention(thread: &ThreadWord) -> Option<Mention>
    ensures { result ≡ thread_mention thread.now }
{
    match thread {
        ThreadWord::Own => None,
        ThreadWord::Named(thread) => Some(Mention::Thread(*thread)),
    }
}

/// What a word INFO or a filter names.
fn info_mention(info: &Option<VarId>) -> Option<Mention>
    ensures { result ≡ info_mention info.now }
{
    match info {
        None => None,
        Some(variable) => Some(Mention::Uses(*variable)),
    }
}

/// The variable of a word that uses one.
fn used(mention: &Option<Mention>) -> Option<VarId>
    ensures { result ≡ used mention.now }
{
    match mention {
        Some(Mention::Uses(variable)) => Some(*variable),
        _ => None,
    }
}

/// Three places without the empty ones among the others.
fn packed(places: [Option<VarId>; 3]) -> [Option<VarId>; 3]
    ensures { result ≡ pad (present places) }
{
    match places {
        [None, None, third] => [third, None, None],
        [None, Some(second), third] => [Some(second), third, None],
        [Some(first), None, third] => [Some(first), third, None],
        [Some(first), Some(second), third] => [Some(first), Some(second), third],
    }
}

impl Statement {
    /// The words that name a variable of the block, a class, a handler or a thread, in order.
    pub fn mentions(&self) -> [Option<Mention>; 3]
        ensures { result ≡ mentions_of self.now }
    {
        match self {
            Statement::MakeString { variable, .. }
            | Statement::MakeMstring { variable, .. }
            | Statement::MakeData { variable, .. }
            | Statement::MakeMdata { variable, .. }
            | Statement::MakeNumber { variable, .. }
            | Statement::MakeArray { variable, .. }
            | Statement::MakeDict { variable, .. }
            | Statement::MakeSet { variable, .. }
            | Statement::MakeBag { variable, .. }
            | Statement::MakeHeap { variable, .. } => [Some(Mention::Binds(*variable)), None, None],
            Statement::MakeSource {
                variable,
                handler,
                info,
                ..
            }
            | Statement::MakeTimer {
                variable,
                handler,
                info,
                ..
            }
            | Statement::MakeObserver {
                variable,
                handler,
                info,
                ..
            } => [
                Some(Mention::Binds(*variable)),
                Some(Mention::Handler(*handler)),
                info_mention(info),
            ],
            Statement::New {
                variable,
                class,
                ..
            } => [
                Some(Mention::Binds(*variable)),
                Some(Mention::Class(*class)),
                None,
            ],
            Statement::Retain { variable }
            | Statement::Release { variable }
            | Statement::Show { variable }
            | Statement::StrInsert { variable, .. }
            | Statement::StrDelete { variable, .. }
            | Statement::StrReplace { variable, .. }
            | Statement::DataAppend { variable, .. }
            | Statement::DataReplace { variable, .. }
            | Statement::DataDelete { variable, .. }
            | Statement::NumAs { variable, .. }
            | Statement::ArrRemove { variable, .. }
            | Statement::HeapRemove { variable }
            | Statement::FieldClear { variable, .. } => [
                Some(Mention::Uses(*variable)),
                None,
                None,
            ],
            Statement::StrAppend { variable, other } => [
                Some(Mention::Uses(*variable)),
                Some(Mention::Uses(*other)),
                None,
            ],
            Statement::StrSub { variable, text, .. } => [
                Some(Mention::Binds(*variable)),
                Some(Mention::Uses(*text)),
                None,
            ],
            Statement::ArrAppend { variable, element }
            | Statement::ArrInsert {
                variable,
                element,
                ..
            }
            | Statement::ArrSet {
                variable,
                element,
                ..
            }
            | Statement::SetAdd { variable, element }
            | Statement::SetSet { variable, element }
            | Statement::SetReplace { variable, element }
            | Statement::SetRemove { variable, element }
            | Statement::SetCount { variable, element }
            | Statement::HeapAdd { variable, element }
            | Statement::FieldSet {
                variable,
                element,
                ..
            } => [
                Some(Mention::Uses(*variable)),
                Some(Mention::Uses(*element)),
                None,
            ],
            Statement::ArrTake {
                variable,
                array,
                ..
            } => [
                Some(Mention::Binds(*variable)),
                Some(Mention::Uses(*array)),
                None,
            ],
            Statement::DictAdd {
                variable,
                key,
                value,
            }
            | Statement::DictSet {
                variable,
                key,
                value,
            }
            | Statement::DictReplace {
                variable,
                key,
                value,
            } => [
                Some(Mention::Uses(*variable)),
                Some(Mention::Uses(*key)),
                Some(Mention::Uses(*value)),
            ],
            Statement::DictRemove { variable, key } => [
                Some(Mention::Uses(*variable)),
                Some(Mention::Uses(*key)),
                None,
            ],
            Statement::DictTake {
                variable,
                dictionary,
                key,
            } => [
                Some(Mention::Binds(*variable)),
                Some(Mention::Uses(*dictionary)),
                Some(Mention::Uses(*key)),
            ],
            Statement::SetTake {
                variable,
                set,
                element,
            } => [
                Some(Mention::Binds(*variable)),
                Some(Mention::Uses(*set)),
                Some(Mention::Uses(*element)),
            ],
            Statement::HeapTake { variable, heap } => [
                Some(Mention::Binds(*variable)),
                Some(Mention::Uses(*heap)),
                None,
            ],
            Statement::FieldTake {
                variable,
                instance,
                ..
            } => [
                Some(Mention::Binds(*variable)),
                Some(Mention::Uses(*instance)),
                None,
            ],
            Statement::Add { item, thread, .. } | Statement::Drop { item, thread, .. } => [
                Some(Mention::Uses(*item)),
                thread_mention(thread),
                None,
            ],
            Statement::Common { thread, .. }
            | Statement::Wake { thread }
            | Statement::Stop { thread } => [None, thread_mention(thread), None],
            Statement::Signal { source } => [Some(Mention::Uses(*source)), None, None],
            Statement::Invalidate { item } => [Some(Mention::Uses(*item)), None, None],
            Statement::Run { .. } => [None, None, None],
            Statement::Observe {
                observer,
                handler,
                filter,
                ..
            } => [
                Some(Mention::Uses(*observer)),
                Some(Mention::Handler(*handler)),
                info_mention(filter),
            ],
            Statement::Forget {
                observer,
                filter,
                ..
            } => [Some(Mention::Uses(*observer)), info_mention(filter), None],
            Statement::Post { info, .. } => [None, info_mention(info), None],
        }
    }

    /// What the statement does to a variable's count.
    #[inline(always)]
    pub fn ownership(&self) -> Ownership
        ensures { result ≡ ownership_of self.now }
    {
        match self {
            Statement::Retain { variable } => Ownership::Retains(*variable),
            Statement::Release { variable } => Ownership::Releases(*variable),
            Statement::MakeString { variable, .. }
            | Statement::MakeMstring { variable, .. }
            | Statement::MakeData { variable, .. }
            | Statement::MakeMdata { variable, .. }
            | Statement::MakeNumber { variable, .. }
            | Statement::MakeArray { variable, .. }
            | Statement::MakeDict { variable, .. }
            | Statement::MakeSet { variable, .. }
            | Statement::MakeBag { variable, .. }
            | Statement::MakeHeap { variable, .. }
            | Statement::MakeSource { variable, .. }
            | Statement::MakeTimer { variable, .. }
            | Statement::MakeObserver { variable, .. }
            | Statement::New { variable, .. }
            | Statement::StrSub { variable, .. }
            | Statement::ArrTake { variable, .. }
            | Statement::DictTake { variable, .. }
            | Statement::SetTake { variable, .. }
            | Statement::HeapTake { variable, .. }
            | Statement::FieldTake { variable, .. } => Ownership::Binds(*variable),
            _ => Ownership::Keeps,
        }
    }

    /// The variables that the statement uses, in the order of its words, then nothing. Those of the forms that come most
    /// often are found without a list of its words.
    #[inline(always)]
    pub fn uses(&self) -> [Option<VarId>; 3]
        ensures { result ≡ pad (used_by self.now) }
    {
        match self {
            Statement::Retain { variable }
            | Statement::Release { variable }
            | Statement::ArrRemove { variable, .. } => [Some(*variable), None, None],
            Statement::ArrAppend { variable, element }
            | Statement::ArrInsert {
                variable,
                element,
                ..
            }
            | Statement::ArrSet {
                variable,
                element,
                ..
            }
            | Statement::SetAdd { variable, element }
            | Statement::SetRemove { variable, element }
            | Statement::HeapAdd { variable, element } => {
                [Some(*variable), Some(*element), None]
            }
            Statement::DictAdd {
                variable,
                key,
                value,
            }
            | Statement::DictSet {
                variable,
                key,
                value,
            } => [Some(*variable), Some(*key), Some(*value)],
            _ => self.used_words(),
        }
    }

    /// The same by its words.
    fn used_words(&self) -> [Option<VarId>; 3]
        ensures { result ≡ pad (used_by self.now) }
    {
        let [first, second, third] = self.mentions();
        packed([used(&first), used(&second), used(&third)])
    }

    /// Whether the statement is of a form that makes an object, or may make one.
    pub fn makes_object(&self) -> bool
        ensures { result ≡ makes_object self.now }
    {
        matches!(
            self,
            Statement::MakeString { .. }
                | Statement::MakeMstring { .. }
                | Statement::MakeData { .. }
                | Statement::MakeMdata { .. }
                | Statement::MakeNumber { .. }
                | Statement::MakeArray { .. }
                | Statement::MakeDict { .. }
                | Statement::MakeSet { .. }
                | Statement::MakeBag { .. }
                | Statement::MakeHeap { .. }
                | Statement::MakeSource { .. }
                | Statement::MakeTimer { .. }
                | Statement::MakeObserver { .. }
                | Statement::New { .. }
                | Statement::StrSub { .. }
        )
    }

    /// The thread that the statement names by its name.
    fn thread(&self) -> Option<ThreadId>
        ensures { result ≡ thread_in self.now }
    {
        match self {
            Statement::Add { thread, .. }
            | Statement::Drop { thread, .. }
            | Statement::Common { thread, .. }
            | Statement::Wake { thread }
            | Statement::Stop { thread } => thread.by_name(),
            _ => None,
        }
    }

    /// The mode that the statement names.
    fn mode(&self) -> Option<ModeId>
        ensures { result ≡ mode_in self.now }
    {
        match self {
            Statement::Add { mode, .. } | Statement::Drop { mode, .. } => mode.by_name(),
            Statement::Common { mode, .. } | Statement::Run { mode, .. } => Some(*mode),
            _ => None,
        }
    }

    /// Whether the thread that the statement names has a number below this, where it names one.
    pub(crate) fn names_thread(&self, threads: usize) -> bool
        ensures { (result ≡ true) ↔ NamesThread threads self.now }
    {
        match self.thread() {
            Some(thread) => usize::from(thread.0) < threads,
            None => true,
        }
    }

    /// Whether the mode that the statement names has a number below this, where it names one.
    pub(crate) fn names_mode(&self, modes: usize) -> bool
        ensures { (result ≡ true) ↔ NamesMode modes self.now }
    {
        match self.mode() {
            Some(mode) => usize::from(mode.0) < modes,
            None => true,
        }
    }
}
