//! What a thread does, one entry of a journal each.
ghost use Rattle.std.specs.Prelude.{◌≡◌};
ghost use Rattle.cf_next.specs.Actions.{action_of, cut_of};
ghost use Rattle.cf_next.specs.Standing.{is_retain, posts};

use cf_ids::{HandlerId, ModeId, ObjId, ThreadId};
use cf_syntax::Statement;

/// An action: one variant for each form of statement, and for each step that no statement writes.
/// That of a statement has the number of its block, its own number there, and the objects of the
/// variables that it uses, in the order of its words.
#[derive(Clone, Copy)]
pub enum Action {
    MakeString {
        block: u16,
        number: u32,
        used: [Option<ObjId>; 3],
    },
    MakeMstring {
        block: u16,
        number: u32,
        used: [Option<ObjId>; 3],
    },
    MakeData {
        block: u16,
        number: u32,
        used: [Option<ObjId>; 3],
    },
    MakeMdata {
        block: u16,
        number: u32,
        used: [Option<ObjId>; 3],
    },
    MakeNumber {
        block: u16,
        number: u32,
        used: [Option<ObjId>; 3],
    },
    New {
        block: u16,
        number: u32,
        used: [Option<ObjId>; 3],
    },
    MakeArray {
        block: u16,
        number: u32,
        used: [Option<ObjId>; 3],
    },
    MakeDict {
        block: u16,
        number: u32,
        used: [Option<ObjId>; 3],
    },
    MakeSet {
        block: u16,
        number: u32,
        used: [Option<ObjId>; 3],
    },
    MakeBag {
        block: u16,
        number: u32,
        used: [Option<ObjId>; 3],
    },
    MakeHeap {
        block: u16,
        number: u32,
        used: [Option<ObjId>; 3],
    },
    MakeSource {
        block: u16,
        number: u32,
        used: [Option<ObjId>; 3],
    },
    MakeTimer {
        block: u16,
        number: u32,
        used: [Option<ObjId>; 3],
    },
    MakeObserver {
        block: u16,
        number: u32,
        used: [Option<ObjId>; 3],
    },
    Retain {
        block: u16,
        number: u32,
        used: [Option<ObjId>; 3],
    },
    Release {
        block: u16,
        number: u32,
        used: [Option<ObjId>; 3],
    },
    Show {
        block: u16,
        number: u32,
        used: [Option<ObjId>; 3],
    },
    StrAppend {
        block: u16,
        number: u32,
        used: [Option<ObjId>; 3],
    },
    StrInsert {
        block: u16,
        number: u32,
        used: [Option<ObjId>; 3],
    },
    StrDelete {
        block: u16,
        number: u32,
        used: [Option<ObjId>; 3],
    },
    StrReplace {
        block: u16,
        number: u32,
        used: [Option<ObjId>; 3],
    },
    StrSub {
        block: u16,
        number: u32,
        used: [Option<ObjId>; 3],
    },
    DataAppend {
        block: u16,
        number: u32,
        used: [Option<ObjId>; 3],
    },
    DataReplace {
        block: u16,
        number: u32,
        used: [Option<ObjId>; 3],
    },
    DataDelete {
        block: u16,
        number: u32,
        used: [Option<ObjId>; 3],
    },
    NumAs {
        block: u16,
        number: u32,
        used: [Option<ObjId>; 3],
    },
    ArrAppend {
        block: u16,
        number: u32,
        used: [Option<ObjId>; 3],
    },
    ArrInsert {
        block: u16,
        number: u32,
        used: [Option<ObjId>; 3],
    },
    ArrSet {
        block: u16,
        number: u32,
        used: [Option<ObjId>; 3],
    },
    ArrRemove {
        block: u16,
        number: u32,
        used: [Option<ObjId>; 3],
    },
    ArrTake {
        block: u16,
        number: u32,
        used: [Option<ObjId>; 3],
    },
    DictAdd {
        block: u16,
        number: u32,
        used: [Option<ObjId>; 3],
    },
    DictSet {
        block: u16,
        number: u32,
        used: [Option<ObjId>; 3],
    },
    DictReplace {
        block: u16,
        number: u32,
        used: [Option<ObjId>; 3],
    },
    DictRemove {
        block: u16,
        number: u32,
        used: [Option<ObjId>; 3],
    },
    DictTake {
        block: u16,
        number: u32,
        used: [Option<ObjId>; 3],
    },
    SetAdd {
        block: u16,
        number: u32,
        used: [Option<ObjId>; 3],
    },
    SetSet {
        block: u16,
        number: u32,
        used: [Option<ObjId>; 3],
    },
    SetReplace {
        block: u16,
        number: u32,
        used: [Option<ObjId>; 3],
    },
    SetRemove {
        block: u16,
        number: u32,
        used: [Option<ObjId>; 3],
    },
    SetCount {
        block: u16,
        number: u32,
        used: [Option<ObjId>; 3],
    },
    SetTake {
        block: u16,
        number: u32,
        used: [Option<ObjId>; 3],
    },
    HeapAdd {
        block: u16,
        number: u32,
        used: [Option<ObjId>; 3],
    },
    HeapTake {
        block: u16,
        number: u32,
        used: [Option<ObjId>; 3],
    },
    HeapRemove {
        block: u16,
        number: u32,
        used: [Option<ObjId>; 3],
    },
    FieldSet {
        block: u16,
        number: u32,
        used: [Option<ObjId>; 3],
    },
    FieldClear {
        block: u16,
        number: u32,
        used: [Option<ObjId>; 3],
    },
    FieldTake {
        block: u16,
        number: u32,
        used: [Option<ObjId>; 3],
    },
    Add {
        block: u16,
        number: u32,
        used: [Option<ObjId>; 3],
    },
    Drop {
        block: u16,
        number: u32,
        used: [Option<ObjId>; 3],
    },
    Common {
        block: u16,
        number: u32,
        used: [Option<ObjId>; 3],
    },
    Signal {
        block: u16,
        number: u32,
        used: [Option<ObjId>; 3],
    },
    Invalidate {
        block: u16,
        number: u32,
        used: [Option<ObjId>; 3],
    },
    Wake {
        block: u16,
        number: u32,
        used: [Option<ObjId>; 3],
    },
    Stop {
        block: u16,
        number: u32,
        used: [Option<ObjId>; 3],
    },
    Run {
        block: u16,
        number: u32,
        used: [Option<ObjId>; 3],
    },
    Observe {
        block: u16,
        number: u32,
        used: [Option<ObjId>; 3],
    },
    Forget {
        block: u16,
        number: u32,
        used: [Option<ObjId>; 3],
    },
    Post {
        block: u16,
        number: u32,
        used: [Option<ObjId>; 3],
    },
    /// Setup's block is at its end: what a variable of it has goes into a thread's parcel.
    Pack(ThreadId, Option<ObjId>),
    /// A thread takes over what a place of its parcel has.
    Claim(Option<ObjId>),
    /// The thread's block is at its end.
    Done,
    /// The release of a reference that the thread was given out, written `release`.
    Owed(ObjId),
    /// A finalised body gives up the first slot that is left to it, at this place of those that it had, written
    /// `drop`.
    DropSlot {
        body: ObjId,
        place: u32,
        object: ObjId,
    },
    /// A run of a loop collects the observers of an activity (Entry 1, BeforeTimers 2, BeforeSources 4,
    /// BeforeWaiting 32, AfterWaiting 64 or Exit 128).
    Note(u8),
    /// A run collects the sources that are signalled.
    Sources,
    /// A run collects the timers that are due.
    Timers,
    /// A handler is called. A notice has no item, and its info is the observer.
    Call {
        handler: HandlerId,
        item: Option<ObjId>,
        info: Option<ObjId>,
    },
    /// A handler's block is at its end.
    Return,
    /// A timer without a next date, or an observer that is called once, is invalidated after its handler.
    Spend(ObjId),
    /// A run sleeps.
    Sleep,
    /// It is tested whether a run has a result.
    Test,
    /// A run of a mode ends.
    Ran(ModeId),
    /// The lead lets time move, to this time.
    Tick(u64),
    /// The lead finds that all sleep, and that none has a date.
    Stall,
}

// The action of a form, at its site.
macro_rules! at_site {
    ($form:ident, $block:expr, $number:expr, $used:expr) => {
        Action::$form {
            block: $block,
            number: $number,
            used: $used,
        }
    };
}

impl Action {
    /// The action of a statement: the block and the number at which it stands, and the objects of the
    /// variables that it uses.
    pub fn of(statement: &Statement, block: u16, number: u32, used: [Option<ObjId>; 3]) -> Action
        ensures { result ≡ action_of statement.now (record { block = block; number = number; used = used }) }
    {
        match statement {
            Statement::MakeString { .. } => at_site!(MakeString, block, number, used),
            Statement::MakeMstring { .. } => at_site!(MakeMstring, block, number, used),
            Statement::MakeData { .. } => at_site!(MakeData, block, number, used),
            Statement::MakeMdata { .. } => at_site!(MakeMdata, block, number, used),
            Statement::MakeNumber { .. } => at_site!(MakeNumber, block, number, used),
            Statement::New { .. } => at_site!(New, block, number, used),
            Statement::MakeArray { .. } => at_site!(MakeArray, block, number, used),
            Statement::MakeDict { .. } => at_site!(MakeDict, block, number, used),
            Statement::MakeSet { .. } => at_site!(MakeSet, block, number, used),
            Statement::MakeBag { .. } => at_site!(MakeBag, block, number, used),
            Statement::MakeHeap { .. } => at_site!(MakeHeap, block, number, used),
            Statement::MakeSource { .. } => at_site!(MakeSource, block, number, used),
            Statement::MakeTimer { .. } => at_site!(MakeTimer, block, number, used),
            Statement::MakeObserver { .. } => at_site!(MakeObserver, block, number, used),
            Statement::Retain { .. } => at_site!(Retain, block, number, used),
            Statement::Release { .. } => at_site!(Release, block, number, used),
            Statement::Show { .. } => at_site!(Show, block, number, used),
            Statement::StrAppend { .. } => at_site!(StrAppend, block, number, used),
            Statement::StrInsert { .. } => at_site!(StrInsert, block, number, used),
            Statement::StrDelete { .. } => at_site!(StrDelete, block, number, used),
            Statement::StrReplace { .. } => at_site!(StrReplace, block, number, used),
            Statement::StrSub { .. } => at_site!(StrSub, block, number, used),
            Statement::DataAppend { .. } => at_site!(DataAppend, block, number, used),
            Statement::DataReplace { .. } => at_site!(DataReplace, block, number, used),
            Statement::DataDelete { .. } => at_site!(DataDelete, block, number, used),
            Statement::NumAs { .. } => at_site!(NumAs, block, number, used),
            Statement::ArrAppend { .. } => at_site!(ArrAppend, block, number, used),
            Statement::ArrInsert { .. } => at_site!(ArrInsert, block, number, used),
            Statement::ArrSet { .. } => at_site!(ArrSet, block, number, used),
            Statement::ArrRemove { .. } => at_site!(ArrRemove, block, number, used),
            Statement::ArrTake { .. } => at_site!(ArrTake, block, number, used),
            Statement::DictAdd { .. } => at_site!(DictAdd, block, number, used),
            Statement::DictSet { .. } => at_site!(DictSet, block, number, used),
            Statement::DictReplace { .. } => at_site!(DictReplace, block, number, used),
            Statement::DictRemove { .. } => at_site!(DictRemove, block, number, used),
            Statement::DictTake { .. } => at_site!(DictTake, block, number, used),
            Statement::SetAdd { .. } => at_site!(SetAdd, block, number, used),
            Statement::SetSet { .. } => at_site!(SetSet, block, number, used),
            Statement::SetReplace { .. } => at_site!(SetReplace, block, number, used),
            Statement::SetRemove { .. } => at_site!(SetRemove, block, number, used),
            Statement::SetCount { .. } => at_site!(SetCount, block, number, used),
            Statement::SetTake { .. } => at_site!(SetTake, block, number, used),
            Statement::HeapAdd { .. } => at_site!(HeapAdd, block, number, used),
            Statement::HeapTake { .. } => at_site!(HeapTake, block, number, used),
            Statement::HeapRemove { .. } => at_site!(HeapRemove, block, number, used),
            Statement::FieldSet { .. } => at_site!(FieldSet, block, number, used),
            Statement::FieldClear { .. } => at_site!(FieldClear, block, number, used),
            Statement::FieldTake { .. } => at_site!(FieldTake, block, number, used),
            Statement::Add { .. } => at_site!(Add, block, number, used),
            Statement::Drop { .. } => at_site!(Drop, block, number, used),
            Statement::Common { .. } => at_site!(Common, block, number, used),
            Statement::Signal { .. } => at_site!(Signal, block, number, used),
            Statement::Invalidate { .. } => at_site!(Invalidate, block, number, used),
            Statement::Wake { .. } => at_site!(Wake, block, number, used),
            Statement::Stop { .. } => at_site!(Stop, block, number, used),
            Statement::Run { .. } => at_site!(Run, block, number, used),
            Statement::Observe { .. } => at_site!(Observe, block, number, used),
            Statement::Forget { .. } => at_site!(Forget, block, number, used),
            Statement::Post { .. } => at_site!(Post, block, number, used),
        }
    }

    /// The object to which the action takes a reference away: that of a release or a drop.
    #[inline(always)]
    pub fn cuts(&self) -> Option<ObjId>
        ensures { result ≡ cut_of self.now }
    {
        match self {
            Action::Release { used, .. } => used[0],
            Action::Owed(object) | Action::DropSlot { object, .. } => Some(*object),
            _ => None,
        }
    }

    /// Whether it is a retain.
    pub(crate) fn is_retain(&self) -> bool
        ensures { result ≡ is_retain self.now }
    {
        matches!(self, Action::Retain { .. })
    }

    /// Whether it is a `post`.
    pub(crate) fn is_post(&self) -> bool
        ensures { result ≡ posts self.now }
    {
        matches!(self, Action::Post { .. })
    }
}
