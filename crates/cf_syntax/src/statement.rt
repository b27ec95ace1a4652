//! The statements of a script.
use crate::literal::{DataLiteral, TextLiteral};
use crate::mention::{ModeWord, ThreadWord};
use cf_ids::{HandlerId, ModeId, NameId, TypeId, VarId};
use cf_number::{Num, NumKind};

/// A statement: one variant for each form of the language. `variable` is the form's first
/// variable. A form with an INFO that is `nil`, or with `any`, has none there.
#[derive(Drop)]
pub enum Statement {
    /// `make V string TEXT`: a new immutable string, which V owns.
    MakeString {
        variable: VarId,
        text: TextLiteral,
    },
    /// `make V mstring TEXT`: a new mutable string.
    MakeMstring {
        variable: VarId,
        text: TextLiteral,
    },
    /// `make V data HEX`: new immutable data.
    MakeData {
        variable: VarId,
        bytes: DataLiteral,
    },
    /// `make V mdata HEX`: new mutable data.
    MakeMdata {
        variable: VarId,
        bytes: DataLiteral,
    },
    /// `make V number KIND INT`: a new number.
    MakeNumber {
        variable: VarId,
        number: Num,
    },
    /// `new V CLASS INT`: a new instance of a class, all of whose fields are empty. `class` is none
    /// where the script has no class of that name.
    New {
        variable: VarId,
        class: Option<TypeId>,
        key: i64,
    },
    /// `make V array` and `make V array plain`: a new array without elements. A plain one retains nothing.
    MakeArray {
        variable: VarId,
        plain: bool,
    },
    /// `make V dict` and `make V dict plain`: a new dictionary without pairs.
    MakeDict {
        variable: VarId,
        plain: bool,
    },
    /// `make V set` and `make V set plain`: a new set without members.
    MakeSet {
        variable: VarId,
        plain: bool,
    },
    /// `make V bag` and `make V bag plain`: a new bag without members.
    MakeBag {
        variable: VarId,
        plain: bool,
    },
    /// `make V heap` and `make V heap plain`: a new heap without elements.
    MakeHeap {
        variable: VarId,
        plain: bool,
    },
    /// `make V source INT HANDLER INFO`: a new source of run loops. `order` is its place among the sources of a mode.
    MakeSource {
        variable: VarId,
        order: i64,
        handler: HandlerId,
        info: Option<VarId>,
    },
    /// `make V timer UNUM UNUM HANDLER INFO`: a new timer with its first date and its interval, both in ticks. An
    /// interval of 0 stands for a timer that fires once.
    MakeTimer {
        variable: VarId,
        first: u64,
        interval: u64,
        handler: HandlerId,
        info: Option<VarId>,
    },
    /// `make V observer MASK once|repeats INT HANDLER INFO`: a new observer of the activities in the mask, whose bits
    /// are 1, 2, 4, 32, 64 and 128.
    MakeObserver {
        variable: VarId,
        mask: u8,
        repeats: bool,
        order: i64,
        handler: HandlerId,
        info: Option<VarId>,
    },
    /// `retain V`: one more reference.
    Retain {
        variable: VarId,
    },
    /// `release V`: one reference less.
    Release {
        variable: VarId,
    },
    /// `show V`: the description of the object.
    Show {
        variable: VarId,
    },
    /// `str.append M S`: puts the text of S after that of M.
    StrAppend {
        variable: VarId,
        other: VarId,
    },
    /// `str.insert M INDEX TEXT`: puts a text in before the unit at a place.
    StrInsert {
        variable: VarId,
        at: u32,
        text: TextLiteral,
    },
    /// `str.delete M INDEX INDEX`: takes out the units from a place on, so many.
    StrDelete {
        variable: VarId,
        at: u32,
        len: u32,
    },
    /// `str.replace M INDEX INDEX TEXT`: puts a text in place of the units from a place on, so many.
    StrReplace {
        variable: VarId,
        at: u32,
        len: u32,
        text: TextLiteral,
    },
    /// `str.sub V S INDEX INDEX`: a new immutable string of the units of S from a place on, so many.
    StrSub {
        variable: VarId,
        text: VarId,
        at: u32,
        len: u32,
    },
    /// `data.append M HEX`: puts bytes after those of M.
    DataAppend {
        variable: VarId,
        bytes: DataLiteral,
    },
    /// `data.replace M INDEX INDEX HEX`: puts bytes in place of those from a place on, so many.
    DataReplace {
        variable: VarId,
        at: u32,
        len: u32,
        bytes: DataLiteral,
    },
    /// `data.delete M INDEX INDEX`: takes out the bytes from a place on, so many.
    DataDelete {
        variable: VarId,
        at: u32,
        len: u32,
    },
    /// `num.as N KIND`: the value of N, where the kind holds it.
    NumAs {
        variable: VarId,
        kind: NumKind,
    },
    /// `arr.append A X`: puts X after the last element of A.
    ArrAppend {
        variable: VarId,
        element: VarId,
    },
    /// `arr.insert A INDEX X`: puts X in before the element at a place.
    ArrInsert {
        variable: VarId,
        at: u32,
        element: VarId,
    },
    /// `arr.set A INDEX X`: puts X in place of the element at a place, or after the last one.
    ArrSet {
        variable: VarId,
        at: u32,
        element: VarId,
    },
    /// `arr.remove A INDEX`: takes out the element at a place.
    ArrRemove {
        variable: VarId,
        at: u32,
    },
    /// `arr.take V A INDEX`: binds V to the element of A at a place, where there is one.
    ArrTake {
        variable: VarId,
        array: VarId,
        at: u32,
    },
    /// `dict.add D K X`: adds a pair of the key K and the value X, where no equal key is there.
    DictAdd {
        variable: VarId,
        key: VarId,
        value: VarId,
    },
    /// `dict.set D K X`: lets X be the value of the key equal to K, or adds the pair.
    DictSet {
        variable: VarId,
        key: VarId,
        value: VarId,
    },
    /// `dict.replace D K X`: lets X be the value of the key equal to K, where there is one.
    DictReplace {
        variable: VarId,
        key: VarId,
        value: VarId,
    },
    /// `dict.remove D K`: takes out the pair whose key is equal to K.
    DictRemove {
        variable: VarId,
        key: VarId,
    },
    /// `dict.take V D K`: binds V to the value of the key equal to K, where there is one.
    DictTake {
        variable: VarId,
        dictionary: VarId,
        key: VarId,
    },
    /// `field.set O INDEX X`: lets a field of the instance O be X.
    FieldSet {
        variable: VarId,
        at: u32,
        element: VarId,
    },
    /// `field.clear O INDEX`: empties a field.
    FieldClear {
        variable: VarId,
        at: u32,
    },
    /// `field.take V O INDEX`: binds V to the object in a field of O, where there is one.
    FieldTake {
        variable: VarId,
        instance: VarId,
        at: u32,
    },
    /// `set.add S X`: adds X to the set or bag S.
    SetAdd {
        variable: VarId,
        element: VarId,
    },
    /// `set.set S X`: puts X in place of the member equal to it, or adds it.
    SetSet {
        variable: VarId,
        element: VarId,
    },
    /// `set.replace S X`: puts X in place of the member equal to it, where there is one.
    SetReplace {
        variable: VarId,
        element: VarId,
    },
    /// `set.remove S X`: takes out the member equal to X; of a bag, one of its occurrences.
    SetRemove {
        variable: VarId,
        element: VarId,
    },
    /// `set.count S X`: how often members equal to X occur.
    SetCount {
        variable: VarId,
        element: VarId,
    },
    /// `set.take V S X`: binds V to the member of S that is equal to X, where there is one.
    SetTake {
        variable: VarId,
        set: VarId,
        element: VarId,
    },
    /// `heap.add H X`: adds X to the heap H.
    HeapAdd {
        variable: VarId,
        element: VarId,
    },
    /// `heap.take V H`: binds V to the least element of H, where there is one.
    HeapTake {
        variable: VarId,
        heap: VarId,
    },
    /// `heap.remove H`: takes out the least element.
    HeapRemove {
        variable: VarId,
    },
    /// `add I THREAD MODE`: puts an item into a mode of a thread's run loop, or into its common items.
    Add {
        item: VarId,
        thread: ThreadWord,
        mode: ModeWord,
    },
    /// `drop I THREAD MODE`: takes an item out of a mode of a thread's run loop, or out of its common items.
    Drop {
        item: VarId,
        thread: ThreadWord,
        mode: ModeWord,
    },
    /// `common THREAD MODE`: makes a mode of a thread's run loop a common one.
    Common {
        thread: ThreadWord,
        mode: ModeId,
    },
    /// `signal S`: signals a source.
    Signal {
        source: VarId,
    },
    /// `invalidate I`: makes an item invalid, which takes it out of every mode.
    Invalidate {
        item: VarId,
    },
    /// `wake THREAD`: wakes a thread's run loop.
    Wake {
        thread: ThreadWord,
    },
    /// `stop THREAD`: stops the innermost run of a thread's run loop.
    Stop {
        thread: ThreadWord,
    },
    /// `run MODE UNUM`, `run MODE forever`, each also with a last word `once`: runs the loop of the thread in a mode,
    /// for so many ticks at most, or without a limit where there is none.
    Run {
        mode: ModeId,
        limit: Option<u64>,
        once: bool,
    },
    /// `observe V HANDLER NAME|any X|any`: registers V for the notices of a name, or of any, that are posted with the
    /// object of X, or with any or none.
    Observe {
        observer: VarId,
        handler: HandlerId,
        name: Option<NameId>,
        filter: Option<VarId>,
    },
    /// `forget V NAME|any X|any`: takes out registrations of V.
    Forget {
        observer: VarId,
        name: Option<NameId>,
        filter: Option<VarId>,
    },
    /// `post NAME INFO`: posts a notice.
    Post {
        name: NameId,
        info: Option<VarId>,
    },
}
