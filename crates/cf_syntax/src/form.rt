//! The forms of statements, and what the words of a line have to be.

/// A form of statement. The first word of a line finds it, and after `make` the third word too.
#[derive(Clone, Copy)]
pub enum StatementForm {
    /// `make V string TEXT`
    MakeString,
    /// `make V mstring TEXT`
    MakeMstring,
    /// `make V data HEX`
    MakeData,
    /// `make V mdata HEX`
    MakeMdata,
    /// `make V number KIND INT`
    MakeNumber,
    /// `make V array`, also with a last word `plain`
    MakeArray,
    /// `make V dict`, also with a last word `plain`
    MakeDict,
    /// `make V set`, also with a last word `plain`
    MakeSet,
    /// `make V bag`, also with a last word `plain`
    MakeBag,
    /// `make V heap`, also with a last word `plain`
    MakeHeap,
    /// `make V source INT HANDLER INFO`
    MakeSource,
    /// `make V timer UNUM UNUM HANDLER INFO`
    MakeTimer,
    /// `make V observer MASK once|repeats INT HANDLER INFO`
    MakeObserver,
    /// `new V CLASS INT`
    New,
    /// `retain V`
    Retain,
    /// `release V`
    Release,
    /// `show V`
    Show,
    /// `str.append M S`
    StrAppend,
    /// `str.insert M INDEX TEXT`
    StrInsert,
    /// `str.delete M INDEX INDEX`
    StrDelete,
    /// `str.replace M INDEX INDEX TEXT`
    StrReplace,
    /// `str.sub V S INDEX INDEX`
    StrSub,
    /// `data.append M HEX`
    DataAppend,
    /// `data.replace M INDEX INDEX HEX`
    DataReplace,
    /// `data.delete M INDEX INDEX`
    DataDelete,
    /// `num.as N KIND`
    NumAs,
    /// `arr.append A X`
    ArrAppend,
    /// `arr.insert A INDEX X`
    ArrInsert,
    /// `arr.set A INDEX X`
    ArrSet,
    /// `arr.remove A INDEX`
    ArrRemove,
    /// `arr.take V A INDEX`
    ArrTake,
    /// `dict.add D K X`
    DictAdd,
    /// `dict.set D K X`
    DictSet,
    /// `dict.replace D K X`
    DictReplace,
    /// `dict.remove D K`
    DictRemove,
    /// `dict.take V D K`
    DictTake,
    /// `set.add S X`
    SetAdd,
    /// `set.set S X`
    SetSet,
    /// `set.replace S X`
    SetReplace,
    /// `set.remove S X`
    SetRemove,
    /// `set.count S X`
    SetCount,
    /// `set.take V S X`
    SetTake,
    /// `heap.add H X`
    HeapAdd,
    /// `heap.take V H`
    HeapTake,
    /// `heap.remove H`
    HeapRemove,
    /// `field.set O INDEX X`
    FieldSet,
    /// `field.clear O INDEX`
    FieldClear,
    /// `field.take V O INDEX`
    FieldTake,
    /// `add I THREAD MODE`
    Add,
    /// `drop I THREAD MODE`
    Drop,
    /// `common THREAD MODE`
    Common,
    /// `signal S`
    Signal,
    /// `invalidate I`
    Invalidate,
    /// `wake THREAD`
    Wake,
    /// `stop THREAD`
    Stop,
    /// `run MODE 0`, also with a last word `once`; later also with a UNUM or `forever` in place of 0
    Run,
    /// `observe V HANDLER NAME|any X|any`
    Observe,
    /// `forget V NAME|any X|any`
    Forget,
    /// `post NAME INFO`
    Post,
}

/// What a word of a line after the first has to be.
#[derive(Clone, Copy)]
pub enum Operand {
    /// The kind after `make V`, which found the form.
    Found,
    /// A variable that the form binds: a NAME.
    Bound,
    /// A variable that the form uses: a NAME, or in a handler `info`.
    Used,
    /// The name of a class: a NAME.
    Class,
    /// The name of a handler: a NAME.
    Handler,
    /// A THREAD: `self`, `setup` or a NAME.
    Thread,
    /// The name of a mode: a NAME.
    Mode,
    /// The name of a mode, or `common`.
    ModeOrCommon,
    /// The name of a notice: a NAME.
    Notice,
    /// The name of a notice, or `any`.
    NoticeOrAny,
    /// `nil`, or a variable that the form uses.
    Info,
    /// `any`, or a variable that the form uses.
    Filter,
    /// A TEXT.
    Text,
    /// A HEX: `-`, or an even number of hexadecimal digits.
    Hex,
    /// An INT: decimal digits, with `-` before them where it is negative; its value is an `i64`.
    Int,
    /// An INT that fits the KIND before it.
    Fitting,
    /// A UNUM: decimal digits whose value is below 2^64.
    Unum,
    /// A UNUM that is 0; later any UNUM, or `forever`.
    Limit,
    /// An INDEX: decimal digits whose value is below 2^32.
    Index,
    /// A number of fields: an INDEX that is at most 255.
    FieldCount,
    /// A MASK: a UNUM of the bits 1, 2, 4, 32, 64 and 128, at least one of them.
    Mask,
    /// A KIND: `s8`, `s16`, `s32` or `s64`.
    Kind,
    /// The word `plain`.
    Plain,
    /// The word `once`.
    Once,
    /// `once` or `repeats`.
    Repeats,
    /// The word `fields`.
    Fields,
    /// The word `equal`.
    Equal,
    /// `identity` or `key`.
    Equality,
    /// The word `uses`.
    Uses,
}

/// What a word that is a name is the name of, among the names that are numbered in the order of first use.
#[derive(Clone, Copy)]
pub enum NameTable {
    /// A variable of the block.
    Variables,
    /// A handler.
    Handlers,
    /// A mode.
    Modes,
    /// A notice.
    Notices,
}

/// Which block a line begins.
#[derive(Clone, Copy)]
pub enum BlockKind {
    /// The block `setup`.
    Setup,
    /// The block of a thread.
    Thread,
    /// The block of a handler.
    Handler,
}
