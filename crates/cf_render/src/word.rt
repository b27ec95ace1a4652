//! The words of a line, before they are written.
ghost use Rattle.std.specs.Prelude.{◌≡◌, [], ◌∷◌, IfOk};
ghost use Rattle.cf_syntax.specs.declared.script.Script.{Script};
ghost use Rattle.cf_contents.specs.Descriptions.{kind_word as word_of_kind};
ghost use Rattle.cf_render.specs.FormWords.{limit_word, notice_or_any, word_of_class, word_of_mode, word_of_thread};
ghost use Rattle.cf_render.specs.Rows.{texts};

use cf_ids::{HandlerId, ModeId, NameId, ObjId, ThreadId, TypeId};
use cf_number::NumKind;
use cf_syntax::{DataLiteral, ModeWord, TextLiteral, ThreadWord};

/// A name that the script has.
#[derive(Clone, Copy)]
pub(crate) enum Name {
    Thread(ThreadId),
    Handler(HandlerId),
    Mode(ModeId),
    Notice(NameId),
    Class(TypeId),
}

/// A word of a line.
#[derive(Clone, Copy)]
pub(crate) enum Word<'s> {
    /// No word at all.
    Nothing,
    /// These bytes.
    Plain(&'s [u8]),
    /// A name of the script; empty if the script has none of this number.
    Named(Name),
    /// The number of an object, or `nil`.
    Object(Option<ObjId>),
    /// A number in decimal digits.
    Number(u64),
    /// A number in decimal digits with its sign.
    Integer(i64),
    /// A text in quotes.
    Text(&'s TextLiteral),
    /// Bytes in hexadecimal digits.
    Bytes(&'s DataLiteral),
}

/// The most words of a statement.
pub(crate) const WORDS: usize = 7;

/// The words of a line's action, or of its answer.
pub(crate) type Row<'s> = [Word<'s>; WORDS];

/// A row of these words.
macro_rules! row {
    ($a:expr) => {
        row!($a, Word::Nothing)
    };
    ($a:expr, $b:expr) => {
        row!($a, $b, Word::Nothing)
    };
    ($a:expr, $b:expr, $c:expr) => {
        row!($a, $b, $c, Word::Nothing)
    };
    ($a:expr, $b:expr, $c:expr, $d:expr) => {
        row!($a, $b, $c, $d, Word::Nothing)
    };
    ($a:expr, $b:expr, $c:expr, $d:expr, $e:expr) => {
        row!($a, $b, $c, $d, $e, Word::Nothing)
    };
    ($a:expr, $b:expr, $c:expr, $d:expr, $e:expr, $f:expr) => {
        row!($a, $b, $c, $d, $e, $f, Word::Nothing)
    };
    ($a:expr, $b:expr, $c:expr, $d:expr, $e:expr, $f:expr, $g:expr) => {
        [$a, $b, $c, $d, $e, $f, $g]
    };
}

pub(crate) use row;

/// The word of a thread.
pub(crate) fn thread_word<'s>(thread: ThreadWord) -> Word<'s>
    ensures { (s : Script) → texts s result ≡ word_of_thread s thread ∷ [] }
{
    match thread {
        ThreadWord::Own => Word::Plain(b"self"),
        ThreadWord::Named(Some(t)) => Word::Named(Name::Thread(t)),
        ThreadWord::Named(None) => Word::Plain(b""),
    }
}

/// The word of a mode, or of the common ones.
pub(crate) fn mode_word<'s>(mode: ModeWord) -> Word<'s>
    ensures { (s : Script) → texts s result ≡ word_of_mode s mode ∷ [] }
{
    match mode {
        ModeWord::Common => Word::Plain(b"common"),
        ModeWord::Mode(m) => Word::Named(Name::Mode(m)),
    }
}

/// The name of a class, if the script has it.
pub(crate) fn class_word<'s>(class: Option<TypeId>) -> Word<'s>
    ensures { (s : Script) → texts s result ≡ word_of_class s class ∷ [] }
{
    match class {
        Some(class) => Word::Named(Name::Class(class)),
        None => Word::Plain(b""),
    }
}

/// The name of a notice, or `any`.
pub(crate) fn notice_word<'s>(name: Option<NameId>) -> Word<'s>
    ensures { (s : Script) → texts s result ≡ notice_or_any s name ∷ [] }
{
    match name {
        Some(name) => Word::Named(Name::Notice(name)),
        None => Word::Plain(b"any"),
    }
}

/// How long a run goes on at most.
pub(crate) fn limit_word<'s>(limit: Option<u64>) -> Word<'s>
    ensures { (s : Script) → texts s result ≡ limit_word limit ∷ [] }
{
    match limit {
        Some(limit) => Word::Number(limit),
        None => Word::Plain(b"forever"),
    }
}

/// The word of a kind of numbers.
pub(crate) fn kind_word<'s>(kind: NumKind) -> Word<'s>
    ensures { (s : Script) → texts s result ≡ word_of_kind kind ∷ [] }
{
    match kind {
        NumKind::S8 => Word::Plain(b"s8"),
        NumKind::S16 => Word::Plain(b"s16"),
        NumKind::S32 => Word::Plain(b"s32"),
        NumKind::S64 => Word::Plain(b"s64"),
    }
}
