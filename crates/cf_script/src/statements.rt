//! The statement that the words of a line are.
ghost use Rattle.std.specs.Prelude.{◌≡◌, ◌+◌, IfOk, length, None, Some, if◌then◌else◌};
ghost use Rattle.std.specs.Str.{bytes_eq};
ghost use Rattle.cf_syntax.specs.Words.{text_of};
ghost use Rattle.cf_syntax.specs.FormStatements.{last_word, bytes_at, literal_of, has_last, var, notice_at, mode_at, thread_of, kind_at, integer_at, number_by, statement_by};
ghost use Rattle.cf_script.specs.Gives.{GivesAs};
ghost use Rattle.cf_script.specs.Views.{lent};
ghost use Rattle.cf_script.specs.TableViews.{form_word_of};
ghost use Rattle.cf_script.specs.BlockViews.{statement_in};
ghost use Rattle.cf_script.specs.NamesViews.{line_numbers_of};

use crate::classes::Classes;
use crate::fault::LineFault;
use crate::names::{LineNumbers, Names, number_words};
use crate::numbers::{bytes_of, index_at, integer_at, kind_at, mask_at, number_at, unum_of};
use crate::operands::are_of;
use crate::table::FormWord;
use crate::threads::Threads;
use crate::words::{is, text_of, word_at};
use cf_data::Bytes;
use cf_ids::{NameId, ThreadId, VarId};
use cf_number::Num;
use cf_string::{Str, StrFault};
use cf_syntax::{DataLiteral, ModeWord, Reason, Statement, StatementForm, TextLiteral, ThreadWord};
use std::alloc::{AllocError, Global};

/// The last word, or no bytes where there is none.
fn last_word<'a>(words: &[&'a [u8]]) -> &'a [u8]
    ensures { result.now ≡ last_word (lent words.now) }
{
    match words {
        [] => &[],
        [.., word] => word,
    }
}

/// The literal of the TEXT that is the last word.
fn text_literal(alloc: Global, words: &[&[u8]]) -> Result<TextLiteral, LineFault>
    ensures { GivesAs (λ t. t) result (literal_of (text_of (last_word (lent words.now)))) }
{
    let bytes = text_of(alloc, last_word(words))?;
    match Str::from_utf8(alloc, bytes.as_slice()) {
        Ok(text) => Ok(TextLiteral::new(text)),
        Err(StrFault::NoMemory) => Err(LineFault::NoRoom),
        Err(_) => Err(LineFault::Faulty(Reason::NotUtf8)),
    }
}

/// The literal of the HEX at a place.
fn data_literal(alloc: Global, words: &[&[u8]], i: usize) -> Result<DataLiteral, AllocError>
    ensures { IfOk result (λ d. d ≡ bytes_at (lent words.now) i) }
{
    let decoded = bytes_of(alloc, word_at(words, i))?;
    let mut bytes = Bytes::new(alloc);
    bytes.reserve(decoded.len())?;
    bytes.append(decoded.as_slice());
    Ok(DataLiteral::new(bytes))
}

/// A variable of a line, or 0 if it has none there.
fn variable_at(numbers: &LineNumbers, k: usize) -> VarId
    ensures { result ≡ var (line_numbers_of numbers.now) k }
{
    let variables = numbers.variables.as_slice();
    if k < variables.len() {
        variables[k]
    } else {
        VarId(0)
    }
}

/// A variable of a line, or none if the word at a place is a fixed one.
fn unless_fixed(numbers: &LineNumbers, k: usize, word: &[u8], fixed: &[u8]) -> Option<VarId>
    ensures { result ≡ (if bytes_eq word.now fixed.now then None else Some (var (line_numbers_of numbers.now) k)) }
{
    if is(word, fixed) {
        None
    } else {
        Some(variable_at(numbers, k))
    }
}

/// The notice of a line, or none if the word is `any`.
fn notice_at(numbers: &LineNumbers, words: &[&[u8]], i: usize) -> Option<NameId>
    ensures { result ≡ notice_at (line_numbers_of numbers.now) (lent words.now) i }
{
    if is(word_at(words, i), b"any") {
        None
    } else {
        Some(numbers.notice)
    }
}

/// The mode of a line, or the common items.
fn mode_at(numbers: &LineNumbers, words: &[&[u8]], i: usize) -> ModeWord
    ensures { result ≡ mode_at (line_numbers_of numbers.now) (lent words.now) i }
{
    if is(word_at(words, i), b"common") {
        ModeWord::Common
    } else {
        ModeWord::Mode(numbers.mode)
    }
}

/// The thread that a word names.
fn thread_of(threads: &Threads, word: &[u8]) -> ThreadWord
    ensures { result ≡ thread_of threads.now word.now }
{
    if is(word, b"self") {
        ThreadWord::Own
    } else if is(word, b"setup") {
        ThreadWord::Named(Some(ThreadId::SETUP))
    } else {
        ThreadWord::Named(threads.named(word))
    }
}

/// Whether there is a fourth word.
fn has_last(words: &[&[u8]]) -> bool
    ensures { result ≡ has_last (lent words.now) }
{
    3 < words.len()
}

/// The statement that makes a number of the kind and the value that words say.
fn number_by(variable: VarId, words: &[&[u8]]) -> Result<Statement, Reason>
    ensures { result ≡ number_by variable (kind_at (lent words.now) 3) (integer_at (lent words.now) 4) }
{
    match Num::make(kind_at(words, 3), integer_at(words, 4)) {
        Ok(number) => Ok(Statement::MakeNumber { variable, number }),
        Err(_) => Err(Reason::Number),
    }
}

/// The statement of a form, by the numbers of its names and its words.
fn statement_by(
    alloc: Global,
    classes: &Classes,
    threads: &Threads,
    form: StatementForm,
    numbers: &LineNumbers,
    words: &[&[u8]],
) -> Result<Statement, LineFault>
    ensures { GivesAs (λ s. s) result
        (statement_by classes.now threads.now form (line_numbers_of numbers.now) (lent words.now)) }
{
    let variable = variable_at(numbers, 0);
    let second = variable_at(numbers, 1);
    let third = variable_at(numbers, 2);
    match form {
        StatementForm::MakeString => Ok(Statement::MakeString {
            variable,
            text: text_literal(alloc, words)?,
        }),
        StatementForm::MakeMstring => Ok(Statement::MakeMstring {
            variable,
            text: text_literal(alloc, words)?,
        }),
        StatementForm::StrInsert => Ok(Statement::StrInsert {
            variable,
            at: index_at(words, 2),
            text: text_literal(alloc, words)?,
        }),
        StatementForm::StrReplace => Ok(Statement::StrReplace {
            variable,
            at: index_at(words, 2),
            len: index_at(words, 3),
            text: text_literal(alloc, words)?,
        }),
        StatementForm::MakeData => Ok(Statement::MakeData {
            variable,
            bytes: data_literal(alloc, words, 3)?,
        }),
        StatementForm::MakeMdata => Ok(Statement::MakeMdata {
            variable,
            bytes: data_literal(alloc, words, 3)?,
        }),
        StatementForm::DataAppend => Ok(Statement::DataAppend {
            variable,
            bytes: data_literal(alloc, words, 2)?,
        }),
        StatementForm::DataReplace => Ok(Statement::DataReplace {
            variable,
            at: index_at(words, 2),
            len: index_at(words, 3),
            bytes: data_literal(alloc, words, 4)?,
        }),
        StatementForm::MakeNumber => Ok(number_by(variable, words)?),
        StatementForm::MakeArray => Ok(Statement::MakeArray {
            variable,
            plain: has_last(words),
        }),
        StatementForm::MakeDict => Ok(Statement::MakeDict {
            variable,
            plain: has_last(words),
        }),
        StatementForm::MakeSet => Ok(Statement::MakeSet {
            variable,
            plain: has_last(words),
        }),
        StatementForm::MakeBag => Ok(Statement::MakeBag {
            variable,
            plain: has_last(words),
        }),
        StatementForm::MakeHeap => Ok(Statement::MakeHeap {
            variable,
            plain: has_last(words),
        }),
        StatementForm::New => Ok(Statement::New {
            variable,
            class: classes.named(word_at(words, 2)),
            key: integer_at(words, 3),
        }),
        StatementForm::NumAs => Ok(Statement::NumAs {
            variable,
            kind: kind_at(words, 2),
        }),
        StatementForm::Retain => Ok(Statement::Retain { variable }),
        StatementForm::Release => Ok(Statement::Release { variable }),
        StatementForm::Show => Ok(Statement::Show { variable }),
        StatementForm::StrAppend => Ok(Statement::StrAppend {
            variable,
            other: second,
        }),
        StatementForm::StrDelete => Ok(Statement::StrDelete {
            variable,
            at: index_at(words, 2),
            len: index_at(words, 3),
        }),
        StatementForm::StrSub => Ok(Statement::StrSub {
            variable,
            text: second,
            at: index_at(words, 3),
            len: index_at(words, 4),
        }),
        StatementForm::DataDelete => Ok(Statement::DataDelete {
            variable,
            at: index_at(words, 2),
            len: index_at(words, 3),
        }),
        StatementForm::ArrAppend => Ok(Statement::ArrAppend {
            variable,
            element: second,
        }),
        StatementForm::ArrInsert => Ok(Statement::ArrInsert {
            variable,
            at: index_at(words, 2),
            element: second,
        }),
        StatementForm::ArrSet => Ok(Statement::ArrSet {
            variable,
            at: index_at(words, 2),
            element: second,
        }),
        StatementForm::ArrRemove => Ok(Statement::ArrRemove {
            variable,
            at: index_at(words, 2),
        }),
        StatementForm::ArrTake => Ok(Statement::ArrTake {
            variable,
            array: second,
            at: index_at(words, 3),
        }),
        StatementForm::DictAdd => Ok(Statement::DictAdd {
            variable,
            key: second,
            value: third,
        }),
        StatementForm::DictSet => Ok(Statement::DictSet {
            variable,
            key: second,
            value: third,
        }),
        StatementForm::DictReplace => Ok(Statement::DictReplace {
            variable,
            key: second,
            value: third,
        }),
        StatementForm::DictRemove => Ok(Statement::DictRemove {
            variable,
            key: second,
        }),
        StatementForm::DictTake => Ok(Statement::DictTake {
            variable,
            dictionary: second,
            key: third,
        }),
        StatementForm::SetAdd => Ok(Statement::SetAdd {
            variable,
            element: second,
        }),
        StatementForm::SetSet => Ok(Statement::SetSet {
            variable,
            element: second,
        }),
        StatementForm::SetReplace => Ok(Statement::SetReplace {
            variable,
            element: second,
        }),
        StatementForm::SetRemove => Ok(Statement::SetRemove {
            variable,
            element: second,
        }),
        StatementForm::SetCount => Ok(Statement::SetCount {
            variable,
            element: second,
        }),
        StatementForm::SetTake => Ok(Statement::SetTake {
            variable,
            set: second,
            element: third,
        }),
        StatementForm::HeapAdd => Ok(Statement::HeapAdd {
            variable,
            element: second,
        }),
        StatementForm::HeapTake => Ok(Statement::HeapTake {
            variable,
            heap: second,
        }),
        StatementForm::HeapRemove => Ok(Statement::HeapRemove { variable }),
        StatementForm::FieldSet => Ok(Statement::FieldSet {
            variable,
            at: index_at(words, 2),
            element: second,
        }),
        StatementForm::FieldClear => Ok(Statement::FieldClear {
            variable,
            at: index_at(words, 2),
        }),
        StatementForm::FieldTake => Ok(Statement::FieldTake {
            variable,
            instance: second,
            at: index_at(words, 3),
        }),
        StatementForm::MakeSource => Ok(Statement::MakeSource {
            variable,
            order: integer_at(words, 3),
            handler: numbers.handler,
            info: unless_fixed(numbers, 1, word_at(words, 5), b"nil"),
        }),
        StatementForm::MakeTimer => Ok(Statement::MakeTimer {
            variable,
            first: number_at(words, 3),
            interval: number_at(words, 4),
            handler: numbers.handler,
            info: unless_fixed(numbers, 1, word_at(words, 6), b"nil"),
        }),
        StatementForm::MakeObserver => Ok(Statement::MakeObserver {
            variable,
            mask: mask_at(words, 3),
            repeats: is(word_at(words, 4), b"repeats"),
            order: integer_at(words, 5),
            handler: numbers.handler,
            info: unless_fixed(numbers, 1, word_at(words, 7), b"nil"),
        }),
        StatementForm::Add => Ok(Statement::Add {
            item: variable,
            thread: thread_of(threads, word_at(words, 2)),
            mode: mode_at(numbers, words, 3),
        }),
        StatementForm::Drop => Ok(Statement::Drop {
            item: variable,
            thread: thread_of(threads, word_at(words, 2)),
            mode: mode_at(numbers, words, 3),
        }),
        StatementForm::Common => Ok(Statement::Common {
            thread: thread_of(threads, word_at(words, 1)),
            mode: numbers.mode,
        }),
        StatementForm::Signal => Ok(Statement::Signal { source: variable }),
        StatementForm::Invalidate => Ok(Statement::Invalidate { item: variable }),
        StatementForm::Wake => Ok(Statement::Wake {
            thread: thread_of(threads, word_at(words, 1)),
        }),
        StatementForm::Stop => Ok(Statement::Stop {
            thread: thread_of(threads, word_at(words, 1)),
        }),
        StatementForm::Run => Ok(Statement::Run {
            mode: numbers.mode,
            limit: unum_of(word_at(words, 2)),
            once: has_last(words),
        }),
        StatementForm::Observe => Ok(Statement::Observe {
            observer: variable,
            handler: numbers.handler,
            name: notice_at(numbers, words, 3),
            filter: unless_fixed(numbers, 1, word_at(words, 4), b"any"),
        }),
        StatementForm::Forget => Ok(Statement::Forget {
            observer: variable,
            name: notice_at(numbers, words, 2),
            filter: unless_fixed(numbers, 1, word_at(words, 3), b"any"),
        }),
        StatementForm::Post => Ok(Statement::Post {
            name: numbers.notice,
            info: unless_fixed(numbers, 0, word_at(words, 2), b"nil"),
        }),
    }
}

/// The statement of a form whose words a line has.
#[inline(never)]
pub(crate) fn read_statement(
    alloc: Global,
    classes: &Classes,
    threads: &Threads,
    in_handler: bool,
    names: &mut Names,
    form_word: &FormWord,
    words: &[&[u8]],
) -> Result<Statement, LineFault>
    requires { length words.now ≡ 1 + length form_word.now.operands.now }
    ensures { GivesAs (λ s. record { names = names.new; value = s }) result
        (statement_in classes.now threads.now in_handler names.old (form_word_of form_word.now) (lent words.now)) }
{
    let (_, after) = words.split_at(1);
    are_of(in_handler, form_word.operands, after)?;
    let mut numbers = LineNumbers::new(alloc);
    number_words(alloc, names, &mut numbers, form_word.operands, after)?;
    statement_by(alloc, classes, threads, form_word.form, &numbers, words)
}
