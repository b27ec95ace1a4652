//! The statements of lines whose variables are known, and whose other words are INDEXes. Nearly all lines of a long
//! script are of these, since a line that binds a variable comes once for each.
ghost use Rattle.std.specs.Prelude.{◌≡◌, IfSome};
ghost use Rattle.cf_script.specs.Views.{lent};
ghost use Rattle.cf_script.specs.Shapes.{shape_of, by_one, by_two, by_three, by_at, by_put, by_span, Reads};

use crate::names::Names;
use crate::numbers::index_of;
use crate::words::word_at;
use cf_ids::VarId;
use cf_syntax::{Statement, StatementForm};

/// The statement of a form of one variable.
#[inline(always)]
fn of_one(form: StatementForm, variable: VarId) -> Option<Statement>
    ensures { result ≡ by_one (shape_of form) variable }
{
    match form {
        StatementForm::Retain => Some(Statement::Retain { variable }),
        StatementForm::Release => Some(Statement::Release { variable }),
        StatementForm::Show => Some(Statement::Show { variable }),
        StatementForm::HeapRemove => Some(Statement::HeapRemove { variable }),
        _ => None,
    }
}

/// The statement of a form of two variables.
#[inline(always)]
fn of_two(form: StatementForm, variable: VarId, other: VarId) -> Option<Statement>
    ensures { result ≡ by_two (shape_of form) variable other }
{
    let element = other;
    match form {
        StatementForm::StrAppend => Some(Statement::StrAppend { variable, other }),
        StatementForm::ArrAppend => Some(Statement::ArrAppend { variable, element }),
        StatementForm::DictRemove => Some(Statement::DictRemove {
            variable,
            key: other,
        }),
        StatementForm::SetAdd => Some(Statement::SetAdd { variable, element }),
        StatementForm::SetSet => Some(Statement::SetSet { variable, element }),
        StatementForm::SetReplace => Some(Statement::SetReplace { variable, element }),
        StatementForm::SetRemove => Some(Statement::SetRemove { variable, element }),
        StatementForm::SetCount => Some(Statement::SetCount { variable, element }),
        StatementForm::HeapAdd => Some(Statement::HeapAdd { variable, element }),
        _ => None,
    }
}

/// The statement of a form of three variables.
#[inline(always)]
fn of_three(form: StatementForm, variable: VarId, key: VarId, value: VarId) -> Option<Statement>
    ensures { result ≡ by_three (shape_of form) variable key value }
{
    match form {
        StatementForm::DictAdd => Some(Statement::DictAdd {
            variable,
            key,
            value,
        }),
        StatementForm::DictSet => Some(Statement::DictSet {
            variable,
            key,
            value,
        }),
        StatementForm::DictReplace => Some(Statement::DictReplace {
            variable,
            key,
            value,
        }),
        _ => None,
    }
}

/// The statement of a form of a variable and an INDEX.
#[inline(always)]
fn of_at(form: StatementForm, variable: VarId, at: u32) -> Option<Statement>
    ensures { result ≡ by_at (shape_of form) variable at }
{
    match form {
        StatementForm::ArrRemove => Some(Statement::ArrRemove { variable, at }),
        StatementForm::FieldClear => Some(Statement::FieldClear { variable, at }),
        _ => None,
    }
}

/// The statement of a form of a variable, an INDEX and another variable.
#[inline(always)]
fn of_put(form: StatementForm, variable: VarId, at: u32, element: VarId) -> Option<Statement>
    ensures { result ≡ by_put (shape_of form) variable at element }
{
    match form {
        StatementForm::ArrInsert => Some(Statement::ArrInsert {
            variable,
            at,
            element,
        }),
        StatementForm::ArrSet => Some(Statement::ArrSet {
            variable,
            at,
            element,
        }),
        StatementForm::FieldSet => Some(Statement::FieldSet {
            variable,
            at,
            element,
        }),
        _ => None,
    }
}

/// The statement of a form of a variable and two INDEXes.
#[inline(always)]
fn of_span(form: StatementForm, variable: VarId, at: u32, len: u32) -> Option<Statement>
    ensures { result ≡ by_span (shape_of form) variable at len }
{
    match form {
        StatementForm::StrDelete => Some(Statement::StrDelete { variable, at, len }),
        StatementForm::DataDelete => Some(Statement::DataDelete { variable, at, len }),
        _ => None,
    }
}

/// The statement of a line of one variable, if the form is of that shape and the words are known.
#[inline(always)]
fn known_one(
    names: &Names,
    in_handler: bool,
    form: StatementForm,
    words: &[&[u8]],
) -> Option<Statement>
    ensures { IfSome result (λ s. Reads in_handler names.now form (lent words.now) s) }
{
    let variable = names.known(in_handler, word_at(words, 1))?;
    of_one(form, variable)
}

/// The statement of a line of two variables, if the form is of that shape and the words are known.
#[inline(always)]
fn known_two(
    names: &Names,
    in_handler: bool,
    form: StatementForm,
    words: &[&[u8]],
) -> Option<Statement>
    ensures { IfSome result (λ s. Reads in_handler names.now form (lent words.now) s) }
{
    let variable = names.known(in_handler, word_at(words, 1))?;
    let other = names.known(in_handler, word_at(words, 2))?;
    of_two(form, variable, other)
}

/// The statement of a line of three variables, if the form is of that shape and the words are known.
#[inline(always)]
fn known_three(
    names: &Names,
    in_handler: bool,
    form: StatementForm,
    words: &[&[u8]],
) -> Option<Statement>
    ensures { IfSome result (λ s. Reads in_handler names.now form (lent words.now) s) }
{
    let variable = names.known(in_handler, word_at(words, 1))?;
    let key = names.known(in_handler, word_at(words, 2))?;
    let value = names.known(in_handler, word_at(words, 3))?;
    of_three(form, variable, key, value)
}

/// The statement of a line of a variable and an INDEX, if the form is of that shape and the words are known.
#[inline(always)]
fn known_at(
    names: &Names,
    in_handler: bool,
    form: StatementForm,
    words: &[&[u8]],
) -> Option<Statement>
    ensures { IfSome result (λ s. Reads in_handler names.now form (lent words.now) s) }
{
    let variable = names.known(in_handler, word_at(words, 1))?;
    let at = index_of(word_at(words, 2))?;
    of_at(form, variable, at)
}

/// The statement of a line of a variable, an INDEX and another variable, if the form is of that shape and the words are known.
#[inline(always)]
fn known_put(
    names: &Names,
    in_handler: bool,
    form: StatementForm,
    words: &[&[u8]],
) -> Option<Statement>
    ensures { IfSome result (λ s. Reads in_handler names.now form (lent words.now) s) }
{
    let variable = names.known(in_handler, word_at(words, 1))?;
    let at = index_of(word_at(words, 2))?;
    let element = names.known(in_handler, word_at(words, 3))?;
    of_put(form, variable, at, element)
}

/// The statement of a line of a variable and two INDEXes, if the form is of that shape and the words are known.
#[inline(always)]
fn known_span(
    names: &Names,
    in_handler: bool,
    form: StatementForm,
    words: &[&[u8]],
) -> Option<Statement>
    ensures { IfSome result (λ s. Reads in_handler names.now form (lent words.now) s) }
{
    let variable = names.known(in_handler, word_at(words, 1))?;
    let at = index_of(word_at(words, 2))?;
    let len = index_of(word_at(words, 3))?;
    of_span(form, variable, at, len)
}

/// The statement of a line of a form, if the form is one of these and its words are known.
#[inline(always)]
pub(crate) fn known_statement(
    names: &Names,
    in_handler: bool,
    form: StatementForm,
    words: &[&[u8]],
) -> Option<Statement>
    ensures { IfSome result (λ s. Reads in_handler names.now form (lent words.now) s) }
{
    match form {
        StatementForm::Retain
        | StatementForm::Release
        | StatementForm::Show
        | StatementForm::HeapRemove => known_one(names, in_handler, form, words),
        StatementForm::StrAppend
        | StatementForm::ArrAppend
        | StatementForm::DictRemove
        | StatementForm::SetAdd
        | StatementForm::SetSet
        | StatementForm::SetReplace
        | StatementForm::SetRemove
        | StatementForm::SetCount
        | StatementForm::HeapAdd => known_two(names, in_handler, form, words),
        StatementForm::DictAdd | StatementForm::DictSet | StatementForm::DictReplace => {
            known_three(names, in_handler, form, words)
        }
        StatementForm::ArrRemove | StatementForm::FieldClear => {
            known_at(names, in_handler, form, words)
        }
        StatementForm::ArrInsert | StatementForm::ArrSet | StatementForm::FieldSet => {
            known_put(names, in_handler, form, words)
        }
        StatementForm::StrDelete | StatementForm::DataDelete => {
            known_span(names, in_handler, form, words)
        }
        _ => None,
    }
}
