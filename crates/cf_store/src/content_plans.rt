//! What statements do to texts, data and numbers.
ghost use Rattle.std.specs.Prelude.{◌≡◌, ◌+◌, ◌≤◌, [], Some, true, length, IfOk};
ghost use Rattle.cf_ids.specs.declared.answer.Answer.TheVariants as answers;
ghost use Rattle.cf_contents.specs.Descriptions.{description};
ghost use Rattle.cf_contents.specs.Deeds.{answering, skipping, unless_split, with_object, with_text, with_mutable_text, with_mutable_data, with_number, text_edit, data_edit, part_of, as_kind, deed_of};
ghost use Rattle.cf_store.specs.Applies.{Does, IsAlone};
ghost use Rattle.cf_contents.specs.Groups.{acts_on_content};

use crate::making::copy_bytes;
use crate::plan::Plan;
use crate::seen::{Found, Seen, mutable_bytes_in, mutable_text_in, number_in, text_in};
use cf_body::{BodyChange, Kind, describe};
use cf_data::Bytes;
use cf_ids::{Answer, Description, TypeId};
use cf_number::NumKind;
use cf_string::{Str, StrFault};
use cf_syntax::{ClassLine, Statement};
use std::alloc::{AllocError as NoMemory, Global};

/// What a statement does to a text, to data or to a number, or shows of any object.
pub(crate) fn content_plan(
    alloc: Global,
    classes: &[ClassLine],
    statement: &Statement,
    used: &Found,
) -> Result<Plan, NoMemory>
    requires { acts_on_content statement.now ≡ true }
    ensures { let deed = deed_of classes.now statement.now used.now.first used.now.second used.now.third in
        IfOk result (λ d. Does deed used.now.first d) }
{
    match statement {
        Statement::Show { .. } => show(alloc, classes, used),
        Statement::NumAs { kind, .. } => Ok(read_as(used, *kind)),
        Statement::StrSub { at, len, .. } => take_part(alloc, used, *at, *len),
        Statement::StrAppend { .. } => append_text(alloc, used),
        Statement::StrInsert { at, text, .. } => put_text(alloc, used, *at, 0, text.text()),
        Statement::StrDelete { at, len, .. } => {
            Ok(edit_text(used, *at as usize, *len as usize, Str::new(alloc)))
        }
        Statement::StrReplace { at, len, text, .. } => {
            put_text(alloc, used, *at, *len, text.text())
        }
        Statement::DataAppend { bytes, .. } => append_bytes(alloc, used, bytes.bytes()),
        Statement::DataReplace { at, len, bytes, .. } => {
            put_bytes(alloc, used, *at, *len, bytes.bytes())
        }
        Statement::DataDelete { at, len, .. } => {
            Ok(edit_bytes(used, *at as usize, *len as usize, Bytes::new(alloc)))
        }
        _ => unreachable!(),
    }
}

/// Describes an object.
fn show(alloc: Global, classes: &[ClassLine], used: &Found) -> Result<Plan, NoMemory>
    ensures { let deed = with_object used.now.first (λ u. answering (answers.Shown (description classes.now u.object))) in
        IfOk result (λ d. Does deed used.now.first d) }
{
    let Some(seen) = &used.first else {
        return Ok(Plan::skipping());
    };
    let description = describe(alloc, classes, seen.body)?;
    Ok(Plan::answering(Answer::Shown(Description::new(alloc, description)?)))
}

/// Reads a number as one of a kind.
fn read_as(used: &Found, kind: NumKind) -> Plan
    ensures { Does (with_number used.now.first (as_kind kind)) used.now.first result }
{
    let Some(number) = number_in(&used.first) else {
        return Plan::skipping();
    };
    Plan::answering(match number.get_as(kind) {
        Ok(value) => Answer::Number(value),
        Err(_) => Answer::Lossy,
    })
}

/// Makes a string of a part of a text.
fn take_part(alloc: Global, used: &Found, at: u32, len: u32) -> Result<Plan, NoMemory>
    ensures { let deed = with_text used.now.first (λ units. part_of units at len) in
        IfOk result (λ d. Does deed used.now.first d) }
{
    match text_in(&used.first) {
        Some(text) => part(alloc, text, at as usize, len as usize),
        None => Ok(Plan::skipping()),
    }
}

/// A new string of the `len` units from `at` on.
fn part(alloc: Global, text: &Str, at: usize, len: usize) -> Result<Plan, NoMemory>
    ensures { IfOk result (λ d. IsAlone (part_of text.now.units at len) d) }
{
    match text.substring(alloc, at, len) {
        Ok(text) => Plan::creating(
            alloc,
            TypeId::STRING,
            Kind::Text {
                mutable: false,
                text,
            },
        ),
        Err(StrFault::NoMemory) => Err(NoMemory),
        Err(fault) => Ok(Plan::answering(answer_to(fault))),
    }
}

/// Puts the text of another object after that of a mutable string. The two may be one object.
fn append_text(alloc: Global, used: &Found) -> Result<Plan, NoMemory>
    ensures { let deed = with_mutable_text used.now.first
        (λ units. with_text used.now.second (λ more. text_edit units (length units) 0 more)) in
        IfOk result (λ d. Does deed used.now.first d) }
{
    let Some(text) = mutable_text_in(&used.first) else {
        return Ok(Plan::skipping());
    };
    let Some(other) = text_in(&used.second) else {
        return Ok(Plan::skipping());
    };
    let other = other.copy(alloc)?;
    Ok(edit_text(used, text.length(), 0, other))
}

/// Puts a copy of a text in place of the `len` units from `at` on in a mutable string.
fn put_text(alloc: Global, used: &Found, at: u32, len: u32, other: &Str) -> Result<Plan, NoMemory>
    ensures { let deed = with_mutable_text used.now.first (λ units. text_edit units at len other.now.units) in
        IfOk result (λ d. Does deed used.now.first d) }
{
    let other = other.copy(alloc)?;
    Ok(edit_text(used, at as usize, len as usize, other))
}

/// Puts a text in place of the `len` units from `at` on in a mutable string.
fn edit_text(used: &Found, at: usize, len: usize, text: Str) -> Plan
    ensures { let deed = with_mutable_text used.now.first (λ units. text_edit units at len text.units) in
        Does deed used.now.first result }
{
    let Some(old) = mutable_text_in(&used.first) else {
        return Plan::skipping();
    };
    match old.split_fault(at, len) {
        None => Plan::changing(Answer::Ok, BodyChange::Text { at, len, text }),
        Some(fault) => Plan::answering(answer_to(fault)),
    }
}

/// Puts bytes after those of mutable data.
fn append_bytes(alloc: Global, used: &Found, other: &[u8]) -> Result<Plan, NoMemory>
    ensures { let deed = with_mutable_data used.now.first (λ old. data_edit old (length old) 0 other.now) in
        IfOk result (λ d. Does deed used.now.first d) }
{
    let Some(old) = mutable_bytes_in(&used.first) else {
        return Ok(Plan::skipping());
    };
    let other = copy_bytes(alloc, other)?;
    Ok(edit_bytes(used, old.length(), 0, other))
}

/// Puts a copy of bytes in place of the `len` bytes from `at` on in mutable data.
fn put_bytes(alloc: Global, used: &Found, at: u32, len: u32, other: &[u8]) -> Result<Plan, NoMemory>
    ensures { let deed = with_mutable_data used.now.first (λ old. data_edit old at len other.now) in
        IfOk result (λ d. Does deed used.now.first d) }
{
    let other = copy_bytes(alloc, other)?;
    Ok(edit_bytes(used, at as usize, len as usize, other))
}

/// Puts bytes in place of the `len` bytes from `at` on in mutable data.
fn edit_bytes(used: &Found, at: usize, len: usize, bytes: Bytes) -> Plan
    ensures { let deed = with_mutable_data used.now.first (λ old. data_edit old at len bytes.items) in
        Does deed used.now.first result }
{
    let Some(old) = mutable_bytes_in(&used.first) else {
        return Plan::skipping();
    };
    let all = old.length();
    if all < at || all - at < len {
        return Plan::answering(Answer::Range);
    }
    Plan::changing(Answer::Ok, BodyChange::Data { at, len, bytes })
}

/// What is answered where a text may not be cut.
fn answer_to(fault: StrFault) -> Answer
    ensures { result ≡ (unless_split (Some fault) skipping).answer }
{
    match fault {
        StrFault::Range => Answer::Range,
        StrFault::SplitsPair => Answer::Split,
        _ => Answer::Skip,
    }
}
