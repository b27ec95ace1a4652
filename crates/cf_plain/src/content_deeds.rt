//! What statements do to texts, data and numbers, and what is shown.
ghost use Rattle.std.specs.Prelude.{◌≡◌, ◌+◌, ◌≤◌, [], true, drop, length, take, Some, IfOk};
ghost use Rattle.cf_ids.specs.declared.answer.Answer.TheVariants as answers;
ghost use Rattle.cf_contents.specs.Descriptions.{description};
ghost use Rattle.cf_contents.specs.Deeds.{answering, skipping, unless_split, with_object, with_text, with_mutable_text, with_mutable_data, with_number, text_edit, data_edit, part_of, as_kind, deed_of as deed_in};
ghost use Rattle.cf_plain.specs.Deeds.{deed_of};
ghost use Rattle.cf_contents.specs.Groups.{acts_on_content};

use crate::change::Change;
use crate::character::split_fault;
use crate::content::Content;
use crate::deed::Deed;
use crate::description::describe;
use crate::making::units_of;
use crate::seen::{Found, mutable_bytes_in, mutable_units_in, number_in, units_in};
use cf_ids::{Answer, Description, TypeId};
use cf_number::NumKind;
use cf_string::StrFault;
use cf_syntax::{ClassLine, Statement};
use std::alloc::{AllocError as NoMemory, Global};

/// What a statement does to a text, to data or to a number, or shows of any object.
pub(crate) fn content_deed(
    alloc: Global,
    classes: &[ClassLine],
    statement: &Statement,
    used: &Found,
) -> Result<Deed, NoMemory>
    requires { acts_on_content statement.now ≡ true }
    ensures { let deed = deed_in classes.now statement.now used.now.first used.now.second used.now.third in
        IfOk result (λ d. deed_of d ≡ deed) }
{
    match statement {
        Statement::Show { .. } => show(alloc, classes, used),
        Statement::NumAs { kind, .. } => Ok(read_as(used, *kind)),
        Statement::StrSub { at, len, .. } => take_part(alloc, used, *at as usize, *len as usize),
        Statement::StrAppend { .. } => append_text(alloc, used),
        Statement::StrInsert { at, text, .. } => {
            let units = units_of(alloc, text.text())?;
            edit_text(alloc, used, *at as usize, 0, units.as_slice())
        }
        Statement::StrDelete { at, len, .. } => {
            edit_text(alloc, used, *at as usize, *len as usize, &[])
        }
        Statement::StrReplace { at, len, text, .. } => {
            let units = units_of(alloc, text.text())?;
            edit_text(alloc, used, *at as usize, *len as usize, units.as_slice())
        }
        Statement::DataAppend { bytes, .. } => append_bytes(alloc, used, bytes.bytes()),
        Statement::DataReplace { at, len, bytes, .. } => {
            edit_bytes(alloc, used, *at as usize, *len as usize, bytes.bytes())
        }
        Statement::DataDelete { at, len, .. } => {
            edit_bytes(alloc, used, *at as usize, *len as usize, &[])
        }
        _ => unreachable!(),
    }
}

/// Describes an object.
fn show(alloc: Global, classes: &[ClassLine], used: &Found) -> Result<Deed, NoMemory>
    ensures { let deed = with_object used.now.first
        (λ u. answering (answers.Shown (description classes.now u.object))) in
        IfOk result (λ d. deed_of d ≡ deed) }
{
    let Some(seen) = &used.first else {
        return Ok(Deed::skipping());
    };
    let description = describe(alloc, classes, seen.object)?;
    Ok(Deed::answering(Answer::Shown(Description::new(alloc, description)?)))
}

/// Reads a number as one of a kind.
fn read_as(used: &Found, kind: NumKind) -> Deed
    ensures { deed_of result ≡ with_number used.now.first (as_kind kind) }
{
    let Some(number) = number_in(&used.first) else {
        return Deed::skipping();
    };
    Deed::answering(match number.get_as(kind) {
        Ok(value) => Answer::Number(value),
        Err(_) => Answer::Lossy,
    })
}

/// Makes a string of a part of a text.
fn take_part(alloc: Global, used: &Found, at: usize, len: usize) -> Result<Deed, NoMemory>
    ensures { let deed = with_text used.now.first (λ units. part_of units at len) in
        IfOk result (λ d. deed_of d ≡ deed) }
{
    match units_in(&used.first) {
        Some(units) => part(alloc, units, at, len),
        None => Ok(Deed::skipping()),
    }
}

/// A new string of so many units from a place on.
fn part(alloc: Global, units: &[u16], at: usize, len: usize) -> Result<Deed, NoMemory>
    ensures { IfOk result (λ d. deed_of d ≡ part_of units.now at len) }
{
    if let Some(fault) = split_fault(units, at, len) {
        return Ok(Deed::answering(answer_to(fault)));
    }
    let units = range_of(alloc, units, at, len)?;
    Ok(Deed::creating(
        TypeId::STRING,
        Content::Text {
            mutable: false,
            units,
        },
    ))
}

/// So many units from a place on.
fn range_of(alloc: Global, units: &[u16], at: usize, len: usize) -> Result<Vec<u16>, NoMemory>
    ensures { IfOk result (λ v. v.items ≡ take len (drop at units.now)) }
{
    let start = at.min(units.len());
    let rest = &units[start..];
    Vec::from_slice(alloc, &rest[..len.min(rest.len())])
}

/// Puts the text of another object after that of a mutable string. The two may be one object.
fn append_text(alloc: Global, used: &Found) -> Result<Deed, NoMemory>
    ensures { let deed = with_mutable_text used.now.first
        (λ units. with_text used.now.second (λ more. text_edit units (length units) 0 more)) in
        IfOk result (λ d. deed_of d ≡ deed) }
{
    let Some(units) = mutable_units_in(&used.first) else {
        return Ok(Deed::skipping());
    };
    let Some(other) = units_in(&used.second) else {
        return Ok(Deed::skipping());
    };
    edit_units(alloc, units, units.len(), 0, other)
}

/// Puts units in place of so many from a place on in a mutable string.
fn edit_text(
    alloc: Global,
    used: &Found,
    at: usize,
    len: usize,
    other: &[u16],
) -> Result<Deed, NoMemory>
    ensures { let deed = with_mutable_text used.now.first (λ units. text_edit units at len other.now) in
        IfOk result (λ d. deed_of d ≡ deed) }
{
    match mutable_units_in(&used.first) {
        Some(units) => edit_units(alloc, units, at, len, other),
        None => Ok(Deed::skipping()),
    }
}

/// Puts units in place of so many from a place on.
fn edit_units(
    alloc: Global,
    units: &[u16],
    at: usize,
    len: usize,
    other: &[u16],
) -> Result<Deed, NoMemory>
    ensures { IfOk result (λ d. deed_of d ≡ text_edit units.now at len other.now) }
{
    if let Some(fault) = split_fault(units, at, len) {
        return Ok(Deed::answering(answer_to(fault)));
    }
    let enter = Vec::from_slice(alloc, other)?;
    Ok(Deed::changing(
        Answer::Ok,
        Change::Text {
            at,
            out: len,
            enter,
        },
    ))
}

/// Puts bytes after those of mutable data.
fn append_bytes(alloc: Global, used: &Found, other: &[u8]) -> Result<Deed, NoMemory>
    ensures { let deed = with_mutable_data used.now.first (λ old. data_edit old (length old) 0 other.now) in
        IfOk result (λ d. deed_of d ≡ deed) }
{
    match mutable_bytes_in(&used.first) {
        Some(old) => edit_data(alloc, old, old.len(), 0, other),
        None => Ok(Deed::skipping()),
    }
}

/// Puts bytes in place of so many from a place on in mutable data.
fn edit_bytes(
    alloc: Global,
    used: &Found,
    at: usize,
    len: usize,
    other: &[u8],
) -> Result<Deed, NoMemory>
    ensures { let deed = with_mutable_data used.now.first (λ old. data_edit old at len other.now) in
        IfOk result (λ d. deed_of d ≡ deed) }
{
    match mutable_bytes_in(&used.first) {
        Some(old) => edit_data(alloc, old, at, len, other),
        None => Ok(Deed::skipping()),
    }
}

/// Puts bytes in place of so many from a place on.
fn edit_data(
    alloc: Global,
    old: &[u8],
    at: usize,
    len: usize,
    other: &[u8],
) -> Result<Deed, NoMemory>
    ensures { IfOk result (λ d. deed_of d ≡ data_edit old.now at len other.now) }
{
    let all = old.len();
    if all < at || all - at < len {
        return Ok(Deed::answering(Answer::Range));
    }
    let enter = Vec::from_slice(alloc, other)?;
    Ok(Deed::changing(
        Answer::Ok,
        Change::Data {
            at,
            out: len,
            enter,
        },
    ))
}

/// What is answered if a text may not be cut.
fn answer_to(fault: StrFault) -> Answer
    ensures { result ≡ (unless_split (Some fault) skipping).answer }
{
    match fault {
        StrFault::Range => Answer::Range,
        StrFault::SplitsPair => Answer::Split,
        _ => Answer::Skip,
    }
}
