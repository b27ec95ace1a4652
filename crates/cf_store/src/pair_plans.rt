//! What statements do to dictionaries.
ghost use Rattle.std.specs.Prelude.{◌≡◌, true, IfOk};
ghost use Rattle.cf_contents.specs.Deeds.{with_object, adding_pair, setting_pair, replacing_pair, removing_pair, deed_of};
ghost use Rattle.cf_store.specs.Applies.{Does};
ghost use Rattle.cf_store.specs.Finds.{IsFoundPair, IsFound};
ghost use Rattle.cf_contents.specs.Groups.{acts_on_pairs};

use crate::plan::Plan;
use crate::seen::{Found, number_of};
use cf_body::{BodyChange, Kind, key_of};
use cf_ids::{Answer, ObjId};
use cf_syntax::{ClassLine, Statement};
use cf_types::Cell;
use std::alloc::{AllocError as NoMemory, Global};

/// A key, and the value of the key in a dictionary that is equal to it, where there is one.
#[derive(Drop)]
pub(crate) struct FoundPair {
    pub(crate) key: Cell,
    pub(crate) value: Option<ObjId>,
}

/// What a statement does to a dictionary.
pub(crate) fn pair_plan(
    alloc: Global,
    classes: &[ClassLine],
    statement: &Statement,
    used: &Found,
) -> Result<Plan, NoMemory>
    requires { acts_on_pairs statement.now ≡ true }
    ensures { let deed = deed_of classes.now statement.now used.now.first used.now.second used.now.third in
        IfOk result (λ d. Does deed used.now.first d) }
{
    let Some(entry) = find(alloc, classes, used)? else {
        return Ok(Plan::skipping());
    };
    Ok(match statement {
        Statement::DictAdd { .. } => add_pair(used, entry),
        Statement::DictSet { .. } => set_pair(used, entry),
        Statement::DictReplace { .. } => replace_pair(used, entry),
        Statement::DictRemove { .. } => remove_pair(used, entry),
        Statement::DictTake { .. } => Plan::binding(entry.value),
        _ => unreachable!(),
    })
}

/// The second object that is used as a key of the first one, where that is a dictionary.
fn find(alloc: Global, classes: &[ClassLine], used: &Found) -> Result<Option<FoundPair>, NoMemory>
    ensures { IfOk result (λ found. IsFound classes.now used.now.first used.now.second found) }
{
    let Some(dictionary) = &used.first else {
        return Ok(None);
    };
    let Some(key) = &used.second else {
        return Ok(None);
    };
    let body = dictionary.body;
    let Kind::Dictionary(pairs) = body.kind() else {
        return Ok(None);
    };
    let key = key_of(alloc, classes, key.number, key.body)?;
    let value = pairs.get(&key);
    Ok(Some(FoundPair { key, value }))
}

/// Adds a pair, unless its key is there.
fn add_pair(used: &Found, entry: FoundPair) -> Plan
    requires { IsFoundPair used.now.first used.now.second entry }
    ensures { let deed = with_object used.now.third (λ u. adding_pair entry.key u.number entry.value) in
        Does deed used.now.first result }
{
    let Some(value) = number_of(&used.third) else {
        return Plan::skipping();
    };
    let FoundPair { key, value: old } = entry;
    match old {
        None => Plan::changing(Answer::Ok, BodyChange::PutPair { key, value }),
        Some(_) => Plan::answering(Answer::Present),
    }
}

/// Puts a pair in, its value alone where its key is there.
fn set_pair(used: &Found, entry: FoundPair) -> Plan
    requires { IsFoundPair used.now.first used.now.second entry }
    ensures { let deed = with_object used.now.third (λ u. setting_pair entry.key u.number entry.value) in
        Does deed used.now.first result }
{
    let Some(value) = number_of(&used.third) else {
        return Plan::skipping();
    };
    let FoundPair { key, value: old } = entry;
    match old {
        None => Plan::changing(Answer::Added, BodyChange::PutPair { key, value }),
        Some(_) => Plan::changing(Answer::Changed, BodyChange::PutPair { key, value }),
    }
}

/// Lets an object be the value of a key that is there.
fn replace_pair(used: &Found, entry: FoundPair) -> Plan
    requires { IsFoundPair used.now.first used.now.second entry }
    ensures { let deed = with_object used.now.third (λ u. replacing_pair entry.key u.number entry.value) in
        Does deed used.now.first result }
{
    let Some(value) = number_of(&used.third) else {
        return Plan::skipping();
    };
    let FoundPair { key, value: old } = entry;
    match old {
        None => Plan::answering(Answer::Absent),
        Some(_) => Plan::changing(Answer::Ok, BodyChange::PutPair { key, value }),
    }
}

/// Removes a pair, if its key is there.
fn remove_pair(used: &Found, entry: FoundPair) -> Plan
    requires { IsFoundPair used.now.first used.now.second entry }
    ensures { Does (removing_pair entry.key entry.value) used.now.first result }
{
    let FoundPair { key, value: old } = entry;
    match old {
        None => Plan::answering(Answer::Absent),
        Some(_) => Plan::changing(Answer::Ok, BodyChange::RemovePair { key }),
    }
}
