//! What statements do to heaps.
ghost use Rattle.std.specs.Prelude.{◌≡◌, true, IfOk};
ghost use Rattle.cf_ids.specs.declared.answer.Answer.TheVariants as answers;
ghost use Rattle.cf_contents.specs.Contents.{least_of};
ghost use Rattle.cf_contents.specs.Deeds.{with_heap, with_key, changing, add_member, binding, removing_least, deed_of};
ghost use Rattle.cf_store.specs.Applies.{Does};
ghost use Rattle.cf_contents.specs.Groups.{acts_on_heaps};

use crate::plan::Plan;
use crate::seen::{Found, heap_in};
use cf_body::{BodyChange, key_of};
use cf_ids::Answer;
use cf_syntax::{ClassLine, Statement};
use std::alloc::{AllocError as NoMemory, Global};

/// What a statement does to a heap.
pub(crate) fn heap_plan(
    alloc: Global,
    classes: &[ClassLine],
    statement: &Statement,
    used: &Found,
) -> Result<Plan, NoMemory>
    requires { acts_on_heaps statement.now ≡ true }
    ensures { let deed = deed_of classes.now statement.now used.now.first used.now.second used.now.third in
        IfOk result (λ d. Does deed used.now.first d) }
{
    match statement {
        Statement::HeapAdd { .. } => add_element(alloc, classes, used),
        Statement::HeapTake { .. } => Ok(take_least(used)),
        Statement::HeapRemove { .. } => Ok(remove_least(used)),
        _ => unreachable!(),
    }
}

/// Adds an element.
fn add_element(alloc: Global, classes: &[ClassLine], used: &Found) -> Result<Plan, NoMemory>
    ensures { let deed = with_heap used.now.first
        (λ plain rows. with_key classes.now used.now.second (λ element. changing answers.Ok (add_member element))) in
        IfOk result (λ d. Does deed used.now.first d) }
{
    let Some(_) = heap_in(&used.first) else {
        return Ok(Plan::skipping());
    };
    let Some(element) = &used.second else {
        return Ok(Plan::skipping());
    };
    let element = key_of(alloc, classes, element.number, element.body)?;
    Ok(Plan::changing(Answer::Ok, BodyChange::AddMember { element }))
}

/// Binds the least element, if there is one.
fn take_least(used: &Found) -> Plan
    ensures { let deed = with_heap used.now.first (λ plain rows. binding (least_of plain rows)) in
        Does deed used.now.first result }
{
    match heap_in(&used.first) {
        Some(heap) => Plan::binding(heap.least()),
        None => Plan::skipping(),
    }
}

/// Removes the least element, if there is one.
fn remove_least(used: &Found) -> Plan
    ensures { let deed = with_heap used.now.first (λ plain rows. removing_least (least_of plain rows)) in
        Does deed used.now.first result }
{
    let Some(heap) = heap_in(&used.first) else {
        return Plan::skipping();
    };
    match heap.least() {
        None => Plan::answering(Answer::Empty),
        Some(_) => Plan::changing(Answer::Ok, BodyChange::RemoveLeast),
    }
}
