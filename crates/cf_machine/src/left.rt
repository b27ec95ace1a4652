//! What a step leaves, and whether an entry's answer is that of its step.
ghost use Rattle.std.specs.Prelude.{◌≡◌, ◌↔◌, Some, true, slice_get, IfOk};
ghost use Rattle.std.specs.Option.{option_to_list};
ghost use Rattle.cf_graph.specs.Flows.{cut_of, flowed};
ghost use Rattle.cf_ids.specs.declared.answer.Answer.{Answer as Said};
ghost use Rattle.cf_ids.specs.declared.answer.Answer.TheVariants as answers;
ghost use Rattle.cf_model.specs.Steps.{cut_answer, finals_of, step_answer, type_in};
ghost use Rattle.cf_references.specs.Flows.{flow_of};
ghost use Rattle.cf_steps.specs.Doing.{step_of};
ghost use Rattle.cf_state.specs.States.{state_of};

use cf_ids::{Answer, ObjId};
use cf_model::Entry;
use cf_references::{Reference, copied, is_free};
use cf_same::is_same_answer;
use cf_state::{Parts, State};
use cf_steps::Done;
use std::alloc::{AllocError as NoMemory, Global};

/// What a step does, and what it leaves: the references after it, and the object that it finalises.
#[derive(Drop)]
pub(crate) struct Left {
    pub(crate) done: Done,
    pub(crate) edges: Vec<Reference>,
    pub(crate) last: Option<ObjId>,
}

/// The object of which the last reference is taken away, if it is.
fn last_of(cut: &Option<ObjId>, edges: &[Reference]) -> Option<ObjId>
    ensures { option_to_list result ≡ finals_of cut.now edges.now }
{
    let object = (*cut)?;
    if is_free(object, edges) {
        Some(object)
    } else {
        None
    }
}

/// The references that a step leaves.
fn edges_left(alloc: Global, done: &Done, edges: &[Reference]) -> Result<Vec<Reference>, NoMemory>
    ensures { IfOk result (λ after. after.items ≡ flowed (flow_of done.now.flow) edges.now) }
{
    let mut after = copied(alloc, edges)?;
    done.flow.run(&mut after)?;
    Ok(after)
}

/// What a step leaves.
pub(crate) fn left_by(alloc: Global, done: Done, edges: &[Reference]) -> Result<Left, NoMemory>
    ensures done { IfOk result (λ left. left.done ≡ done) }
    ensures edges { IfOk result (λ left. left.edges.items ≡ flowed (flow_of left.done.flow) edges.now) }
    ensures last { IfOk result (λ left. option_to_list left.last
        ≡ finals_of (cut_of (flow_of left.done.flow)) left.edges.items) }
{
    let after = edges_left(alloc, &done, edges)?;
    let last = last_of(&done.flow.cut(), after.as_slice());
    Ok(Left {
        done,
        edges: after,
        last,
    })
}

/// Whether an answer is that of a step: if a reference is taken away, whether it was the last.
fn is_answer(
    parts: &Parts,
    cut: &Option<ObjId>,
    edges: &[Reference],
    other: &Answer,
    answer: &Answer,
) -> bool
    ensures { (result ≡ true) ↔ (answer.now ≡ cut_answer cut.now parts.now.objects edges.now other.now) }
{
    match *cut {
        Some(object) => is_cut_answer(parts, object, edges, answer),
        None => is_same_answer(answer, other),
    }
}

/// Whether an answer is that of a step that takes a reference to an object away.
fn is_cut_answer(parts: &Parts, object: ObjId, edges: &[Reference], answer: &Answer) -> bool
    ensures { (other : Said) → (result ≡ true)
        ↔ (answer.now ≡ cut_answer (Some object) parts.now.objects edges.now other) }
{
    if is_free(object, edges) {
        is_final(parts, object, answer)
    } else {
        is_more(answer)
    }
}

/// Whether an answer is that other references are left.
fn is_more(answer: &Answer) -> bool
    ensures { (result ≡ true) ↔ (answer.now ≡ answers.More) }
{
    matches!(answer, Answer::More)
}

/// Whether an answer is that an object is finalised.
fn is_final(parts: &Parts, object: ObjId, answer: &Answer) -> bool
    ensures { (result ≡ true) ↔ (answer.now ≡ answers.Final (type_in (slice_get parts.now.objects object))) }
{
    match answer {
        Answer::Final(class) => parts.is_class(object, *class),
        _ => false,
    }
}

/// Whether the answer of an entry is that of what its step does.
pub(crate) fn is_told(state: &State, entry: &Entry, left: &Left) -> bool
    requires { left.now.edges.items ≡ flowed (flow_of left.now.done.flow) state.now.edges.items }
    ensures { let st = state_of state.now in
        (result ≡ true) ↔ (entry.now.answer ≡ step_answer (step_of st.parts left.now.done) st) }
{
    let cut = left.done.flow.cut();
    let after = left.edges.as_slice();
    is_answer(&state.parts, &cut, after, &left.done.answer, &entry.answer)
}
