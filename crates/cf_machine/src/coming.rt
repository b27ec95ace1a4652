//! What the thread of an entry does next, if that is the entry's action.
ghost use Rattle.std.specs.Prelude.{◌≡◌, ◌<◌, ◌↔◌, Some, true, length, MatchOption};
ghost use Rattle.cf_ids.specs.declared.limits.TheConstants.{OBJECTS as MOST_OBJECTS};
ghost use Rattle.cf_next.specs.Next.{next};
ghost use Rattle.cf_next.specs.Steps.{IsStep, demand_of};
ghost use Rattle.cf_model.specs.Journals.{IsLegalStep, Next, can_go, makes_line};
ghost use Rattle.cf_model.specs.Known.{facts_of};
ghost use Rattle.cf_model.specs.State.{stand_at};
ghost use Rattle.cf_machine.specs.Entering.{IsNext};
ghost use Rattle.cf_state.specs.Known.{facts_in};
ghost use Rattle.cf_state.specs.States.{state_of};

use cf_ids::OBJECTS;
use cf_model::Entry;
use cf_next::{Action, Frames, Step};
use cf_same::is_same_action;
use cf_state::{Known, State};
use cf_syntax::Script;

/// The number of an entry's thread.
pub(crate) fn thread_of(entry: &Entry) -> usize
    ensures { result ≡ entry.now.thread }
{
    usize::from(entry.thread.0)
}

/// Whether a step is a statement that makes an object, or may make one.
fn makes(step: &Step) -> bool
    ensures { result ≡ makes_line (Some (demand_of step.now)) }
{
    match step {
        Step::Says { statement, .. } => statement.makes_object(),
        _ => false,
    }
}

/// Whether there is a number for the object that a step makes, if it may make one.
fn has_place(state: &State, step: &Step) -> bool
    ensures { (result ≡ true)
        ↔ (makes_line (Some (demand_of step.now)) ≡ true → length state.now.parts.objects < MOST_OBJECTS) }
{
    !makes(step) || state.parts.objects.len() < OBJECTS
}

/// What frames ask next, if that is this action.
fn asked<'s>(
    frames: &Frames,
    script: &'s Script,
    known: &Known,
    action: &Action,
) -> Option<Step<'s>>
    ensures { let facts = facts_in known.now.parts.now known.now.edges.now in
        MatchOption result (next script.now facts frames.now.thread frames.now.stand ≡ Some action.now → ⊥)
        (λ step. (next script.now facts frames.now.thread frames.now.stand ≡ Some action.now)
        × IsStep script.now facts frames.now.thread frames.now.stand step) }
{
    match frames.step(script, known) {
        Some(step) => {
            if is_same_action(&frames.action(script, known, &step), action) {
                Some(step)
            } else {
                None
            }
        }
        None => None,
    }
}

/// What the thread of an entry, which can go on, does next, if that is the entry's action.
fn next_going<'s>(state: &State, script: &'s Script, entry: &Entry) -> Option<Step<'s>>
    requires { can_go (state_of state.now) entry.now.thread ≡ true }
    ensures { let st = state_of state.now in let t = entry.now.thread in
        MatchOption result (Next script.now st t ≡ Some entry.now.action → ⊥)
        (λ step. (Next script.now st t ≡ Some entry.now.action)
        × IsStep script.now (facts_of st) t (stand_at t st.stands) step) }
{
    let known = state.known();
    match state.stands.get(thread_of(entry)) {
        Some(frames) => asked(frames, script, &known, &entry.action),
        None => None,
    }
}

/// What the thread of an entry does next, if it can go on and that is the entry's action.
fn next_step<'s>(state: &State, script: &'s Script, entry: &Entry) -> Option<Step<'s>>
    ensures { let st = state_of state.now in let t = entry.now.thread in
        MatchOption result (Next script.now st t ≡ Some entry.now.action → ⊥)
        (λ step. (Next script.now st t ≡ Some entry.now.action)
        × IsStep script.now (facts_of st) t (stand_at t st.stands) step) }
{
    if state.can_go(thread_of(entry)) {
        next_going(state, script, entry)
    } else {
        None
    }
}

/// The same, if there is also a number for what it makes. An entry for which there is none is not legal.
pub(crate) fn next_with_place<'s>(
    state: &State,
    script: &'s Script,
    entry: &Entry,
) -> Option<Step<'s>>
    ensures { let st = state_of state.now in
        MatchOption result (IsLegalStep script.now st entry.now → ⊥) (IsNext script.now st entry.now) }
{
    match next_step(state, script, entry) {
        Some(step) => {
            if has_place(state, &step) {
                Some(step)
            } else {
                None
            }
        }
        None => None,
    }
}
