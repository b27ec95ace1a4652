//! The step of a statement.
ghost use Rattle.std.specs.Prelude.{◌≡◌, IfOk};
ghost use Rattle.cf_graph.specs.Holders as holders;
ghost use Rattle.cf_syntax.specs.Mentions.{ownership_of};
ghost use Rattle.cf_model.specs.Steps.{statement_step};
ghost use Rattle.cf_references.specs.Views.{holder_of};
ghost use Rattle.cf_state.specs.States.{state_of};
ghost use Rattle.cf_steps.specs.Doing.{step_of};

use crate::binding::{bind_step, bound_of};
use crate::done::Done;
use crate::steps::{deal_step, release_step, retain_step};
use cf_deals::{deal_of, first_of, posts_of};
use cf_ids::{ObjId, VarId};
use cf_references::Holder;
use cf_state::State;
use cf_syntax::{Ownership, Script, Statement};
use std::alloc::{AllocError as NoMemory, Global};

/// The step of a statement of the frame at a depth of a thread, by its deed.
pub(crate) fn statement_step(
    alloc: Global,
    script: &Script,
    thread: usize,
    depth: usize,
    state: &State,
    statement: &Statement,
    used: &[Option<ObjId>; 3],
) -> Result<Done, NoMemory>
    ensures { let st = state_of state.now in
        let step = statement_step script.now thread depth st statement.now used.now (ownership_of statement.now) in
        IfOk result (λ d. step_of state.now.parts d ≡ step) }
{
    let parts = &state.parts;
    let first = first_of(used);
    match statement.ownership() {
        Ownership::Keeps => {
            let deal = deal_of(alloc, script, thread, state, statement, used)?;
            let posts = posts_of(alloc, parts, statement, used)?;
            deal_step(alloc, thread, deal, posts.as_slice())
        }
        Ownership::Binds(variable) => {
            let bound = bound_of(alloc, script, parts, statement, used)?;
            bind_step(alloc, parts, variable_at(thread, depth, variable), bound)
        }
        Ownership::Retains(variable) => {
            retain_step(alloc, variable_at(thread, depth, variable), &first)
        }
        Ownership::Releases(variable) => {
            let holder = variable_at(thread, depth, variable);
            Ok(release_step(alloc, state, thread, &holder, &first))
        }
    }
}

/// A variable of a frame as a holder.
pub(crate) fn variable_at(thread: usize, depth: usize, variable: VarId) -> Holder
    ensures { holder_of result ≡ holders.variable thread depth variable }
{
    Holder::Variable {
        thread,
        depth,
        variable: usize::from(variable.0),
    }
}
