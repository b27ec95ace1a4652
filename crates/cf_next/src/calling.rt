//! What is called: the first of what a frame collected that still fits.
ghost use Rattle.std.specs.Prelude.{◌≡◌, Some, IfSome};
ghost use Rattle.std.specs.Option.{option_map};
ghost use Rattle.cf_next.specs.Demands.{role_fits, item_callout, callout_of, call_demand};
ghost use Rattle.cf_next.specs.Steps.{demand_of};
ghost use Rattle.cf_next.specs.Views.{callee_of, callees_of, callout_of_item, kind_of, turn_of};
ghost use Rattle.cf_next.specs.WorkSteps.{callee_demand, callees_left_of, AreCalleesLeft};

use crate::facts::Facts;
use crate::object::MaybeObject;
use crate::parts::{Callee, Kind, Run};
use crate::step::Step;
use crate::turn::has_come;
use cf_ids::{HandlerId, ObjId, ThreadId};

/// A handler and the info with which it is called.
type Callout = (HandlerId, Option<ObjId>);

/// Whether a collected one of this role still fits, where the mode of the run holds it and it is valid.
fn fits<F: Facts>(facts: &F, run: &Run, callee: &Callee) -> bool
    ensures { result ≡ role_fits (F.known facts.now) (turn_of run.now) (callee_of callee.now).role (callee_of callee.now).number }
{
    match callee {
        Callee::Observer(_) => true,
        Callee::Source(source) => facts.is_signalled(*source) && !(run.once && run.handled),
        Callee::Timer(timer) => has_come(&facts.next_date(*timer), facts.time()),
        Callee::Receiver(_) => false,
    }
}

/// The callout of an item that still fits the run.
fn item_callout<F: Facts>(
    facts: &F,
    t: ThreadId,
    kind: &Kind,
    callee: &Callee,
    item: ObjId,
) -> Option<Callout>
    requires { item ≡ (callee_of callee.now).number }
    ensures { option_map callout_of_item result
        ≡ item_callout (F.known facts.now) t (kind_of kind.now) (callee_of callee.now).role item }
{
    let Kind::Run(run) = kind else {
        return None;
    };
    if facts.holds(t, run.mode, item) && facts.is_valid(item) && fits(facts, run, callee) {
        facts.callout(item)
    } else {
        None
    }
}

/// The callout of a registration that is still there.
fn receiver_callout<F: Facts>(facts: &F, number: u32) -> Option<Callout>
    ensures { option_map callout_of_item result ≡ (F.known facts.now).receiver number }
{
    match facts.receiver(number) {
        Some((handler, observer)) => Some((handler, Some(observer))),
        None => None,
    }
}

/// The callout of what was collected, where it still fits.
fn callout_of<F: Facts>(facts: &F, t: ThreadId, kind: &Kind, callee: &Callee) -> Option<Callout>
    ensures { option_map callout_of_item result
        ≡ callout_of (F.known facts.now) t (kind_of kind.now) (callee_of callee.now).role (callee_of callee.now).number }
{
    match callee {
        Callee::Observer(item) | Callee::Source(item) | Callee::Timer(item) => {
            item_callout(facts, t, kind, callee, *item)
        }
        Callee::Receiver(number) => receiver_callout(facts, *number),
    }
}

/// The call of what was collected, where it still fits; so many of them are left after it.
fn callee_step<'s, F: Facts>(
    facts: &F,
    t: ThreadId,
    kind: &Kind,
    callee: &Callee,
    left: usize,
) -> Option<Step<'s>>
    ensures demand { option_map demand_of result
        ≡ callee_demand (F.known facts.now) t (kind_of kind.now) (callee_of callee.now) }
    ensures left { IfSome result (λ x. callees_left_of x ≡ Some left) }
{
    match callout_of(facts, t, kind, callee) {
        Some((handler, info)) => Some(Step::Calls {
            callee: *callee,
            handler,
            info: MaybeObject::of(info),
            left,
        }),
        None => None,
    }
}

/// The call of the first of the collected ones, which stand last first, that still fits.
pub(crate) fn first_call<'s, F: Facts>(
    facts: &F,
    t: ThreadId,
    kind: &Kind,
    collected: &[Callee],
) -> Option<Step<'s>>
    ensures demand { option_map demand_of result
        ≡ call_demand (F.known facts.now) t (kind_of kind.now) (callees_of collected.now) }
    ensures left { IfSome result (λ x.
        AreCalleesLeft (F.known facts.now) t (kind_of kind.now) collected.now (callees_left_of x)) }
{
    let mut rest = collected;
    while let Some((callee, others)) = rest.split_last() {
        let step = callee_step(facts, t, kind, callee, others.len());
        if step.is_some() {
            return step;
        }
        rest = others;
    }
    None
}
