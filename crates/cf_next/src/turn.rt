//! The turn of a run: what it depends on, and which phase is due.
ghost use Rattle.std.specs.Prelude.{◌≡◌};
ghost use Rattle.rl_base.specs.Dates.{has_come};
ghost use Rattle.cf_next.specs.Turns.{turn_facts, test_result, phase_after, phase_due, turn_after};
ghost use Rattle.cf_next.specs.Views.{turn_of};

use crate::facts::Facts;
use crate::parts::Run;
use cf_ids::ThreadId;
use rl_turn::{Phase, TurnFacts, has_row, next_phase, result};

/// Whether there is a date and it is at most now.
pub(crate) fn has_come(date: &Option<u64>, now: u64) -> bool
    ensures { result ≡ has_come date.now now }
{
    match date {
        None => false,
        Some(date) => *date <= now,
    }
}

/// What the turn of a thread's run depends on.
pub(crate) fn turn_facts<F: Facts>(facts: &F, t: ThreadId, run: &Run) -> TurnFacts
    ensures { result ≡ turn_facts (F.known facts.now) t (turn_of run.now) }
{
    TurnFacts {
        handled: run.handled,
        once: run.once,
        past: has_come(&run.deadline, facts.time()),
        stopped: run.stopped,
        empty: facts.is_empty(t, run.mode),
    }
}

/// The result of a test of the run.
fn test_result<F: Facts>(facts: &F, t: ThreadId, run: &Run) -> Option<u8>
    ensures { result ≡ test_result (F.known facts.now) t (turn_of run.now) }
{
    result(&turn_facts(facts, t, run))
}

/// The phase after one that was entered.
fn phase_after<F: Facts>(facts: &F, t: ThreadId, run: &Run, phase: Phase) -> Option<Phase>
    ensures { result ≡ phase_after (F.known facts.now) t (turn_of run.now) phase }
{
    if let Phase::Test = phase {
        return if run.result.is_some() {
            Some(Phase::Note(128))
        } else {
            Some(Phase::Note(2))
        };
    }
    if has_row(phase) {
        Some(next_phase(phase, &turn_facts(facts, t, run)))
    } else {
        None
    }
}

/// The phase that is due.
pub(crate) fn phase_due<F: Facts>(facts: &F, t: ThreadId, run: &Run) -> Option<Phase>
    ensures { result ≡ phase_due (F.known facts.now) t (turn_of run.now) run.now.last }
{
    match run.last {
        None => Some(Phase::Note(1)),
        Some(phase) => phase_after(facts, t, run, phase),
    }
}

/// A run after the entry of a phase.
pub(crate) fn enter_phase<F: Facts>(facts: &F, t: ThreadId, phase: Phase, run: &mut Run)
    ensures { turn_of run.new ≡ turn_after (F.known facts.now) t phase (turn_of run.old) }
{
    if let Phase::Test = phase {
        let found = test_result(facts, t, run);
        run.handled = found.is_some() && run.handled;
        run.result = found;
    }
    run.last = Some(phase);
}
