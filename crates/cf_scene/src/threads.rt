//! Threads are woken, told to stop, run their loops and sleep.
ghost use Rattle.std.specs.Prelude.{◌≡◌, ℕ, ◌<◌, Option, length, pos, if◌then◌else◌};
ghost use Rattle.cf_ids.specs.declared.answer.Answer.TheVariants as answers;
ghost use Rattle.rl_base.specs.Dates.{earlier, has_come};
ghost use Rattle.cf_next.specs.Stands.{Turn};
ghost use Rattle.cf_model.specs.State.{State, flags_at, with_flags};
ghost use Rattle.cf_model.specs.Things.{mode_date};
ghost use Rattle.cf_model.specs.Deals.{run_deal, wake_flags};
ghost use Rattle.cf_loops.specs.Following.{InStates};
ghost use Rattle.cf_scene.specs.Scenes.{all_flags};
ghost use Rattle.cf_scene.specs.Sleeping.{HasSlept};

use crate::flags::{Flags, Sleep};
use cf_ids::{Answer, ModeId, ThreadId};
use cf_loops::Loops;

/// Wakes the loop of a thread, which may sleep; else the wake is kept for its next sleep.
pub fn wake(flags: &mut Vec<Flags>, t: ThreadId)
    requires { t < length flags.old.items }
    ensures { all_flags flags.new.items
        ≡ with_flags t (wake_flags (flags_at t (all_flags flags.old.items))) (all_flags flags.old.items) }
{
    let place = t.0 as usize;
    flags[place] = flags[place].woken();
}

/// Tells the innermost run of a thread to stop, if `runs` says that it has one, and wakes its loop. It answers `ok` or
/// `idle`.
pub fn stop(flags: &mut Vec<Flags>, t: ThreadId, runs: bool) -> Answer
    requires { t < length flags.old.items }
    ensures answer { result ≡ (if runs then answers.Ok else answers.Idle) }
    ensures flags { all_flags flags.new.items ≡ (if runs
        then with_flags t (wake_flags (flags_at t (all_flags flags.old.items))) (all_flags flags.old.items)
        else all_flags flags.old.items) }
{
    if !runs {
        return Answer::Idle;
    }
    wake(flags, t);
    Answer::Ok
}

/// What a run of a mode of a thread's loop answers: 1 if the mode is empty, and else that the run begins.
pub fn run(loops: &Loops, t: ThreadId, m: ModeId) -> Answer
    ensures { InStates loops.now (λ s st. result ≡ (run_deal st t m).answer) }
{
    if loops.is_empty(t, m) {
        Answer::Number(1)
    } else {
        Answer::Entered
    }
}

/// The loop of a thread sleeps until the earlier of a run's deadline and a date, if it has them. It answers `woken` if a
/// wake was kept, which is taken then, `due` if one of them has come, or that it is asleep.
pub fn sleep(
    flags: &mut Vec<Flags>,
    t: ThreadId,
    deadline: Option<u64>,
    date: Option<u64>,
    time: u64,
) -> Answer
    requires { t < length flags.old.items }
    ensures { (st : State) (r : Turn) → st.parts.flags ≡ all_flags flags.old.items → st.parts.time ≡ time
        → r.deadline ≡ deadline → mode_date st t r.mode ≡ date → HasSlept st t r result flags.new.items }
{
    let place = t.0 as usize;
    if flags[place].is_woken {
        flags[place] = flags[place].sleeping(Sleep::Awake);
        return Answer::Woken;
    }
    if has_come(deadline, time) || has_come(date, time) {
        return Answer::Due;
    }
    let until = earlier(deadline, date);
    flags[place] = flags[place].sleeping(Sleep::Until(until));
    Answer::Asleep(until)
}

/// Whether there is a date and it is at most this time.
fn has_come(date: Option<u64>, time: u64) -> bool
    ensures { result ≡ has_come date time }
{
    match date {
        Some(date) => date <= time,
        None => false,
    }
}

/// The earlier one of two dates, each of which there may be or not.
pub fn earlier(a: Option<u64>, b: Option<u64>) -> Option<u64>
    ensures { result ≡ earlier a b }
{
    match (a, b) {
        (Some(a), Some(b)) => Some(if a <= b { a } else { b }),
        (None, b) => b,
        (a, None) => a,
    }
}
