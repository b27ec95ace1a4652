//! The tables of the turn.
ghost use Rattle.std.specs.Prelude.{◌≡◌, ◌↔◌, Some, IsTrue};
ghost use Rattle.rl_turn.specs.Turn.{HasRow, next_of, result_of};

use crate::phases::{Phase, TurnFacts};

/// Whether a phase comes after this one: so it is of each phase but `Ran`, and of a note exactly if its number is an
/// activity.
pub fn has_row(p: Phase) -> bool
    ensures { IsTrue result ↔ HasRow p }
{
    match p {
        Phase::Note(activity) => matches!(activity, 1 | 2 | 4 | 32 | 64 | 128),
        Phase::Ran => false,
        _ => true,
    }
}

/// The phase after `p`. A turn that goes on after its test begins with note 2, and then nothing is handled yet.
pub fn next_phase(p: Phase, f: &TurnFacts) -> Phase
    requires { HasRow p }
    ensures { next_of f.now p ≡ Some result }
{
    match p {
        Phase::Note(1) => Phase::Note(2),
        Phase::Note(2) => Phase::Note(4),
        Phase::Note(4) => Phase::Sources,
        Phase::Sources if f.handled || f.past => Phase::Timers,
        Phase::Sources => Phase::Note(32),
        Phase::Note(32) => Phase::Sleep,
        Phase::Sleep => Phase::Note(64),
        Phase::Note(64) => Phase::Timers,
        Phase::Timers => Phase::Test,
        Phase::Test if result(f).is_some() => Phase::Note(128),
        Phase::Test => Phase::Note(2),
        Phase::Note(128) => Phase::Ran,
        _ => unreachable!(),
    }
}

/// The result of a run at its test, or `None` if it goes on: HandledSource 4, TimedOut 3, Stopped 2 or Finished 1,
/// the first of these that applies.
pub fn result(f: &TurnFacts) -> Option<u8>
    ensures { result ≡ result_of f.now }
{
    if f.handled && f.once {
        Some(4)
    } else if f.past {
        Some(3)
    } else if f.stopped {
        Some(2)
    } else if f.empty {
        Some(1)
    } else {
        None
    }
}
