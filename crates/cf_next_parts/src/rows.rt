//! What a row tells of a thread, and whether it holds.
ghost use Rattle.std.specs.Prelude.{◌≡◌, ◌↔◌, true};
ghost use Rattle.std.specs.List.{All};
ghost use Rattle.cf_ids.specs.Ranges.{IsObjectNumber};

use crate::table::Table;
use crate::words::{NONE, Words, number, says};
use cf_ids::{Answer, OBJECT_NUMBERS, ObjId, TypeId};
use cf_next::Frames;
use cf_syntax::Script;
use rl_turn::Phase;

/// The answer of an entry.
#[derive(Clone, Copy)]
pub(crate) enum Reply {
    Plain,
    Object(u16),
    Entered,
    Final,
}

fn answer(reply: &Reply) -> Answer {
    match reply {
        Reply::Plain => Answer::Ok,
        Reply::Object(object) => Answer::Object(ObjId(u32::from(*object))),
        Reply::Entered => Answer::Entered,
        Reply::Final => Answer::Final(TypeId(6)),
    }
}

/// What is told of a thread. Rows of entries move it on.
#[derive(Clone, Copy)]
pub(crate) enum Row {
    /// The words of the next action, its answer and its list. It is entered, unless there is none.
    Entry(Words, Reply, &'static [u32]),
    /// The statements from a number to another retain the object 0, and are entered.
    Retains(u32, u32),
    /// The words of the next action, which is not entered.
    Next(Words),
    /// After so many retains that come next, the object of the following one.
    Ahead(usize, u32),
    /// Whether there is a run, which is told to stop.
    Stop(bool),
    /// The mode and the deadline of the innermost run, and whether it was told to stop.
    Run(u16, Option<u64>, bool),
    /// The innermost run collected the observers of its entry last.
    Collected,
}

/// Whether numbers are those that objects can have, as those of a list are, and small ones of registrations.
fn are_objects(list: &[u32]) -> bool
    ensures { (result ≡ true) ↔ All IsObjectNumber list.now }
{
    list.iter().all(|n| (*n as usize) < OBJECT_NUMBERS)
}

/// Whether the next action has these words; it is entered.
fn enters(
    frames: &mut Frames,
    script: &Script,
    facts: &Table,
    wanted: &Words,
    reply: &Reply,
    list: &[u32],
) -> bool {
    let next = frames.next(script, facts);
    if !says(&next, wanted) || !are_objects(list) {
        return false;
    }
    let Some(action) = &next else {
        return true;
    };
    if frames.reserve_for(action, list.len()).is_err() {
        return false;
    }
    frames.advance(script, facts, action, &answer(reply), list);
    true
}

/// Whether the statements with the numbers from `first` to `last` retain the object 0; they are entered.
fn retain(frames: &mut Frames, script: &Script, facts: &Table, first: u32, last: u32) -> bool {
    for at in first..=last {
        if !enters(
            frames,
            script,
            facts,
            &("retain", at, 0),
            &Reply::Plain,
            &[],
        ) {
            return false;
        }
    }
    true
}

/// Whether the innermost run has this mode and this deadline, and was told to stop or not.
fn runs(frames: &Frames, facts: &Table, mode: u16, deadline: Option<u64>, stopped: bool) -> bool {
    let (Some(of), Some(turn)) = (frames.mode(), frames.turn(facts)) else {
        return false;
    };
    of.0 == mode && frames.deadline() == deadline && turn.stopped == stopped
}

/// Whether a row holds.
fn holds(frames: &mut Frames, script: &Script, facts: &Table, row: &Row) -> bool {
    match row {
        Row::Entry(wanted, reply, list) => enters(frames, script, facts, wanted, reply, list),
        Row::Retains(first, last) => retain(frames, script, facts, *first, *last),
        Row::Next(wanted) => says(&frames.next(script, facts), wanted),
        Row::Ahead(k, wanted) => number(&frames.ahead(script, facts, *k)) == *wanted,
        Row::Stop(wanted) => frames.stop() == *wanted,
        Row::Run(mode, deadline, stopped) => runs(frames, facts, *mode, *deadline, *stopped),
        Row::Collected => matches!(frames.phase(), Some(Phase::Note(1))),
    }
}

/// The place of the first row that does not hold, and none if each holds.
pub(crate) fn wrong_row(
    frames: &mut Frames,
    script: &Script,
    facts: &Table,
    rows: &[Row],
) -> Option<usize> {
    for (place, row) in rows.iter().enumerate() {
        if !holds(frames, script, facts, row) {
            return Some(place);
        }
    }
    None
}
