//! The lines of actions that no statement writes, of each answer, and the lines at the end.
use crate::lines::{assert_none, is_line};
use crate::parts::script_of;
use crate::scripts::script;
use cf_ids::{Answer, Description, HandlerId, ModeId, ObjId, ThreadId, TypeId};
use cf_model::{Action, Ending, Entry};
use cf_render::{end_lines, is_written, render};
use cf_script::Script;
use std::alloc::{AllocError, Global};
use std::mem::size_of;
use std::process::Abort;
use std::test::Fail;

/// Whether the entry of an action of the thread `work` has this line, and whether it is written without the journal.
fn is_told(
    alloc: Global,
    script: &Script,
    action: Action,
    answer: Answer,
    wanted: &str,
    seen: bool,
) -> bool {
    let entry = Entry {
        thread: ThreadId(1),
        action,
        answer,
    };
    is_line(alloc, script, &entry, wanted) && is_written(false, &entry) == seen
}

/// The lines of entries of the thread `work`.
#[derive(Drop)]
struct Told<'s> {
    alloc: Global,
    script: &'s Script,
    /// The first line that is not as wanted.
    wrong: Option<&'static str>,
}

impl Told<'_> {
    /// Compares the line of an entry, and whether it is written without the journal.
    fn has(&mut self, action: Action, answer: Answer, wanted: &'static str, seen: bool) {
        let is_told = is_told(self.alloc, self.script, action, answer, wanted, seen);
        if !is_told && self.wrong.is_none() {
            self.wrong = Some(wanted);
        }
    }
}

/// Actions of a thread at the ends of its blocks, of its work and of its handlers.
fn worked(told: &mut Told) {
    told.has(
        Action::Pack(ThreadId(1), Some(ObjId(4))),
        Answer::Ok,
        "t1 pack work #4 ok",
        false,
    );
    told.has(Action::Claim(None), Answer::Ok, "t1 claim nil ok", false);
    told.has(Action::Done, Answer::Ok, "t1 done ok", false);
    told.has(
        Action::Owed(ObjId(12)),
        Answer::Ok,
        "t1 release #12 ok",
        false,
    );
    told.has(
        Action::DropSlot {
            body: ObjId(7),
            place: 10,
            object: ObjId(3),
        },
        Answer::Ok,
        "t1 drop #7 10 #3 ok",
        false,
    );
    told.has(
        Action::Call {
            handler: HandlerId(0),
            item: None,
            info: Some(ObjId(0)),
        },
        Answer::Ok,
        "t1 call seen nil #0 ok",
        true,
    );
    told.has(Action::Return, Answer::Ok, "t1 return ok", false);
    told.has(Action::Spend(ObjId(2)), Answer::Ok, "t1 spend #2 ok", false);
}

/// Actions of the runs of a loop, and of the lead.
fn ran(told: &mut Told) {
    told.has(Action::Note(128), Answer::Ok, "t1 note 128 ok", false);
    told.has(Action::Sources, Answer::Ok, "t1 sources ok", false);
    told.has(Action::Timers, Answer::Ok, "t1 timers ok", false);
    told.has(Action::Sleep, Answer::Ok, "t1 sleep ok", false);
    told.has(Action::Test, Answer::Ok, "t1 test ok", false);
    told.has(Action::Ran(ModeId(1)), Answer::Ok, "t1 ran panel ok", true);
    told.has(
        Action::Tick(18_446_744_073_709_551_615),
        Answer::Ok,
        "t1 tick 18446744073709551615 ok",
        false,
    );
    told.has(Action::Stall, Answer::Ok, "t1 stall ok", false);
}

/// The first line of an action that is not as wanted.
fn wrong_action(alloc: Global, script: &Script) -> Option<&'static str> {
    let mut told = Told {
        alloc,
        script,
        wrong: None,
    };
    worked(&mut told);
    ran(&mut told);
    told.wrong
}

/// The actions that no statement writes.
#[test]
fn actions(rt: HostRuntime) -> Result<(), Fail> {
    let script = script_of(rt.alloc(), Vec::new(rt.alloc()))?;
    assert_none(&rt, wrong_action(rt.alloc(), &script));
    Ok(())
}

/// Answers of releases, of what is looked up, and of numbers.
fn found(told: &mut Told) {
    told.has(Action::Done, Answer::More, "t1 done more", false);
    told.has(
        Action::Done,
        Answer::Final(TypeId(3)),
        "t1 done final String",
        true,
    );
    told.has(
        Action::Done,
        Answer::Final(TypeId(14)),
        "t1 done final pair",
        true,
    );
    told.has(Action::Done, Answer::Skip, "t1 done skip", false);
    told.has(Action::Done, Answer::Nil, "t1 done nil", false);
    told.has(Action::Done, Answer::Object(ObjId(9)), "t1 done #9", false);
    told.has(Action::Done, Answer::Number(-5), "t1 done -5", false);
}

/// Answers of edits.
fn edited(told: &mut Told) {
    told.has(Action::Done, Answer::Lossy, "t1 done lossy", false);
    told.has(Action::Done, Answer::Range, "t1 done range", false);
    told.has(Action::Done, Answer::Split, "t1 done split", false);
    told.has(Action::Done, Answer::Added, "t1 done added", false);
    told.has(Action::Done, Answer::Changed, "t1 done changed", false);
    told.has(Action::Done, Answer::Present, "t1 done present", false);
    told.has(Action::Done, Answer::Absent, "t1 done absent", false);
}

/// Answers of what is put into a run loop, and of its runs.
fn placed(told: &mut Told) {
    told.has(Action::Done, Answer::Empty, "t1 done empty", false);
    told.has(Action::Done, Answer::Invalid, "t1 done invalid", false);
    told.has(Action::Done, Answer::Elsewhere, "t1 done elsewhere", false);
    told.has(Action::Done, Answer::Idle, "t1 done idle", false);
}

/// Answers of sleeps and tests.
fn slept(told: &mut Told) {
    told.has(Action::Done, Answer::Entered, "t1 done in", false);
    told.has(Action::Done, Answer::Woken, "t1 done woken", false);
    told.has(Action::Done, Answer::Due, "t1 done due", false);
    told.has(
        Action::Done,
        Answer::Asleep(Some(5)),
        "t1 done asleep",
        false,
    );
    told.has(Action::Done, Answer::Again, "t1 done again", false);
}

/// The answer that is a description.
fn shown(alloc: Global) -> Result<Answer, AllocError> {
    let text = Vec::from_slice(alloc, b"String \"x\"")?;
    Ok(Answer::Shown(Description::new(alloc, text)?))
}

/// The first line of an answer that is not as wanted.
fn wrong_answer(alloc: Global, script: &Script) -> Result<Option<&'static str>, AllocError> {
    let shown = shown(alloc)?;
    let mut told = Told {
        alloc,
        script,
        wrong: None,
    };
    told.has(Action::Done, shown, "t1 done String \"x\"", true);
    found(&mut told);
    edited(&mut told);
    placed(&mut told);
    slept(&mut told);
    Ok(told.wrong)
}

/// The answers.
#[test]
fn answers(rt: HostRuntime) -> Result<(), Fail> {
    let script = script(rt.alloc(), &[])?;
    assert_none(&rt, wrong_answer(rt.alloc(), &script)?);
    Ok(())
}

/// An entry is small, since a journal has many.
#[test]
fn size(rt: HostRuntime) {
    assert!(rt; size_of::<Entry>() <= 64, "an entry has more than 64 bytes");
}

/// Whether the end of a run without entries is one line.
fn is_end(alloc: Global, script: &Script) -> Result<bool, AllocError> {
    let lines = end_lines(alloc, script, &[], &[], Ending::Limit)?;
    match lines.as_slice() {
        [line] => Ok(
            line.as_slice() == b"end limit events 0 objects 0 finals 0 alive 0".as_slice(),
        ),
        _ => Ok(false),
    }
}

/// Whether that line is all that is written of it.
fn is_whole(alloc: Global, script: &Script) -> Result<bool, AllocError> {
    let text = render(alloc, script, &[], &[], Ending::Full, true)?;
    Ok(text.as_slice() == b"end full events 0 objects 0 finals 0 alive 0\n".as_slice())
}

/// The lines at the end of a run without entries.
#[test]
fn ends(rt: HostRuntime) -> Result<(), Fail> {
    let script = script(rt.alloc(), &["make a string \"x\""])?;
    assert!(rt; is_end(rt.alloc(), &script)?, "the end line");
    assert!(rt; is_whole(rt.alloc(), &script)?, "the whole text");
    Ok(())
}
