//! The line of an entry of each form of statement of run loops and notices.
use crate::lines::{assert_none, has_line};
use crate::parts::script_of;
use cf_ids::{HandlerId, ModeId, NameId, ThreadId, VarId};
use cf_script::Script;
use cf_syntax::{ModeWord, Statement, ThreadWord};
use std::alloc::{AllocError, Global};
use std::process::Abort;
use std::test::Fail;

const ITEM: VarId = VarId(0);

const INFO: VarId = VarId(1);

const WORK: ThreadWord = ThreadWord::Named(Some(ThreadId(1)));

/// Statements that make items.
fn items(alloc: Global) -> Result<Vec<Statement>, AllocError> {
    Ok(vec![in alloc;
        Statement::MakeSource {
            variable: ITEM,
            order: 0,
            handler: HandlerId(0),
            info: Some(INFO)
        },
        Statement::MakeTimer {
            variable: ITEM,
            first: 5,
            interval: 10,
            handler: HandlerId(0),
            info: Some(INFO)
        },
        Statement::MakeObserver {
            variable: ITEM,
            mask: 231,
            repeats: false,
            order: 3,
            handler: HandlerId(0),
            info: Some(INFO)
        },
        Statement::MakeObserver {
            variable: ITEM,
            mask: 1,
            repeats: true,
            order: -3,
            handler: HandlerId(0),
            info: Some(INFO)
        },
    ]?)
}

/// Statements that act on items and modes.
fn edits(alloc: Global) -> Result<Vec<Statement>, AllocError> {
    Ok(vec![in alloc;
        Statement::Add {
            item: ITEM,
            thread: ThreadWord::Own,
            mode: ModeWord::Mode(ModeId(0))
        },
        Statement::Drop {
            item: ITEM,
            thread: WORK,
            mode: ModeWord::Common
        },
        Statement::Common {
            thread: ThreadWord::Named(Some(ThreadId::SETUP)),
            mode: ModeId(1)
        },
        Statement::Signal { source: ITEM },
        Statement::Invalidate { item: ITEM },
    ]?)
}

/// Statements that act on runs.
fn runs(alloc: Global) -> Result<Vec<Statement>, AllocError> {
    Ok(vec![in alloc;
        Statement::Wake { thread: WORK },
        Statement::Stop {
            thread: ThreadWord::Own
        },
        Statement::Run {
            mode: ModeId(1),
            limit: None,
            once: true
        },
        Statement::Run {
            mode: ModeId(0),
            limit: Some(5),
            once: false
        },
    ]?)
}

/// Statements of notices.
fn notices(alloc: Global) -> Result<Vec<Statement>, AllocError> {
    Ok(vec![in alloc;
        Statement::Observe {
            observer: ITEM,
            handler: HandlerId(0),
            name: Some(NameId(0)),
            filter: Some(INFO)
        },
        Statement::Observe {
            observer: ITEM,
            handler: HandlerId(0),
            name: None,
            filter: None
        },
        Statement::Forget {
            observer: ITEM,
            name: Some(NameId(0)),
            filter: None
        },
        Statement::Post {
            name: NameId(0),
            info: Some(ITEM)
        },
    ]?)
}

/// The first line of a statement that is not as wanted, where the variables have the object 1, none, and the object 3.
fn wrong_line(alloc: Global, script: &Script, lines: &[&'static str]) -> Option<&'static str> {
    for (number, wanted) in lines.iter().enumerate() {
        if !has_line(alloc, script, number, wanted) {
            return Some(*wanted);
        }
    }
    None
}

const ITEM_LINES: [&str; 4] = [
    "t0 make source 0 seen #1 ok",
    "t0 make timer 5 10 seen #1 ok",
    "t0 make observer 231 once 3 seen #1 ok",
    "t0 make observer 1 repeats -3 seen #1 ok",
];

/// Each statement of those that make items has its line.
#[test]
fn lines_of_items(rt: HostRuntime) -> Result<(), Fail> {
    let script = script_of(rt.alloc(), items(rt.alloc())?)?;
    assert_none(&rt, wrong_line(rt.alloc(), &script, &ITEM_LINES));
    Ok(())
}

const EDIT_LINES: [&str; 5] = [
    "t0 add #1 self default ok",
    "t0 drop #1 work common ok",
    "t0 common setup panel ok",
    "t0 signal #1 ok",
    "t0 invalidate #1 ok",
];

/// Each statement of those that act on items and modes has its line.
#[test]
fn lines_of_edits(rt: HostRuntime) -> Result<(), Fail> {
    let script = script_of(rt.alloc(), edits(rt.alloc())?)?;
    assert_none(&rt, wrong_line(rt.alloc(), &script, &EDIT_LINES));
    Ok(())
}

const RUN_LINES: [&str; 4] = [
    "t0 wake work ok",
    "t0 stop self ok",
    "t0 run panel forever once ok",
    "t0 run default 5 ok",
];

/// Each statement of those that act on runs has its line.
#[test]
fn lines_of_runs(rt: HostRuntime) -> Result<(), Fail> {
    let script = script_of(rt.alloc(), runs(rt.alloc())?)?;
    assert_none(&rt, wrong_line(rt.alloc(), &script, &RUN_LINES));
    Ok(())
}

const NOTICE_LINES: [&str; 4] = [
    "t0 observe #1 seen bell nil ok",
    "t0 observe #1 seen any any ok",
    "t0 forget #1 bell any ok",
    "t0 post bell #1 ok",
];

/// Each statement of those that act on notices has its line.
#[test]
fn lines_of_notices(rt: HostRuntime) -> Result<(), Fail> {
    let script = script_of(rt.alloc(), notices(rt.alloc())?)?;
    assert_none(&rt, wrong_line(rt.alloc(), &script, &NOTICE_LINES));
    Ok(())
}
