//! A thread's way through the script, in stages.
use crate::rows::{Row, wrong_row};
use crate::scripts::script;
use crate::worlds::{World, table};
use cf_ids::ThreadId;
use cf_next::Frames;
use cf_syntax::Script;
use std::alloc::{AllocError, Global};
use std::process::Abort;

/// Rows that hold in a world, so many times after one another.
#[derive(Clone, Copy)]
pub(crate) struct Stage {
    pub(crate) world: World,
    pub(crate) times: u16,
    pub(crate) rows: &'static [Row],
}

/// The place of the row of a stage that does not hold, and none if each holds.
fn wrong_in(frames: &mut Frames, script: &Script, stage: &Stage) -> Option<usize> {
    let facts = table(stage.world);
    for _ in 0..stage.times {
        let wrong = wrong_row(frames, script, &facts, stage.rows);
        if wrong.is_some() {
            return wrong;
        }
    }
    None
}

/// The places of the first stage and of its first row that do not hold, and none if each holds.
fn wrong(frames: &mut Frames, script: &Script, stages: &[Stage]) -> Option<(usize, usize)> {
    for (place, stage) in stages.iter().enumerate() {
        if let Some(row) = wrong_in(frames, script, stage) {
            return Some((place, row));
        }
    }
    None
}

/// What does not hold of a thread's way.
pub(crate) fn wrong_of(
    alloc: Global,
    thread: ThreadId,
    stages: &[Stage],
) -> Result<Option<(usize, usize)>, AllocError> {
    let script = script(alloc)?;
    let mut frames = Frames::new(alloc, thread);
    Ok(wrong(&mut frames, &script, stages))
}

/// Stops a test of which a stage and a row do not hold. It stands once for all tests.
pub(crate) fn assert_holds(rt: &impl Abort, wrong: Option<(usize, usize)>) {
    assert_eq!(rt;
        wrong,
        None,
        "the first stage and the first row that do not hold"
    );
}
