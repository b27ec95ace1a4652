//! Lines beside those that are wanted.
use cf_ids::{Answer, ObjId, ThreadId};
use cf_model::{Action, Entry};
use cf_render::line;
use cf_script::Script;
use std::alloc::Global;
use std::process::Abort;

/// Whether an entry has this line.
pub(crate) fn is_line(alloc: Global, script: &Script, entry: &Entry, wanted: &str) -> bool {
    match &line(alloc, script, entry) {
        Ok(line) => line.as_slice() == wanted.as_bytes(),
        Err(_) => false,
    }
}

/// The entry of a statement of setup; none if there is no such statement.
pub(crate) fn entry(script: &Script, number: usize) -> Option<Entry> {
    let block = script.block(0)?;
    let statement = block.statements.as_slice().get(number)?;
    let used = [Some(ObjId(1)), None, Some(ObjId(3))];
    Some(Entry {
        thread: ThreadId::SETUP,
        action: Action::of(statement, 0, u32::try_from(number).ok()?, used),
        answer: Answer::Ok,
    })
}

/// Whether a statement of setup has this line.
pub(crate) fn has_line(alloc: Global, script: &Script, number: usize, wanted: &str) -> bool {
    match &entry(script, number) {
        Some(entry) => is_line(alloc, script, entry, wanted),
        None => false,
    }
}

/// Stops a test of which a line is not as wanted. It stands once for all tests.
pub(crate) fn assert_none(rt: &impl Abort, wrong: Option<&'static str>) {
    assert!(rt; wrong.is_none(), "a line that was wanted: {wrong:?}");
}
