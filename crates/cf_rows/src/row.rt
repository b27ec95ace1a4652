//! A journal that is written by hand: that of one string, made and released.

use crate::direct::owned_script;
use cf_ids::{Answer, ObjId, ThreadId, TypeId};
use cf_machine::replays;
use cf_run::{Action, Entry};
use std::alloc::{AllocError, Global};

// The script of one string.
const ONE_STRING: &[u8] = b"cf 1\nsetup\nmake a string \"hi\"\nrelease a\nend\n";

// The type of a string.
const STRING: TypeId = TypeId(3);

// An entry of setup.
fn entry_of_setup(action: Action, answer: Answer) -> Entry {
    Entry {
        thread: ThreadId(0),
        action,
        answer,
    }
}

/// Whether the journal of one string is legal, where its release finalises the string or tells that other references
/// are left; none if the script is not read.
pub fn is_one_string_legal(alloc: Global, finalises: bool) -> Result<Option<bool>, AllocError> {
    let Some(checked) = owned_script(alloc, ONE_STRING)? else {
        return Ok(None);
    };
    let make = Action::MakeString {
        block: 0,
        number: 0,
        used: [None; 3],
    };
    let release = Action::Release {
        block: 0,
        number: 1,
        used: [Some(ObjId(0)), None, None],
    };
    let answer = if finalises {
        Answer::Final(STRING)
    } else {
        Answer::More
    };
    let entries = [
        entry_of_setup(make, Answer::Object(ObjId(0))),
        entry_of_setup(release, answer),
        entry_of_setup(Action::Done, Answer::Ok),
    ];
    let is_legal = replays(alloc, checked.script(), &entries)?;
    Ok(Some(is_legal))
}
