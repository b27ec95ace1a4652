//! One thing that is changed in a journal.

use cf_ids::{Answer, ObjId, ThreadId};
use cf_run::{Action, Entry};
use cf_same::{is_same_action, is_same_answer};
use std::alloc::AllocError;
use std::mem;

/// What is changed at an entry.
#[derive(Clone, Copy)]
pub enum Change {
    /// It has another answer.
    Answer,
    /// It is of another thread.
    Thread,
    /// It names another object.
    Object,
    /// It and the next one are exchanged.
    Exchanged,
    /// It is left out.
    LeftOut,
    /// It stands twice.
    Doubled,
    /// Its `final` is `more`.
    Unfinalised,
}

/// Each change, in the order in which they are counted.
pub const CHANGES: [Change; 7] = [
    Change::Answer,
    Change::Thread,
    Change::Object,
    Change::Exchanged,
    Change::LeftOut,
    Change::Doubled,
    Change::Unfinalised,
];

impl Change {
    /// What is done, in words.
    pub fn words(self) -> &'static str {
        match self {
            Change::Answer => "with another answer",
            Change::Thread => "of another thread",
            Change::Object => "with another object",
            Change::Exchanged => "exchanged with the next",
            Change::LeftOut => "left out",
            Change::Doubled => "twice",
            Change::Unfinalised => "with `more` for `final`",
        }
    }
}

// Whether two entries are the same.
fn is_same(a: &Entry, b: &Entry) -> bool {
    a.thread == b.thread
        && is_same_action(&a.action, &b.action)
        && is_same_answer(&a.answer, &b.answer)
}

// Whether the entries at two places are the same.
fn are_same_at(entries: &[Entry], a: usize, b: usize) -> bool {
    match (entries.get(a), entries.get(b)) {
        (Some(a), Some(b)) => is_same(a, b),
        _ => false,
    }
}

/// Whether a journal is still a beginning of what it was once the entry at a place is left out: each entry after that
/// is the same as the one before it.
pub fn is_beginning_without(entries: &[Entry], place: usize) -> bool {
    (place..entries.len().saturating_sub(1)).all(|at| are_same_at(
        entries,
        at,
        at.saturating_add(1),
    ))
}

// Another answer.
fn other_answer(answer: &Answer) -> Answer {
    match answer {
        Answer::Ok => Answer::More,
        _ => Answer::Ok,
    }
}

// The answer once more, if it has no description.
fn copy_of(answer: &Answer) -> Option<Answer> {
    match answer {
        Answer::Ok => Some(Answer::Ok),
        Answer::More => Some(Answer::More),
        Answer::Skip => Some(Answer::Skip),
        Answer::Final(class) => Some(Answer::Final(*class)),
        Answer::Object(object) => Some(Answer::Object(*object)),
        Answer::Number(value) => Some(Answer::Number(*value)),
        _ => None,
    }
}

// The next number of an object.
fn next_object(object: ObjId) -> ObjId {
    ObjId(object.0.wrapping_add(1) % 65_536)
}

// The objects that a statement uses, with another first one; none if it uses none.
fn other_used(used: &[Option<ObjId>; 3]) -> Option<[Option<ObjId>; 3]> {
    let first = used[0]?;
    Some([Some(next_object(first)), used[1], used[2]])
}

// The action with another object, for some forms.
fn other_action(action: &Action) -> Option<Action> {
    match action {
        Action::Retain {
            block,
            number,
            used,
        } => Some(Action::Retain {
            block: *block,
            number: *number,
            used: other_used(used)?,
        }),
        Action::Release {
            block,
            number,
            used,
        } => Some(Action::Release {
            block: *block,
            number: *number,
            used: other_used(used)?,
        }),
        Action::Show {
            block,
            number,
            used,
        } => Some(Action::Show {
            block: *block,
            number: *number,
            used: other_used(used)?,
        }),
        Action::ArrAppend {
            block,
            number,
            used,
        } => Some(Action::ArrAppend {
            block: *block,
            number: *number,
            used: other_used(used)?,
        }),
        Action::Owed(object) => Some(Action::Owed(next_object(*object))),
        Action::DropSlot {
            body,
            place,
            object,
        } => Some(Action::DropSlot {
            body: *body,
            place: *place,
            object: next_object(*object),
        }),
        _ => None,
    }
}

// Exchanges two entries, if both are there and differ.
fn exchange(entries: &mut Vec<Entry>, place: usize) -> bool {
    let next = place.saturating_add(1);
    if next >= entries.len() || place >= next || are_same_at(entries.as_slice(), place, next) {
        return false;
    }
    entries.swap(place, next);
    true
}

/// What is put back once a changed journal is judged.
#[derive(Drop)]
pub enum Undo {
    Answer(Answer),
    Thread(ThreadId),
    Action(Action),
    Exchange,
    Insert(Entry),
    Remove,
}

// Puts another answer.
fn put_answer(entry: &mut Entry, answer: Answer) -> Option<Undo> {
    Some(Undo::Answer(mem::replace(&mut entry.answer, answer)))
}

// Another thread.
fn put_thread(entry: &mut Entry) -> Option<Undo> {
    let thread = entry.thread;
    entry.thread = ThreadId(thread.0.wrapping_add(1) % 64);
    Some(Undo::Thread(thread))
}

// Another object.
fn put_object(entry: &mut Entry) -> Option<Undo> {
    let action = other_action(&entry.action)?;
    Some(Undo::Action(mem::replace(&mut entry.action, action)))
}

// A change of the entry itself.
fn change_entry(entry: &mut Entry, change: Change) -> Option<Undo> {
    match change {
        Change::Answer => {
            let answer = other_answer(&entry.answer);
            put_answer(entry, answer)
        }
        Change::Thread => put_thread(entry),
        Change::Object => put_object(entry),
        Change::Unfinalised if matches!(entry.answer, Answer::Final(_)) => {
            put_answer(entry, Answer::More)
        }
        _ => None,
    }
}

// The entry stands twice, if its answer has no description.
fn double(entries: &mut Vec<Entry>, place: usize) -> Result<Option<Undo>, AllocError> {
    let Some(entry) = entries.get(place) else {
        return Ok(None);
    };
    let Some(answer) = copy_of(&entry.answer) else {
        return Ok(None);
    };
    let again = Entry {
        thread: entry.thread,
        action: entry.action,
        answer,
    };
    entries.insert(place, again)?;
    Ok(Some(Undo::Remove))
}

/// Changes a journal at a place, if there is something to change there, and tells how it is put back.
pub fn change_at(
    entries: &mut Vec<Entry>,
    place: usize,
    change: Change,
) -> Result<Option<Undo>, AllocError> {
    match change {
        Change::Exchanged => {
            if exchange(entries, place) {
                Ok(Some(Undo::Exchange))
            } else {
                Ok(None)
            }
        }
        Change::LeftOut if place < entries.len() => Ok(Some(Undo::Insert(entries.remove(place)))),
        Change::Doubled => double(entries, place),
        _ => match entries.get_mut(place) {
            Some(entry) => Ok(change_entry(entry, change)),
            None => Ok(None),
        },
    }
}

/// Puts back what was changed.
pub fn put_back(entries: &mut Vec<Entry>, place: usize, undo: Undo) -> Result<(), AllocError> {
    match undo {
        Undo::Exchange => {
            exchange(entries, place);
        }
        Undo::Insert(entry) => {
            if place <= entries.len() {
                entries.insert(place, entry)?;
            }
        }
        Undo::Remove => {
            if place < entries.len() {
                entries.remove(place);
            }
        }
        Undo::Answer(answer) => {
            if let Some(entry) = entries.get_mut(place) {
                entry.answer = answer;
            }
        }
        Undo::Thread(thread) => {
            if let Some(entry) = entries.get_mut(place) {
                entry.thread = thread;
            }
        }
        Undo::Action(action) => {
            if let Some(entry) = entries.get_mut(place) {
                entry.action = action;
            }
        }
    }
    Ok(())
}
