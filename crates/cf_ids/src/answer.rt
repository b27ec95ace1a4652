//! What an action of a thread answers.
use crate::description::Description;
use crate::numbers::{ObjId, TypeId};

/// The answer of an entry of a journal.
#[derive(Debug, Drop)]
pub enum Answer {
    /// It is done.
    Ok,
    /// Of a release: other references to the object are left.
    More,
    /// Of a release: it was the last reference, and the object of this type is finalised.
    Final(TypeId),
    /// A variable is empty, or its object is not of a class on which the form acts.
    Skip,
    /// There is nothing at the place.
    Nil,
    /// The object that was made or found.
    Object(ObjId),
    /// A description, as bytes.
    Shown(Description),
    /// Every answer that is a number.
    Number(i64),
    /// The value does not fit the kind.
    Lossy,
    /// A place or a range passes the length.
    Range,
    /// A cut falls inside a surrogate pair.
    Split,
    /// The key or the member was not there, and is now.
    Added,
    /// The key or the member was there, and its value is another now.
    Changed,
    /// The key, the member or the item is there already.
    Present,
    /// The key, the member or the item is not there.
    Absent,
    /// The heap is empty.
    Empty,
    /// The item is not valid.
    Invalid,
    /// The item is in another thread's run loop.
    Elsewhere,
    /// The thread runs no run loop.
    Idle,
    /// A run of a run loop begins. It is written `in`.
    Entered,
    /// A sleep found the wake flag set.
    Woken,
    /// A sleep found something due.
    Due,
    /// A sleep begins. Its date, if it has one, is not written.
    Asleep(Option<u64>),
    /// A run of a run loop goes on with another turn.
    Again,
}

/// What a release of a reference left.
#[derive(Clone, Copy, Debug, PartialEq, Eq)]
pub enum Ended {
    /// Another reference.
    More,
    /// None.
    Last,
}
