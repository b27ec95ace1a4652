//! The entries that count references, and those of parcels and of a block's end, and what they do to the ground of a
//! world.
ghost use Rattle.std.specs.Prelude.{◌≡◌, ◌<◌, ◌++◌, [], ◌∷◌, length, map, slice_index_or, true, vec_len, vec_capacity};
ghost use Rattle.cf_contents.specs.Contents.{present};
ghost use Rattle.cf_contents.specs.Stores.{is_live_in};
ghost use Rattle.cf_model.specs.Steps.{start_all};
ghost use Rattle.cf_world.specs.Grounds.{ends_in, flags_of};
ghost use Rattle.cf_world.specs.Entering.{HasEntered, IsClaim, IsCut, IsDrop, IsEnd, IsPack, IsRetain, IsSkip, MayAct, answer_for, finalised_if, flags_at_end, gained_in, packed_rows};

use crate::ground::Ground;
use crate::parcels::Parcels;
use cf_ids::{Answer, Ended, ObjId, ThreadId};
use cf_model::{Action, Entry};
use cf_scene::Flags;
use cf_store::Store;

impl Ground {
    /// A statement that retains the object of a variable, which may be empty.
    pub fn enter_retain(&mut self, t: ThreadId, action: Action, object: Option<ObjId>)
        requires acts { MayAct self.old t action }
        requires retain { IsRetain self.old t object }
        ensures entered { HasEntered t action self.old self.new }
        ensures gained { gained_in self.old t ≡ present (object ∷ []) }
    {
        let answer = answer_for(object);
        write(&mut self.journal, t, action, answer);
    }

    /// A release of a variable that is empty.
    pub fn enter_skip(&mut self, t: ThreadId, action: Action)
        requires acts { MayAct self.old t action }
        requires skip { IsSkip self.old t }
        ensures entered { HasEntered t action self.old self.new }
        ensures gained { gained_in self.old t ≡ [] }
    {
        write(&mut self.journal, t, action, Answer::Skip);
    }

    /// A reference of a thread to an object is taken away; `ended` is what that leaves.
    pub fn enter_cut(&mut self, t: ThreadId, action: Action, object: ObjId, ended: Ended)
        requires acts { MayAct self.old t action }
        requires cut { IsCut self.old t object }
        requires ended { ends_in self.old object ended }
        ensures entered { HasEntered t action self.old self.new }
    {
        let answer = self.answer_of_cut(object, ended);
        retire(&mut self.store, object, ended);
        write(&mut self.journal, t, action, answer);
    }

    /// A finalised body gives up the first slot that is left to it; `ended` is what that leaves of the object in it.
    pub fn enter_drop(
        &mut self,
        t: ThreadId,
        action: Action,
        body: ObjId,
        object: ObjId,
        ended: Ended,
    )
        requires acts { MayAct self.old t action }
        requires drop { IsDrop self.old t body object }
        requires ended { ends_in self.old object ended }
        ensures entered { HasEntered t action self.old self.new }
    {
        let answer = self.answer_of_cut(object, ended);
        self.store.drop_slot(body);
        retire(&mut self.store, object, ended);
        write(&mut self.journal, t, action, answer);
    }

    /// A thread claims what a place of its parcel has.
    pub fn enter_claim(&mut self, t: ThreadId, action: Action, place: usize)
        requires acts { MayAct self.old t action }
        requires claim { IsClaim self.old t place }
        ensures entered { HasEntered t action self.old self.new }
        ensures gained { gained_in self.old t ≡ [] }
    {
        let answer = answer_for(self.parcels.at(t, place));
        self.parcels.set(t, place, None);
        write(&mut self.journal, t, action, answer);
    }

    /// Setup packs the object of a variable for a place of a thread's parcel, if it has one.
    pub fn enter_pack(
        &mut self,
        t: ThreadId,
        action: Action,
        to: ThreadId,
        place: usize,
        object: Option<ObjId>,
    )
        requires acts { MayAct self.old t action }
        requires pack { IsPack self.old t to place object }
        ensures entered { HasEntered t action self.old self.new }
        ensures gained { gained_in self.old t ≡ [] }
    {
        pack(&mut self.parcels, to, place, &object);
        write(&mut self.journal, t, action, answer_for(object));
    }

    /// The block of a thread is at its end; that of setup starts all threads.
    pub fn enter_end(&mut self, t: ThreadId, action: Action)
        requires acts { MayAct self.old t action }
        requires end { IsEnd self.old t }
        ensures entered { HasEntered t action self.old self.new }
        ensures gained { gained_in self.old t ≡ [] }
    {
        start_at_end(&mut self.flags, t);
        write(&mut self.journal, t, action, Answer::Ok);
    }
}

/// An entry is written.
pub(crate) fn write(journal: &mut Vec<Entry>, t: ThreadId, action: Action, answer: Answer)
    requires { vec_len journal.old < vec_capacity journal.old }
    ensures items { journal.new.items ≡ journal.old.items ++ record { thread = t; action = action; answer = answer } ∷ [] }
    ensures room { vec_capacity journal.new ≡ vec_capacity journal.old }
{
    journal.push_reserved(Entry {
        thread: t,
        action,
        answer,
    });
}

/// An object is finalised, if its last reference is gone.
fn retire(store: &mut Store, object: ObjId, ended: Ended)
    requires { is_live_in store.old.bodies object ≡ true }
    ensures { store.new.bodies ≡ finalised_if ended object store.old.bodies }
{
    if matches!(ended, Ended::Last) {
        store.retire(object);
    }
}

/// A place of a thread's parcel has an object, if there is one for it.
fn pack(parcels: &mut Parcels, to: ThreadId, place: usize, object: &Option<ObjId>)
    requires thread { to < length parcels.old }
    requires place { place < length (slice_index_or parcels.old to []) }
    ensures { parcels.new ≡ packed_rows parcels.old to place object.now }
{
    match object {
        Some(object) => parcels.set(to, place, Some(*object)),
        None => {}
    }
}

/// The end of the block of setup starts all threads.
fn start_at_end(flags: &mut Vec<Flags>, t: ThreadId)
    ensures { map flags_of flags.new.items ≡ flags_at_end t (map flags_of flags.old.items) }
{
    if t == ThreadId::SETUP {
        start_all(flags);
    }
}

/// All threads are started.
fn start_all(flags: &mut Vec<Flags>)
    ensures { map flags_of flags.new.items ≡ start_all (map flags_of flags.old.items) }
{
    for t in 0..flags.len() {
        flags[t].is_started = true;
    }
}

/// What an entry answers that needs an object: it is skipped if there is none.
pub(crate) fn answer_for(object: Option<ObjId>) -> Answer
    ensures { result ≡ answer_for object }
{
    match object {
        Some(_) => Answer::Ok,
        None => Answer::Skip,
    }
}
