//! What becomes of the parts of a state.
ghost use Rattle.std.specs.Prelude.{◌≡◌, [], ◌∷◌, ◌++◌, length, map, None, OnOk, if◌then◌else◌};
ghost use Rattle.std.specs.Option.{option_to_list};
ghost use Rattle.rl_base.specs.Receivers.{forgets, is_there_and};
ghost use Rattle.cf_contents.specs.Deeds.{with_change};
ghost use Rattle.cf_plain.specs.Views.{change_of};
ghost use Rattle.cf_model.specs.Steps.{start_all};
ghost use Rattle.cf_state.specs.Rooms.{HasNumber};
ghost use Rattle.cf_state.specs.Updates.{updated};

use crate::matching::is_forgotten;
use crate::parts::{Common, Flags, Parts, set_flags};
use cf_ids::{NameId, ObjId};
use cf_plain::{Change, Object};
use rl_base::Registration;
use std::alloc::{AllocError as NoMemory, Global};

/// What becomes of the parts of a state.
#[derive(Drop)]
pub enum Update {
    Nothing,
    /// The content of an object is changed.
    Change {
        object: ObjId,
        change: Change,
    },
    /// An object is made.
    Make(Object),
    /// A mode becomes a common one of a thread's run loop.
    Common {
        thread: usize,
        mode: usize,
    },
    /// A registration is made.
    Observe(Registration),
    /// Registrations are forgotten.
    Forget {
        observer: ObjId,
        name: Option<NameId>,
        filter: Option<ObjId>,
    },
    /// A thread has other flags.
    Flag {
        thread: usize,
        flags: Flags,
    },
    /// All threads are started.
    Start,
    /// A body gives up a slot.
    Drop(ObjId),
}

impl Parts {
    /// Does an update.
    pub fn update(&mut self, alloc: Global, update: Update) -> Result<(), NoMemory>
        requires number { HasNumber update self.old }
        ensures { OnOk result (self.new ≡ updated update self.old) }
    {
        match update {
            Update::Nothing => Ok(()),
            Update::Change { object, change } => {
                change_at(&mut self.objects, alloc, object.0 as usize, change)
            }
            Update::Make(object) => Ok(self.objects.push(object)?),
            Update::Common { thread, mode } => {
                Ok(self.commons.insert(0, Common { thread, mode })?)
            }
            Update::Observe(registration) => Ok(self.registrations.push(Some(registration))?),
            Update::Forget {
                observer,
                name,
                filter,
            } => {
                forget(&mut self.registrations, observer, &name, &filter);
                Ok(())
            }
            Update::Flag { thread, flags } => set_flags(&mut self.flags, thread, flags),
            Update::Start => {
                start_all(&mut self.flags);
                Ok(())
            }
            Update::Drop(body) => Ok(self.dropped.insert(0, body)?),
        }
    }

    /// An object is finalised, if there is one.
    pub fn finalise(&mut self, object: &Option<ObjId>) -> Result<(), NoMemory>
        ensures { OnOk result (self.new
            ≡ record self.old { finalised = option_to_list object.now ++ self.old.finalised }) }
    {
        match *object {
            Some(object) => Ok(self.finalised.insert(0, object)?),
            None => Ok(()),
        }
    }
}

/// The content of an object is changed, if there is such an object.
fn change_at(
    objects: &mut Vec<Object>,
    alloc: Global,
    place: usize,
    change: Change,
) -> Result<(), NoMemory>
    ensures objects { OnOk result (objects.new.items ≡ with_change place (change_of change) objects.old.items) }
    ensures count { length objects.new.items ≡ length objects.old.items }
{
    if objects.len() <= place {
        return Ok(());
    }
    objects[place].change(alloc, change)
}

/// Registrations that are forgotten leave their numbers empty.
fn forget(
    registrations: &mut Vec<Option<Registration>>,
    observer: ObjId,
    name: &Option<NameId>,
    filter: &Option<ObjId>,
)
    ensures { registrations.new.items
        ≡ map (λ r. if is_there_and (forgets observer name.now filter.now) r then None else r) registrations.old.items }
{
    let mut place = 0;
    while place < registrations.len() {
        forget_one(&mut registrations[place], observer, name, filter);
        place += 1;
    }
}

/// A registration that is forgotten leaves its number empty.
fn forget_one(
    registration: &mut Option<Registration>,
    observer: ObjId,
    name: &Option<NameId>,
    filter: &Option<ObjId>,
)
    ensures { registration.new
        ≡ (if is_there_and (forgets observer name.now filter.now) registration.old then None else registration.old) }
{
    let gone = match registration {
        Some(registration) => is_forgotten(observer, name, filter, registration),
        None => false,
    };
    if gone {
        *registration = None;
    }
}

/// All threads are started.
fn start_all(flags: &mut Vec<Flags>)
    ensures { flags.new.items ≡ start_all flags.old.items }
{
    let mut thread = 0;
    while thread < flags.len() {
        flags[thread].start();
        thread += 1;
    }
}
