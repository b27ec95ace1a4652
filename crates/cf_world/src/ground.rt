//! What a world keeps beside where its threads stand.
ghost use Rattle.std.specs.Prelude.{◌≡◌, ℕ, ◌+◌, ◌<◌, ◌≤◌, [], None, Some, length, nat_le, IfOk, OnOk, OnErr};
ghost use Rattle.std.specs.Option.{option_copied};
ghost use Rattle.cf_ids.specs.declared.limits.TheConstants.{OBJECTS};
ghost use Rattle.cf_syntax.specs.BlockLines.{thread_block, uses_in};
ghost use Rattle.cf_next.specs.Views.{objects_of};
ghost use Rattle.cf_model.specs.State.{flags_at};
ghost use Rattle.cf_model.specs.Steps.{type_in};
ghost use Rattle.cf_model.specs.Known.{facts_of as facts_in};
ghost use Rattle.cf_world.specs.Grounds.{AreFirst, MayRun, ReadyIf, flags_of, state_of, statement_at};
ghost use Rattle.cf_world.specs.Entering.{IsLastAnswer, answer_of_cut};
ghost use Rattle.std.specs.Prelude.{slice_get};

use crate::parcels::Parcels;
use cf_body::ItemState;
use cf_ids::{Answer, Ended, HandlerId, ModeId, OBJECTS, ObjId, ThreadId};
use cf_loops::Loops;
use cf_model::Entry;
use cf_next::{Facts, Used};
use cf_owncheck::Checked;
use cf_scene::Flags;
use cf_store::Store;
use cf_syntax::{Ownership, Script, Statement};
use std::alloc::{AllocError as NoMemory, Global};
use std::marker::Model;

/// What a world keeps beside where its threads stand: the script, the journal, the bodies, what the parcels have, the
/// flags and the run loops of the threads, and the time. Contracts see the script, the journal and the room that there is; all else is
/// the state after the journal.
#[derive(Drop)]
pub(crate) struct Ground {
    pub(crate) script: Checked,
    pub(crate) journal: Vec<Entry>,
    pub(crate) store: Store,
    pub(crate) parcels: Parcels,
    /// Those of each thread, by number.
    pub(crate) flags: Vec<Flags>,
    /// In ticks.
    pub(crate) time: u64,
    pub(crate) loops: Loops,
}

impl Model for Ground {
    ghost use Rattle.cf_world.specs.Grounds.{GroundView, IsGround, view_of};

    ghost Value = { GroundView };

    ghost view = { view_of };

    ghost invariant = { IsGround };
}

impl Facts for Ground {
    ghost use Rattle.cf_world.specs.Grounds.{known};

    ghost known = { known };

    fn time(&self) -> u64 {
        self.time
    }

    fn holds(&self, t: ThreadId, m: ModeId, i: ObjId) -> bool {
        self.loops.holds(t, m, i)
    }

    fn is_empty(&self, t: ThreadId, m: ModeId) -> bool {
        self.loops.is_empty(t, m)
    }

    fn is_valid(&self, i: ObjId) -> bool {
        match self.store.item(i) {
            Some(item) => item.valid,
            None => false,
        }
    }

    fn is_signalled(&self, s: ObjId) -> bool {
        match self.store.item(s) {
            Some(item) => item.is_signalled(),
            None => false,
        }
    }

    // Of the items of a run loop the store has sources, which have no date and are no observers.
    fn next_date(&self, t: ObjId) -> Option<u64> {
        match self.store.item(t)?.state {
            ItemState::Source { .. } => None,
        }
    }

    fn repeats(&self, o: ObjId) -> bool {
        match self.store.item(o) {
            Some(item) => match item.state {
                ItemState::Source { .. } => false,
            },
            None => false,
        }
    }

    fn callout(&self, i: ObjId) -> Option<(HandlerId, Option<ObjId>)> {
        let item = self.store.item(i)?;
        Some((item.handler, item.info))
    }

    // No form that the reader takes registers anything.
    fn receiver(&self, _r: u32) -> Option<(HandlerId, ObjId)> {
        self.script();
        None
    }

    fn parcel(&self, t: ThreadId, k: usize) -> Option<ObjId> {
        self.parcels.at(t, k)
    }

    fn slot(&self, b: ObjId, k: usize) -> Option<ObjId> {
        if self.store.is_live(b) || self.store.given_up(b) as usize != k {
            return None;
        }
        self.store.slot(b, k)
    }
}

impl Ground {
    /// The ground of a script at its start, with room for `limit` entries.
    pub fn new(alloc: Global, script: Checked, limit: u32) -> Result<Ground, NoMemory>
        requires { MayRun script }
        ensures script { IfOk result (λ g. g.script ≡ script) }
        ensures journal { IfOk result (λ g. g.journal ≡ []) }
        ensures room { IfOk result (λ g. limit ≤ g.journal_room) }
    {
        let mut journal = Vec::new(alloc);
        journal.reserve(limit as usize)?;
        let parcels = Parcels::new(alloc, script.script())?;
        let flags = first_flags(alloc, script.script())?;
        let loops = Loops::new(alloc, script.script().threads())?;
        Ok(Ground {
            script,
            journal,
            store: Store::new(alloc),
            parcels,
            flags,
            time: 0,
            loops,
        })
    }

    /// The script, which registers nothing.
    pub fn script(&self) -> &Script
        ensures script { result.now ≡ self.now.script }
        ensures runs { MayRun self.now.script }
        ensures unregistered { (state_of self.now).parts.registrations ≡ [] }
    {
        self.script.script()
    }

    /// The flags of a thread.
    pub fn flags(&self, t: ThreadId) -> Flags
        requires { t < self.now.script.thread_count }
        ensures { flags_of result ≡ flags_at t (state_of self.now).parts.flags }
    {
        self.flags[t.0 as usize]
    }

    /// How many objects were made.
    pub fn made(&self) -> usize
        ensures { result ≡ length (state_of self.now).parts.objects }
    {
        self.store.count()
    }

    /// Whether as many objects were made as one run may make.
    pub fn is_full(&self) -> bool
        ensures { result ≡ nat_le OBJECTS (length (state_of self.now).parts.objects) }
    {
        OBJECTS <= self.store.count()
    }

    /// The statement with a number in a block.
    pub fn statement(&self, block: u16, number: u32) -> Option<&Statement>
        ensures { option_copied result ≡ statement_at self.now.script block number }
    {
        statement_in(self.script.script(), block, number)
    }

    /// Makes room for the deed of a statement, if it has one, by the objects that it uses. It is refused only for want of
    /// memory; that changes nothing but that there may be more room.
    pub fn reserve_for(
        &mut self,
        alloc: Global,
        block: u16,
        number: u32,
        used: &Used,
    ) -> Result<(), NoMemory>
        ensures script { self.new.script ≡ self.old.script }
        ensures journal { self.new.journal ≡ self.old.journal }
        ensures journal_room { self.new.journal_room ≡ self.old.journal_room }
        ensures loops { self.new.loops ≡ self.old.loops }
        ensures ready { OnOk result (ReadyIf self.new (statement_at self.new.script block number) (objects_of used.now)) }
        ensures kept { self.old.body_room ≤ self.new.body_room }
        ensures refused { OnErr result (self.new.ready ≡ self.old.ready) }
    {
        let script = self.script.script();
        let Some(statement) = statement_in(script, block, number) else {
            return Ok(());
        };
        match statement.ownership() {
            Ownership::Keeps | Ownership::Binds(_) => {
                self.store
                    .reserve_for(alloc, script.classes(), statement, &used.objects())
            }
            Ownership::Retains(_) | Ownership::Releases(_) => Ok(()),
        }
    }

    /// The answer of an entry that takes a reference to an object away, by what is left.
    pub fn answer_of_cut(&self, object: ObjId, ended: Ended) -> Answer
        requires { object < length (state_of self.now).parts.objects }
        ensures { result ≡ answer_of_cut ended (type_in (slice_get (state_of self.now).parts.objects object)) }
    {
        if matches!(ended, Ended::More) {
            return Answer::More;
        }
        match self.store.class(object) {
            Some(class) => Answer::Final(class),
            None => Answer::More,
        }
    }

    /// The answer of the last entry.
    pub fn last_answer(&self) -> Option<&Answer>
        ensures { IsLastAnswer self.now.journal (option_copied result) }
    {
        match self.journal.as_slice().last() {
            Some(entry) => Some(&entry.answer),
            None => None,
        }
    }
}

/// The flags of the threads of a script at its start: setup alone is started.
fn first_flags(alloc: Global, script: &Script) -> Result<Vec<Flags>, NoMemory>
    ensures { IfOk result (λ flags. AreFirst script.now flags.items) }
{
    let mut flags = Vec::new(alloc);
    for t in 0..script.threads() {
        flags.push(Flags::new(t == 0))?;
    }
    Ok(flags)
}

/// The statement with a number in a block of a script.
pub(crate) fn statement_in(script: &Script, block: u16, number: u32) -> Option<&Statement>
    ensures { option_copied result ≡ statement_at script.now block number }
{
    let block = script.block(usize::from(block))?;
    block.statements.as_slice().get(number as usize)
}
