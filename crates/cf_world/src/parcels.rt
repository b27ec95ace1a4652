//! What setup has packed for each thread.
ghost use Rattle.std.specs.Prelude.{◌≡◌, ℕ, ◌<◌, None, length, slice_get, slice_index_or, slice_set, [], IfOk};
ghost use Rattle.cf_syntax.specs.BlockLines.{uses_in, thread_block};
ghost use Rattle.cf_world.specs.Grounds.{HasPlaces, parcel_at};

use cf_ids::{ObjId, ThreadId};
use cf_syntax::Script;
use std::alloc::{AllocError as NoMemory, Global};
use std::marker::Model;

/// The parcels of the threads: a row for each thread, with a place for each word after its `uses`. Contracts see the
/// rows.
#[derive(Drop)]
pub(crate) struct Parcels {
    rows: Vec<Vec<Option<ObjId>>>,
}

impl Model for Parcels {
    ghost use Rattle.std.specs.Prelude.{ℕ, List, Option, map};

    ghost Value = { List (List (Option ℕ)) };

    ghost view = { λ p. map (λ row. row.items) p.rows.items };
}

impl Parcels {
    /// Empty parcels of the threads of a script, each with its places.
    pub fn new(alloc: Global, script: &Script) -> Result<Parcels, NoMemory>
        ensures places { IfOk result (λ p. HasPlaces script.now p) }
        ensures empty { IfOk result (λ p. (t k : ℕ) → parcel_at p t k ≡ None) }
    {
        let mut rows = Vec::new(alloc);
        for t in 0..script.threads() {
            rows.push(empty_row(alloc, places(script, t))?)?;
        }
        Ok(Parcels { rows })
    }

    /// What a place of a thread's parcel has.
    pub fn at(&self, t: ThreadId, k: usize) -> Option<ObjId>
        ensures { result ≡ parcel_at self.now t k }
    {
        match self.rows.get(t.0 as usize) {
            Some(row) => match row.get(k) {
                Some(object) => *object,
                None => None,
            },
            None => None,
        }
    }

    /// Lets a place of a thread's parcel have an object, or nothing.
    pub fn set(&mut self, t: ThreadId, k: usize, object: Option<ObjId>)
        requires thread { t < length self.old }
        requires place { k < length (slice_index_or self.old t []) }
        ensures { self.new ≡ slice_set self.old t (slice_set (slice_index_or self.old t []) k object) }
    {
        self.rows[t.0 as usize][k] = object;
    }
}

/// How many places the parcel of a thread has.
pub(crate) fn places(script: &Script, t: usize) -> usize
    requires { t < script.now.thread_count }
    ensures { result ≡ length (uses_in (thread_block script.now t)) }
{
    match script.blocks().get(t) {
        Some(block) => block.uses.as_slice().len(),
        None => 0,
    }
}

/// A row of so many places with nothing in them.
fn empty_row(alloc: Global, places: usize) -> Result<Vec<Option<ObjId>>, NoMemory>
    ensures size { IfOk result (λ row. length row.items ≡ places) }
    ensures empty { IfOk result (λ row. (k : ℕ) → slice_index_or row.items k None ≡ None) }
{
    let mut row = Vec::new(alloc);
    for _ in 0..places {
        row.push(None)?;
    }
    Ok(row)
}
