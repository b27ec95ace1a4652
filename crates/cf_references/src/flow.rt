//! What one entry does to references.
ghost use Rattle.std.specs.Prelude.{◌≡◌, ◌∷◌, map, OnOk};
ghost use Rattle.cf_graph.specs.Flows.{cut_of, flowed, grows, move_by, still};
ghost use Rattle.cf_graph.specs.Operations.{add, moved, run, without};
ghost use Rattle.cf_model.specs.Own.{moves_to};
ghost use Rattle.cf_references.specs.Flows.{flow_of};
ghost use Rattle.cf_references.specs.Views.{holder_of};

use crate::holder::Holder;
use crate::reference::{Reference, take_out};
use cf_ids::ObjId;
use std::alloc::{AllocError as NoMemory, Global};

/// References enter and others move to one holder, or one is taken away.
#[derive(Drop)]
pub enum Flow {
    /// References enter, and others move to a holder.
    Grows {
        enters: Vec<Reference>,
        moves: Vec<Reference>,
        to: Holder,
    },
    /// One is taken away.
    Shrinks(Reference),
}

impl Flow {
    /// Nothing enters, and nothing moves.
    pub fn still(alloc: Global) -> Flow
        ensures { flow_of result ≡ still }
    {
        Flow::Grows {
            enters: Vec::new(alloc),
            moves: Vec::new(alloc),
            to: Holder::Owed { thread: 0 },
        }
    }

    /// The object to which it takes a reference away.
    pub fn cut(&self) -> Option<ObjId>
        ensures { result ≡ cut_of (flow_of self.now) }
    {
        match self {
            Flow::Grows { .. } => None,
            Flow::Shrinks(reference) => Some(reference.object()),
        }
    }

    /// Does it.
    pub fn run(&self, references: &mut Vec<Reference>) -> Result<(), NoMemory>
        ensures { OnOk result (references.new.items ≡ flowed (flow_of self.now) references.old.items) }
    {
        match self {
            Flow::Grows { enters, moves, to } => {
                grow(enters.as_slice(), moves.as_slice(), to, references)
            }
            Flow::Shrinks(reference) => {
                take_out(reference, references);
                Ok(())
            }
        }
    }
}

/// References enter, and others move to a holder.
fn grow(
    enters: &[Reference],
    moves: &[Reference],
    to: &Holder,
    references: &mut Vec<Reference>,
) -> Result<(), NoMemory>
    ensures { let flow = grows enters.now (moves_to (holder_of to.now) moves.now) in
        OnOk result (references.new.items ≡ flowed flow references.old.items) }
{
    add_all(enters, references)?;
    move_all(moves, to, references)?;
    Ok(())
}

/// References enter, one after another.
fn add_all(enters: &[Reference], references: &mut Vec<Reference>) -> Result<(), NoMemory>
    ensures { OnOk result (references.new.items ≡ run (map add enters.now) references.old.items) }
{
    let mut rest = enters;
    while let Some((reference, others)) = rest.split_first() {
        references.insert(0, reference.copy())?;
        rest = others;
    }
    Ok(())
}

/// A reference goes to another holder.
fn move_one(
    reference: &Reference,
    to: &Holder,
    references: &mut Vec<Reference>,
) -> Result<(), NoMemory>
    ensures { OnOk result (references.new.items
        ≡ moved reference.now (holder_of to.now) ∷ without reference.now references.old.items) }
{
    take_out(reference, references);
    Ok(references.insert(0, Reference::new(*to, reference.object()))?)
}

/// References go to another holder, one after another.
fn move_all(
    moves: &[Reference],
    to: &Holder,
    references: &mut Vec<Reference>,
) -> Result<(), NoMemory>
    ensures { OnOk result (references.new.items
        ≡ run (map move_by (moves_to (holder_of to.now) moves.now)) references.old.items) }
{
    let mut rest = moves;
    while let Some((reference, others)) = rest.split_first() {
        move_one(reference, to, references)?;
        rest = others;
    }
    Ok(())
}
