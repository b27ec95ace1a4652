//! References, and what is looked for among them.
ghost use Rattle.std.specs.Prelude.{◌≡◌, ◌==◌, nat_lt, position, IfOk};
ghost use Rattle.std.specs.List.{list_any};
ghost use Rattle.cf_graph.specs.Edges.{Reference as Held, degree, has, held_by, one, same, weigh};
ghost use Rattle.cf_graph.specs.Holders.{owner_of, same_holder};
ghost use Rattle.cf_graph.specs.Owners.{is_thread};
ghost use Rattle.cf_graph.specs.Operations.{without};
ghost use Rattle.cf_model.specs.State.{first_held};
ghost use Rattle.cf_references.specs.Views.{holder_of};

use crate::holder::{Holder, is_of_thread, is_same};
use cf_ids::ObjId;
use std::alloc::{AllocError as NoMemory, Global};
use std::marker::Model;

/// A reference to an object, with who holds it.
#[derive(Drop)]
pub struct Reference {
    pub(crate) holder: Holder,
    pub(crate) object: ObjId,
}

impl Model for Reference {
    ghost use Rattle.cf_graph.specs.Edges.{Reference as Held};

    ghost Value = { Held };

    ghost use Rattle.cf_references.specs.Views.{holder_of};

    ghost view = { λ r. record { holder = holder_of r.holder; object = r.object } };
}

impl Reference {
    /// A holder's reference to an object.
    pub fn new(holder: Holder, object: ObjId) -> Reference
        ensures { result ≡ held_by (holder_of holder) object }
    {
        Reference { holder, object }
    }

    /// The object.
    pub fn object(&self) -> ObjId
        ensures { result ≡ self.now.object }
    {
        self.object
    }

    /// Who holds it.
    pub fn holder(&self) -> &Holder
        ensures { holder_of result.now ≡ self.now.holder }
    {
        &self.holder
    }

    /// Whether a thread itself holds it.
    pub fn is_of_thread(&self, thread: usize) -> bool
        ensures { result ≡ is_thread thread (owner_of self.now.holder) }
    {
        is_of_thread(thread, &self.holder)
    }

    /// The same once more.
    pub(crate) fn copy(&self) -> Reference
        ensures { result ≡ self.now }
    {
        Reference {
            holder: self.holder,
            object: self.object,
        }
    }

    /// Whether two references are the same: one holder, and one object.
    pub(crate) fn is_same(&self, other: &Reference) -> bool
        ensures { result ≡ same self.now other.now }
    {
        is_same(&self.holder, &other.holder) && self.object == other.object
    }

    /// Whether it is this holder's.
    fn is_held_by(&self, holder: &Holder) -> bool
        ensures { result ≡ same_holder (holder_of holder.now) self.now.holder }
    {
        is_same(holder, &self.holder)
    }

    /// Whether it leads to an object.
    fn leads_to(&self, object: ObjId) -> bool
        ensures { result ≡ (self.now.object == object) }
    {
        self.object == object
    }
}

/// Whether a reference stands among others.
fn stands(reference: &Reference, references: &[Reference]) -> bool
    ensures { result ≡ list_any (same reference.now) references.now }
{
    references.iter().any(|other| reference.is_same(other))
}

/// Whether a reference is there.
pub(crate) fn is_there(reference: &Reference, references: &[Reference]) -> bool
    ensures { result ≡ nat_lt 0 (weigh (one reference.now) references.now) }
{
    stands(reference, references)
}

/// Whether a holder has a reference to an object.
pub fn has(holder: &Holder, object: ObjId, references: &[Reference]) -> bool
    ensures { result ≡ has (holder_of holder.now) object references.now }
{
    is_there(&Reference::new(*holder, object), references)
}

/// Whether some reference leads to an object.
fn is_reached(object: ObjId, references: &[Reference]) -> bool
    ensures { result ≡ list_any (λ (r : Held). r.object == object) references.now }
{
    references
        .iter()
        .any(|reference| reference.leads_to(object))
}

/// Whether no reference leads to an object.
pub fn is_free(object: ObjId, references: &[Reference]) -> bool
    ensures { result ≡ (degree object references.now == 0) }
{
    !is_reached(object, references)
}

/// The place of a reference among others.
fn place_of(reference: &Reference, references: &[Reference]) -> Option<usize>
    ensures { result ≡ position (same reference.now) references.now }
{
    references.iter().position(|other| reference.is_same(other))
}

/// Takes a reference out, if it is there.
pub(crate) fn take_out(reference: &Reference, references: &mut Vec<Reference>)
    ensures { references.new.items ≡ without reference.now references.old.items }
{
    if let Some(place) = place_of(reference, references.as_slice()) {
        references.remove(place);
    }
}

/// The object that a holder has, the first of its references if it has several.
pub fn first_held(holder: &Holder, references: &[Reference]) -> Option<ObjId>
    ensures { result ≡ first_held (holder_of holder.now) references.now }
{
    let mut rest = references;
    while let Some((reference, others)) = rest.split_first() {
        if reference.is_held_by(holder) {
            return Some(reference.object());
        }
        rest = others;
    }
    None
}

/// The same references once more.
pub fn copied(alloc: Global, references: &[Reference]) -> Result<Vec<Reference>, NoMemory>
    ensures { IfOk result (λ v. v.items ≡ references.now) }
{
    let mut whole = Vec::new(alloc);
    for reference in references {
        whole.push(reference.copy())?;
    }
    Ok(whole)
}
