//! Which references an entry takes.
ghost use Rattle.std.specs.Prelude.{◌≡◌, [], ◌∷◌, ◌++◌, nat_lt, IfOk, OnOk, if◌then◌else◌};
ghost use Rattle.std.specs.Option.{option_to_list};
ghost use Rattle.cf_graph.specs.Edges.{one, weigh};
ghost use Rattle.cf_graph.specs.Operations.{without};
ghost use Rattle.cf_model.specs.Own.{first_from, own_reference, own_references, present_of, without_if};
ghost use Rattle.cf_references.specs.Views.{holder_of};

use crate::holder::{Holder, is_of_thread};
use crate::reference::{Reference, copied, has, is_there, take_out};
use cf_ids::ObjId;
use std::alloc::{AllocError as NoMemory, Global};

/// The first of a thread's references to an object.
fn first_from(thread: usize, object: ObjId, references: &[Reference]) -> Option<Reference>
    ensures { result ≡ first_from thread object references.now }
{
    let mut rest = references;
    while let Some((reference, others)) = rest.split_first() {
        if reference.object == object && is_of_thread(thread, &reference.holder) {
            return Some(reference.copy());
        }
        rest = others;
    }
    None
}

/// The holder's own reference to an object, or else the first that the thread has.
pub fn own_reference(
    thread: usize,
    holder: &Holder,
    object: ObjId,
    references: &[Reference],
) -> Option<Reference>
    ensures { result ≡ own_reference thread (holder_of holder.now) object references.now }
{
    if has(holder, object, references) {
        Some(Reference::new(*holder, object))
    } else {
        first_from(thread, object, references)
    }
}

/// Takes a reference out, if there is one.
fn take_if(reference: &Option<Reference>, references: &mut Vec<Reference>)
    ensures { references.new.items ≡ without_if reference.now references.old.items }
{
    if let Some(reference) = reference {
        take_out(reference, references);
    }
}

/// Puts a reference after others, if there is one.
fn put_if(references: &mut Vec<Reference>, reference: Option<Reference>) -> Result<(), NoMemory>
    ensures { OnOk result (references.new.items ≡ references.old.items ++ option_to_list reference) }
{
    if let Some(reference) = reference {
        references.push(reference)?;
    }
    Ok(())
}

/// Takes a reference out of what is left and puts it after those that are present, if it is there.
fn take_present(
    wanted: &Reference,
    left: &mut Vec<Reference>,
    present: &mut Vec<Reference>,
) -> Result<(), NoMemory>
    ensures left { let there = nat_lt 0 (weigh (one wanted.now) left.old.items) in
        OnOk result (left.new.items ≡ (if there then without wanted.now left.old.items else left.old.items)) }
    ensures present { let there = nat_lt 0 (weigh (one wanted.now) left.old.items) in
        OnOk result (present.new.items ≡ (if there then present.old.items ++ wanted.now ∷ [] else present.old.items)) }
{
    if is_there(wanted, left.as_slice()) {
        take_out(wanted, left);
        present.push(wanted.copy())?;
    }
    Ok(())
}

/// The holder's own reference to an object, or else the first that the thread has, of one that is wanted.
fn own_of(thread: usize, wanted: &Reference, references: &[Reference]) -> Option<Reference>
    ensures { result ≡ own_reference thread wanted.now.holder wanted.now.object references.now }
{
    own_reference(thread, &wanted.holder, wanted.object, references)
}

/// The same for several, one after another, each taken from what is left.
pub fn own_references(
    alloc: Global,
    thread: usize,
    wanted: &[Reference],
    references: &[Reference],
) -> Result<Vec<Reference>, NoMemory>
    ensures { IfOk result (λ v. v.items ≡ own_references thread wanted.now references.now) }
{
    let mut left = copied(alloc, references)?;
    let mut own = Vec::new(alloc);
    let mut rest = wanted;
    while let Some((next, others)) = rest.split_first() {
        let found = own_of(thread, next, left.as_slice());
        take_if(&found, &mut left);
        put_if(&mut own, found)?;
        rest = others;
    }
    Ok(own)
}

/// Those of some references that are there, one after another, each as often as it is there.
pub fn present_of(
    alloc: Global,
    wanted: &[Reference],
    references: &[Reference],
) -> Result<Vec<Reference>, NoMemory>
    ensures { IfOk result (λ v. v.items ≡ present_of wanted.now references.now) }
{
    let mut left = copied(alloc, references)?;
    let mut present = Vec::new(alloc);
    let mut rest = wanted;
    while let Some((next, others)) = rest.split_first() {
        take_present(next, &mut left, &mut present)?;
        rest = others;
    }
    Ok(present)
}
