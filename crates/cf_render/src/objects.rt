//! What a journal tells of the objects that its entries make and finalise.
ghost use Rattle.std.specs.Prelude.{◌≡◌, ◌==◌, ◌<◌, ℕ, length, IfOk};
ghost use Rattle.cf_model.specs.Finals.{final_of, finals};
ghost use Rattle.cf_render.specs.Ends.{alive_in, without};
ghost use Rattle.cf_render.specs.Made.{class_made, classes_told, finalised_in, told_in};

use crate::statements::statement_of;
use cf_ids::{Answer, ObjId, TypeId};
use cf_model::Entry;
use cf_syntax::{Script, Statement};
use std::alloc::{AllocError as NoMemory, Global};

/// Which objects are left, by number, and how many were finalised.
#[derive(Drop)]
pub(crate) struct Remains {
    pub(crate) alive: Vec<bool>,
    pub(crate) finals: usize,
}

/// The class of what a statement makes; none if its form makes nothing.
fn class_made(statement: &Statement) -> Option<TypeId>
    ensures { result ≡ class_made statement.now }
{
    match statement {
        Statement::MakeString { .. } | Statement::MakeMstring { .. } | Statement::StrSub { .. } => {
            Some(TypeId::STRING)
        }
        Statement::MakeData { .. } | Statement::MakeMdata { .. } => Some(TypeId(4)),
        Statement::MakeNumber { .. } => Some(TypeId(5)),
        Statement::MakeArray { .. } => Some(TypeId(6)),
        Statement::MakeDict { .. } => Some(TypeId(7)),
        Statement::MakeSet { .. } => Some(TypeId(8)),
        Statement::MakeBag { .. } => Some(TypeId(9)),
        Statement::MakeHeap { .. } => Some(TypeId(10)),
        Statement::MakeSource { .. } => Some(TypeId(11)),
        Statement::MakeTimer { .. } => Some(TypeId(12)),
        Statement::MakeObserver { .. } => Some(TypeId(13)),
        Statement::New { class, .. } => *class,
        _ => None,
    }
}

/// The class of the object that an entry makes, if it makes one.
fn made(script: &Script, entry: &Entry) -> Option<TypeId>
    ensures { result ≡ told_in script.now entry.now }
{
    if !matches!(&entry.answer, Answer::Object(_)) {
        return None;
    }
    match statement_of(script, &entry.action) {
        Some(statement) => class_made(statement),
        None => None,
    }
}

/// The classes of the objects that entries make, in order.
pub(crate) fn classes(
    alloc: Global,
    script: &Script,
    journal: &[Entry],
) -> Result<Vec<TypeId>, NoMemory>
    ensures { IfOk result (λ cs. cs.items ≡ classes_told script.now journal.now) }
{
    let mut classes = Vec::new(alloc);
    for entry in journal {
        if let Some(class) = made(script, entry) {
            classes.push(class)?;
        }
    }
    Ok(classes)
}

/// The object that an entry finalises, if it does.
fn final_object(entry: &Entry) -> Option<ObjId>
    ensures { result ≡ final_of entry.now }
{
    match &entry.answer {
        Answer::Final(_) => entry.action.cuts(),
        _ => None,
    }
}

/// An object is left no more, where it was made.
fn finalise(alive: &mut Vec<bool>, object: ObjId)
    ensures { alive.new.items ≡ without alive.old.items object }
{
    let o = object.0 as usize;
    if o < alive.len() {
        alive[o] = false;
    }
}

/// Which of so many objects the entries leave.
pub(crate) fn what_is_left(
    alloc: Global,
    made: usize,
    journal: &[Entry],
) -> Result<Remains, NoMemory>
    ensures size { IfOk result (λ l. length l.alive.items ≡ made) }
    ensures alive { IfOk result (λ l. (o : ℕ) → o < made → alive_in l.alive.items o ≡ (finals o journal.now == 0)) }
    ensures finals { IfOk result (λ l. l.finals ≡ length (finalised_in journal.now)) }
{
    let mut alive = vec![in alloc; true; made]?;
    let mut finals = 0;
    for entry in journal {
        if let Some(object) = final_object(entry) {
            finalise(&mut alive, object);
            finals += 1;
        }
    }
    Ok(Remains { alive, finals })
}
