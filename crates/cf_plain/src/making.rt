//! What statements do that use no object: most of them make one.
ghost use Rattle.std.specs.Prelude.{◌≡◌, [], true, None, replicate, IfOk};
ghost use Rattle.cf_contents.specs.Contents.{text_content, data_content, number_content, array_content, dictionary_content, set_content, bag_content, heap_content, string_class, data_class, number_class, array_class, dictionary_class, set_class, bag_class, heap_class, instance_of};
ghost use Rattle.cf_contents.specs.Keys.{class_line};
ghost use Rattle.cf_contents.specs.Deeds.{creating, fresh_if, deed_of as deed_in};
ghost use Rattle.cf_plain.specs.Deeds.{deed_of};
ghost use Rattle.cf_contents.specs.Groups.{stands_alone};

use crate::class::class_line;
use crate::content::Content;
use crate::deed::Deed;
use crate::heap::Heap;
use cf_ids::{Answer, ObjId, TypeId};
use cf_string::Str;
use cf_syntax::{ClassLine, Statement};
use std::alloc::{AllocError as NoMemory, Global};

/// What a statement does that needs no object.
pub(crate) fn deed_alone(
    alloc: Global,
    classes: &[ClassLine],
    statement: &Statement,
) -> Result<Deed, NoMemory>
    requires { stands_alone statement.now ≡ true }
    ensures { IfOk result (λ d. deed_of d ≡ deed_in classes.now statement.now None None None) }
{
    match statement {
        Statement::MakeString { text, .. } => make_text(alloc, false, text.text()),
        Statement::MakeMstring { text, .. } => make_text(alloc, true, text.text()),
        Statement::MakeData { bytes, .. } => make_data(alloc, false, bytes.bytes()),
        Statement::MakeMdata { bytes, .. } => make_data(alloc, true, bytes.bytes()),
        Statement::MakeNumber { number, .. } => {
            Ok(Deed::creating(TypeId(5), Content::Number(*number)))
        }
        Statement::MakeArray { plain, .. } => Ok(make_array(alloc, *plain)),
        Statement::MakeDict { plain, .. } => Ok(make_dictionary(alloc, *plain)),
        Statement::MakeSet { plain, .. } => Ok(make_set(alloc, *plain)),
        Statement::MakeBag { plain, .. } => Ok(make_bag(alloc, *plain)),
        Statement::MakeHeap { plain, .. } => Ok(make_heap(alloc, *plain)),
        Statement::New {
            class: Some(class),
            key,
            ..
        } => make_instance(alloc, classes, *class, *key),
        Statement::Retain { .. } | Statement::Release { .. } => Ok(Deed::answering(Answer::Ok)),
        _ => Ok(Deed::skipping()),
    }
}

/// The units of a text.
pub(crate) fn units_of(alloc: Global, text: &Str) -> Result<Vec<u16>, NoMemory>
    ensures { IfOk result (λ units. units.items ≡ text.now.units) }
{
    let mut units = Vec::new(alloc);
    while let Some(unit) = text.unit_at(units.len()) {
        units.push(unit)?;
    }
    Ok(units)
}

/// Makes a string.
fn make_text(alloc: Global, mutable: bool, text: &Str) -> Result<Deed, NoMemory>
    ensures { IfOk result (λ d. deed_of d ≡ creating string_class (text_content mutable text.now.units)) }
{
    let units = units_of(alloc, text)?;
    Ok(Deed::creating(TypeId::STRING, Content::Text { mutable, units }))
}

/// Makes data.
fn make_data(alloc: Global, mutable: bool, bytes: &[u8]) -> Result<Deed, NoMemory>
    ensures { IfOk result (λ d. deed_of d ≡ creating data_class (data_content mutable bytes.now)) }
{
    let bytes = Vec::from_slice(alloc, bytes)?;
    Ok(Deed::creating(TypeId(4), Content::Data { mutable, bytes }))
}

/// Makes an array without elements.
fn make_array(alloc: Global, plain: bool) -> Deed
    ensures { deed_of result ≡ creating array_class (array_content plain []) }
{
    let elements = Vec::new(alloc);
    Deed::creating(TypeId(6), Content::Array { plain, elements })
}

/// Makes a dictionary without pairs.
fn make_dictionary(alloc: Global, plain: bool) -> Deed
    ensures { deed_of result ≡ creating dictionary_class (dictionary_content plain []) }
{
    let pairs = Vec::new(alloc);
    Deed::creating(TypeId(7), Content::Dictionary { plain, pairs })
}

/// Makes a set without members.
fn make_set(alloc: Global, plain: bool) -> Deed
    ensures { deed_of result ≡ creating set_class (set_content plain []) }
{
    let members = Vec::new(alloc);
    Deed::creating(TypeId(8), Content::Set { plain, members })
}

/// Makes a bag without members.
fn make_bag(alloc: Global, plain: bool) -> Deed
    ensures { deed_of result ≡ creating bag_class (bag_content plain []) }
{
    let rows = Vec::new(alloc);
    Deed::creating(TypeId(9), Content::Bag { plain, rows })
}

/// Makes a heap without elements.
fn make_heap(alloc: Global, plain: bool) -> Deed
    ensures { deed_of result ≡ creating heap_class (heap_content plain 0 []) }
{
    Deed::creating(TypeId(10), Content::Heap(Heap::new(alloc, plain)))
}

/// Makes an instance of a class, with empty fields.
fn make_instance(
    alloc: Global,
    classes: &[ClassLine],
    class: TypeId,
    key: i64,
) -> Result<Deed, NoMemory>
    ensures { IfOk result (λ d. deed_of d ≡ fresh_if (instance_of class key (class_line classes.now class))) }
{
    let Some(line) = class_line(classes, class) else {
        return Ok(Deed::skipping());
    };
    let fields = empty_fields(alloc, line.fields)?;
    Ok(Deed::creating(class, Content::Instance { key, fields }))
}

/// So many empty fields.
fn empty_fields(alloc: Global, count: u8) -> Result<Vec<Option<ObjId>>, NoMemory>
    ensures { IfOk result (λ fields. fields.items ≡ replicate count None) }
{
    vec![in alloc; None; usize::from(count)]
}
