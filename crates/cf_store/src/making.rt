//! What statements do that use no object, and those that only count references: most of them make an object.
ghost use Rattle.std.specs.Prelude.{◌≡◌, ◌<◌, None, [], length, replicate, IfOk};
ghost use Rattle.cf_contents.specs.Contents.{text_content, data_content, number_content, array_content, dictionary_content, set_content, bag_content, heap_content, string_class, data_class, number_class, array_class, dictionary_class, set_class, bag_class, heap_class, instance_of};
ghost use Rattle.cf_contents.specs.Keys.{class_line};
ghost use Rattle.cf_contents.specs.Deeds.{creating, fresh_if, deed_of};
ghost use Rattle.cf_store.specs.Applies.{IsAlone};

use crate::plan::Plan;
use cf_array::Array;
use cf_body::{Instance, Kind, Pairs, class_line};
use cf_data::Bytes;
use cf_ids::{Answer, ObjId, TypeId};
use cf_members::{ElementHeap, MemberBag, MemberSet};
use cf_number::Num;
use cf_syntax::{ClassLine, DataLiteral, Statement, TextLiteral};
use std::alloc::{AllocError as NoMemory, Global};

/// The type of data.
const DATA: TypeId = TypeId(4);

/// The type of numbers.
const NUMBER: TypeId = TypeId(5);

/// The type of arrays.
const ARRAY: TypeId = TypeId(6);

/// The type of dictionaries.
const DICTIONARY: TypeId = TypeId(7);

/// The type of sets.
const SET: TypeId = TypeId(8);

/// The type of bags.
const BAG: TypeId = TypeId(9);

/// The type of heaps.
const HEAP: TypeId = TypeId(10);

/// What a statement does where no object is found that it uses.
pub(crate) fn plan_alone(
    alloc: Global,
    classes: &[ClassLine],
    statement: &Statement,
) -> Result<Plan, NoMemory>
    ensures { IfOk result (λ d. IsAlone (deed_of classes.now statement.now None None None) d) }
{
    match statement {
        Statement::MakeString { text, .. } => make_text(alloc, false, text),
        Statement::MakeMstring { text, .. } => make_text(alloc, true, text),
        Statement::MakeData { bytes, .. } => make_data(alloc, false, bytes),
        Statement::MakeMdata { bytes, .. } => make_data(alloc, true, bytes),
        Statement::MakeNumber { number, .. } => make_number(alloc, *number),
        Statement::MakeArray { plain, .. } => make_array(alloc, *plain),
        Statement::MakeDict { plain, .. } => make_dictionary(alloc, *plain),
        Statement::MakeSet { plain, .. } => make_set(alloc, *plain),
        Statement::MakeBag { plain, .. } => make_bag(alloc, *plain),
        Statement::MakeHeap { plain, .. } => make_heap(alloc, *plain),
        Statement::New {
            class: Some(class),
            key,
            ..
        } => make_instance(alloc, classes, *class, *key),
        Statement::Retain { .. } | Statement::Release { .. } => Ok(Plan::answering(Answer::Ok)),
        _ => Ok(Plan::skipping()),
    }
}

/// Makes a string of a text.
fn make_text(alloc: Global, mutable: bool, literal: &TextLiteral) -> Result<Plan, NoMemory>
    ensures { let deed = creating string_class (text_content mutable literal.now) in
        IfOk result (λ d. IsAlone deed d) }
{
    let text = literal.text().copy(alloc)?;
    Plan::creating(alloc, TypeId::STRING, Kind::Text { mutable, text })
}

/// Makes data of bytes.
fn make_data(alloc: Global, mutable: bool, literal: &DataLiteral) -> Result<Plan, NoMemory>
    ensures { let deed = creating data_class (data_content mutable literal.now) in
        IfOk result (λ d. IsAlone deed d) }
{
    let bytes = copy_bytes(alloc, literal.bytes())?;
    Plan::creating(alloc, DATA, Kind::Data { mutable, bytes })
}

/// The same bytes once more.
pub(crate) fn copy_bytes(alloc: Global, bytes: &[u8]) -> Result<Bytes, NoMemory>
    ensures { IfOk result (λ copied. copied.items ≡ bytes.now) }
{
    let mut copied = Bytes::new(alloc);
    copied.reserve(bytes.len())?;
    copied.append(bytes);
    Ok(copied)
}

/// Makes a number.
fn make_number(alloc: Global, number: Num) -> Result<Plan, NoMemory>
    ensures { IfOk result (λ d. IsAlone (creating number_class (number_content number)) d) }
{
    Plan::creating(alloc, NUMBER, Kind::Number(number))
}

/// Makes an array without elements.
fn make_array(alloc: Global, plain: bool) -> Result<Plan, NoMemory>
    ensures { IfOk result (λ d. IsAlone (creating array_class (array_content plain [])) d) }
{
    let elements = Array::new(alloc);
    Plan::creating(alloc, ARRAY, Kind::Array { plain, elements })
}

/// Makes a dictionary without pairs.
fn make_dictionary(alloc: Global, plain: bool) -> Result<Plan, NoMemory>
    ensures { IfOk result (λ d. IsAlone (creating dictionary_class (dictionary_content plain [])) d) }
{
    Plan::creating(
        alloc,
        DICTIONARY,
        Kind::Dictionary(Pairs::new(alloc, plain)),
    )
}

/// Makes a set without members.
fn make_set(alloc: Global, plain: bool) -> Result<Plan, NoMemory>
    ensures { IfOk result (λ d. IsAlone (creating set_class (set_content plain [])) d) }
{
    Plan::creating(alloc, SET, Kind::Set(MemberSet::new(alloc, plain)))
}

/// Makes a bag without members.
fn make_bag(alloc: Global, plain: bool) -> Result<Plan, NoMemory>
    ensures { IfOk result (λ d. IsAlone (creating bag_class (bag_content plain [])) d) }
{
    Plan::creating(alloc, BAG, Kind::Bag(MemberBag::new(alloc, plain)))
}

/// Makes a heap without elements.
fn make_heap(alloc: Global, plain: bool) -> Result<Plan, NoMemory>
    ensures { IfOk result (λ d. IsAlone (creating heap_class (heap_content plain 0 [])) d) }
{
    Plan::creating(alloc, HEAP, Kind::Heap(ElementHeap::new(alloc, plain)))
}

/// Makes an instance of a class, with empty fields.
fn make_instance(
    alloc: Global,
    classes: &[ClassLine],
    class: TypeId,
    key: i64,
) -> Result<Plan, NoMemory>
    ensures { let deed = fresh_if (instance_of class key (class_line classes.now class)) in
        IfOk result (λ d. IsAlone deed d) }
{
    let Some(line) = class_line(classes, class) else {
        return Ok(Plan::skipping());
    };
    let fields = empty_fields(alloc, line.fields)?;
    Plan::creating(alloc, class, Kind::Instance(Instance { key, fields }))
}

/// So many empty fields.
fn empty_fields(alloc: Global, count: u8) -> Result<Vec<Option<ObjId>>, NoMemory>
    ensures empty { IfOk result (λ fields. fields.items ≡ replicate count None) }
    ensures few { IfOk result (λ fields. length fields.items < 256) }
{
    vec![in alloc; None; usize::from(count)]
}
