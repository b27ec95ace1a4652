//! Objects as elements of collections.
ghost use Rattle.std.specs.Prelude.{◌≡◌, IfOk};
ghost use Rattle.cf_contents.specs.Keys.{cell_of, compared_by};
ghost use Rattle.cf_plain.specs.Forms.{form_view};
ghost use Rattle.cf_plain.specs.Views.{content_of, numbered_as};

use crate::class::is_keyed;
use crate::content::{Content, Object};
use crate::element::{Element, Form};
use cf_ids::ObjId;
use cf_syntax::ClassLine;
use std::alloc::{AllocError as NoMemory, Global};

/// An object as an element of a collection.
pub(crate) fn element_of(
    alloc: Global,
    classes: &[ClassLine],
    number: ObjId,
    object: &Object,
) -> Result<Element, NoMemory>
    ensures { IfOk result (λ element. element ≡ cell_of classes.now (numbered_as number object.now)) }
{
    let keyed = is_keyed(classes, object.class);
    let form = compared_by(alloc, keyed, number, &object.content)?;
    Ok(Element {
        id: number,
        class: object.class,
        form,
    })
}

/// What an object is compared by.
fn compared_by(
    alloc: Global,
    keyed: bool,
    number: ObjId,
    content: &Content,
) -> Result<Form, NoMemory>
    ensures { IfOk result (λ form. form_view form ≡ compared_by keyed number (content_of content.now)) }
{
    match content {
        Content::Text {
            mutable: false,
            units,
        } => Ok(Form::Text(Vec::from_slice(alloc, units.as_slice())?)),
        Content::Data {
            mutable: false,
            bytes,
        } => Ok(Form::Data(Vec::from_slice(alloc, bytes.as_slice())?)),
        Content::Number(value) => Ok(Form::Whole(value.value())),
        Content::Instance { key, .. } if keyed => Ok(Form::Whole(*key)),
        _ => Ok(Form::Same(number)),
    }
}
