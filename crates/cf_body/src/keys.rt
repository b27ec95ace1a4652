//! Keys of dictionaries.
ghost use Rattle.std.specs.Prelude.{◌≡◌, IfOk};
ghost use Rattle.cf_contents.specs.Keys.{Numbered, cell_of, compared_by};
ghost use Rattle.cf_body.specs.Bodies.{content_of, object_in};
ghost use Rattle.cf_types.specs.Forms as forms;

use crate::body::{Body, Kind};
use crate::classes::is_keyed;
use cf_ids::ObjId;
use cf_syntax::ClassLine;
use cf_types::{Cell, Form, Leaf};
use std::alloc::{AllocError as NoMemory, Global};

/// An object as the key of a pair, with what it is compared by. `NoMemory` comes for want of memory alone.
pub fn key_of(
    alloc: Global,
    classes: &[ClassLine],
    id: ObjId,
    body: &Body,
) -> Result<Cell, NoMemory>
    ensures { let object : Numbered = record { number = id; object = object_in body.now } in
        IfOk result (λ key. key ≡ cell_of classes.now object) }
{
    let class = body.class;
    let form = compared_by(alloc, is_keyed(classes, class), id, &body.kind)?;
    Ok(Cell {
        id,
        leaf: Leaf { class, form },
    })
}

/// What an object is compared by.
fn compared_by(alloc: Global, keyed: bool, id: ObjId, kind: &Kind) -> Result<Form, NoMemory>
    ensures { IfOk result (λ form. forms.form_view form ≡ compared_by keyed id (content_of kind.now)) }
{
    match kind {
        Kind::Text {
            mutable: false,
            text,
        } => Ok(Form::Text(text.copy(alloc)?)),
        Kind::Data {
            mutable: false,
            bytes,
        } => Ok(Form::Data(bytes.copy(alloc)?)),
        Kind::Number(number) => Ok(Form::Whole(number.value())),
        Kind::Instance(instance) if keyed => Ok(Form::Whole(instance.key)),
        _ => Ok(Form::Same(id)),
    }
}
