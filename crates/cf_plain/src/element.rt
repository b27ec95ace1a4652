//! The elements of collections.
ghost use Rattle.std.specs.Prelude.{◌≡◌};
ghost use Rattle.std.specs.Cmp.Lexicographic.{slice_cmp};
ghost use Rattle.cf_types.specs.Cells.{cell_order};
ghost use Rattle.cf_types.specs.Leaves.{forms_equal, form_order, kind_rank};
ghost use Rattle.cf_contents.specs.Contents.{callbacks_of};
ghost use Rattle.cf_contents.specs.Keys.{equal_to};
ghost use Rattle.cf_plain.specs.Forms.{form_view};

use cf_ids::{ObjId, TypeId};
use std::cmp::Ordering;
use std::marker::Model;

/// What an object is compared by.
#[derive(Drop)]
pub enum Form {
    /// An immutable string: its units.
    Text(Vec<u16>),
    /// Immutable data: its bytes.
    Data(Vec<u8>),
    /// A number: its value. An instance of a class with keys: its key.
    Whole(i64),
    /// Every other object: its identity.
    Same(ObjId),
}

/// An element of a collection: an object, its type, and what it is compared by.
#[derive(Drop)]
pub struct Element {
    pub(crate) id: ObjId,
    pub(crate) class: TypeId,
    pub(crate) form: Form,
}

impl Model for Element {
    ghost use Rattle.cf_types.specs.declared.cells.Cell.{Cell};

    ghost Value = { Cell };

    ghost use Rattle.cf_plain.specs.Forms.{form_view};

    ghost view = { λ e. record { id = e.id; leaf = record { class = e.class; form = form_view e.form } } };
}

/// Whether two forms are equal.
fn forms_equal(a: &Form, b: &Form) -> bool
    ensures { result ≡ forms_equal (form_view a.now) (form_view b.now) }
{
    match (a, b) {
        (Form::Text(a), Form::Text(b)) => a.as_slice() == b.as_slice(),
        (Form::Data(a), Form::Data(b)) => a.as_slice() == b.as_slice(),
        (Form::Whole(a), Form::Whole(b)) => a == b,
        (Form::Same(a), Form::Same(b)) => a == b,
        _ => false,
    }
}

/// Where a form's kind stands among the four, from 0.
fn kind_rank(form: &Form) -> u8
    ensures { result ≡ kind_rank (form_view form.now) }
{
    match form {
        Form::Text(_) => 0,
        Form::Data(_) => 1,
        Form::Whole(_) => 2,
        Form::Same(_) => 3,
    }
}

/// How a form stands to another.
fn form_order(a: &Form, b: &Form) -> Ordering
    ensures { result ≡ form_order (form_view a.now) (form_view b.now) }
{
    match (a, b) {
        (Form::Text(a), Form::Text(b)) => a.as_slice().cmp(&b.as_slice()),
        (Form::Data(a), Form::Data(b)) => a.as_slice().cmp(&b.as_slice()),
        (Form::Whole(a), Form::Whole(b)) => a.cmp(b),
        (Form::Same(a), Form::Same(b)) => a.0.cmp(&b.0),
        _ => kind_rank(a).cmp(&kind_rank(b)),
    }
}

/// Whether an element is equal to a key: a plain collection compares identities.
pub fn is_equal(plain: bool, key: &Element, other: &Element) -> bool
    ensures { result ≡ equal_to plain key.now other.now }
{
    if plain {
        key.id == other.id
    } else {
        key.class == other.class && forms_equal(&key.form, &other.form)
    }
}

/// How an element stands to another.
pub fn order_of(plain: bool, a: &Element, b: &Element) -> Ordering
    ensures { result ≡ cell_order (callbacks_of plain) a.now b.now }
{
    if plain {
        return a.id.0.cmp(&b.id.0);
    }
    match a.class.0.cmp(&b.class.0) {
        Ordering::Equal => form_order(&a.form, &b.form),
        unequal => unequal,
    }
}

impl Element {
    /// The object.
    pub fn id(&self) -> ObjId
        ensures { result ≡ self.now.id }
    {
        self.id
    }
}
