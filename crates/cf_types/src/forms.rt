//! What an object is compared by.
ghost use Rattle.std.specs.Prelude.{◌≡◌, IfOk, fold};

use crate::hashing::{hash_on, hash_text};
use cf_data::Bytes;
use cf_ids::ObjId;
use cf_string::Str;
use std::alloc::{AllocError as NoMemory, Global};
use std::cmp::Ordering;

/// What an object is compared by.
#[derive(Drop)]
pub enum Form {
    /// An immutable string: its text.
    Text(Str),
    /// Immutable data: its bytes.
    Data(Bytes),
    /// A number: its value. An instance of a class with keys: its key.
    Whole(i64),
    /// Every other object: its identity.
    Same(ObjId),
}

impl Form {
    ghost use Rattle.cf_types.specs.Forms.{form_view};
    ghost use Rattle.cf_types.specs.Hash.{form_bytes, hash_step};
    ghost use Rattle.cf_types.specs.Leaves.{form_order, forms_equal, kind_rank};

    /// A form with the same contents.
    pub(crate) fn copy(&self, alloc: Global) -> Result<Form, NoMemory>
        ensures { IfOk result (λ copied. form_view copied ≡ form_view self.now) }
    {
        match self {
            Form::Text(text) => Ok(Form::Text(text.copy(alloc)?)),
            Form::Data(bytes) => Ok(Form::Data(bytes.copy(alloc)?)),
            Form::Whole(value) => Ok(Form::Whole(*value)),
            Form::Same(id) => Ok(Form::Same(*id)),
        }
    }

    /// Whether the two forms are equal.
    pub(crate) fn equals(&self, other: &Form) -> bool
        ensures { result ≡ forms_equal (form_view self.now) (form_view other.now) }
    {
        match (self, other) {
            (Form::Text(text), Form::Text(other)) => text.compare(other).is_eq(),
            (Form::Data(bytes), Form::Data(other)) => bytes.get() == other.get(),
            (Form::Whole(value), Form::Whole(other)) => value == other,
            (Form::Same(id), Form::Same(other)) => id == other,
            _ => false,
        }
    }

    /// The hash that takes the form's bytes.
    pub(crate) fn hash(&self, start: u64) -> u64
        ensures { result ≡ fold hash_step start (form_bytes (form_view self.now)) }
    {
        match self {
            Form::Text(text) => hash_text(start, text),
            Form::Data(bytes) => hash_on(start, bytes.get()),
            Form::Whole(value) => hash_on(start, &value.to_be_bytes()),
            Form::Same(id) => hash_on(start, &id.0.to_be_bytes()),
        }
    }

    /// How this form stands to the other.
    pub(crate) fn order(&self, other: &Form) -> Ordering
        ensures { result ≡ form_order (form_view self.now) (form_view other.now) }
    {
        match (self, other) {
            (Form::Text(text), Form::Text(other)) => text.compare(other),
            (Form::Data(bytes), Form::Data(other)) => bytes.get().cmp(&other.get()),
            (Form::Whole(value), Form::Whole(other)) => value.cmp(other),
            (Form::Same(id), Form::Same(other)) => id.0.cmp(&other.0),
            _ => self.kind().cmp(&other.kind()),
        }
    }

    /// Where the form's kind stands among the four, from 0.
    fn kind(&self) -> u8
        ensures { result ≡ kind_rank (form_view self.now) }
    {
        match self {
            Form::Text(_) => 0,
            Form::Data(_) => 1,
            Form::Whole(_) => 2,
            Form::Same(_) => 3,
        }
    }
}
