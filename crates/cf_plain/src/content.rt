//! What objects contain.
ghost use Rattle.std.specs.Prelude.{◌≡◌};
ghost use Rattle.cf_plain.specs.Views.{content_of};

use crate::element::Element;
use crate::heap::Heap;
use crate::item::Item;
use cf_ids::{HandlerId, ObjId, TypeId};
use cf_number::Num;
use std::marker::Model;

/// What an object contains, as the definitions have it.
#[derive(Drop)]
pub enum Content {
    /// The units of a string.
    Text {
        mutable: bool,
        units: Vec<u16>,
    },
    /// The bytes of data.
    Data {
        mutable: bool,
        bytes: Vec<u8>,
    },
    /// A number.
    Number(Num),
    /// An instance of a script's class, with its key and its fields.
    Instance {
        key: i64,
        fields: Vec<Option<ObjId>>,
    },
    /// The elements of an array. A plain collection retains nothing.
    Array {
        plain: bool,
        elements: Vec<ObjId>,
    },
    /// The pairs of a dictionary, each a key and its value.
    Dictionary {
        plain: bool,
        pairs: Vec<(Element, ObjId)>,
    },
    /// The members of a set.
    Set {
        plain: bool,
        members: Vec<Element>,
    },
    /// The rows of a bag, each a member and how often it is there.
    Bag {
        plain: bool,
        rows: Vec<(Element, u32)>,
    },
    /// The elements of a heap.
    Heap(Heap),
    /// An item of a run loop.
    Item {
        handler: HandlerId,
        info: Option<ObjId>,
        valid: bool,
        item: Item,
    },
}

/// An object: its type, and what it contains.
#[derive(Drop)]
pub struct Object {
    pub(crate) class: TypeId,
    pub(crate) content: Content,
}

impl Model for Object {
    ghost use Rattle.cf_contents.specs.Contents.{Object as Contained};

    ghost Value = { Contained };

    ghost use Rattle.cf_plain.specs.Views.{content_of};

    ghost view = { λ o. record { class = o.class; content = content_of o.content } };
}

impl Object {
    /// An object of a type, with this content.
    pub fn new(class: TypeId, content: Content) -> Object
        ensures { result ≡ record { class = class; content = content_of content } }
    {
        Object { class, content }
    }

    /// The type of the object.
    pub fn class(&self) -> TypeId
        ensures { result ≡ self.now.class }
    {
        self.class
    }

    /// What the object contains.
    pub fn content(&self) -> &Content
        ensures { content_of result.now ≡ self.now.content }
    {
        &self.content
    }
}
