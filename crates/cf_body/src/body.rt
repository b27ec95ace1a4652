//! What an object is made of.
ghost use Rattle.std.specs.Prelude.{◌≡◌, ◌<◌};
ghost use Rattle.cf_contents.specs.Contents.{member_limit};
ghost use Rattle.cf_body.specs.Bodies.{content_of, held_of, most_in};
ghost use Rattle.cf_contents.specs.Stores.{live};

use crate::item::LoopItem;
use crate::pairs::Pairs;
use cf_array::Array;
use cf_data::Bytes;
use cf_ids::{ObjId, TypeId};
use cf_members::{ElementHeap, MemberBag, MemberSet};
use cf_number::Num;
use cf_string::Str;
use std::marker::Model;

/// The key and the fields of an instance of a script's class.
#[derive(Drop)]
pub struct Instance {
    /// The key that it was made with.
    pub key: i64,
    /// The object in each field, as many as its class has; at most 255.
    pub fields: Vec<Option<ObjId>>,
}

/// What an object contains.
#[derive(Drop)]
pub enum Kind {
    /// The text of a string.
    Text { mutable: bool, text: Str },
    /// The bytes of data.
    Data { mutable: bool, bytes: Bytes },
    /// A number.
    Number(Num),
    /// An instance of a script's class.
    Instance(Instance),
    /// The elements of an array. A plain one retains nothing.
    Array { plain: bool, elements: Array<ObjId> },
    /// The pairs of a dictionary.
    Dictionary(Pairs),
    /// The members of a set.
    Set(MemberSet),
    /// The rows of a bag.
    Bag(MemberBag),
    /// The elements of a heap.
    Heap(ElementHeap),
    /// An item of a run loop.
    Item(LoopItem),
}

/// The body of an object. Contracts see the object, whether it is finalised, how many of its slots it has
/// given up, and how many more units, bytes, elements, pairs or members come in without memory.
#[derive(Drop)]
pub struct Body {
    pub(crate) class: TypeId,
    pub(crate) kind: Kind,
    pub(crate) is_finalised: bool,
    pub(crate) given_up: u32,
}

impl Model for Body {
    ghost use Rattle.std.specs.Prelude.{◌<◌};
    ghost use Rattle.cf_contents.specs.Contents.{member_limit};
    ghost use Rattle.cf_body.specs.Bodies.{BodyView, content_of, room_of, most_in};

    ghost Value = { BodyView };

    ghost view = { λ b. record {
      class = b.class;
      content = content_of b.kind;
      is_finalised = b.is_finalised;
      given_up = b.given_up;
      room = room_of b.kind;
    } };

    ghost invariant = { λ b. most_in (content_of b.kind) < member_limit };
}

impl Body {
    /// The body of a new object of a type.
    pub fn new(class: TypeId, kind: Kind) -> Body
        requires { most_in (content_of kind) < member_limit }
        ensures { held_of result ≡ live (record { class = class; content = content_of kind }) }
    {
        Body {
            class,
            kind,
            is_finalised: false,
            given_up: 0,
        }
    }

    /// The type of the object.
    pub fn class(&self) -> TypeId
        ensures { result ≡ self.now.class }
    {
        self.class
    }

    /// What the object contains.
    pub fn kind(&self) -> &Kind
        ensures { content_of result.now ≡ self.now.content }
    {
        &self.kind
    }

    /// Whether the object is finalised.
    pub fn is_finalised(&self) -> bool
        ensures { result ≡ self.now.is_finalised }
    {
        self.is_finalised
    }

    /// How many of its slots it has given up.
    pub fn given_up(&self) -> u32
        ensures { result ≡ self.now.given_up }
    {
        self.given_up
    }
}
