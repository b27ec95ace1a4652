//! What a statement does to contents, as data.
ghost use Rattle.std.specs.Prelude.{◌≡◌};
ghost use Rattle.cf_contents.specs.Deeds.{answering, binding, changing, creating, skipping};
ghost use Rattle.cf_plain.specs.Deeds.{deed_of, origin_of};
ghost use Rattle.cf_plain.specs.Views.{change_of, content_of};

use crate::change::Change;
use crate::content::{Content, Object};
use cf_ids::{Answer, ObjId, TypeId};

/// Where the object comes from that a statement binds.
#[derive(Drop)]
pub enum Origin {
    /// There is none, and the variable is empty.
    Nowhere,
    /// It is new.
    Fresh(Object),
    /// It is there already; it may be finalised.
    There(ObjId),
}

/// What a statement answers if nothing else decides its answer, what it binds, and what it changes.
#[derive(Drop)]
pub struct Deed {
    pub answer: Answer,
    pub origin: Origin,
    pub change: Change,
}

impl Deed {
    /// It answers, and does nothing else.
    pub fn answering(answer: Answer) -> Deed
        ensures { deed_of result ≡ answering answer }
    {
        Deed {
            answer,
            origin: Origin::Nowhere,
            change: Change::Nothing,
        }
    }

    /// The statement is skipped.
    pub fn skipping() -> Deed
        ensures { deed_of result ≡ skipping }
    {
        Deed::answering(Answer::Skip)
    }

    /// It makes an object.
    pub(crate) fn creating(class: TypeId, content: Content) -> Deed
        ensures { deed_of result ≡ creating class (content_of content) }
    {
        Deed {
            answer: Answer::Skip,
            origin: Origin::Fresh(Object { class, content }),
            change: Change::Nothing,
        }
    }

    /// It changes the first object that is used.
    pub(crate) fn changing(answer: Answer, change: Change) -> Deed
        ensures { deed_of result ≡ changing answer (change_of change) }
    {
        Deed {
            answer,
            origin: Origin::Nowhere,
            change,
        }
    }

    /// It binds an object that is there, if there is one.
    pub(crate) fn binding(object: Option<ObjId>) -> Deed
        ensures { deed_of result ≡ binding object }
    {
        match object {
            Some(object) => Deed {
                answer: Answer::Nil,
                origin: Origin::There(object),
                change: Change::Nothing,
            },
            None => Deed::answering(Answer::Nil),
        }
    }
}
