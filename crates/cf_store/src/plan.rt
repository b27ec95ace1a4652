//! What a statement does, as data.
ghost use Rattle.std.specs.Prelude.{◌≡◌, ◌<◌, IfOk};
ghost use Rattle.cf_contents.specs.Contents.{member_limit};
ghost use Rattle.cf_contents.specs.Deeds.{binding, creating};
ghost use Rattle.cf_body.specs.Bodies.{content_of, most_in};
ghost use Rattle.cf_body.specs.Items.{item_in};
ghost use Rattle.cf_store.specs.Applies.{deed_by, IsAlone, IsNew};
ghost use Rattle.cf_store.specs.Sources.{IsNewItem};
ghost use Rattle.cf_store.specs.declared.plan.Origin.TheVariants.{Nowhere};
ghost use Rattle.cf_body.specs.declared.change.BodyChange.TheVariants.{Nothing};
ghost use Rattle.cf_ids.specs.declared.answer.Answer.TheVariants.{Skip, Ok};

use cf_body::{Body, BodyChange, Kind};
use cf_ids::{Answer, ObjId, TypeId};
use std::alloc::{AllocError as NoMemory, Global};

/// Where the object comes from that a statement binds.
#[derive(Drop)]
pub enum Origin {
    /// There is none, and the variable is empty.
    Nowhere,
    /// It is new, and has this body, which stands behind a box, so that a deed is small.
    Fresh(Box<Body>),
    /// It is there already; it may be finalised.
    There(ObjId),
}

/// What a statement answers where nothing else decides its answer, what it binds, and what it changes.
#[derive(Drop)]
pub(crate) struct Plan {
    pub(crate) answer: Answer,
    pub(crate) origin: Origin,
    pub(crate) change: BodyChange,
}

/// A deed, and the first object that its statement uses.
#[derive(Drop)]
pub(crate) struct ReadyPlan {
    pub(crate) object: Option<ObjId>,
    pub(crate) deed: Plan,
}

impl Plan {
    /// It answers, and does nothing else.
    pub(crate) fn answering(answer: Answer) -> Plan
        ensures { result ≡ record { answer = answer; origin = Nowhere; change = Nothing } }
    {
        Plan {
            answer,
            origin: Origin::Nowhere,
            change: BodyChange::Nothing,
        }
    }

    /// The statement is skipped.
    pub(crate) fn skipping() -> Plan
        ensures { result ≡ record { answer = Skip; origin = Nowhere; change = Nothing } }
    {
        Plan::answering(Answer::Skip)
    }

    /// It makes an object.
    pub(crate) fn creating(alloc: Global, class: TypeId, kind: Kind) -> Result<Plan, NoMemory>
        requires few { most_in (content_of kind) < member_limit }
        requires new { IsNewItem (item_in (content_of kind)) }
        ensures { IfOk result (λ d. IsAlone (creating class (content_of kind)) d) }
    {
        let body = Box::new(alloc, Body::new(class, kind))?;
        Ok(Plan {
            answer: Answer::Skip,
            origin: Origin::Fresh(body),
            change: BodyChange::Nothing,
        })
    }

    /// It changes the first object that is used.
    pub(crate) fn changing(answer: Answer, change: BodyChange) -> Plan
        ensures { result ≡ record { answer = answer; origin = Nowhere; change = change } }
    {
        Plan {
            answer,
            origin: Origin::Nowhere,
            change,
        }
    }

    /// It binds an object that is there, if there is one.
    pub(crate) fn binding(object: Option<ObjId>) -> Plan
        ensures is { deed_by result ≡ binding object }
        ensures change { result.change ≡ Nothing }
        ensures new { IsNew result.origin }
    {
        match object {
            Some(object) => Plan {
                answer: Answer::Nil,
                origin: Origin::There(object),
                change: BodyChange::Nothing,
            },
            None => Plan::answering(Answer::Nil),
        }
    }
}

/// Lets a deed be ready, or none.
#[inline(always)]
pub(crate) fn set_ready(ready: &mut Option<ReadyPlan>, deed: Option<ReadyPlan>)
    ensures { ready.new ≡ deed }
{
    *ready = deed;
}
