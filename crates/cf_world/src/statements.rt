//! The entries of statements that bind a variable or act on bodies, and what they do to the ground of a world.
ghost use Rattle.std.specs.List.{All};
ghost use Rattle.cf_ids.specs.Ranges.{IsObjectNumber};
ghost use Rattle.std.specs.Option.{option_map};
ghost use Rattle.std.specs.Prelude.{◌≡◌, ◌+◌, ◌<◌, ◌≤◌, ◌++◌, [], ◌∷◌, false, length, map, None, Some, true, vec_len, vec_capacity};
ghost use Rattle.cf_contents.specs.Contents.{present};
ghost use Rattle.cf_contents.specs.Items.{class_of, is_signalled_item};
ghost use Rattle.cf_contents.specs.Stores.{live};
ghost use Rattle.cf_body.specs.Items.{item_of, seen_of};
ghost use Rattle.cf_store.specs.Applies.{IsNew, origin_of};
ghost use Rattle.cf_model.specs.Steps.{item_made, object_answer};
ghost use Rattle.cf_syntax.specs.Stage.{is_of_stage};
ghost use Rattle.cf_world.specs.Bindings.{MayMake, bodies_from, found_in};
ghost use Rattle.cf_world.specs.Entering.{HasEntered, IsBinding, IsDeed, IsMaking, MayAct, gained_in, item_body, item_new, listed_in};

use crate::counts::write;
use crate::ground::Ground;
use cf_body::{Body, ItemState, Kind, LoopItem};
use cf_ids::{Answer, OBJECTS, ObjId, ThreadId, TypeId};
use cf_model::{Action, Entry};
use cf_store::{Edited, Origin, Store};
use cf_syntax::Statement;

/// The type of sources.
const SOURCE: TypeId = TypeId(11);

impl Ground {
    /// A statement that neither binds a variable nor counts its references: the deed that is ready is done. What comes
    /// into a body is gained, and what goes out of it is listed.
    pub fn enter_deed(
        &mut self,
        t: ThreadId,
        action: Action,
        gained: &mut Vec<ObjId>,
        list: &mut Vec<u32>,
    )
        requires acts { MayAct self.old t action }
        requires deed { IsDeed self.old t }
        requires gained_room { 2 ≤ vec_capacity gained.old }
        requires list_room { 2 ≤ vec_capacity list.old }
        ensures entered { HasEntered t action self.old self.new }
        ensures gained { gained.new.items ≡ gained_in self.old t }
        ensures gained_room { vec_capacity gained.new ≡ vec_capacity gained.old }
        ensures list { list.new.items ≡ listed_in self.old t }
        ensures list_room { vec_capacity list.new ≡ vec_capacity list.old }
        ensures few_listed { vec_len list.new ≤ 2 }
        ensures numbers { All IsObjectNumber list.new.items }
    {
        let Edited {
            answer,
            origin: _,
            took,
            gave,
        } = self.store.apply();
        put_all(gained, &took);
        put_numbers(list, &gave);
        self.journal.push_reserved(Entry {
            thread: t,
            action,
            answer,
        });
    }

    /// A statement that binds a variable and makes no item: the deed that is ready is done, and what it finds is bound
    /// and gained.
    pub fn enter_binding(&mut self, t: ThreadId, action: Action, gained: &mut Vec<ObjId>)
        requires acts { MayAct self.old t action }
        requires binding { IsBinding self.old t }
        requires gained_room { 2 ≤ vec_capacity gained.old }
        ensures entered { HasEntered t action self.old self.new }
        ensures gained { gained.new.items ≡ gained_in self.old t }
        ensures gained_room { vec_capacity gained.new ≡ vec_capacity gained.old }
    {
        let Edited {
            answer: otherwise,
            origin,
            took: _,
            gave: _,
        } = self.store.apply();
        let object = found(&mut self.store, origin);
        put_found(gained, &object);
        let answer = answer_of_binding(&object, otherwise);
        self.journal.push_reserved(Entry {
            thread: t,
            action,
            answer,
        });
    }
    /// A statement that makes an item of a run loop, which is bound and gained. So is its info, which is its slot.
    pub fn enter_item(
        &mut self,
        t: ThreadId,
        action: Action,
        item: LoopItem,
        gained: &mut Vec<ObjId>,
    )
        requires acts { MayAct self.old t action }
        requires makes { IsMaking self.old t (seen_of item) }
        requires gained_room { 2 ≤ vec_capacity gained.old }
        ensures entered { HasEntered t action self.old self.new }
        ensures gained { gained.new.items ≡ gained_in self.old t }
        ensures gained_room { vec_capacity gained.new ≡ vec_capacity gained.old }
    {
        let info = item.info;
        let object = make_item(&mut self.store, item);
        put_all(gained, &[Some(object), info]);
        write(&mut self.journal, t, action, Answer::Object(object));
    }
}

/// The body of a new item is made.
fn make_item(store: &mut Store, item: LoopItem) -> ObjId
    requires room { 0 < store.old.room }
    requires few { length store.old.bodies < OBJECTS }
    requires valid { item.valid ≡ true }
    requires unsignalled { is_signalled_item (item_of item.state) ≡ false }
    ensures number { result ≡ length store.old.bodies }
    ensures bodies { store.new.bodies ≡ store.old.bodies ++ live (item_body (seen_of item)) ∷ [] }
{
    store.make(Body::new(class_of(&item), Kind::Item(item)))
}

/// The type of an item.
fn class_of(item: &LoopItem) -> TypeId
    ensures { result ≡ class_of (item_of item.now.state) }
{
    match item.state {
        ItemState::Source { .. } => SOURCE,
    }
}

/// The item that a statement which the reader takes makes, if it makes one, with its info.
pub(crate) fn item_made(statement: &Statement, info: Option<ObjId>) -> Option<LoopItem>
    requires { is_of_stage statement.now ≡ true }
    ensures { option_map seen_of result ≡ item_new info (item_made statement.now) }
{
    match statement {
        Statement::MakeSource { order, handler, .. } => Some(LoopItem {
            handler: *handler,
            info,
            valid: true,
            state: ItemState::Source {
                order: *order,
                signalled: false,
            },
        }),
        _ => None,
    }
}

/// The object that is bound: a new one, or one that is there, if it is live.
fn found(store: &mut Store, origin: Origin) -> Option<ObjId>
    requires new { IsNew origin }
    requires room { MayMake (origin_of origin) store.old.bodies store.old.room }
    ensures object { result ≡ found_in store.old.bodies (origin_of origin) }
    ensures bodies { store.new.bodies ≡ store.old.bodies ++ bodies_from (origin_of origin) }
{
    match origin {
        Origin::Nowhere => None,
        Origin::Fresh(body) => Some(store.make(Box::into_inner(body))),
        Origin::There(object) => {
            if store.is_live(object) {
                Some(object)
            } else {
                None
            }
        }
    }
}

/// What a statement that binds a variable answers: the object, if there is one.
fn answer_of_binding(object: &Option<ObjId>, answer: Answer) -> Answer
    ensures { result ≡ object_answer object.now answer }
{
    match *object {
        Some(object) => Answer::Object(object),
        None => answer,
    }
}

/// A list gets the object that is bound, if there is one, in place of what it has.
fn put_found(objects: &mut Vec<ObjId>, object: &Option<ObjId>)
    requires { 2 ≤ vec_capacity objects.old }
    ensures items { objects.new.items ≡ present (object.now ∷ None ∷ []) }
    ensures room { vec_capacity objects.new ≡ vec_capacity objects.old }
{
    objects.clear();
    if let Some(object) = *object {
        objects.push_reserved(object);
    }
}

/// A list gets these objects, in order, in place of what it has.
pub(crate) fn put_all(objects: &mut Vec<ObjId>, those: &[Option<ObjId>; 2])
    requires { 2 ≤ vec_capacity objects.old }
    ensures items { objects.new.items ≡ present those.now }
    ensures room { vec_capacity objects.new ≡ vec_capacity objects.old }
{
    objects.clear();
    let [first, second] = *those;
    if let Some(object) = first {
        objects.push_reserved(object);
    }
    if let Some(object) = second {
        objects.push_reserved(object);
    }
}

/// The same for the numbers of the objects.
fn put_numbers(numbers: &mut Vec<u32>, those: &[Option<ObjId>; 2])
    requires { 2 ≤ vec_capacity numbers.old }
    ensures items { numbers.new.items ≡ present those.now }
    ensures few { vec_len numbers.new ≤ 2 }
    ensures numbers { All IsObjectNumber numbers.new.items }
    ensures room { vec_capacity numbers.new ≡ vec_capacity numbers.old }
{
    numbers.clear();
    let [first, second] = *those;
    if let Some(object) = first {
        numbers.push_reserved(object.0);
    }
    if let Some(object) = second {
        numbers.push_reserved(object.0);
    }
}
