//! Items of run loops.
ghost use Rattle.std.specs.Prelude.{◌≡◌, ◌∷◌, ◌++◌, [], slice_get, OnOk};
ghost use Rattle.std.specs.Option.{option_map};
ghost use Rattle.cf_contents.specs.Items.{kind_of, is_signalled_item};
ghost use Rattle.cf_contents.specs.Contents.{present};
ghost use Rattle.cf_contents.specs.Deeds.{in_item, item_after};
ghost use Rattle.cf_contents.specs.Descriptions.{valid_word, item_words};
ghost use Rattle.cf_contents.specs.Stores.{body_changed};
ghost use Rattle.cf_body.specs.Bodies.{content_of, held_of, room_of, most_in};
ghost use Rattle.cf_body.specs.Items.{item_in, item_of, seen_of};

use crate::body::{Body, Kind};
use cf_ids::{HandlerId, ItemKind, ObjId};
use std::alloc::AllocError as NoMemory;

/// What an item of a run loop is, and how it stands.
#[derive(Clone, Copy)]
pub enum ItemState {
    /// A source.
    Source {
        /// Sources of a lower order are called first.
        order: i64,
        /// It is signalled, and its callout has not begun since.
        signalled: bool,
    },
}

/// An item of a run loop, with its handler.
#[derive(Clone, Copy)]
pub struct LoopItem {
    /// The handler that is called.
    pub handler: HandlerId,
    /// The object with which it is called, if there is one: the one slot of the item.
    pub info: Option<ObjId>,
    /// It is not invalidated.
    pub valid: bool,
    /// What it is.
    pub state: ItemState,
}

impl LoopItem {
    /// What kind of item it is.
    pub fn kind(&self) -> ItemKind
        ensures { result ≡ kind_of (item_of self.now.state) }
    {
        match self.state {
            ItemState::Source { .. } => ItemKind::Source,
        }
    }

    /// Whether it is a source that is signalled.
    pub fn is_signalled(&self) -> bool
        ensures { result ≡ is_signalled_item (item_of self.now.state) }
    {
        match self.state {
            ItemState::Source { signalled, .. } => signalled,
        }
    }
}

impl Body {
    /// The item of a run loop that the object is, if it is one.
    pub fn item(&self) -> Option<LoopItem>
        ensures { option_map seen_of result ≡ item_in self.now.content }
    {
        match &self.kind {
            Kind::Item(item) => Some(*item),
            _ => None,
        }
    }

    /// Lets an item be valid or not, and stand so. What is no item stays as it is.
    pub fn set_item(&mut self, valid: bool, state: ItemState)
        ensures held { held_of self.new ≡ body_changed (in_item valid (item_of state)) (held_of self.old) }
        ensures room { self.new.room ≡ self.old.room }
    {
        set_item(&mut self.kind, valid, state);
    }
}

/// Lets an item be valid or not, and stand so.
fn set_item(kind: &mut Kind, valid: bool, state: ItemState)
    ensures content { content_of kind.new ≡ item_after valid (item_of state) (content_of kind.old) }
    ensures room { room_of kind.new ≡ room_of kind.old }
    ensures most { most_in (content_of kind.new) ≡ most_in (content_of kind.old) }
{
    if let Kind::Item(item) = kind {
        item.valid = valid;
        item.state = state;
    }
}

/// The slot of an item: its info.
pub(crate) fn info_slot(item: &LoopItem, k: usize) -> Option<ObjId>
    ensures { result ≡ slice_get (present (item.now.info ∷ [])) k }
{
    if k == 0 { item.info } else { None }
}

/// Writes whether an item is valid, and what else is shown of its kind.
pub(crate) fn push_item(out: &mut Vec<u8>, item: &LoopItem) -> Result<(), NoMemory>
    ensures { OnOk result (out.new.items ≡ out.old.items ++ item_words item.now.valid (item_of item.now.state)) }
{
    out.extend_from_slice(valid_word(item.valid))?;
    match item.state {
        ItemState::Source {
            signalled: true,
            ..
        } => out.extend_from_slice(b" signalled"),
        ItemState::Source { .. } => Ok(()),
    }
}

/// The word of whether an item is valid.
fn valid_word(valid: bool) -> &'static [u8]
    ensures { result.now ≡ valid_word valid }
{
    if valid { b"valid" } else { b"invalid" }
}
