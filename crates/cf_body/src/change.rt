//! What becomes of a body.
ghost use Rattle.std.specs.Prelude.{◌≡◌, [], ◌∷◌, None};
ghost use Rattle.cf_contents.specs.Contents.{present, unless_plain};
ghost use Rattle.cf_body.specs.Changes.{room_for};

use cf_data::Bytes;
use cf_ids::ObjId;
use cf_string::Str;
use cf_types::Cell;

/// What becomes of the first object that a statement uses.
#[derive(Drop)]
pub enum BodyChange {
    /// Nothing becomes of it.
    Nothing,
    /// A text in place of the `len` units from `at` on.
    Text { at: usize, len: usize, text: Str },
    /// Bytes in place of the `len` bytes from `at` on.
    Data { at: usize, len: usize, bytes: Bytes },
    /// An element before the one at a place, or after the last one.
    Insert { at: usize, element: ObjId },
    /// An element in place of the one at a place, or after the last one.
    Replace { at: usize, element: ObjId },
    /// The element at a place is removed.
    Remove { at: usize },
    /// An object in a field.
    Fill { at: usize, element: ObjId },
    /// A field is emptied.
    Clear { at: usize },
    /// A pair is put in, its value alone if its key is there.
    PutPair { key: Cell, value: ObjId },
    /// A pair is removed by its key.
    RemovePair { key: Cell },
    /// An element is added to a set, a bag or a heap.
    AddMember { element: Cell },
    /// An element is put in place of the member that is equal to it, or added.
    PutMember { element: Cell },
    /// One of the members that are equal to an element is removed.
    RemoveMember { element: Cell },
    /// The least element of a heap is removed.
    RemoveLeast,
}

impl BodyChange {
    /// For how many units, bytes, elements, pairs or members it needs room.
    pub(crate) fn room(&self) -> usize
        ensures { result ≡ room_for self.now }
    {
        match self {
            BodyChange::Text { text, .. } => text.length(),
            BodyChange::Data { bytes, .. } => bytes.length(),
            BodyChange::Insert { .. }
            | BodyChange::Replace { .. }
            | BodyChange::PutPair { .. }
            | BodyChange::AddMember { .. }
            | BodyChange::PutMember { .. } => 1,
            _ => 0,
        }
    }
}

/// The objects that came into a body and went out of it, in order.
#[derive(Drop)]
pub struct Moved {
    /// What came in: up to two objects, the key of a pair before its value.
    pub took: [Option<ObjId>; 2],
    /// What went out: up to two objects, the key of a pair before its value.
    pub gave: [Option<ObjId>; 2],
}

impl Moved {
    /// None.
    pub fn nothing() -> Moved
        ensures { result ≡ record { took = None ∷ None ∷ []; gave = None ∷ None ∷ [] } }
    {
        Moved {
            took: [None, None],
            gave: [None, None],
        }
    }

    /// These, unless the collection is plain: such a one holds nothing.
    pub(crate) fn unless_plain(
        plain: bool,
        took: [Option<ObjId>; 2],
        gave: [Option<ObjId>; 2],
    ) -> Moved
        ensures took { present result.took ≡ unless_plain plain (present took) }
        ensures gave { present result.gave ≡ unless_plain plain (present gave) }
    {
        if plain {
            Moved::nothing()
        } else {
            Moved { took, gave }
        }
    }
}
