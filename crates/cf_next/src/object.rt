//! Objects that may be none, in a few bytes.
ghost use Rattle.std.specs.Prelude.{◌≡◌};
ghost use Rattle.cf_next.specs.Views.{object_of, objects_of};

use cf_ids::{OBJECT_NUMBERS, ObjId};

/// An object, or none, in four bytes.
#[derive(Clone, Copy)]
pub struct MaybeObject {
    // A number that no object has stands for none.
    number: u32,
}

impl MaybeObject {
    /// None.
    pub(crate) const NONE: MaybeObject = MaybeObject { number: u32::MAX };

    /// The same in four bytes.
    pub fn of(object: Option<ObjId>) -> MaybeObject
        ensures { object_of result ≡ object }
    {
        let number = match object {
            Some(object) => object.0,
            None => u32::MAX,
        };
        MaybeObject { number }
    }

    /// The object, if there is one.
    pub fn object(&self) -> Option<ObjId>
        ensures { result ≡ object_of self.now }
    {
        if (self.number as usize) < OBJECT_NUMBERS {
            Some(ObjId(self.number))
        } else {
            None
        }
    }
}

/// The objects of the variables that a statement uses, in the order of its words.
#[derive(Clone, Copy)]
pub struct Used {
    pub(crate) first: MaybeObject,
    second: MaybeObject,
    third: MaybeObject,
}

impl Used {
    /// The same in twelve bytes.
    pub fn of(objects: [Option<ObjId>; 3]) -> Used
        ensures { objects_of result ≡ objects }
    {
        let [first, second, third] = objects;
        Used {
            first: MaybeObject::of(first),
            second: MaybeObject::of(second),
            third: MaybeObject::of(third),
        }
    }

    /// The objects.
    pub fn objects(&self) -> [Option<ObjId>; 3]
        ensures { result ≡ objects_of self.now }
    {
        [
            self.first.object(),
            self.second.object(),
            self.third.object(),
        ]
    }
}
