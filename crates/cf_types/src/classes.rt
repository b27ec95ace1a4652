//! The types of objects, and the names of those that are built in.
ghost use Rattle.std.specs.Prelude.{◌≡◌, ◌-◌, slice_get};
ghost use Rattle.std.specs.Option.{option_map};
ghost use Rattle.cf_types.specs.Registry.{built_in_names};

use cf_ids::{Seq, TypeId};

/// The names of the built-in types, which are numbered from 1.
pub const BUILT_IN_NAMES: [&str; 13] = [
    "Null",
    "Boolean",
    "String",
    "Data",
    "Number",
    "Array",
    "Dictionary",
    "Set",
    "Bag",
    "BinaryHeap",
    "RunLoopSource",
    "RunLoopTimer",
    "RunLoopObserver",
];

/// The name of a built-in type, or `None` for a class of a script.
pub fn built_in_name(class: TypeId) -> Option<&'static str>
    ensures { option_map (λ name. name.now) result ≡ slice_get built_in_names (class - 1) }
{
    BUILT_IN_NAMES.get(usize::from(class.0) - 1).copied()
}

/// What instances of a class are compared by.
#[derive(Clone, Copy)]
pub enum Equality {
    /// Their identity.
    Identity,
    /// The key that each is made with.
    Key,
}

/// A type of objects.
#[derive(Drop)]
pub struct Class {
    /// The name, in UTF-8.
    pub name: Seq<u8>,
    /// How many fields an instance has.
    pub fields: u8,
    /// What two instances are compared by.
    pub equality: Equality,
}
