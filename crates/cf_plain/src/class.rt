//! The types of objects: those that are built in, and the classes of a script.
ghost use Rattle.std.specs.Prelude.{◌≡◌};
ghost use Rattle.std.specs.Option.{option_copied};
ghost use Rattle.cf_contents.specs.Descriptions.{class_name};
ghost use Rattle.cf_contents.specs.Keys.{class_line, is_keyed};

use cf_ids::TypeId;
use cf_syntax::ClassLine;
use cf_types::built_in_name;

/// The number of a script's first class.
const FIRST_CLASS: u16 = 14;

/// The line of a class; a type that is built in has none.
pub(crate) fn class_line(classes: &[ClassLine], class: TypeId) -> Option<&ClassLine>
    ensures { option_copied result ≡ class_line classes.now class }
{
    if class.0 < FIRST_CLASS {
        return None;
    }
    classes.get(usize::from(class.0 - FIRST_CLASS))
}

/// The name of a type; empty if there is none of this number.
pub(crate) fn class_name(classes: &[ClassLine], class: TypeId) -> &[u8]
    ensures { result.now ≡ class_name classes.now class }
{
    if class.0 < FIRST_CLASS {
        return match built_in_name(class) {
            Some(name) => name.as_bytes(),
            None => &[],
        };
    }
    match class_line(classes, class) {
        Some(line) => line.name.as_slice(),
        None => &[],
    }
}

/// Whether instances of a class are equal if their keys are.
pub(crate) fn is_keyed(classes: &[ClassLine], class: TypeId) -> bool
    ensures { result ≡ is_keyed (class_line classes.now class) }
{
    match class_line(classes, class) {
        Some(line) => line.keyed,
        None => false,
    }
}
