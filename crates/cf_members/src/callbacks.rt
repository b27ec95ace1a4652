//! How collections treat their elements, and the objects in them.
ghost use Rattle.std.specs.Prelude.{◌≡◌};
ghost use Rattle.std.specs.Option.{option_copied, option_map};
ghost use Rattle.cf_contents.specs.Contents.{callbacks_of};
ghost use Rattle.cf_types.specs.declared.cells.Cell.{Cell};

use cf_ids::ObjId;
use cf_types::{Cell, CellCallbacks};

/// By identity in a plain collection, else by class and contents.
pub(crate) fn callbacks_of(plain: bool) -> CellCallbacks
    ensures { result ≡ callbacks_of plain }
{
    if plain {
        CellCallbacks::Plain
    } else {
        CellCallbacks::Typed
    }
}

/// The number of the object in an element, if there is one.
pub(crate) fn id_of(element: Option<Cell>) -> Option<ObjId>
    ensures { result ≡ option_map (λ (cell : Cell). cell.id) element }
{
    match element {
        Some(element) => Some(element.id),
        None => None,
    }
}

/// The same of an element that stays.
pub(crate) fn id_at(element: Option<&Cell>) -> Option<ObjId>
    ensures { result ≡ option_map (λ (cell : Cell). cell.id) (option_copied element.entry) }
{
    match element {
        Some(element) => Some(element.id),
        None => None,
    }
}
