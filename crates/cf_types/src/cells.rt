//! The elements of collections.
ghost use Rattle.std.specs.Prelude.{◌≡◌, true, IfOk};

use crate::leaves::Leaf;
use cf_ids::ObjId;
use std::alloc::{AllocError as NoMemory, Global};

/// An element of a collection: an object, and what it is compared by.
#[derive(Drop)]
pub struct Cell {
    /// The object.
    pub id: ObjId,
    /// The type of the object, and what it is compared by under `Typed`.
    pub leaf: Leaf,
}

impl Cell {
    ghost use Rattle.cf_types.specs.Cells.{cells_equal};
    ghost use Rattle.cf_types.specs.declared.callbacks.CellCallbacks.TheVariants.{Typed};

    /// The same object once more, with contents of its own. `NoMemory` comes for want of memory alone.
    pub fn copy(&self, alloc: Global) -> Result<Cell, NoMemory>
        ensures same { IfOk result (λ copied. copied ≡ self.now) }
        ensures equal { IfOk result (λ copied. cells_equal Typed copied self.now ≡ true) }
    {
        let leaf = self.leaf.copy(alloc)?;
        Ok(Cell { id: self.id, leaf })
    }
}
