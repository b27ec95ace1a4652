//! How collections treat their elements: by class and contents, or by identity.
use crate::cells::Cell;
use crate::hashing::{START, hash_on};
use cf_callbacks::{Callbacks, Steps};
use std::cmp::Ordering;
use std::sync::ledger::Ledger;

/// How a collection treats its elements.
#[derive(Clone, Copy)]
pub enum CellCallbacks {
    /// By class and contents; elements are retained.
    Typed,
    /// By identity; nothing is retained.
    Plain,
}

impl Callbacks<Cell> for CellCallbacks {
    ghost use Rattle.cf_types.specs.Cells.{cell_hash, cell_order, cells_equal, cells_kept};
    ghost use Rattle.cf_types.specs.Laws.{cells_equivalence, cells_equal_hashes, cells_total, cells_equal_ranks};

    ghost keeps = { cells_kept };

    ghost same = { cells_equal };

    ghost hash_of = { cell_hash };

    ghost rank = { cell_order };

    ghost equivalence = { cells_equivalence };

    ghost equal_hashes = { cells_equal_hashes };

    ghost total = { cells_total };

    ghost equal_ranks = { cells_equal_ranks };

    fn retains(&self) -> bool {
        match self {
            CellCallbacks::Typed => true,
            CellCallbacks::Plain => false,
        }
    }

    fn equal(&self, a: &Cell, b: &Cell) -> bool {
        match self {
            CellCallbacks::Typed => a.leaf.equals(&b.leaf),
            CellCallbacks::Plain => a.id == b.id,
        }
    }

    fn hash(&self, a: &Cell) -> u64 {
        match self {
            CellCallbacks::Typed => a.leaf.hash(),
            CellCallbacks::Plain => hash_on(START, &a.id.0.to_be_bytes()),
        }
    }

    fn order<L: Ledger>(&self, a: &Cell, b: &Cell, steps: &mut Steps<L>) -> Ordering {
        steps.tick();
        match self {
            CellCallbacks::Typed => a.leaf.order(&b.leaf),
            CellCallbacks::Plain => a.id.0.cmp(&b.id.0),
        }
    }
}
