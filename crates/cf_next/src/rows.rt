//! Rows of cells on top of one another, in one vector.
ghost use Rattle.std.specs.Prelude.{◌≡◌, ◌+◌, ◌<◌, ◌≤◌, ◌++◌, ◌∷◌, [], drop, length, reverse, take, OnOk};
ghost use Rattle.cf_next.specs.Grids.{at_depth, top_row, on_top_row};

use std::alloc::{AllocError as NoMemory, Global};
use std::marker::Model;

/// Rows, at least one, of which the topmost one can change.
#[derive(Drop)]
pub(crate) struct Rows<T> {
    cells: Vec<T>,
    /// Where the topmost row begins, and where those below it do, the lowest first.
    start: usize,
    below: Vec<usize>,
}

impl<T> Model for Rows<T> {
    ghost use Rattle.std.specs.Prelude.{◌∷◌, ◌-◌, reverse, vec_len, vec_capacity};
    ghost use Rattle.cf_next.specs.Grids.{Grid, rows_of, AreNested};

    ghost Value = { Grid T };

    ghost view = { λ r. record {
      rows = rows_of (r.start ∷ reverse r.below.items) r.cells.items;
      row_room = vec_capacity r.below - vec_len r.below;
      cell_room = vec_capacity r.cells - vec_len r.cells;
    } };

    ghost invariant = { λ r. AreNested (r.start ∷ reverse r.below.items) r.cells.items };
}

impl<T> Rows<T> {
    /// One row without cells, and no room; takes no memory.
    pub(crate) fn new(alloc: Global) -> Rows<T>
        ensures { result ≡ record { rows = [] ∷ []; row_room = 0; cell_room = 0 } }
    {
        Rows {
            cells: Vec::new(alloc),
            start: 0,
            below: Vec::new(alloc),
        }
    }

    /// Makes room for so many further rows and cells.
    pub(crate) fn reserve(&mut self, rows: usize, cells: usize) -> Result<(), NoMemory>
        ensures rows { self.new.rows ≡ self.old.rows }
        ensures row_room { OnOk result (rows ≤ self.new.row_room) }
        ensures cell_room { OnOk result (cells ≤ self.new.cell_room) }
        ensures rows_kept { self.old.row_room ≤ self.new.row_room }
        ensures cells_kept { self.old.cell_room ≤ self.new.cell_room }
    {
        self.cells.reserve(cells)?;
        self.below.reserve(rows)
    }

    /// The cells of the topmost row.
    pub(crate) fn top(&self) -> &[T]
        ensures { result.now ≡ top_row self.now.rows }
    {
        &self.cells[self.start..]
    }

    /// The cells of the row that so many others are below.
    pub(crate) fn row(&self, depth: usize) -> &[T]
        requires { depth < length self.now.rows }
        ensures { result.now ≡ at_depth [] self.now.rows depth }
    {
        let below = self.below.as_slice();
        let count = self.cells.len();
        let start = start_at(below, self.start, count, depth);
        let end = start_at(below, self.start, count, depth + 1);
        &self.cells[start..end]
    }
}

/// Where the row begins that so many others are below: the topmost one at `top`, and one above it at `end`.
fn start_at(below: &[usize], top: usize, end: usize, depth: usize) -> usize
    ensures { result ≡ at_depth end (top ∷ reverse below.now) depth }
{
    if depth < below.len() {
        below[depth]
    } else if depth == below.len() {
        top
    } else {
        end
    }
}

impl<T: Copy> Rows<T> {
    /// Puts a row without cells on top.
    pub(crate) fn push_row(&mut self)
        requires { 0 < self.old.row_room }
        ensures rows { self.new.rows ≡ [] ∷ self.old.rows }
        ensures row_room { self.new.row_room + 1 ≡ self.old.row_room }
        ensures cell_room { self.new.cell_room ≡ self.old.cell_room }
    {
        self.below.push_reserved(self.start);
        self.start = self.cells.len();
    }

    /// Takes the topmost row away, where there is another one.
    pub(crate) fn pop_row(&mut self)
        requires { 1 < length self.old.rows }
        ensures rows { self.new.rows ≡ drop 1 self.old.rows }
        ensures row_room { self.old.row_room ≤ self.new.row_room }
        ensures cell_room { self.old.cell_room ≤ self.new.cell_room }
    {
        if let Some(start) = self.below.pop() {
            self.cells.truncate(self.start);
            self.start = start;
        }
    }

    /// Puts a cell at the end of the topmost row.
    pub(crate) fn push(&mut self, cell: T)
        requires { 0 < self.old.cell_room }
        ensures rows { self.new.rows ≡ on_top_row (λ r. r ++ cell ∷ []) self.old.rows }
        ensures row_room { self.new.row_room ≡ self.old.row_room }
        ensures cell_room { self.new.cell_room + 1 ≡ self.old.cell_room }
    {
        self.cells.push_reserved(cell);
    }

    /// Keeps the first `n` cells of the topmost row.
    pub(crate) fn truncate(&mut self, n: usize)
        requires { n ≤ length (top_row self.old.rows) }
        ensures rows { self.new.rows ≡ on_top_row (λ r. take n r) self.old.rows }
        ensures row_room { self.new.row_room ≡ self.old.row_room }
        ensures cell_room { self.old.cell_room ≤ self.new.cell_room }
    {
        let end = self.start + n;
        self.cells.truncate(end);
    }
}
