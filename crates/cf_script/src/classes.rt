//! The class lines of a script.
ghost use Rattle.std.specs.Prelude.{◌≡◌, ◌<◌, ◌∷◌, ◌++◌, [], length, OnOk, nat_lt, false};
ghost use Rattle.cf_syntax.specs.FormStatements.{class_named};
ghost use Rattle.cf_syntax.specs.Text.{class_has_name};

use cf_ids::{Seq, TYPES, TypeId};
use cf_syntax::ClassLine;
use indexmap::IndexSet;
use std::alloc::{AllocError, Global};
use std::marker::Model;

/// The type number of the first class line.
const FIRST: u16 = 14;

/// The most classes of a script.
const CLASSES: usize = TYPES + 1 - FIRST as usize;

/// The class lines so far, of which there are at most 1,011.
#[derive(Drop)]
pub(crate) struct Classes {
    lines: Vec<ClassLine>,
    /// Their names in the same order, so that a class is found by one look-up.
    names: IndexSet<Vec<u8>>,
}

impl Model for Classes {
    ghost use Rattle.std.specs.Prelude.{◌≡◌, ◌≤◌, List, length};
    ghost use Rattle.cf_syntax.specs.declared.script.ClassLine.{ClassLine};
    ghost use Rattle.cf_script.specs.Views.{names_of, texts};

    ghost Value = { List ClassLine };

    ghost view = { λ c. c.lines.items };

    ghost invariant = { λ c. (length c.lines.items ≤ 1011) × (texts c.names.keys ≡ names_of c.lines.items) };
}

impl Classes {
    /// No class.
    pub fn new(alloc: Global) -> Classes
        ensures { result ≡ [] }
    {
        Classes {
            lines: Vec::new(alloc),
            names: IndexSet::new(alloc),
        }
    }

    /// The type number of the class of a name.
    pub fn named(&self, name: &[u8]) -> Option<TypeId>
        ensures { result ≡ class_named self.now name.now }
    {
        let place = self.names.get_index_of(name)?;
        Some(TypeId(FIRST + place as u16))
    }

    /// Whether a class has this name.
    pub fn has(&self, name: &[u8]) -> bool
        ensures { result ≡ class_has_name self.now name.now }
    {
        self.names.contains(name)
    }

    /// Whether a further class may come.
    pub fn has_room(&self) -> bool
        ensures { result ≡ nat_lt (length self.now) 1011 }
    {
        self.lines.len() < CLASSES
    }

    /// A class more.
    pub fn push(&mut self, alloc: Global, class: ClassLine) -> Result<(), AllocError>
        requires room { length self.old < 1011 }
        requires free { class_has_name self.old class.name ≡ false }
        ensures { OnOk result (self.new ≡ self.old ++ class ∷ []) }
    {
        let name = Vec::from_slice(alloc, class.name.as_slice())?;
        // With room for the line nothing fails after the name, and both lists stay alike.
        self.lines.reserve(1)?;
        self.names.insert(name)?;
        self.lines.push_reserved(class);
        Ok(())
    }

    /// The class lines. It takes no memory.
    pub fn into_seq(self) -> Seq<ClassLine>
        ensures { result ≡ self }
    {
        let Classes { lines, .. } = self;
        Seq::from_vec(lines)
    }
}
