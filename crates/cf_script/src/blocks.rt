//! The blocks of a script that are ended.
ghost use Rattle.std.specs.Prelude.{◌≡◌, ◌≤◌, ◌∷◌, ◌++◌, [], length, OnOk};
ghost use Rattle.cf_ids.specs.declared.limits.TheConstants.{VARIABLES};
ghost use Rattle.cf_syntax.specs.Text.{place_of, setup_variables};
ghost use Rattle.cf_script.specs.Views.{texts};

use cf_ids::{Seq, VarId};
use cf_syntax::Block;
use indexmap::IndexSet;
use std::alloc::{AllocError, Global};
use std::marker::Model;

/// The blocks that are ended, of which setup's is the first.
#[derive(Drop)]
pub(crate) struct Blocks {
    list: Vec<Block>,
    /// The names of setup's variables, so that one is found by one look-up.
    setup: IndexSet<Vec<u8>>,
}

impl Model for Blocks {
    ghost use Rattle.std.specs.Prelude.{◌≡◌, ◌≤◌, List, length};
    ghost use Rattle.cf_ids.specs.declared.limits.TheConstants.{VARIABLES};
    ghost use Rattle.cf_syntax.specs.declared.script.Block.{Block};
    ghost use Rattle.cf_syntax.specs.Text.{setup_variables};
    ghost use Rattle.cf_script.specs.Views.{texts};

    ghost Value = { List Block };

    ghost view = { λ b. b.list.items };

    ghost invariant = { λ b. (length b.setup.keys ≤ VARIABLES) × (texts b.setup.keys ≡ setup_variables b.list.items) };
}

impl Blocks {
    /// No block.
    pub fn new(alloc: Global) -> Blocks
        ensures { result ≡ [] }
    {
        Blocks {
            list: Vec::new(alloc),
            setup: IndexSet::new(alloc),
        }
    }

    /// How many they are.
    pub fn len(&self) -> usize
        ensures { result ≡ length self.now }
    {
        self.list.len()
    }

    /// The blocks.
    pub fn as_slice(&self) -> &[Block]
        ensures { result.now ≡ self.now }
    {
        self.list.as_slice()
    }

    /// The variable of setup with a name.
    pub fn setup_variable(&self, name: &[u8]) -> Option<VarId>
        ensures { result ≡ place_of (setup_variables self.now) name.now }
    {
        let place = self.setup.get_index_of(name)?;
        Some(VarId(place as u16))
    }

    /// A block more, with the names of its variables.
    pub fn push(&mut self, block: Block, variables: IndexSet<Vec<u8>>) -> Result<(), AllocError>
        requires few { length variables.keys ≤ VARIABLES }
        requires names { texts variables.keys ≡ block.variables }
        ensures { OnOk result (self.new ≡ self.old ++ block ∷ []) }
    {
        // With room for the block nothing fails after setup's names are there.
        self.list.reserve(1)?;
        if self.list.is_empty() {
            self.setup = variables;
        }
        self.list.push_reserved(block);
        Ok(())
    }

    /// The blocks. It takes no memory.
    pub fn into_seq(self) -> Seq<Block>
        ensures { result ≡ self }
    {
        let Blocks { list, .. } = self;
        Seq::from_vec(list)
    }
}
