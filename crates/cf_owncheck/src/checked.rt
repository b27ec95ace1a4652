//! Scripts that are owned.
ghost use Rattle.std.specs.Prelude.{◌≡◌};
ghost use Rattle.cf_syntax.specs.BlockLines.{thread_blocks, handler_blocks, statements_in};
ghost use Rattle.cf_syntax.specs.Owned.{owner_fault};
ghost use Rattle.cf_owncheck.specs.Judges.{Judges};

use crate::handlers::handlers_fault;
use crate::statements::statements_fault;
use crate::threads::threads_fault;
use cf_syntax::{Block, Counts, Refusal, Script};
use std::marker::Model;
use thiserror::Error;

/// Why a script was not accepted.
#[derive(Debug, Drop, Error)]
pub enum OwnFault {
    /// It is not owned: its first fault.
    #[error("the script is not owned")]
    Refused(Refusal),
    /// Memory ran out. It does not come: the check takes none.
    #[error("no memory")]
    NoMemory,
}

/// A script that is owned.
#[derive(Drop)]
pub struct Checked {
    script: Script,
}

impl Model for Checked {
    ghost use Rattle.cf_syntax.specs.declared.script.Script.{Script};
    ghost use Rattle.cf_syntax.specs.Owned.{Owned};

    ghost Value = { Script };

    ghost view = { λ c. c.script };

    ghost invariant = { λ c. Owned c.script };
}

impl Checked {
    ghost use Rattle.std.specs.Prelude.{◌≡◌};
    ghost use Rattle.cf_syntax.specs.Owned.{Owned};

    /// The script.
    pub fn script(&self) -> &Script
        ensures value { result.now ≡ self.now }
        ensures owned { Owned self.now }
    {
        &self.script
    }
}

/// The blocks of threads after setup, and those of handlers.
fn parts(script: &Script) -> (&[Block], &[Block])
    ensures threads { result.0.now ≡ thread_blocks script.now }
    ensures handlers { result.1.now ≡ handler_blocks script.now }
{
    let blocks = script.blocks();
    let count = script.threads().min(blocks.len());
    let (front, handlers) = blocks.split_at(count);
    match front {
        [] => (&[], handlers),
        [_, threads @ ..] => (threads, handlers),
    }
}

/// The first fault of a script.
fn owner_fault(script: &Script) -> Option<Refusal>
    ensures { result ≡ owner_fault script.now }
{
    let mut counts = Counts::new();
    if let Some(setup) = script.blocks().first() {
        let lines = setup.lines.as_slice();
        let statements = setup.statements.as_slice();
        if let Some(refusal) = statements_fault(script, &mut counts, lines, statements) {
            return Some(refusal);
        }
    }
    let (threads, handlers) = parts(script);
    if let Some(refusal) = threads_fault(script, &mut counts, threads) {
        return Some(refusal);
    }
    handlers_fault(script, handlers)
}

/// Whether a script is owned, in time that is linear in its words, and without memory.
pub fn check_owners(script: Script) -> Result<Checked, OwnFault>
    ensures { Judges result script }
{
    match owner_fault(&script) {
        Some(refusal) => Err(OwnFault::Refused(refusal)),
        None => Ok(Checked { script }),
    }
}
